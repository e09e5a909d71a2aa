//! The verdict on a recorded session, in words.

ghost use Rattle.std.specs.Prelude.{◌≡◌};
ghost use Rattle.libpir.specs.Replays.{AnswersReplay, verdict_code};

use crate::code::Code;
use crate::judgements::listed_code;
use block_decoder::Verdict;
use client_calls::{ReplayRefusal, replay_session};
use std::alloc::Global;

/// The code of a verdict.
fn verdict_code(verdict: &Verdict) -> Code
    ensures { result ≡ verdict_code verdict.now }
{
    match verdict {
        Verdict::Listed(listing) => listed_code(listing),
        Verdict::TooFew { .. } => Code::FewAnswers,
        Verdict::TooWeak { .. } => Code::WeakAgreement,
        Verdict::TooCostly { .. } => Code::HighCost,
    }
}

/// Judges a recorded session: writes the text of its verdict at the front of `out`, and its length into `used`, also
/// where `out` is too short for it. Where the bytes are no session, `used` gets the length of their longest prefix that
/// begins one.
#[unsafe(no_mangle)]
pub extern "C" fn pir_replay(alloc: Global, session: &[u8], out: &mut [u8], used: &mut usize) -> i32
    ensures { AnswersReplay session.now out.old out.new used.old used.new result }
{
    match replay_session(alloc, session, out) {
        Ok((verdict, size)) => {
            *used = size;
            verdict_code(&verdict).number()
        }
        Err(ReplayRefusal::BadSession { place }) => {
            *used = place as usize;
            Code::BadSession.number()
        }
        Err(ReplayRefusal::Room { wanted }) => {
            *used = wanted;
            Code::SmallRoom.number()
        }
        Err(ReplayRefusal::Memory) => Code::NoMemory.number(),
    }
}
