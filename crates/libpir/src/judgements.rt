//! What the answers agree on.

ghost use Rattle.std.specs.Prelude.{◌≡◌};
ghost use Rattle.client_calls.specs.Judging.{question};
ghost use Rattle.libpir.specs.Judgements.{AnswersJudgement, TellsListing, TellsVerdict, listed_code, told};

use crate::code::Code;
use crate::numbers::{VerdictNumbers, listed_numbers, no_numbers};
use block_decoder::{Listing, Verdict};
use client_calls::{Answers, PlanNumbers, Refusal, judge_answers, write_listing};
use std::alloc::Global;

/// The code of a listing that is written.
pub(crate) fn listed_code(listing: &Listing) -> Code
    ensures { result ≡ listed_code listing.now }
{
    match listing.len() {
        0 => Code::NoBlock,
        1 => Code::Done,
        _ => Code::Several,
    }
}

/// Writes the blocks of a listing, and its numbers; the code says how many there are, or why they aren't written.
fn tell_listing(listing: &Listing, out: &mut [u8], numbers: &mut VerdictNumbers) -> i32
    ensures { TellsListing listing.now out.old out.new numbers.old numbers.new result }
{
    match write_listing(listing, out) {
        Ok(needed) => {
            *numbers = listed_numbers(listing, needed);
            listed_code(listing).number()
        }
        Err(refusal) => {
            if let Refusal::Room { wanted } = refusal {
                *numbers = listed_numbers(listing, wanted);
            }
            Code::of_refusal(refusal).number()
        }
    }
}

/// Writes what a verdict says: its blocks, its numbers, and its code.
pub(crate) fn tell_verdict(verdict: &Verdict, out: &mut [u8], numbers: &mut VerdictNumbers) -> i32
    ensures { TellsVerdict verdict.now out.old out.new numbers.old numbers.new result }
{
    match verdict {
        Verdict::Listed(listing) => tell_listing(listing, out, numbers),
        Verdict::TooFew { k, h } => {
            let (answers, agreement) = (u64::from(*k), u64::from(*h));
            *numbers = VerdictNumbers {
                answers,
                agreement,
                ..no_numbers()
            };
            Code::FewAnswers.number()
        }
        Verdict::TooWeak { k, t, h } => {
            let (answers, degree, agreement) = (u64::from(*k), u64::from(*t), u64::from(*h));
            *numbers = VerdictNumbers {
                answers,
                degree,
                agreement,
                ..no_numbers()
            };
            Code::WeakAgreement.number()
        }
        Verdict::TooCostly { cost } => {
            *numbers = VerdictNumbers {
                cost: *cost,
                ..no_numbers()
            };
            Code::HighCost.number()
        }
    }
}

/// Judges the answers of all servers, one behind another, each of the length that stands in `lengths` at its place;
/// where `present` has a 0, the server was silent. The listed blocks go to the front of `out`, one behind another.
#[unsafe(no_mangle)]
pub extern "C" fn pir_judge(
    alloc: Global,
    plan: &PlanNumbers,
    blocks: usize,
    session: u64,
    answers: &[u8],
    lengths: &[usize],
    present: &[u8],
    out: &mut [u8],
    numbers: &mut VerdictNumbers,
) -> i32
    ensures { AnswersJudgement (question plan.now blocks session (told answers.now lengths.now present.now))
        out.old out.new numbers.old numbers.new result }
{
    let told = Answers {
        bytes: answers,
        lengths,
        marks: present,
    };
    match judge_answers(alloc, plan, blocks, session, &told) {
        Ok(verdict) => tell_verdict(&verdict, out, numbers),
        Err(refusal) => Code::of_refusal(refusal).number(),
    }
}
