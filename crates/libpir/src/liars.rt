//! Which servers lied.

ghost use Rattle.client_calls.specs.Judging.{question};
ghost use Rattle.libpir.specs.Judgements.{told};
ghost use Rattle.libpir.specs.Liars.{AnswersLiars, places};

use crate::code::Code;
use crate::judgements::tell_verdict;
use crate::numbers::VerdictNumbers;
use client_calls::{Answers, PlanNumbers, judge_liars};
use std::alloc::Global;

/// Judges as `pir_judge`, and where one block is listed and `2h > k + t`, for the k usable answers, writes of each
/// server into the byte of `who` at its place: 0 where it was silent or its answer isn't usable, 1 where it agrees, 2
/// where it lied.
#[unsafe(no_mangle)]
pub extern "C" fn pir_liars(
    alloc: Global,
    plan: &PlanNumbers,
    blocks: usize,
    session: u64,
    answers: &[u8],
    lengths: &[usize],
    present: &[u8],
    out: &mut [u8],
    who: &mut [u8],
    numbers: &mut VerdictNumbers,
) -> i32
    ensures { AnswersLiars (question plan.now blocks session (told answers.now lengths.now present.now))
        (places out.old who.old numbers.old) (places out.new who.new numbers.new) result }
{
    let told = Answers {
        bytes: answers,
        lengths,
        marks: present,
    };
    match judge_liars(alloc, plan, blocks, session, &told, who) {
        Ok(verdict) => tell_verdict(&verdict, out, numbers),
        Err(refusal) => Code::of_refusal(refusal).number(),
    }
}
