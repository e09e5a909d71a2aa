//! The verdict on what the servers answered.

ghost use Rattle.std.specs.Prelude.{◌≡◌, ◌<◌, ◌^◌, length, IfOk};
ghost use Rattle.block_decoder.specs.Verdict.{IsVerdict};
ghost use Rattle.client_calls.specs.Answers.{AreAnswers, given};
ghost use Rattle.client_calls.specs.Asking.{IsAsking};
ghost use Rattle.client_calls.specs.Judging.{JudgesAnswers, question, session_for};

use crate::answers::Answers;
use crate::asking::{Asking, asking_for};
use crate::numbers::PlanNumbers;
use crate::refusal::Refusal;
use block_decoder::{Verdict, judge};
use gs_interpolate::Koetter;
use std::alloc::{AllocError, Global};
use std::marker::Brand;
use std::sync::ledger::{Blank, Ledger};
use uni_poly::steps::Steps;
use wire_frames::Session;

/// The session with this number, in which the servers answered so.
pub(crate) fn session_of(
    alloc: Global,
    asking: &Asking,
    number: u64,
    answers: &Answers,
) -> Result<Session, AllocError>
    requires asking { IsAsking asking.now }
    requires answers { AreAnswers asking.now.plan.n (given answers.now) }
    ensures session { IfOk result (λ s.
        s ≡ session_for asking.now.plan asking.now.count number (given answers.now)) }
    ensures all { IfOk result (λ s. length s.records ≡ s.params.n) }
{
    let mut session = Session::new(alloc, asking.params(number))?;
    answers.add_records(&mut session, asking.answer_len());
    Ok(session)
}

/// The verdict on a session, with counters of columns and of nodes that nobody reads, made of the blanks.
fn judge_uncounted<C: Ledger, N: Ledger>(
    alloc: Global,
    cols: Blank,
    nodes: Blank,
    session: &Session,
) -> Result<Verdict, AllocError>
    requires cols { (cols.name ≡ C.name) × (cols.parts ≡ C.parts) × (0 < cols.parts) }
    requires nodes { (nodes.name ≡ N.name) × (nodes.parts ≡ N.parts) × (0 < nodes.parts) }
    requires all { length session.now.records ≡ session.now.params.n }
    ensures { IfOk result (IsVerdict session.now) }
{
    let mut cols: Steps<C> = Steps::new(cols);
    let mut nodes: Steps<N> = Steps::new(nodes);
    judge(alloc, &Koetter, session, &mut cols, &mut nodes)
}

/// The verdict on a session.
pub(crate) fn verdict_on(alloc: Global, session: &Session) -> Result<Verdict, AllocError>
    requires all { length session.now.records ≡ session.now.params.n }
    ensures { IfOk result (IsVerdict session.now) }
{
    let (cols, nodes) = (Blank::new(1), Blank::new(1));
    judge_uncounted::<Brand, Brand>(alloc, cols, nodes, session)
}

/// The verdict on the answers of all servers to the queries for so many blocks, in the session with this number, which
/// is that of the first eight coins. Of an answer that is longer than a whole one counts the prefix that is as long.
///
/// # Errors
///
/// `Plan` exactly where the numbers are those of no plan; else `Blocks` exactly where so many aren't asked for at once;
/// else `Answers` exactly where there isn't a length and a mark for each server, or the lengths don't add up; `Memory`
/// for want of memory.
pub fn judge_answers(
    alloc: Global,
    numbers: &PlanNumbers,
    count: usize,
    number: u64,
    answers: &Answers,
) -> Result<Verdict, Refusal>
    ensures { JudgesAnswers (question numbers.now count number (given answers.now)) result }
{
    let asking = asking_for(numbers, count)?;
    if !answers.are_of(asking.plan.n) {
        return Err(Refusal::Answers);
    }
    let session = session_of(alloc, &asking, number, answers)?;
    Ok(verdict_on(alloc, &session)?)
}
