//! The verdict on a session.

ghost use Rattle.std.specs.Prelude.{◌≡◌, ◌≢◌, ◌+◌, ◌≤◌, length, All, IfOk};
ghost use Rattle.wire_frames.specs.Answer.{answers, block_len};
ghost use Rattle.block_decoder.specs.Agreed.{HasColumns};
ghost use Rattle.block_decoder.specs.Decoding.{counters};
ghost use Rattle.block_decoder.specs.Reported.{IsReportOn};
ghost use Rattle.block_decoder.specs.Judging.{session_columns, session_least, session_nodes, FixesListed, IsShamirSession, IsUnlistedSession, IsXorSession, JudgesWith, ListsFew, ReportsFew};
ghost use Rattle.block_decoder.specs.Verdict.{IsVerdict};

use crate::agreements::Report;
use crate::answer_set::AnswerSet;
use crate::answers::Answer;
use crate::combining::combine_all;
use crate::decoder::decide_among;
use crate::decoding::Decoding;
use crate::usable::usable_payload;
use crate::verdict::Verdict;
use interpolation::Interpolate;
use std::alloc::{AllocError, Global};
use std::sync::ledger::Ledger;
use uni_poly::steps::Steps;
use wire_frames::{Scheme, Session};

/// What the usable answers of a session say of the block that was asked for. All `n` records were pushed; a record that
/// is absent, or no usable answer to the query of its own server, counts for nothing.
///
/// In Shamir's scheme it is what [`decide`] has for the session's numbers, and `cols` and `nodes` count as they do
/// there. In the XOR scheme (Chor, Goldreich, Kushilevitz and Sudan 1995), where all `n` have to answer, the verdict
/// is `TooFew` where one answer or more is missing, else `Listed` with the XOR of all payloads as its one block: the
/// payloads `4142` and `0206` give `4344`. No step is taken there, and a wrong answer isn't noticed.
///
/// # Errors
///
/// `AllocError` where there is no memory for the places of the payloads, which aren't copied, for the decoder or for a
/// block; in the XOR scheme for the block.
pub fn judge<I: Interpolate, C: Ledger, N: Ledger>(
    alloc: Global,
    way: &I,
    session: &Session,
    cols: &mut Steps<C>,
    nodes: &mut Steps<N>,
) -> Result<Verdict, AllocError>
    requires all { length session.now.records ≡ session.now.params.n }
    ensures verdict { IfOk result (IsVerdict session.now) }
    ensures cols { cols.new ≤ cols.old + session_columns session.now }
    ensures nodes { nodes.new ≤ nodes.old + session_nodes session.now }
    ensures least { cols.old ≤ cols.new }
    ensures least_nodes { nodes.old ≤ nodes.new }
    ensures listed { IsShamirSession session.now
        → IfOk result (λ verdict. cols.old + session_least session.now verdict ≤ cols.new) }
    ensures several { IfOk result (FixesListed session.now nodes.old nodes.new) }
    ensures unlisted { IsUnlistedSession session.now → (cols.new ≡ cols.old) × (nodes.new ≡ nodes.old) }
    ensures few { IsShamirSession session.now → IfOk result (ListsFew session.now) }
    ensures xor { IsXorSession session.now → (cols.new ≡ cols.old) × (nodes.new ≡ nodes.old) }
{
    let (verdict, _report) = judge_with(alloc, way, session, false, cols, nodes)?;
    Ok(verdict)
}

/// The same verdict as that of [`judge`], and beside a listing of Shamir's scheme who agrees, as [`report`](crate::report)
/// has it for the session's usable answers. It is what is found on the way to the listing, so the steps are the same.
/// Beside another verdict, and in the XOR scheme, there is no report.
///
/// # Errors
///
/// As [`judge`], and where there is no memory for the listed blocks once more.
pub fn judge_report<I: Interpolate, C: Ledger, N: Ledger>(
    alloc: Global,
    way: &I,
    session: &Session,
    cols: &mut Steps<C>,
    nodes: &mut Steps<N>,
) -> Result<(Verdict, Option<Report>), AllocError>
    requires all { length session.now.records ≡ session.now.params.n }
    ensures verdict { IfOk result (λ found. IsVerdict session.now found.0) }
    ensures report { IfOk result (λ found. IsReportOn session.now found.0 found.1) }
    ensures cols { cols.new ≤ cols.old + session_columns session.now }
    ensures nodes { nodes.new ≤ nodes.old + session_nodes session.now }
    ensures least { cols.old ≤ cols.new }
    ensures least_nodes { nodes.old ≤ nodes.new }
    ensures listed { IsShamirSession session.now
        → IfOk result (λ found. cols.old + session_least session.now found.0 ≤ cols.new) }
    ensures several { IfOk result (λ found. FixesListed session.now nodes.old nodes.new found.0) }
    ensures unlisted { IsUnlistedSession session.now → (cols.new ≡ cols.old) × (nodes.new ≡ nodes.old) }
    ensures few { IsShamirSession session.now → IfOk result (λ found. ListsFew session.now found.0) }
    ensures few_agree { IsShamirSession session.now
        → IfOk result (λ found. ReportsFew session.now found.1) }
    ensures xor { IsXorSession session.now → (cols.new ≡ cols.old) × (nodes.new ≡ nodes.old) }
{
    judge_with(alloc, way, session, true, cols, nodes)
}

/// The same verdict as that of [`judge`], and beside it, where it is `wanted`, the report of [`judge_report`]; where it isn't
/// wanted, there is none, and no block is copied for it. The steps are those of [`judge`].
///
/// # Errors
///
/// As [`judge`], or as [`judge_report`] where the report is wanted.
pub fn judge_with<I: Interpolate, C: Ledger, N: Ledger>(
    alloc: Global,
    way: &I,
    session: &Session,
    wanted: bool,
    cols: &mut Steps<C>,
    nodes: &mut Steps<N>,
) -> Result<(Verdict, Option<Report>), AllocError>
    requires all { length session.now.records ≡ session.now.params.n }
    ensures { JudgesWith wanted session.now result (counters cols.old nodes.old) (counters cols.new nodes.new) }
{
    let params = session.params();
    match params.scheme() {
        Scheme::Shamir => {
            let usable = usable_answers(alloc, session)?;
            let decoding = Decoding {
                answers: usable,
                width: params.block_len() as usize,
                degree: u32::from(params.t),
                agreement: u32::from(params.h),
            };
            decide_among(alloc, way, decoding, wanted, cols, nodes)
        }
        Scheme::Xor => Ok((combine_all(alloc, session)?, None)),
    }
}

/// The usable answers, whose payloads stay where the session has them.
fn usable_answers<'a>(alloc: Global, session: &'a Session) -> Result<AnswerSet<'a>, AllocError>
    requires all { length session.now.records ≡ session.now.params.n }
    ensures answers { IfOk result (λ set. set ≡ answers session.now) }
    ensures columns { IfOk result (HasColumns (block_len session.now.params)) }
    ensures nonzero { IfOk result (λ set. All (λ a. a.index ≢ 0) set) }
    ensures few { IfOk result (λ set. length set ≤ session.now.params.n) }
{
    let mut usable = AnswerSet::with_room(alloc, session.record_count() as usize)?;
    for place in 0..session.params().n {
        let index = place + 1;
        if let Some(payload) = usable_payload(session, index) {
            usable.push(Answer::new(index, payload))?;
        }
    }
    Ok(usable)
}
