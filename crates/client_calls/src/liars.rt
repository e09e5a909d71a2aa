//! Which servers lied.

ghost use Rattle.std.specs.Prelude.{IsTrue, ◌↔◌, ◌≡◌, ◌+◌, ◌*◌, ◌<◌, ◌≤◌, length, IfOk, OnErr};
ghost use Rattle.std.specs.Option.{option_copied};
ghost use Rattle.wire_frames.specs.Answer.{answers as usable_answers};
ghost use Rattle.block_decoder.specs.Reported.{IsReportOn};
ghost use Rattle.block_decoder.specs.Usable.{payload_of};
ghost use Rattle.block_decoder.specs.Verdict.{IsVerdict};
ghost use Rattle.client_calls.specs.Answers.{given};
ghost use Rattle.client_calls.specs.Judging.{question};
ghost use Rattle.client_calls.specs.Liars.{IsStanding, JudgesBy, LiarsTold, TellsLiars, TellsStandings};

use crate::answers::Answers;
use crate::asking::asking_for;
use crate::judging::session_of;
use crate::numbers::PlanNumbers;
use crate::refusal::Refusal;
use block_decoder::{Report, Verdict, judge_report};
use gs_interpolate::Koetter;
use std::alloc::{AllocError, Global};
use std::marker::Brand;
use std::sync::ledger::{Blank, Ledger};
use uni_poly::steps::Steps;
use wire_frames::{Session, usable_answer};

/// Of a server that was silent, or whose answer isn't usable.
pub const UNUSABLE: u8 = 0;

/// Of a server whose answer agrees.
pub const AGREES: u8 = 1;

/// Of a server whose usable answer doesn't.
pub const LIED: u8 = 2;

/// The payload of the answer of a server, where it is usable.
fn usable_payload(session: &Session, index: u8) -> Option<&[u8]>
    requires first { 1 ≤ index }
    requires last { index ≤ length session.now.records }
    ensures { option_copied result ≡ payload_of session.now index }
{
    let bytes = session.record_at(u32::from(index))?;
    usable_answer(bytes, &session.params().asked(index))
}

/// How many answers of the session are usable.
fn usable_count(session: &Session) -> u32
    ensures count { result ≡ length (usable_answers session.now) }
    ensures few { result ≤ session.now.params.n }
{
    let mut count = 0;
    session.params();
    for place in 0..session.record_count() {
        if let Some(_payload) = usable_payload(session, (place + 1) as u8) {
            count += 1;
        }
    }
    count
}

/// Whether no two blocks can have so many answers that agree.
fn is_close(session: &Session) -> bool
    ensures { IsTrue result
        ↔ (length (usable_answers session.now) + session.now.params.t < 2 * session.now.params.h) }
{
    let params = session.params();
    usable_count(session) + u32::from(params.t) < 2 * u32::from(params.h)
}

/// What is said of a server, where those with these indices agree.
fn standing(session: &Session, indices: &[u8], index: u8) -> u8
    requires first { 1 ≤ index }
    requires last { index ≤ length session.now.records }
    ensures { IsStanding indices.now index (payload_of session.now index) result }
{
    match usable_payload(session, index) {
        Some(_payload) => {
            if indices.contains(&index) {
                AGREES
            } else {
                LIED
            }
        }
        None => UNUSABLE,
    }
}

/// Writes what is said of each server, where those with these indices agree.
fn write_standings(session: &Session, indices: &[u8], who: &mut [u8])
    requires all { length session.now.records ≡ session.now.params.n }
    requires room { length who.old ≡ session.now.params.n }
    ensures { TellsStandings session.now indices.now who.new }
{
    for place in 0..session.n() {
        who[usize::from(place)] = standing(session, indices, place + 1);
    }
}

/// Writes what is said of each server, where the report has one agreement, of so many answers that there can be no
/// other.
fn tell_liars(session: &Session, report: &Option<Report>, who: &mut [u8])
    requires all { length session.now.records ≡ session.now.params.n }
    requires room { length who.old ≡ session.now.params.n }
    ensures { TellsLiars session.now report.now who.old who.new }
{
    let Some(report) = report else {
        return;
    };
    let agreements = report.agreements();
    if agreements.len() == 1 && is_close(session) {
        write_standings(session, agreements[0].indices(), who);
    }
}

/// The verdict on a session and the report beside it, with counters of columns and of nodes that nobody reads, made of
/// the blanks.
fn report_uncounted<C: Ledger, N: Ledger>(
    alloc: Global,
    cols: Blank,
    nodes: Blank,
    session: &Session,
) -> Result<(Verdict, Option<Report>), AllocError>
    requires cols { (cols.name ≡ C.name) × (cols.parts ≡ C.parts) × (0 < cols.parts) }
    requires nodes { (nodes.name ≡ N.name) × (nodes.parts ≡ N.parts) × (0 < nodes.parts) }
    requires all { length session.now.records ≡ session.now.params.n }
    ensures verdict { IfOk result (λ found. IsVerdict session.now found.0) }
    ensures report { IfOk result (λ found. IsReportOn session.now found.0 found.1) }
{
    let mut cols: Steps<C> = Steps::new(cols);
    let mut nodes: Steps<N> = Steps::new(nodes);
    judge_report(alloc, &Koetter, session, &mut cols, &mut nodes)
}

/// The verdict on a session, and what is said of each server.
fn judge_session(alloc: Global, session: &Session, who: &mut [u8]) -> Result<Verdict, AllocError>
    requires all { length session.now.records ≡ session.now.params.n }
    requires room { length who.old ≡ session.now.params.n }
    ensures verdict { IfOk result (IsVerdict session.now) }
    ensures told { IfOk result (λ verdict. LiarsTold session.now verdict who.old who.new) }
    ensures kept { OnErr result (who.new ≡ who.old) }
{
    let (cols, nodes) = (Blank::new(1), Blank::new(1));
    let (verdict, report) = report_uncounted::<Brand, Brand>(alloc, cols, nodes, session)?;
    tell_liars(session, &report, who);
    Ok(verdict)
}

/// The verdict of [`judge_answers`](crate::judge_answers), and beside it, where it is one block and `2h > k + t` for
/// the k usable answers, what is said of each server in the byte of `who` at its place: [`UNUSABLE`], [`AGREES`] or
/// [`LIED`]. Elsewhere, as in the XOR scheme, `who` is as it was.
///
/// # Errors
///
/// As `judge_answers`; `Answers` also where `who` hasn't a byte for each server and no more. Then `who` is as it was.
pub fn judge_liars(
    alloc: Global,
    numbers: &PlanNumbers,
    count: usize,
    number: u64,
    answers: &Answers,
    who: &mut [u8],
) -> Result<Verdict, Refusal>
    ensures { JudgesBy (question numbers.now count number (given answers.now)) result who.old who.new }
{
    let asking = asking_for(numbers, count)?;
    if !answers.are_of(asking.plan.n) || who.len() != usize::from(asking.plan.n) {
        return Err(Refusal::Answers);
    }
    let session = session_of(alloc, &asking, number, answers)?;
    Ok(judge_session(alloc, &session, who)?)
}
