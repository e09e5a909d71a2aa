//! The verdict on answers, and how many blocks can be agreed on.

ghost use Rattle.std.specs.Prelude.{◌≡◌, ◌≢◌, ◌+◌, ◌*◌, ◌^◌, ◌<◌, ◌≤◌, length, All, IfNone, IfOk, IfSome, OnOk};
ghost use Rattle.std.specs.List.Sorted.{IsStrictlyIncreasing};
ghost use Rattle.quantity_limits.specs.declared.TheConstants.{MOST_SERVERS};
ghost use Rattle.column_lists.specs.declared.TheConstants.{MOST_COST};
ghost use Rattle.column_lists.specs.Numbers.{cost};
ghost use Rattle.block_decoder.specs.Agreed.{answers_of, HasColumns};
ghost use Rattle.block_decoder.specs.Decoding.{counters};
ghost use Rattle.block_decoder.specs.Numbers.{bound_of, most_columns, most_nodes};
ghost use Rattle.block_decoder.specs.Report.{HasListedBlocks, IsReport};
ghost use Rattle.block_decoder.specs.Reported.{IsListedFrom};
ghost use Rattle.block_decoder.specs.Judging.{DecidesWith};
ghost use Rattle.block_decoder.specs.Vectors.{HeavyVectorsAreFew};
ghost use Rattle.block_decoder.specs.Verdict.{IsDecided, IsRefusal, IsUnlisted, ListsNoMoreThan, least_coefficients, least_columns};

use crate::agreements::Report;
use crate::answer_set::AnswerSet;
use crate::answers::PackedAnswers;
use crate::decoding::Decoding;
use crate::narrowing::Narrowing;
use crate::verdict::Verdict;
use column_lists::{MOST_COST, plan};
use interpolation::Interpolate;
use std::alloc::{AllocError, Global};
use std::sync::ledger::Ledger;
use uni_poly::steps::Steps;

/// What k answers say of the block that was asked for (Goldberg 2007): the blocks on which `h` of them or more
/// agree. Answers agree on a block where, in every column, they lie on one polynomial of degree at most `t`, and
/// the polynomials' constants are the block.
///
/// `indices` are the numbers of the servers that answered, ascending and none of them 0, and `bytes` their
/// payloads in the same order, `s` bytes each. The verdict is `TooFew` where k < `h`, else `TooWeak` where
/// `h * h <= k * t`, else `TooCostly` where the list decoding of a column takes more than
/// [`MOST_COST`](column_lists::MOST_COST) equations (Guruswami and Sudan 1999; [`plan`](column_lists::plan) has their
/// number), else `Listed`.
///
/// It decodes the block column by column. As long as all answers of a candidate lie on one polynomial, there is no
/// other way to go on. Where fewer than `h - t` of them are off one, there is none but that: the candidate loses those that
/// are off, and ends where fewer than `h` are left. Where none is so close, each polynomial on which `h` of them lie, by the
/// list decoding of Guruswami and Sudan (1999), is a candidate of its own, with the answers on it, which are fewer. `way`
/// interpolates for that. It calls itself to a depth of k - `h` + 1 at most. There are at most
/// [`MOST_SERVERS`](wire_frames::MOST_SERVERS) answers.
///
/// A step of `cols` is a column decoded for a candidate, and a step of `nodes` a coefficient that is fixed in looking
/// for the polynomials of such a list. Both are bounded also where memory runs out. `cols` rises by 1 at most for the
/// first column and by [`bound`] for each further one. `nodes` rises by `(t + 1) * (d / t)` at most for each list,
/// where d is the degree of [`plan`](column_lists::plan), and there are no more lists than columns are decoded. However
/// wide the block is, there are no more than the sum of `bound(k, t, a)` over a = h + w, h + 2w and so on up to k, where w
/// is [`least_misses`](column_runs::least_misses), the lesser of `h - t` and `h / (t + 1)`. For a list is made only where
/// h + w answers or more are left and each polynomial misses w of them or more: along one way lists are made at numbers of
/// answers that lie w apart, and of candidates with a to a + w - 1 answers any two have parted, so that they share at most
/// `t`, and there are at most `bound(k, t, a)` (Johnson 1962). This count of lists is the decoder's own, and never more than
/// [`bound`] times k - `h` + 1 (`pir_tool::verdict_laws::lists_are_few`).
///
/// `cols` rises by at least one for a listing, and by `s` where a block is listed. `nodes` rises by at least `t + 1` where
/// several blocks are listed, since their answers part in a list. For the other verdicts neither rises. A listing has at most
/// [`bound`] blocks.
///
/// The payloads are read where they lie. Memory is taken for one block, for the places of all answers and of those of each
/// candidate, for the list that it comes from, and for the blocks that are listed; none column by column.
///
/// The answers 1, 2, 3 with the payloads `cfd2`, `4073`, `cce5` (t 1, h 3, s 2) agree on the block `4344`.
///
/// # Errors
///
/// `AllocError` where there is no memory for one of these.
pub fn decide<I: Interpolate, C: Ledger, N: Ledger>(
    alloc: Global,
    way: &I,
    indices: &[u8],
    bytes: &[u8],
    t: u32,
    h: u32,
    s: u32,
    cols: &mut Steps<C>,
    nodes: &mut Steps<N>,
) -> Result<Verdict, AllocError>
    requires ascending { IsStrictlyIncreasing indices.now }
    requires nonzero { All (λ a. a ≢ 0) indices.now }
    requires few { length indices.now ≤ MOST_SERVERS }
    requires agreement { (1 ≤ t) × (t < h) }
    requires width { 1 ≤ s }
    requires fit { length bytes.now ≡ length indices.now * s }
    ensures verdict { IfOk result (IsDecided (answers_of s indices.now bytes.now) s t h) }
    ensures cols { cols.new ≤ cols.old + most_columns (length indices.now) t h s }
    ensures nodes { nodes.new ≤ nodes.old + most_nodes (length indices.now) t h s }
    ensures least { cols.old ≤ cols.new }
    ensures least_nodes { nodes.old ≤ nodes.new }
    ensures listed { IfOk result (λ verdict. cols.old + least_columns s verdict ≤ cols.new) }
    ensures several { IfOk result (λ verdict. nodes.old + least_coefficients t verdict ≤ nodes.new) }
    ensures unlisted { IsUnlisted (length indices.now) t h → (cols.new ≡ cols.old) × (nodes.new ≡ nodes.old) }
    ensures few { IfOk result (ListsNoMoreThan (bound_of (length indices.now) t h)) }
{
    let answers = PackedAnswers::new(indices, bytes, s as usize).to_set(alloc)?;
    let decoding = Decoding {
        answers,
        width: s as usize,
        degree: t,
        agreement: h,
    };
    let (verdict, _report) = decide_among(alloc, way, decoding, false, cols, nodes)?;
    Ok(verdict)
}

/// Who agrees: the blocks on which `h` answers or more agree (Goldberg 2007), each with all answers that agree on it. The
/// answers and the numbers are as for [`decide`], and such that its verdict is a listing.
///
/// Each vector of polynomials of degree at most `t`, one for each column, that holds at `h` answers or more makes one
/// agreement: on the block of its constants, of the servers at whose answers it holds. So a block on which answers agree
/// by several vectors has an agreement for each. They come in ascending order, by their blocks and then by their
/// servers. There are at most [`bound`].
///
/// It is what `decide` finds on its way to the listing: the steps are the same, and so is the memory, but for the listing.
///
/// The answers 1, 2, 3 with the payloads `cfd2`, `4073`, `cce5` (t 1, h 3, s 2) agree on the block `4344`.
///
/// # Errors
///
/// `AllocError` where there is no memory for the places of answers, for a list of polynomials or for the agreements.
pub fn report<I: Interpolate, C: Ledger, N: Ledger>(
    alloc: Global,
    way: &I,
    indices: &[u8],
    bytes: &[u8],
    t: u32,
    h: u32,
    s: u32,
    cols: &mut Steps<C>,
    nodes: &mut Steps<N>,
) -> Result<Report, AllocError>
    requires ascending { IsStrictlyIncreasing indices.now }
    requires nonzero { All (λ a. a ≢ 0) indices.now }
    requires few { length indices.now ≤ MOST_SERVERS }
    requires agreement { (1 ≤ t) × (t < h) }
    requires width { 1 ≤ s }
    requires fit { length bytes.now ≡ length indices.now * s }
    requires enough { h ≤ length indices.now }
    requires strong { length indices.now * t < h * h }
    requires cheap { cost (length indices.now) t h ≤ MOST_COST }
    ensures report { IfOk result (IsReport (answers_of s indices.now bytes.now) s t h) }
    ensures blocks { IfOk result (HasListedBlocks (answers_of s indices.now bytes.now) s t h) }
    ensures cols { cols.new ≤ cols.old + most_columns (length indices.now) t h s }
    ensures nodes { nodes.new ≤ nodes.old + most_nodes (length indices.now) t h s }
    ensures least { cols.old ≤ cols.new }
    ensures least_nodes { nodes.old ≤ nodes.new }
    ensures tried { OnOk result (cols.old < cols.new) }
    ensures found { IfOk result (λ report. 0 < length report → cols.old + s ≤ cols.new) }
    ensures several { IfOk result (λ report. 1 < length report → nodes.old + (t + 1) ≤ nodes.new) }
    ensures few { IfOk result (λ report. length report ≤ bound_of (length indices.now) t h) }
{
    let answers = PackedAnswers::new(indices, bytes, s as usize).to_set(alloc)?;
    let decoding = Decoding {
        answers,
        width: s as usize,
        degree: t,
        agreement: h,
    };
    let narrowing = Narrowing {
        alloc,
        way,
        decoding,
    };
    narrowing.find_agreements(cols, nodes)
}

/// The verdict on answers that lie wherever they do; and, where it is wanted and a listing, who agrees.
pub(crate) fn decide_among<I: Interpolate, C: Ledger, N: Ledger>(
    alloc: Global,
    way: &I,
    decoding: Decoding<'_>,
    wanted: bool,
    cols: &mut Steps<C>,
    nodes: &mut Steps<N>,
) -> Result<(Verdict, Option<Report>), AllocError>
    requires columns { HasColumns decoding.width decoding.answers }
    requires nonzero { All (λ a. a.index ≢ 0) decoding.answers }
    requires few { length decoding.answers ≤ MOST_SERVERS }
    requires agreement { (1 ≤ decoding.degree) × (decoding.degree < decoding.agreement) }
    requires width { 1 ≤ decoding.width }
    ensures { DecidesWith wanted decoding.entry result
        (counters cols.old nodes.old) (counters cols.new nodes.new) }
{
    let k = decoding.answers.len() as u32;
    if let Some(verdict) = refusal(k, decoding.degree, decoding.agreement) {
        return Ok((verdict, None));
    }
    let narrowing = Narrowing {
        alloc,
        way,
        decoding,
    };
    let report = narrowing.find_agreements(cols, nodes)?;
    listed(alloc, report, wanted)
}

/// The verdict on `k` answers where nothing is listed, whatever they are.
fn refusal(k: u32, t: u32, h: u32) -> Option<Verdict>
    requires few { k ≤ MOST_SERVERS }
    requires agreement { (1 ≤ t) × (t < h) }
    ensures refused { IfSome result (IsRefusal k t h) }
    ensures listed { IfNone result ((h ≤ k) × (k * t < h * h) × (cost k t h ≤ MOST_COST)) }
{
    if k < h {
        return Some(Verdict::TooFew { k, h });
    }
    if h * h <= k * t {
        return Some(Verdict::TooWeak { k, t, h });
    }
    let cost = plan(k, t, h).cost;
    if cost > MOST_COST {
        return Some(Verdict::TooCostly { cost });
    }
    None
}

/// The listing of what was found, and the report itself where it is wanted; else no block is copied.
fn listed(
    alloc: Global,
    report: Report,
    wanted: bool,
) -> Result<(Verdict, Option<Report>), AllocError>
    ensures { IfOk result (IsListedFrom wanted report) }
{
    if wanted {
        let listing = report.to_listing(alloc)?;
        return Ok((Verdict::Listed(listing), Some(report)));
    }
    let listing = report.into_listing(alloc)?;
    Ok((Verdict::Listed(listing), None))
}

/// Johnson's count (Johnson 1962) of the blocks on which `h` of `k` answers can agree, with polynomials of degree at
/// most `t`: `k * (h - t)` over `h * h - k * t`, rounded down. There are at most
/// [`MOST_SERVERS`](wire_frames::MOST_SERVERS) answers, since the number of a server is a byte and not 0. On any `k`
/// answers, no two of one server, no more than so many different vectors of polynomials, one for each of the same
/// columns, hold at `h` answers; so no listing is longer. With k 5, t 1, h 3 it is 2.
pub fn bound(k: u32, t: u32, h: u32) -> u32
    requires degree { (1 ≤ t) × (t < h) }
    requires agreement { (h ≤ k) × (k ≤ MOST_SERVERS) }
    requires close { k * t < h * h }
    ensures value { result ≡ bound_of k t h }
    ensures most { HeavyVectorsAreFew k t h result }
{
    k * (h - t) / (h * h - k * t)
}
