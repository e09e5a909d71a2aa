//! Narrows the answers to those that agree, column by column.

ghost use Rattle.std.specs.Prelude.{◌≡◌, ◌≢◌, ◌+◌, ◌*◌, ◌<◌, ◌≤◌, ◌⊎◌, [], ◌∷◌, ◌++◌, length, take, drop, slice_index, All, AllPairs, IfOk, OnOk, MatchResult};
ghost use Rattle.std.specs.List.{filter};
ghost use Rattle.std.specs.List.Sorted.{IsStrictlySortedBy};
ghost use Rattle.column_runs.specs.Rows.{lists_of};
ghost use Rattle.quantity_limits.specs.declared.TheConstants.{MOST_SERVERS};
ghost use Rattle.block_decoder.specs.Agreed.{HasColumns};
ghost use Rattle.block_decoder.specs.Decoding.{counters, most_columns_of, most_nodes_of, IsReportOf};
ghost use Rattle.block_decoder.specs.Narrowing.{holds_at, points_of as points_in, nodes_at, progress, AreFarIn, CanBeListed, Fixes, Grew, HaveCounted, HaveExtended, HaveParted, IsCandidateOf, IsCheap, IsCounted, IsExtended, IsRunOf, IsStrong, ListsIn};
ghost use Rattle.block_decoder.specs.Report.{agreement_cmp};

use crate::agreements::Report;
use crate::answer_set::AnswerSet;
use crate::candidate::{Candidate, Parting};
use crate::decoding::Decoding;
use column_lists::{Columns, close_list, column_list, decode_run};
use interpolation::Interpolate;
use std::alloc::{AllocError, Global};
use std::sync::ledger::Ledger;
use uni_poly::steps::Steps;

/// Narrows the answers of a decoding that has enough of them, and in which the list decoding of a column is not too costly.
/// `way` interpolates.
#[derive(Drop)]
pub struct Narrowing<'a, I: Interpolate> {
    pub alloc: Global,
    pub way: &'a I,
    pub decoding: Decoding<'a>,
    ghost columns: { HasColumns decoding.width decoding.answers },
    ghost some: { 0 < decoding.width },
    ghost enough: { decoding.agreement ≤ length decoding.answers },
    ghost listed: { CanBeListed decoding.answers decoding.degree decoding.agreement },
}

impl<'a, I: Interpolate> Narrowing<'a, I> {
    /// The blocks on which enough of the answers agree, and which answers they are.
    pub fn find_agreements<C: Ledger, N: Ledger>(
        &self,
        cols: &mut Steps<C>,
        nodes: &mut Steps<N>,
    ) -> Result<Report, AllocError>
        ensures report { IfOk result (IsReportOf self.now.decoding) }
        ensures cols { cols.new ≤ cols.old + most_columns_of self.now.decoding }
        ensures nodes { nodes.new ≤ nodes.old + most_nodes_of self.now.decoding }
        ensures least { (cols.old ≤ cols.new) × (nodes.old ≤ nodes.new) }
        ensures tried { OnOk result (cols.old < cols.new) }
        ensures found { IfOk result (λ r. 0 < length r → cols.old + self.now.decoding.width ≤ cols.new) }
        ensures several { IfOk result (λ r. Fixes self.now.decoding (length r) nodes.old nodes.new) }
    {
        let mut block = vec![in self.alloc; 0; self.decoding.width]?;
        let mut report = Report::new(self.alloc);
        let first = Candidate {
            kept: &self.decoding.answers,
            column: 0,
        };
        self.extend(&first, &mut block, &mut report, cols, nodes)?;
        Ok(report)
    }

    /// Reports the agreements of a candidate: of the polynomials in the columns before its own, whose constants begin the
    /// block, and of the answers at which these hold.
    ///
    /// As long as all of these answers lie on one polynomial of small degree, there is no other way to go on. Where they
    /// don't, each polynomial on which enough of them lie makes a candidate of its own, with fewer answers: one at most where
    /// all but a few lie on it, and else as many as a list proper has, each of which has lost so many answers that lists are
    /// few along each way.
    #[cycle(extend)]
    fn extend<C: Ledger, N: Ledger>(
        &self,
        candidate: &Candidate<'_, '_>,
        block: &mut [u8],
        report: &mut Report,
        cols: &mut Steps<C>,
        nodes: &mut Steps<N>,
    ) -> Result<(), AllocError>
        requires width { length block.old ≡ self.now.decoding.width }
        requires column { candidate.now.column ≤ self.now.decoding.width }
        requires candidate { IsCandidateOf self.now.decoding candidate.now block.old }
        requires ascending { IsStrictlySortedBy agreement_cmp report.old }
        ensures size { length block.new ≡ length block.old }
        ensures ascending { IsStrictlySortedBy agreement_cmp report.new }
        ensures counted { IsCounted self.now.decoding candidate.now block.old
            (counters cols.old nodes.old) (counters cols.new nodes.new) }
        ensures extended { OnOk result (IsExtended self.now.decoding candidate.now
            (progress block.old report.old cols.old) (progress block.new report.new cols.new)) }
        ensures several { OnOk result (Grew self.now.decoding 1 report.old report.new nodes.old nodes.new) }
    {
        let kept = candidate.kept;
        let decoded = decode(
            self.alloc,
            kept,
            self.decoding.degree,
            candidate.column,
            block,
            cols,
        )?;
        let next = candidate.column + decoded;
        if next == self.decoding.width {
            return report.add(self.alloc, block, kept);
        }
        let polynomials = self.list(kept, next, cols, nodes)?;
        let parting = Parting {
            candidate: Candidate { kept, column: next },
            polynomials,
        };
        self.extend_by_each(&parting, block, report, cols, nodes)
    }

    /// Reports the agreements of a candidate whose answers part: those of the candidates that the polynomials of the column
    /// make, on which enough of them lie, each with fewer answers.
    #[cycle(extend)]
    fn extend_by_each<C: Ledger, N: Ledger>(
        &self,
        parting: &Parting<'_, '_>,
        block: &mut [u8],
        report: &mut Report,
        cols: &mut Steps<C>,
        nodes: &mut Steps<N>,
    ) -> Result<(), AllocError>
        requires width { length block.old ≡ self.now.decoding.width }
        requires parted { HaveParted self.now.decoding parting.now }
        requires candidate { IsCandidateOf self.now.decoding parting.now.candidate block.old }
        requires ascending { IsStrictlySortedBy agreement_cmp report.old }
        ensures size { length block.new ≡ length block.old }
        ensures ascending { IsStrictlySortedBy agreement_cmp report.new }
        ensures counted { HaveCounted self.now.decoding parting.now block.old
            (counters cols.old nodes.old) (counters cols.new nodes.new) }
        ensures extended { OnOk result (HaveExtended self.now.decoding parting.now
            (progress block.old report.old cols.old) (progress block.new report.new cols.new)) }
        ensures several { OnOk result (Grew self.now.decoding (length parting.now.polynomials.items)
            report.old report.new nodes.old nodes.new) }
    {
        let kept = parting.candidate.kept;
        let column = parting.candidate.column;
        for polynomial in &parting.polynomials {
            let fewer = follow(self.alloc, kept, polynomial, column, block)?;
            let candidate = Candidate {
                kept: &fewer,
                column: column + 1,
            };
            self.extend(&candidate, block, report, cols, nodes)?;
        }
        Ok(())
    }

    /// The polynomials of small degree on which enough of the answers lie in a column.
    fn list<C: Ledger, N: Ledger>(
        &self,
        kept: &AnswerSet<'_>,
        column: usize,
        cols: &mut Steps<C>,
        nodes: &mut Steps<N>,
    ) -> Result<Vec<Vec<u8>>, AllocError>
        requires column { All (λ a. column < length a.payload) kept.now }
        requires enough { self.now.decoding.agreement ≤ length kept.now }
        requires listed { CanBeListed kept.now self.now.decoding.degree self.now.decoding.agreement }
        ensures exact { IfOk result (λ list. ListsIn self.now.decoding (points_in kept.now column) (lists_of list.items)) }
        ensures cols { cols.new ≤ cols.old + 1 }
        ensures some { OnOk result (cols.old < cols.new) }
        ensures nodes { nodes.new ≤ nodes.old + nodes_at self.now.decoding (length kept.now) }
        ensures rises { (cols.old ≤ cols.new) × (nodes.old ≤ nodes.new) }
        ensures several { IfOk result (λ l. Fixes self.now.decoding (length l.items) nodes.old nodes.new) }
        ensures far { (nodes.new ≡ nodes.old) ⊎ AreFarIn self.now.decoding (points_in kept.now column) }
    {
        let points = kept.points(self.alloc, column)?;
        self.list_points(&points, cols, nodes)
    }

    /// The polynomials of small degree that agree with enough of the points.
    ///
    /// Where all but a few lie on one, no other can be listed. A list proper is made only where no polynomial is so close and
    /// there are so many points that enough of them can lie on one all the same.
    fn list_points<C: Ledger, N: Ledger>(
        &self,
        points: &[(u8, u8)],
        cols: &mut Steps<C>,
        nodes: &mut Steps<N>,
    ) -> Result<Vec<Vec<u8>>, AllocError>
        requires agreement { self.now.decoding.agreement ≤ length points.now }
        requires few { length points.now ≤ MOST_SERVERS }
        requires strong { IsStrong self.now.decoding (length points.now) }
        requires cheap { IsCheap self.now.decoding (length points.now) }
        requires distinct { AllPairs (λ p q. p.0 ≢ q.0) points.now }
        requires nonzero { All (λ p. p.0 ≢ 0) points.now }
        ensures exact { IfOk result (λ list. ListsIn self.now.decoding points.now (lists_of list.items)) }
        ensures cols { cols.new ≤ cols.old + 1 }
        ensures some { OnOk result (cols.old < cols.new) }
        ensures nodes { nodes.new ≤ nodes.old + nodes_at self.now.decoding (length points.now) }
        ensures rises { (cols.old ≤ cols.new) × (nodes.old ≤ nodes.new) }
        ensures several { IfOk result (λ l. Fixes self.now.decoding (length l.items) nodes.old nodes.new) }
        ensures far { (nodes.new ≡ nodes.old) ⊎ AreFarIn self.now.decoding points.now }
    {
        let t = self.decoding.degree;
        let h = self.decoding.agreement;
        if let Some(list) = close_list(self.alloc, points, t, h, cols)? {
            return Ok(list);
        }
        column_list(self.alloc, self.way, points, t, h, cols, nodes)
    }
}

/// Decodes the columns from `column` on, as long as all answers lie on one polynomial of degree at most `t`, and tells how
/// many these are.
fn decode<C: Ledger>(
    alloc: Global,
    kept: &AnswerSet<'_>,
    t: u32,
    column: usize,
    block: &mut [u8],
    cols: &mut Steps<C>,
) -> Result<usize, AllocError>
    requires column { column ≤ length block.old }
    requires enough { t < length kept.now }
    requires widths { All (λ a. length block.old ≤ length a.payload) kept.now }
    requires distinct { AllPairs (λ a b. a.index ≢ b.index) kept.now }
    ensures size { length block.new ≡ length block.old }
    ensures kept { take column block.new ≡ take column block.old }
    ensures run { IfOk result (IsRunOf kept.now t column (drop column block.new)) }
    ensures cols { MatchResult result (λ n. cols.new ≡ cols.old + n) (λ _. cols.new ≡ cols.old) }
{
    decode_into(alloc, kept, t, column, &mut block[column..], cols)
}

/// Decodes as many columns from `column` on as `out` has places, as long as all answers lie on one polynomial of degree at
/// most `t`, and tells how many these are.
fn decode_into<C: Ledger>(
    alloc: Global,
    kept: &AnswerSet<'_>,
    t: u32,
    column: usize,
    out: &mut [u8],
    cols: &mut Steps<C>,
) -> Result<usize, AllocError>
    requires enough { t < length kept.now }
    requires widths { All (λ a. column + length out.old ≤ length a.payload) kept.now }
    requires distinct { AllPairs (λ a b. a.index ≢ b.index) kept.now }
    ensures run { IfOk result (IsRunOf kept.now t column out.new) }
    ensures cols { MatchResult result (λ n. cols.new ≡ cols.old + n) (λ _. cols.new ≡ cols.old) }
{
    let indices = kept.indices(alloc)?;
    let payloads = kept.payloads(alloc)?;
    let columns = Columns {
        xs: &indices,
        rows: &payloads,
        t,
    };
    decode_run(alloc, &columns, column, out, cols)
}

/// Puts the constant of a column's polynomial into the block, and has the answers that lie on the polynomial.
fn follow<'a>(
    alloc: Global,
    kept: &AnswerSet<'a>,
    polynomial: &[u8],
    column: usize,
    block: &mut [u8],
) -> Result<AnswerSet<'a>, AllocError>
    requires some { 0 < length polynomial.now }
    requires room { column < length block.old }
    requires widths { All (λ a. column < length a.payload) kept.now }
    ensures size { length block.new ≡ length block.old }
    ensures block { take (column + 1) block.new ≡ take column block.old ++ slice_index polynomial.now 0 ∷ [] }
    ensures answers { IfOk result (λ set. set ≡ filter (holds_at polynomial.now column) kept.now) }
{
    block[column] = polynomial[0];
    kept.holding(alloc, polynomial, column)
}
