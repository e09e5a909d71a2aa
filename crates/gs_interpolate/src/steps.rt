//! The steps at one point, which are kept until the rows take them, one row after the other: a row takes all of them while it
//! lies in a cache.

ghost use Rattle.std.specs.Prelude.{ℕ, ◌≡◌, ◌≢◌, ◌-◌, ◌*◌, ◌<◌, ◌≤◌, length, slice_index, IfOk};
ghost use Rattle.gf256.specs.Field.{◌⊕◌};
ghost use Rattle.gs_interpolate.specs.Basis.{factor, IsAimed};
ghost use Rattle.gs_interpolate.specs.Family.{bytes_of};
ghost use Rattle.gs_interpolate.specs.Steps.{with_own, HaveLanes, HaveTakenAll, TookAll, TookStep};

use crate::basis::{MOST_LANES, MOST_PLACES, MOST_WEIGHT};
use crate::family::step_long_row;
use gf256::rows::{add_scaled_row, clear};
use gf256::tables::Tables;
use quantity_limits::MOST_DEGREE;
use std::alloc::{AllocError, Global};
use std::marker::Model;

/// Makes of each of the `factors` that of the pivot's value which its value is.
fn set_factors(factors: &mut [u8], values: &[u8], p: usize)
    requires same { length values.now ≡ length factors.old }
    requires inside { p < length values.now }
    requires fails { slice_index values.now p ≢ 0 }
    ensures { (j : ℕ) → slice_index factors.new j ≡ factor values.now p j }
{
    clear(factors);
    add_scaled_row(factors, values, gf256::inv(values[p]));
}

/// A step of the iteration: a factor for each lane, the place of the pivot, and the weight from which on nothing changes.
#[derive(Drop)]
pub(crate) struct Step {
    factors: Vec<u8>,
    p: usize,
    reach: u64,
}

impl Model for Step {
    ghost use Rattle.gs_interpolate.specs.Steps.{KeptStep, IsSoundStep};

    ghost Value = { KeptStep };

    ghost view = { λ s. record { factors = s.factors.items; p = s.p; reach = s.reach } };

    ghost invariant = { λ s. IsSoundStep (record { factors = s.factors.items; p = s.p; reach = s.reach }) };
}

impl Step {
    /// Room for a step in so many lanes.
    fn new(alloc: Global, lanes: usize) -> Result<Step, AllocError>
        requires some { 1 ≤ lanes }
        requires few { lanes ≤ MOST_LANES }
        ensures { IfOk result (λ s. length s.factors ≡ lanes) }
    {
        let factors = vec![in alloc; 0; lanes]?;
        Ok(Step {
            factors,
            p: 0,
            reach: 0,
        })
    }

    /// Makes it the step that takes the values away from all polynomials but the pivot, at place `p`, whose own factor is 1.
    pub(crate) fn aim(&mut self, values: &[u8], p: usize, reach: u64)
        requires same { length values.now ≡ length self.old.factors }
        requires inside { p < length values.now }
        requires fails { slice_index values.now p ≢ 0 }
        requires small { reach ≤ MOST_WEIGHT }
        ensures { IsAimed values.now p reach self.new }
    {
        set_factors(&mut self.factors, values, p);
        self.factors[p] = 1;
        self.p = p;
        self.reach = reach;
    }

    /// The factors.
    pub(crate) fn factors(&self) -> &[u8]
        ensures { result.now ≡ self.now.factors }
    {
        &self.factors
    }

    /// Makes the pivot's own factor `a + 1`, so that it is multiplied by `x - a`.
    pub(crate) fn shift(&mut self, a: u8)
        ensures { self.new ≡ with_own self.old (a ⊕ 1) }
    {
        self.factors[self.p] = gf256::add(a, 1);
    }

    /// The row, whose first monomials weigh so much, takes the step.
    fn change(&self, row: &mut Vec<u8>, weight: u64, tables: &Tables) -> Result<(), AllocError>
        ensures { IfOk result (λ _. TookStep self.now weight row.new.items row.old.items) }
    {
        let count = self.reach.saturating_sub(weight) as usize;
        step_long_row(row, &self.factors, self.p, count, tables)
    }
}

/// Room for so many steps in so many lanes.
pub(crate) fn room_for_steps(
    alloc: Global,
    count: usize,
    lanes: usize,
) -> Result<Vec<Step>, AllocError>
    requires some { 1 ≤ lanes }
    requires few { lanes ≤ MOST_LANES }
    ensures count { IfOk result (λ steps. length steps.items ≡ count) }
    ensures lanes { IfOk result (λ steps. HaveLanes lanes steps.items) }
{
    let mut steps = Vec::with_capacity(alloc, count)?;
    for _ in 0..count {
        steps.push(Step::new(alloc, lanes)?)?;
    }
    Ok(steps)
}

/// The row, whose first monomials weigh so much, takes the steps, one after the other.
///
/// `AllocError` where there is no memory for a longer row.
fn take_in_row(
    steps: &[Step],
    row: &mut Vec<u8>,
    weight: u64,
    tables: &Tables,
) -> Result<(), AllocError>
    ensures { IfOk result (λ _. TookAll steps.now weight row.new.items row.old.items) }
{
    for step in steps {
        step.change(row, weight, tables)?;
    }
    Ok(())
}

/// Each row takes the steps, at `x^i * y^j` with `i + t*j` below their reaches: past that the pivot must have no coefficient,
/// and its product with `x - a` none either.
///
/// `AllocError` where there is no memory for a longer row. Some rows have taken the steps then, and the others have not.
pub(crate) fn take_steps(
    steps: &[Step],
    rows: &mut [Vec<u8>],
    t: u32,
    tables: &Tables,
) -> Result<(), AllocError>
    requires weight { t ≤ MOST_DEGREE }
    requires places { length rows.old ≤ MOST_PLACES }
    ensures { IfOk result (λ _. HaveTakenAll steps.now t (bytes_of rows.new) (bytes_of rows.old)) }
{
    for j in 0..rows.len() {
        take_in_row(steps, &mut rows[j], t as u64 * j as u64, tables)?;
    }
    Ok(())
}
