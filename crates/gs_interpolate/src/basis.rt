//! The polynomials of Koetter's iteration.

ghost use Rattle.std.specs.Prelude.{◌≡◌, ◌+◌, ◌*◌, ◌<◌, ◌≤◌, length, sum, IfOk, MatchOption};
ghost use Rattle.interpolation.specs.Monomials.{conditions};
ghost use Rattle.gs_interpolate.specs.Basis.{raised_at, reach, weight, with_rows, AreZero, AreZeroWhereLight, ArePowersOfY, Imposes, IsBasis, IsFirstFailing, IsFirstNonzero, IsLeast, IsLightest, IsPassing, IsPivot, IsPowerRow, TakesSteps};
ghost use Rattle.gs_interpolate.specs.Steps.{HaveLanes};
ghost use Rattle.gs_interpolate.specs.Window.{condition_at, with_cells, IsForLanes};

use crate::family::coefficients;
use crate::steps::{Step, take_steps};
use crate::window::Window;
use bi_poly::BiPoly;
use gf256::tables::Tables;
use interpolation::MOST_MULTIPLICITY;
use quantity_limits::MOST_DEGREE;
use std::alloc::{AllocError, Global};
use std::marker::Model;

/// More places, and rows of y, than any interpolation needs.
pub(crate) const MOST_PLACES: u32 = 1 << 17;

/// More lanes than any interpolation needs.
pub(crate) const MOST_LANES: u32 = 1 << 18;

/// More than the exponents of all places are together in any interpolation.
pub(crate) const MOST_EXPONENTS: u32 = 1 << 31;

/// More than any polynomial of an interpolation weighs.
pub(crate) const MOST_WEIGHT: u64 = 1 << 33;

/// Polynomials of which that at place j has a leading monomial `x^e * y^j`, in the order in which `x^i * y^j` weighs
/// `i + t*j`. A polynomial weighs as much as its leading monomial, and one that weighs at most `d` is light. They stand side
/// by side: place `i * lanes + g` of row j has the coefficient at `x^i * y^j` of the polynomial at place g. One that is no
/// longer light is dropped: its exponent says so, and its coefficients are of no use.
#[derive(Drop)]
pub(crate) struct Basis {
    t: u32,
    d: u32,
    lanes: usize,
    rows: Vec<Vec<u8>>,
    /// For each place the exponent e.
    exponents: Vec<u32>,
}

impl Model for Basis {
    ghost use Rattle.gs_interpolate.specs.Basis.{Polynomials};

    ghost Value = { Polynomials };

    ghost use Rattle.gs_interpolate.specs.BasisInside.{polynomials, IsSound};

    ghost view = { polynomials };

    ghost invariant = { IsSound };
}

/// Row j of the powers of y, in which that at place j alone has a coefficient. There is room for so many powers of x.
fn power_row(alloc: Global, lanes: usize, j: usize, powers: usize) -> Result<Vec<u8>, AllocError>
    requires inside { j < lanes }
    requires small { powers * lanes < usize.MAX }
    ensures { IfOk result (λ r. IsPowerRow lanes r.items j) }
{
    let mut row = Vec::with_capacity(alloc, powers * lanes)?;
    row.resize(lanes, 0)?;
    row[j] = 1;
    Ok(row)
}

/// The place of the first value that is not 0.
fn first_nonzero(values: &[u8]) -> Option<usize>
    ensures { MatchOption result (AreZero values.now) (IsFirstNonzero values.now) }
{
    for j in 0..values.len() {
        if values[j] != 0 {
            return Some(j);
        }
    }
    None
}

impl Basis {
    /// The powers of y, as many as `n`, which is not 0.
    pub(crate) fn new(alloc: Global, n: usize, t: u32, d: u32) -> Result<Basis, AllocError>
        requires some { 1 ≤ n }
        requires few { n ≤ MOST_PLACES }
        requires weight { t ≤ MOST_DEGREE }
        ensures { IfOk result (ArePowersOfY t d n) }
    {
        let lanes = (n + 15) / 16 * 16;
        let mut rows = Vec::with_capacity(alloc, n)?;
        for j in 0..n {
            let powers = (d as usize + 1).saturating_sub(t as usize * j);
            rows.push(power_row(alloc, lanes, j, powers)?)?;
        }
        let exponents = vec![in alloc; 0; n]?;
        Ok(Basis {
            t,
            d,
            lanes,
            rows,
            exponents,
        })
    }

    /// The weight of the polynomial at place `j`.
    fn weight(&self, j: usize) -> u64
        requires { j < length self.now.rows }
        ensures weight { result ≡ weight self.now j }
        ensures small { result < MOST_WEIGHT }
    {
        self.exponents[j] as u64 + self.t as u64 * j as u64
    }

    /// Of the polynomials whose value is not 0, the place of that whose leading monomial comes first. There is none exactly
    /// where all values are 0.
    fn first_failing(&self, values: &[u8]) -> Option<usize>
        requires { length values.now ≡ length self.now.rows }
        ensures { MatchOption result (AreZero values.now) (IsFirstFailing self.now values.now) }
    {
        let mut first = first_nonzero(values)?;
        for j in first + 1..values.len() {
            if values[j] != 0 && self.weight(j) < self.weight(first) {
                first = j;
            }
        }
        Some(first)
    }

    /// The place of the pivot: of the light polynomials whose value is not 0, that whose leading monomial comes first. There
    /// is none exactly where the values of all light ones are 0: they come before those that are dropped, whose values may be
    /// anything.
    fn pivot(&self, values: &[u8]) -> Option<usize>
        requires { length values.now ≡ self.now.lanes }
        ensures { MatchOption result (AreZeroWhereLight self.now values.now) (IsPivot self.now values.now) }
    {
        let first = self.first_failing(&values[..self.rows.len()])?;
        if self.weight(first) > self.d as u64 {
            return None;
        }
        Some(first)
    }

    /// The weight from which on a step with the pivot at place `p` changes nothing. Where the pivot is dropped by it, it needs
    /// no coefficient that weighs more than `d`, and light polynomials have none.
    fn reach(&self, p: usize) -> u64
        requires { p < length self.now.rows }
        ensures reach { result ≡ reach self.now p }
        ensures small { result ≤ MOST_WEIGHT }
    {
        let heaviest = self.weight(p) + 1;
        heaviest.min(self.d as u64) + 1
    }

    /// Makes the exponent at place `p` greater by one.
    fn raise(&mut self, p: usize)
        requires room { sum self.old.exponents < MOST_EXPONENTS }
        requires inside { p < length self.old.rows }
        ensures { self.new ≡ with_rows self.old self.old.rows (raised_at self.old.exponents p) }
    {
        self.exponents[p] += 1;
    }

    /// Imposes the condition of order `(u, v)` at the point of the window on the window and the exponents. Where it takes a step,
    /// that is kept, and the rows have yet to take it.
    fn impose(
        &mut self,
        window: &mut Window,
        step: &mut Step,
        u: usize,
        v: usize,
        tables: &Tables,
    ) -> bool
        requires room { sum self.old.exponents < MOST_EXPONENTS }
        requires order { u + v < window.old.m }
        requires window { window.old.lanes ≡ self.old.lanes }
        requires step { length step.old.factors ≡ self.old.lanes }
        ensures rows { self.new ≡ with_rows self.old self.old.rows self.new.exponents }
        ensures rise { sum self.new.exponents ≤ sum self.old.exponents + 1 }
        ensures cells { window.new ≡ with_cells window.old window.new.cells }
        ensures lanes { length step.new.factors ≡ self.old.lanes }
        ensures imposed { let c = condition_at window.old u v in
            Imposes result step.new c (self.old, window.old) (self.new, window.new) }
    {
        let values = window.values(u, v);
        let Some(p) = self.pivot(values) else {
            return false;
        };
        step.aim(values, p, self.reach(p));
        window.step(step.factors(), p, v, tables);
        step.shift(window.a());
        self.raise(p);
        true
    }

    /// Each row takes the steps, one row after the other.
    ///
    /// `AllocError` where there is no memory for longer rows.
    fn take(&mut self, steps: &[Step], tables: &Tables) -> Result<(), AllocError>
        ensures { IfOk result (λ _. TakesSteps steps.now self.old self.new) }
    {
        take_steps(steps, &mut self.rows, self.t, tables)
    }

    /// The number of lanes: that of the polynomials, or more, so that they are whole vectors.
    pub(crate) fn lanes(&self) -> usize
        ensures lanes { result ≡ self.now.lanes }
        ensures some { 1 ≤ result }
        ensures few { result ≤ MOST_LANES }
    {
        self.lanes
    }

    /// Imposes the conditions of a zero at `(a, b)` of the multiplicity of the window: the derivatives of all polynomials at the
    /// point are found once, and then those of the light ones follow the steps. The rows take the steps at the end, and there
    /// is room for one for each condition. Gives the window back, so that its room serves for the next point.
    pub(crate) fn pass(
        &mut self,
        window: Window,
        steps: &mut [Step],
        a: u8,
        b: u8,
        tables: &Tables,
    ) -> Result<Window, AllocError>
        requires multiplicity { (1 ≤ window.m) × (window.m ≤ MOST_MULTIPLICITY) }
        requires lanes { window.lanes ≡ self.old.lanes }
        requires steps { HaveLanes self.old.lanes steps.old }
        requires enough { conditions 1 window.m ≤ length steps.old }
        requires room { sum self.old.exponents + conditions 1 window.m < MOST_EXPONENTS }
        requires basis { IsBasis self.old }
        ensures passing { IfOk result (λ _. IsPassing self.old self.new a b window.m) }
        ensures window { IfOk result (IsForLanes self.old.lanes window.m) }
        ensures steps { IfOk result (λ _. HaveLanes self.old.lanes steps.new) }
    {
        let m = window.m();
        let mut window = window.at(&self.rows, a, b)?;
        let mut taken = 0;
        'rows: for v in 0..m {
            'orders: for u in 0..m - v {
                if self.impose(&mut window, &mut steps[taken], u, v, tables) {
                    taken += 1;
                }
            }
        }
        self.take(&steps[..taken], tables)?;
        Ok(window)
    }

    /// The place of the polynomial whose leading monomial has the least weight.
    fn lightest(&self) -> usize
        ensures { IsLeast self.now result }
    {
        let mut lightest = 0;
        for j in 1..self.rows.len() {
            if self.weight(j) < self.weight(lightest) {
                lightest = j;
            }
        }
        lightest
    }

    /// The polynomial whose leading monomial has the least weight, if that one is light. Its rows are as long as its first, so
    /// that they can be taken many bytes at once.
    pub(crate) fn into_lightest(self, alloc: Global) -> Result<BiPoly, AllocError>
        requires { IsBasis self }
        ensures { IfOk result (IsLightest self) }
    {
        let place = self.lightest();
        let count = self.weight(place) as usize + 1;
        let mut rows = Vec::with_capacity(alloc, self.rows.len())?;
        for j in 0..self.rows.len() {
            rows.push(coefficients(alloc, &self.rows[j], self.lanes, place, count)?)?;
        }
        Ok(BiPoly::from_rows(rows))
    }
}
