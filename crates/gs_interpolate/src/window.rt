//! The Hasse derivatives of polynomials side by side at one point.

ghost use Rattle.std.specs.Prelude.{ℕ, ◌≡◌, ◌+◌, ◌*◌, ◌<◌, ◌≤◌, length, slice_index, IfOk};
ghost use Rattle.gs_interpolate.specs.Family.{bytes_of};
ghost use Rattle.gs_interpolate.specs.Window.{derivative, with_cells, IsForLanes, IsWindow, IsWindowStep};

use crate::basis::MOST_LANES;
use crate::expansion::{add_values, expand, expand_row};
use crate::family::step_row;
use gf256::rows::Products;
use gf256::tables::Tables;
use interpolation::MOST_MULTIPLICITY;
use std::alloc::{AllocError, Global};
use std::marker::Model;

/// Takes a step in the rows of a window from `v` on, of which each has `m` cells.
fn step_cells(cells: &mut [u8], m: usize, factors: &[u8], p: usize, v: usize, tables: &Tables)
    requires inside { p < length factors.now }
    requires size { length cells.old ≡ m * (m * length factors.now) }
    ensures { IsWindowStep factors.now p m cells.new cells.old v }
{
    for w in v..m {
        let size = m * factors.len();
        let start = w * size;
        step_row(&mut cells[start..start + size], factors, p, m - w, tables);
    }
}

/// The Hasse derivatives of polynomials side by side at one point `(a, b)`: cell u of row v has those of order `(u, v)`,
/// where `u + v < m`.
#[derive(Drop)]
pub(crate) struct Window {
    lanes: usize,
    m: usize,
    a: u8,
    b: u8,
    cells: Vec<u8>,
    /// Room for what one row expands to.
    first: Vec<u8>,
}

impl Model for Window {
    ghost use Rattle.std.specs.Prelude.{◌≡◌, ◌*◌, length};
    ghost use Rattle.gs_interpolate.specs.Window.{Derivatives};

    ghost Value = { Derivatives };

    ghost view = { λ w. record { lanes = w.lanes; m = w.m; a = w.a; b = w.b; cells = w.cells.items } };

    ghost invariant = { λ w. length w.cells.items ≡ w.m * (w.m * w.lanes) };
}

impl Window {
    /// Room for the derivatives of polynomials in so many lanes, which are 0 so far.
    ///
    /// `AllocError` where there is no memory for them.
    pub(crate) fn new(alloc: Global, lanes: usize, m: usize) -> Result<Window, AllocError>
        requires few { lanes ≤ MOST_LANES }
        requires terms { (1 ≤ m) × (m ≤ MOST_MULTIPLICITY) }
        ensures { IfOk result (IsForLanes lanes m) }
    {
        let terms = m.next_power_of_two();
        let size = m * lanes;
        let mut cells = Vec::with_capacity(alloc, terms * size)?;
        cells.resize(m * size, 0)?;
        let first = Vec::with_capacity(alloc, terms * lanes)?;
        Ok(Window {
            lanes,
            m,
            a: 0,
            b: 0,
            cells,
            first,
        })
    }

    /// The derivatives at `(a, b)` of the polynomials in these rows, in the same room: each row is expanded about a, and what
    /// they expand to, polynomials in y, about b.
    ///
    /// `AllocError` where there is no memory for them.
    pub(crate) fn at(self, rows: &[Vec<u8>], a: u8, b: u8) -> Result<Window, AllocError>
        requires some { 1 ≤ self.lanes }
        requires few { self.lanes ≤ MOST_LANES }
        requires wide { length rows.now ≤ self.lanes }
        requires terms { (1 ≤ self.m) × (self.m ≤ MOST_MULTIPLICITY) }
        ensures { IfOk result (IsWindow self.lanes self.m a b (bytes_of rows.now)) }
    {
        let (lanes, m) = (self.lanes, self.m);
        let terms = m.next_power_of_two();
        let size = m * lanes;
        let mut cells = self.cells;
        cells.clear();
        cells.resize(terms * size, 0)?;
        let mut first = self.first;
        first.clear();
        first.resize(terms * lanes, 0)?;
        let whole = Products::of(gf256::pow(a, terms as u32));
        for j in 0..rows.len() {
            expand_row(&mut first, &rows[j], lanes, terms, a, &whole);
            add_values(&mut cells, &first[..size], j, terms, b);
        }
        expand(&mut cells, size, terms, b);
        cells.truncate(m * size);
        Ok(Window {
            lanes,
            m,
            a,
            b,
            cells,
            first,
        })
    }

    /// How many orders there are in x and y, and together.
    pub(crate) fn m(&self) -> usize
        ensures { result ≡ self.now.m }
    {
        self.m
    }

    /// The x of the point.
    pub(crate) fn a(&self) -> u8
        ensures { result ≡ self.now.a }
    {
        self.a
    }

    /// The derivatives of order `(u, v)`.
    pub(crate) fn values(&self, u: usize, v: usize) -> &[u8]
        requires { u + v < self.now.m }
        ensures length { length result.now ≡ self.now.lanes }
        ensures each { (g : ℕ) → g < self.now.lanes → slice_index result.now g ≡ derivative self.now u v g }
    {
        let size = self.m * self.lanes;
        let row = &self.cells[v * size..v * size + size];
        &row[u * self.lanes..u * self.lanes + self.lanes]
    }

    /// Takes a step in the rows from `v` on. About the point `x - a` is x, so the pivot's own factor must be 1.
    pub(crate) fn step(&mut self, factors: &[u8], p: usize, v: usize, tables: &Tables)
        requires lanes { length factors.now ≡ self.old.lanes }
        requires inside { p < self.old.lanes }
        ensures window { self.new ≡ with_cells self.old self.new.cells }
        ensures step { IsWindowStep factors.now p self.old.m self.new.cells self.old.cells v }
    {
        step_cells(&mut self.cells, self.m, factors, p, v, tables);
    }
}
