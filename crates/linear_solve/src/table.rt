//! A matrix of bytes.

ghost use Rattle.std.specs.Prelude.{◌≡◌, ◌<◌, ◌≤◌, ◌*◌, length, take, drop, IfOk};
ghost use Rattle.linear_solve.specs.Matrix.{entry, IsZeroMatrix, IsWithEntry};

use std::alloc::{AllocError, Global};
use std::marker::Model;

/// The most rows, and the most columns, that a table has.
pub const MOST_SIDE: u32 = 1 << 16;

/// A matrix of bytes, at most [`MOST_SIDE`] rows by [`MOST_SIDE`] columns. Contracts see its numbers of rows and columns and
/// its entries.
#[derive(Drop)]
pub struct Table {
    rows: usize,
    cols: usize,
    cells: Vec<u8>,
}

impl Model for Table {
    ghost use Rattle.std.specs.Prelude.{◌≡◌, ◌*◌, length};
    ghost use Rattle.linear_solve.specs.Matrix.{Matrix};

    ghost Value = { Matrix };

    ghost view = { λ t. record { rows = t.rows; cols = t.cols; cells = t.cells.items } };

    ghost invariant = { λ t. length t.cells.items ≡ t.rows * t.cols };
}

impl Table {
    /// A table of zeros. Rows and columns are at most [`MOST_SIDE`] each.
    ///
    /// The error is want of memory.
    pub fn new(alloc: Global, rows: u32, cols: u32) -> Result<Table, AllocError>
        requires few_rows { rows ≤ MOST_SIDE }
        requires few_cols { cols ≤ MOST_SIDE }
        ensures { IfOk result (λ t. IsZeroMatrix t rows cols) }
    {
        let rows = rows as usize;
        let cols = cols as usize;
        Ok(Table {
            rows,
            cols,
            cells: vec![in alloc; 0; rows * cols]?,
        })
    }

    /// Sets entry `j` of row `i`, both counted from 0, to `v`.
    pub fn set(&mut self, i: u32, j: u32, v: u8)
        requires row { i < self.old.rows }
        requires col { j < self.old.cols }
        ensures { IsWithEntry self.new self.old i j v }
    {
        let place = i as usize * self.cols + j as usize;
        self.cells[place] = v;
    }

    /// Entry `j` of row `i`, both counted from 0.
    pub fn get(&self, i: u32, j: u32) -> u8
        requires row { i < self.now.rows }
        requires col { j < self.now.cols }
        ensures { result ≡ entry self.now i j }
    {
        self.cells[i as usize * self.cols + j as usize]
    }

    /// How many rows there are.
    pub(crate) fn rows(&self) -> usize
        ensures { result ≡ self.now.rows }
    {
        self.rows
    }

    /// How many columns there are.
    pub(crate) fn cols(&self) -> usize
        ensures { result ≡ self.now.cols }
    {
        self.cols
    }

    /// Row `i`, counted from 0.
    pub(crate) fn row(&self, i: usize) -> &[u8]
        requires { i < self.now.rows }
        ensures width { length result.now ≡ self.now.cols }
        ensures cells { result.now ≡ take self.now.cols (drop (i * self.now.cols) self.now.cells) }
    {
        let start = i * self.cols;
        &self.cells[start..start + self.cols]
    }
}
