//! The sum over a run of rows, in six streams.

ghost use Rattle.std.specs.Prelude.{◌≡◌, ◌+◌, ◌*◌, ◌≤◌, length};
ghost use Rattle.row_workers.specs.RowSums.{Adds};
ghost use Rattle.server_product.specs.Runs.{run_term};

use crate::rows::{add_term, scaled_row};
use crate::six_rows::{SixRows, add_six_rows};
use block_matrix::Matrix;
use gf256::tables::Tables;
use row_workers::share_of;

/// From how many sixths on the products of all factors are made first, which takes about as long as
/// making those of so many times three.
const MANY: u32 = 256;

/// Adds the rows from `from` up to `to`, each times the query's byte for it.
pub fn add_in_sixths(matrix: &Matrix, q: &[u8], from: u32, to: u32, sums: &mut [u8])
    requires order { from ≤ to }
    requires within { to ≤ length matrix.now.rows }
    requires query { length q.now ≡ length matrix.now.rows }
    requires room { length sums.old ≡ matrix.now.width }
    ensures { Adds (run_term q.now matrix.now.rows from to) sums.old sums.new }
{
    let sixth = share_of(to - from, matrix.width(), 6);
    if sixth < MANY {
        add_sixths(matrix, q, from, sixth, None, sums);
    } else {
        add_many_sixths(matrix, q, from, sixth, sums);
    }
    for j in from + 6 * sixth..to {
        add_term(matrix, q, j, sums);
    }
}

/// The same as `add_sixths`, with the products of all factors ready: where rows are narrow, making
/// those of six factors takes a good part of the time.
///
/// It is never inlined: else each worker's stack would have room for the tables, also for few rows.
#[inline(never)]
fn add_many_sixths(matrix: &Matrix, q: &[u8], from: u32, sixth: u32, sums: &mut [u8])
    requires within { from + 6 * sixth ≤ length matrix.now.rows }
    requires query { length q.now ≡ length matrix.now.rows }
    requires room { length sums.old ≡ matrix.now.width }
    ensures { Adds (run_term q.now matrix.now.rows from (from + 6 * sixth)) sums.old sums.new }
{
    let tables = Tables::new();
    add_sixths(matrix, q, from, sixth, Some(&tables), sums);
}

/// Adds the rows from `from` on, six times `sixth` of them: one from each sixth at once, so that
/// the memory is read in six streams.
#[inline(always)]
fn add_sixths(
    matrix: &Matrix,
    q: &[u8],
    from: u32,
    sixth: u32,
    tables: Option<&Tables>,
    sums: &mut [u8],
)
    requires within { from + 6 * sixth ≤ length matrix.now.rows }
    requires query { length q.now ≡ length matrix.now.rows }
    requires room { length sums.old ≡ matrix.now.width }
    ensures { Adds (run_term q.now matrix.now.rows from (from + 6 * sixth)) sums.old sums.new }
{
    // Its contract bounds the number of rows.
    let _rows = matrix.rows();
    for i in 0..sixth {
        let six = SixRows {
            a: scaled_row(matrix, q, from + i),
            b: scaled_row(matrix, q, from + sixth + i),
            c: scaled_row(matrix, q, from + 2 * sixth + i),
            d: scaled_row(matrix, q, from + 3 * sixth + i),
            e: scaled_row(matrix, q, from + 4 * sixth + i),
            f: scaled_row(matrix, q, from + 5 * sixth + i),
        };
        add_six_rows(sums, six, tables);
    }
}
