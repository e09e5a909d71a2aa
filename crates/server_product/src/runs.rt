//! The sum over a run of rows, each times the query's byte for it.

ghost use Rattle.std.specs.Prelude.{◌≡◌, ℕ, ◌≤◌, length, slice_index};
ghost use Rattle.gf256.specs.Sums.{run_sum};
ghost use Rattle.server_product.specs.Runs.{term};

use crate::gather::add_in_trios;
use crate::sixths::add_in_sixths;
use block_matrix::Matrix;
use gf256::rows::clear;

/// From how many bytes on a row is so wide that going from one to any other costs little beside
/// reading it.
const WIDE: u32 = 8192;

/// Makes `sums` the sum over the rows from `from` up to `to`. Rows of one factor are looked for
/// where they are wide; narrow rows are read in the order in which they stand, and summed on the
/// worker's own stack: the parts of two workers may share a cache line, which is slow to write
/// where both do it for each row.
pub fn sum_rows(matrix: &Matrix, q: &[u8], from: u32, to: u32, sums: &mut [u8])
    requires order { from ≤ to }
    requires within { to ≤ length matrix.now.rows }
    requires query { length q.now ≡ length matrix.now.rows }
    requires room { length sums.old ≡ matrix.now.width }
    ensures { (k : ℕ) → slice_index sums.new k ≡ run_sum (term q.now matrix.now.rows k) from to }
{
    if matrix.width() >= WIDE {
        clear(sums);
        add_in_trios(matrix, q, from, to, sums);
    } else {
        let mut stack = [0; WIDE as usize];
        let own = &mut stack[..sums.len()];
        add_in_sixths(matrix, q, from, to, own);
        sums.copy_from_slice(own);
    }
}
