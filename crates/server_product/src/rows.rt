//! A row of the matrix times the query's byte for it.

ghost use Rattle.std.specs.Prelude.{◌≡◌, ℕ, [], ◌<◌, length, slice_index, slice_index_or};
ghost use Rattle.gf256.specs.Field.{◌⊕◌, ◌⊗◌};
ghost use Rattle.row_workers.specs.RowSums.{Adds};
ghost use Rattle.server_product.specs.Runs.{term};
ghost use Rattle.server_product.specs.SixRows.{scaled_at};

use block_matrix::Matrix;
use gf256::rows::add_scaled_row;

/// A row, and the factor that it is multiplied by.
#[derive(Clone, Copy, Drop)]
pub struct Scaled<'a> {
    pub row: &'a [u8],
    pub factor: u8,
}

/// Row `j` and the query's byte for it.
#[inline(always)]
pub fn scaled_row<'a>(matrix: &'a Matrix, q: &[u8], j: u32) -> Scaled<'a>
    requires within { j < length matrix.now.rows }
    requires query { length q.now ≡ length matrix.now.rows }
    ensures size { length result.row.now ≡ matrix.now.width }
    ensures term { (k : ℕ) → scaled_at result k ≡ term q.now matrix.now.rows k j }
{
    Scaled {
        row: matrix.row(j),
        factor: q[j as usize],
    }
}

/// Adds `c` times `row` to `acc`, which is as long. Adding `83` times `57 57` to `00 01` makes it
/// `c1 c0`.
pub fn mul_add_row(acc: &mut [u8], row: &[u8], c: u8)
    requires { length row.now ≡ length acc.old }
    ensures { (k : ℕ) → slice_index acc.new k ≡ slice_index acc.old k ⊕ c ⊗ slice_index row.now k }
{
    add_scaled_row(acc, row, c);
}

/// Adds row `j`, times the query's byte for it.
pub fn add_term(matrix: &Matrix, q: &[u8], j: u32, sums: &mut [u8])
    requires within { j < length matrix.now.rows }
    requires query { length q.now ≡ length matrix.now.rows }
    requires room { length sums.old ≡ matrix.now.width }
    ensures { Adds (λ k. term q.now matrix.now.rows k j) sums.old sums.new }
{
    mul_add_row(sums, matrix.row(j), q[j as usize]);
}
