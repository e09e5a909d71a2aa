//! Four rows of a matrix, which are added at once.

ghost use Rattle.std.specs.Prelude.{◌≡◌, ℕ, [], ◌+◌, ◌*◌, ◌<◌, length, slice_index_or};

use block_matrix::Matrix;

/// Four rows of one width.
#[derive(Clone, Copy, Drop)]
pub struct FourRows<'a> {
    pub a: &'a [u8],
    pub b: &'a [u8],
    pub c: &'a [u8],
    pub d: &'a [u8],
}

/// Row `j` and the three that follow each so many rows after the one before.
#[inline(always)]
pub fn four_apart<'a>(matrix: &'a Matrix, j: u32, apart: u32) -> FourRows<'a>
    requires { j + 3 * apart < length matrix.now.rows }
    ensures a { result.a.now ≡ slice_index_or matrix.now.rows j [] }
    ensures b { result.b.now ≡ slice_index_or matrix.now.rows (j + apart) [] }
    ensures c { result.c.now ≡ slice_index_or matrix.now.rows (j + 2 * apart) [] }
    ensures d { result.d.now ≡ slice_index_or matrix.now.rows (j + 3 * apart) [] }
    ensures width_a { length result.a.now ≡ matrix.now.width }
    ensures width_b { length result.b.now ≡ matrix.now.width }
    ensures width_c { length result.c.now ≡ matrix.now.width }
    ensures width_d { length result.d.now ≡ matrix.now.width }
{
    // Its contract bounds the number of rows.
    let _rows = matrix.rows();
    FourRows {
        a: matrix.row(j),
        b: matrix.row(j + apart),
        c: matrix.row(j + 2 * apart),
        d: matrix.row(j + 3 * apart),
    }
}
