//! The product straight from its definition, one byte after the other: slow, for comparison.

ghost use Rattle.std.specs.Prelude.{◌≡◌, ℕ, ◌<◌, ◌≤◌, length};
ghost use Rattle.gf256.specs.Product.{product_at, product};

use block_matrix::Matrix;
use gf256::{add, mul};

/// Makes `out` the product of the query `q`, a byte for each row, and the matrix: a byte for each
/// column.
///
/// Each byte of the matrix costs one product by itself. This is the yardstick for
/// [`product_into`](crate::product_into), whose contract says the same.
pub fn plain_into(matrix: &Matrix, q: &[u8], out: &mut [u8])
    requires query { length q.now ≡ length matrix.now.rows }
    requires room { length out.old ≡ matrix.now.width }
    ensures { out.new ≡ product matrix.now.rows matrix.now.width q.now }
{
    for column in 0..out.len() {
        out[column] = column_of_product(matrix, q, column);
    }
}

/// One column of the product.
fn column_of_product(matrix: &Matrix, q: &[u8], column: usize) -> u8
    requires query { length q.now ≡ length matrix.now.rows }
    requires within { column < matrix.now.width }
    ensures { result ≡ product_at q.now matrix.now.rows column }
{
    let mut sum = 0;
    for j in 0..matrix.rows() {
        sum = add(sum, mul(q[j as usize], matrix.row(j)[column]));
    }
    sum
}
