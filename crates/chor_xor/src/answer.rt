//! What a server answers, and what the client makes of the answers.

ghost use Rattle.std.specs.Prelude.{◌≡◌, ℕ, ◌≤◌, length, slice_index};
ghost use Rattle.gf256.specs.Field.{◌⊕◌};
ghost use Rattle.chor_xor.specs.Bitmap.{size_of};
ghost use Rattle.chor_xor.specs.Chosen.{AddsChosen, AddsFour, chosen};

use crate::bitmap::{is_set, next_set};
use block_matrix::Matrix;
use gf256::rows::{add_row, clear};

/// Makes `out` the XOR of the rows whose bit is set: a byte for each column. Of the rows `41 42`
/// and `43 44` the bitmap `c0` has the answer `02 06`.
///
/// The bitmap has a bit for each row, and so `ceil(rows / 8)` bytes; unused bits aren't read. It
/// takes no memory.
pub fn answer_into(matrix: &Matrix, bitmap: &[u8], out: &mut [u8])
    requires bitmap { length bitmap.now ≡ size_of (length matrix.now.rows) }
    requires room { length out.old ≡ matrix.now.width }
    ensures { out.new ≡ chosen matrix.now bitmap.now }
{
    clear(out);
    add_chosen_rows(matrix, bitmap, 0, matrix.rows(), out);
}

/// Adds the rows from `from` up to `to` whose bit is set, in each column. It goes over the rows of
/// four quarters side by side, so that the memory is read in four streams.
pub fn add_chosen_rows(matrix: &Matrix, bitmap: &[u8], from: u32, to: u32, sum: &mut [u8])
    requires order { from ≤ to }
    requires within { to ≤ length matrix.now.rows }
    requires bitmap { length bitmap.now ≡ size_of (length matrix.now.rows) }
    requires room { length sum.old ≡ matrix.now.width }
    ensures { AddsChosen bitmap.now matrix.now.rows from to sum.old sum.new }
{
    // Its contract bounds the number of rows, and says that they are bytes.
    let _rows = matrix.rows();
    let quarter = (to - from) / 4;
    let second = from + quarter;
    let third = from + 2 * quarter;
    let fourth = from + 3 * quarter;
    let mut a = next_set(bitmap, from, second);
    let mut b = next_set(bitmap, second, third);
    let mut c = next_set(bitmap, third, fourth);
    let mut d = next_set(bitmap, fourth, to);
    'fours: while a < second && b < third && c < fourth && d < to {
        add_four_rows(
            sum,
            matrix.row(a),
            matrix.row(b),
            matrix.row(c),
            matrix.row(d),
        );
        a = next_set(bitmap, a + 1, second);
        b = next_set(bitmap, b + 1, third);
        c = next_set(bitmap, c + 1, fourth);
        d = next_set(bitmap, d + 1, to);
    }
    add_rows(matrix, bitmap, a, second, sum);
    add_rows(matrix, bitmap, b, third, sum);
    add_rows(matrix, bitmap, c, fourth, sum);
    add_rows(matrix, bitmap, d, to, sum);
}

/// Adds the rows from `from` up to `to` whose bit is set, one after the other.
fn add_rows(matrix: &Matrix, bitmap: &[u8], from: u32, to: u32, sum: &mut [u8])
    requires order { from ≤ to }
    requires within { to ≤ length matrix.now.rows }
    requires bitmap { length bitmap.now ≡ size_of (length matrix.now.rows) }
    requires room { length sum.old ≡ matrix.now.width }
    ensures { AddsChosen bitmap.now matrix.now.rows from to sum.old sum.new }
{
    // Its contract says that the rows are bytes.
    let _rows = matrix.rows();
    for j in from..to {
        if is_set(bitmap, j) {
            add_row(sum, matrix.row(j));
        }
    }
}

/// Adds four rows: each is as long as `acc`.
fn add_four_rows(acc: &mut [u8], a: &[u8], b: &[u8], c: &[u8], d: &[u8])
    requires a { length a.now ≡ length acc.old }
    requires b { length b.now ≡ length acc.old }
    requires c { length c.now ≡ length acc.old }
    requires d { length d.now ≡ length acc.old }
    ensures { AddsFour a.now b.now c.now d.now acc.old acc.new }
{
    for i in 0..acc.len() {
        acc[i] ^= a[i] ^ b[i] ^ c[i] ^ d[i];
    }
}

/// Adds the payload of a server to the sum of the others, byte by byte by XOR: each is as long.
/// After all servers' payloads a sum that began as zeros is the block.
pub fn combine_into(acc: &mut [u8], payload: &[u8])
    requires { length payload.now ≡ length acc.old }
    ensures { (k : ℕ) → slice_index acc.new k ≡ slice_index acc.old k ⊕ slice_index payload.now k }
{
    add_row(acc, payload);
}
