//! Columns of several rows at once, in tiles that a near cache holds.

ghost use Rattle.std.specs.Prelude.{◌≡◌, ◌+◌, ◌<◌, ◌≤◌, ℕ, length, All};
ghost use Rattle.column_runs.specs.Factors.{place_count, AreOfOneSize, IsTileBy};
ghost use Rattle.column_runs.specs.Rows.{lists_of, rows_of};
ghost use Rattle.column_runs.specs.Tile.{tile, Agree, AreAsLong, AreDifferences, IsTile};

use crate::agreement::agreed_length;
use crate::halves::HalvedRow;
use crate::lagrange::Factors;
use crate::rows::row_from;
use crate::sums::extend;
use gf256::rows::Products;

/// Takes the columns from `from` on in which each row past those that the factors go by has the byte that its factors give,
/// as many as there are before the first other one; `out` has a place for each that may be taken. There go the bytes that
/// the factors for 0 give. In `differences` there is a row for each factor, and in each of these a place for each of `out`.
pub(crate) fn decode_tile(
    rows: &[&[u8]],
    from: usize,
    factors: &Factors,
    differences: &mut [HalvedRow],
    out: &mut [u8],
) -> usize
    requires rows { length rows.now ≡ place_count factors.now }
    requires factors { AreOfOneSize factors.now }
    requires widths { All (λ row. from + length out.old ≤ length row) (rows_of rows.now) }
    requires count { length differences.old ≡ length factors.now.zero.items }
    requires room { All (λ d. length out.old ≤ length d) differences.old }
    ensures sizes { AreAsLong differences.new differences.old }
    ensures tile { IsTileBy (rows_of rows.now) from factors.now out.new result }
{
    let first = &row_from(rows, 0, from)[..out.len()];
    subtract(rows, from, first, differences);
    let columns = agreeing(rows, from, first, differences, &factors.others);
    extend(
        &first[..columns],
        differences,
        &factors.zero,
        &mut out[..columns],
    );
    columns
}

/// In how many columns, from `from` on, each row past those of the differences has the byte that its factors, of which
/// `others` has a list for each, give.
fn agreeing(
    rows: &[&[u8]],
    from: usize,
    first: &[u8],
    differences: &[HalvedRow],
    others: &[Vec<Products>],
) -> usize
    requires rows { length rows.now ≡ length differences.now + 1 + length others.now }
    requires factors { All (λ f. length f.items ≡ length differences.now) others.now }
    requires widths { All (λ row. from + length first.now ≤ length row) (rows_of rows.now) }
    requires room { All (λ d. length first.now ≤ length d) differences.now }
    ensures within { result ≤ length first.now }
    ensures agree { (c : ℕ) → c < result → Agree (rows_of rows.now)
        (tile from first.now differences.now) (lists_of others.now) c (length others.now) }
    ensures differ { result < length first.now → ¬ Agree (rows_of rows.now)
        (tile from first.now differences.now) (lists_of others.now) result (length others.now) }
{
    let mut columns = first.len();
    for k in 0..others.len() {
        let row = &row_from(rows, differences.len() + 1 + k, from)[..columns];
        columns = agreed_length(&first[..columns], differences, &others[k], row);
    }
    columns
}

/// Makes the first places of each of the `differences` those of its row, the next one of `rows` after the first, from column
/// `from` on, less those of `first`.
fn subtract(rows: &[&[u8]], from: usize, first: &[u8], differences: &mut [HalvedRow])
    requires rows { length differences.old < length rows.now }
    requires widths { All (λ row. from + length first.now ≤ length row) (rows_of rows.now) }
    requires room { All (λ d. length first.now ≤ length d) differences.old }
    ensures sizes { AreAsLong differences.new differences.old }
    ensures each { AreDifferences differences.new (rows_of rows.now) from first.now }
{
    for i in 0..differences.len() {
        let row = &row_from(rows, i + 1, from)[..first.len()];
        differences[i].set_difference(row, first);
    }
}
