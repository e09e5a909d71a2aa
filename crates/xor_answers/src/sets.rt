//! The sums over a run of rows for up to eight bitmaps, by the pattern of those that ask for a row.
//!
//! The rows of each pattern are added up, so that a row is added once whatever the number of
//! bitmaps that ask for it; each bitmap then gets the sums of the patterns that have its bit (after
//! Arlazarov, Dinic, Kronrod and Faradzhev 1970).

ghost use Rattle.std.specs.Prelude.{◌≡◌, ℕ, ◌*◌, ◌<◌, ◌≤◌, length, slice_index};
ghost use Rattle.quantity_limits.specs.declared.TheConstants.{MOST_ROWS};
ghost use Rattle.chor_xor.specs.Bitmap.{size_of};
ghost use Rattle.row_workers.specs.RowSums.{AreSums};
ghost use Rattle.xor_answers.specs.Asked.{asked_of};
ghost use Rattle.xor_answers.specs.Patterns.{
  IsPattern,
  AddsToPattern,
  AreByPattern,
  IsSpread,
  AreSpread,
};
ghost use Rattle.xor_answers.specs.declared.sets.TheConstants.{MOST_NARROW};

use block_matrix::Matrix;
use chor_xor::is_set;
use gf256::rows::{add_row, clear};

/// The most bytes of a row whose sums by pattern, 256 rows, a worker has on its stack: 64 KB then.
pub const MOST_NARROW: u32 = 256;

/// Makes `sums` the sums over the rows from `from` up to `to` for each of so many bitmaps, those of
/// the first bitmap first: each row is added to the sum of its pattern, on the stack, and each bitmap
/// gets the sums of the patterns that have its bit.
///
/// It is never inlined: else each worker's stack would have room for these sums, also
/// where one bitmap is asked.
#[inline(never)]
pub fn sum_set(matrix: &Matrix, bitmaps: &[u8], count: usize, from: u32, to: u32, sums: &mut [u8])
    requires few { count ≤ 8 }
    requires narrow { matrix.now.width ≤ MOST_NARROW }
    requires order { from ≤ to }
    requires within { to ≤ length matrix.now.rows }
    requires bitmaps { length bitmaps.now ≡ count * size_of (length matrix.now.rows) }
    requires room { length sums.old ≡ count * matrix.now.width }
    ensures { AreSums (asked_of bitmaps.now matrix.now) (count * matrix.now.width) from to sums.new }
{
    let mut stack = [0; 256 * MOST_NARROW as usize];
    let width = matrix.width() as usize;
    let patterns = &mut stack[..256 * width];
    add_by_pattern(matrix, bitmaps, count, from, to, patterns);
    spread(patterns, width, count, sums);
}

/// Adds each row from `from` up to `to` to the sum of its pattern. The sums begin as zeros.
fn add_by_pattern(
    matrix: &Matrix,
    bitmaps: &[u8],
    count: usize,
    from: u32,
    to: u32,
    patterns: &mut [u8],
)
    requires few { count ≤ 8 }
    requires order { from ≤ to }
    requires within { to ≤ length matrix.now.rows }
    requires bitmaps { length bitmaps.now ≡ count * size_of (length matrix.now.rows) }
    requires room { length patterns.old ≡ 256 * matrix.now.width }
    requires zeros { (p : ℕ) → slice_index patterns.old p ≡ 0 }
    ensures { AreByPattern matrix.now bitmaps.now count from to patterns.new }
{
    let size = matrix.rows().div_ceil(8) as usize;
    for j in from..to {
        add_to_pattern(patterns, pattern_of(bitmaps, size, count, j), matrix.row(j));
    }
}

/// Which of so many bitmaps ask for row `j`: a bit for each, that of the last bitmap the least.
#[inline(always)]
pub fn pattern_of(bitmaps: &[u8], size: usize, count: usize, j: u32) -> u8
    requires few { count ≤ 8 }
    requires within { j < 8 * size }
    requires memory { size ≤ MOST_ROWS }
    requires bitmaps { length bitmaps.now ≡ count * size }
    ensures { IsPattern result bitmaps.now size count j }
{
    let mut pattern = 0;
    for v in 0..count {
        let bit = u8::from(is_set(&bitmaps[v * size..(v + 1) * size], j));
        pattern = 2 * pattern + bit;
    }
    pattern
}

/// Adds the row to the sum of its pattern.
#[inline(always)]
fn add_to_pattern(patterns: &mut [u8], pattern: u8, row: &[u8])
    requires { length patterns.old ≡ 256 * length row.now }
    ensures { AddsToPattern pattern row.now patterns.old patterns.new }
{
    let width = row.len();
    let at = pattern as usize * width;
    add_row(&mut patterns[at..at + width], row);
}

/// Makes `sums` the sums of each bitmap from those by pattern.
fn spread(patterns: &[u8], width: usize, count: usize, sums: &mut [u8])
    requires few { count ≤ 8 }
    requires memory { width ≤ MOST_NARROW }
    requires patterns { length patterns.now ≡ 256 * width }
    requires room { length sums.old ≡ count * width }
    ensures { AreSpread patterns.now width count sums.new }
{
    for v in 0..count {
        let own = &mut sums[v * width..(v + 1) * width];
        spread_to(patterns, count - 1 - v, own);
    }
}

/// Makes `sums` the sum over all patterns that have bit `place`.
fn spread_to(patterns: &[u8], place: usize, sums: &mut [u8])
    requires place { place < 8 }
    requires memory { length sums.old ≤ MOST_NARROW }
    requires patterns { length patterns.now ≡ 256 * length sums.old }
    ensures { IsSpread patterns.now (length sums.old) place sums.new }
{
    clear(sums);
    let width = sums.len();
    for pattern in 0..256 {
        if pattern >> place & 1 == 1 {
            add_row(sums, &patterns[pattern * width..(pattern + 1) * width]);
        }
    }
}
