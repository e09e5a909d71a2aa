//! The sums over a run of rows for several bitmaps.

ghost use Rattle.std.specs.Prelude.{◌≡◌, ℕ, ◌+◌, ◌*◌, ◌<◌, ◌≤◌, true, length, slice_index};
ghost use Rattle.std.specs.Int.{div_ceil};
ghost use Rattle.gf256.specs.Sums.{run_sum};
ghost use Rattle.quantity_limits.specs.declared.TheConstants.{MOST_BLOCKS, MOST_WIDTH};
ghost use Rattle.chor_xor.specs.Bitmap.{size_of};
ghost use Rattle.chor_xor.specs.Chosen.{given};
ghost use Rattle.row_workers.specs.RowSums.{AreSums};
ghost use Rattle.xor_answers.specs.Asked.{asked_of};
ghost use Rattle.row_workers.specs.declared.group.TheConstants.{MOST_SUMS};

use crate::gather::sum_in_eights;
use crate::group::Masks;
use crate::sets::{MOST_NARROW, sum_set};
use block_matrix::Matrix;
use chor_xor::add_chosen_rows;
use gf256::rows::clear;
use row_workers::{Group, MOST_SUMS, sum_group, takes_wide_lanes};

/// From how many bytes on the rows of a pattern go eight at once.
const LEAST_WIDE: u32 = 1024;

/// Makes `sums` the sums over the rows from `from` up to `to` for each of so many bitmaps, those of
/// the first bitmap first. Where there are several, the rows are gone over once for all.
pub fn sum_bitmaps(matrix: &Matrix, bitmaps: &[u8], count: u8, from: u32, to: u32, sums: &mut [u8])
    requires few { count ≤ MOST_BLOCKS }
    requires order { from ≤ to }
    requires within { to ≤ length matrix.now.rows }
    requires bitmaps { length bitmaps.now ≡ count * size_of (length matrix.now.rows) }
    requires room { length sums.old ≡ count * matrix.now.width }
    ensures { AreSums (asked_of bitmaps.now matrix.now) (count * matrix.now.width) from to sums.new }
{
    if goes_in_sets(count, matrix.width(), to - from) {
        sum_in_sets(matrix, bitmaps, count as usize, from, to, sums);
    } else if takes_wide_lanes(matrix.width() as usize) {
        sum_in_blocks::<32>(matrix, bitmaps, count as usize, from, to, sums);
    } else {
        sum_in_blocks::<16>(matrix, bitmaps, count as usize, from, to, sums);
    }
}

/// Whether so many bitmaps go in sets where there are so many rows of so many bytes. Fewer rows cost
/// less than the sums of their patterns, or than those that wait at the end.
fn goes_in_sets(count: u8, width: u32, rows: u32) -> bool {
    count > 1 && (width <= MOST_NARROW || width >= LEAST_WIDE) && rows >= 4096
}

/// The same, by one pass over the rows for each set of eight bitmaps.
fn sum_in_sets(matrix: &Matrix, bitmaps: &[u8], count: usize, from: u32, to: u32, sums: &mut [u8])
    requires few { count ≤ MOST_BLOCKS }
    requires order { from ≤ to }
    requires within { to ≤ length matrix.now.rows }
    requires bitmaps { length bitmaps.now ≡ count * size_of (length matrix.now.rows) }
    requires room { length sums.old ≡ count * matrix.now.width }
    ensures { AreSums (asked_of bitmaps.now matrix.now) (count * matrix.now.width) from to sums.new }
{
    let size = matrix.rows().div_ceil(8) as usize;
    let width = matrix.width() as usize;
    let mut done = 0;
    'sets: while done < count {
        let end = count.min(done + 8);
        let set = &bitmaps[done * size..end * size];
        let own = &mut sums[done * width..end * width];
        sum_of_set(matrix, set, end - done, from, to, own);
        done = end;
    }
}

/// The same for one set: narrow rows by the sums of their patterns, others eight at once.
fn sum_of_set(matrix: &Matrix, bitmaps: &[u8], count: usize, from: u32, to: u32, sums: &mut [u8])
    requires few { count ≤ 8 }
    requires order { from ≤ to }
    requires within { to ≤ length matrix.now.rows }
    requires bitmaps { length bitmaps.now ≡ count * size_of (length matrix.now.rows) }
    requires room { length sums.old ≡ count * matrix.now.width }
    ensures { AreSums (asked_of bitmaps.now matrix.now) (count * matrix.now.width) from to sums.new }
{
    if matrix.width() <= MOST_NARROW {
        sum_set(matrix, bitmaps, count, from, to, sums);
    } else {
        sum_in_eights(matrix, bitmaps, count, from, to, sums);
    }
}

/// The same, by one pass over the rows for all bitmaps, in blocks of N columns, where they go in a
/// group.
fn sum_in_blocks<const N: usize>(
    matrix: &Matrix,
    bitmaps: &[u8],
    count: usize,
    from: u32,
    to: u32,
    sums: &mut [u8],
)
    requires lanes { (1 ≤ N) × (N ≤ 32) }
    requires few { count ≤ MOST_BLOCKS }
    requires order { from ≤ to }
    requires within { to ≤ length matrix.now.rows }
    requires bitmaps { length bitmaps.now ≡ count * size_of (length matrix.now.rows) }
    requires room { length sums.old ≡ count * matrix.now.width }
    ensures { AreSums (asked_of bitmaps.now matrix.now) (count * matrix.now.width) from to sums.new }
{
    if !is_group::<N>(count, matrix.width() as usize) {
        return sum_each(matrix, bitmaps, count, from, to, sums);
    }
    let group = Group {
        matrix,
        queries: bitmaps,
        count,
    };
    sum_group::<Masks, N>(&Masks, group, from, to, sums);
}

/// Whether so many bitmaps go in a group, in blocks of N columns, where rows have so many bytes.
fn is_group<const N: usize>(count: usize, width: usize) -> bool
    requires lanes { (1 ≤ N) × (N ≤ 32) }
    requires few_bitmaps { count ≤ MOST_BLOCKS }
    requires few { width ≤ MOST_WIDTH }
    ensures some { result ≡ true → 1 ≤ count }
    ensures wide { result ≡ true → N ≤ width }
    ensures fits { result ≡ true → N * (div_ceil width N * count) ≤ MOST_SUMS }
{
    count > 1 && width >= N && N * (width.div_ceil(N) * count) <= MOST_SUMS
}

/// The same, by one pass over the rows for each bitmap.
fn sum_each(matrix: &Matrix, bitmaps: &[u8], count: usize, from: u32, to: u32, sums: &mut [u8])
    requires few { count ≤ MOST_BLOCKS }
    requires order { from ≤ to }
    requires within { to ≤ length matrix.now.rows }
    requires bitmaps { length bitmaps.now ≡ count * size_of (length matrix.now.rows) }
    requires room { length sums.old ≡ count * matrix.now.width }
    ensures { AreSums (asked_of bitmaps.now matrix.now) (count * matrix.now.width) from to sums.new }
{
    let size = matrix.rows().div_ceil(8) as usize;
    let width = matrix.width() as usize;
    for v in 0..count {
        let bitmap = &bitmaps[v * size..(v + 1) * size];
        sum_one(
            matrix,
            bitmap,
            from,
            to,
            &mut sums[v * width..(v + 1) * width],
        );
    }
}

/// The sums for one bitmap.
fn sum_one(matrix: &Matrix, bitmap: &[u8], from: u32, to: u32, sums: &mut [u8])
    requires order { from ≤ to }
    requires within { to ≤ length matrix.now.rows }
    requires bitmap { length bitmap.now ≡ size_of (length matrix.now.rows) }
    requires room { length sums.old ≡ matrix.now.width }
    ensures { (k : ℕ) → slice_index sums.new k ≡ run_sum (given bitmap.now matrix.now.rows k) from to }
{
    clear(sums);
    add_chosen_rows(matrix, bitmap, from, to, sums);
}
