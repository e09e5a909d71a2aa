//! Four rows at once for several bitmaps: the bytes of a row are read once for all bitmaps, and the
//! sums are read and written once for the four.

ghost use Rattle.std.specs.Prelude.{◌≡◌, ◌+◌, ◌*◌, ◌<◌, ◌≤◌, length};
ghost use Rattle.std.specs.Int.{div_ceil};
ghost use Rattle.row_workers.specs.Blocks.{IsAddedInBlock};
ghost use Rattle.quantity_limits.specs.declared.TheConstants.{MOST_WIDTH};
ghost use Rattle.row_workers.specs.RowSums.{AddsBelow};
ghost use Rattle.xor_answers.specs.Masked.{masked_at};

use row_workers::blocks::start_of;
use row_workers::{FourRows, lanes_of};
use std::simd::prelude::*;

/// Adds four rows to the sums in blocks of so many bitmaps, each byte as far as its mask has bits:
/// `masks` has 32 bytes for each row of each bitmap.
pub fn add_four_rows<const N: usize>(sums: &mut [u8], rows: FourRows, masks: &[u8], count: usize)
    requires lanes { (1 ≤ N) × (N ≤ 32) }
    requires wide { N ≤ length rows.a.now }
    requires memory { length rows.a.now ≤ MOST_WIDTH }
    requires b { length rows.b.now ≡ length rows.a.now }
    requires c { length rows.c.now ≡ length rows.a.now }
    requires d { length rows.d.now ≡ length rows.a.now }
    requires masks { length masks.now ≡ 2048 }
    requires some { 1 ≤ count }
    requires few { count ≤ 16 }
    requires room { length sums.old ≡ N * (div_ceil (length rows.a.now) N * count) }
    ensures { AddsBelow (masked_at N rows.entry masks.now count) (length sums.old) sums.old sums.new }
{
    for i in 0..rows.a.len().div_ceil(N) {
        add_block::<N>(sums, rows, masks, count, i);
    }
}

/// Adds N columns of the rows to the sums for all bitmaps.
#[inline(always)]
fn add_block<const N: usize>(sums: &mut [u8], rows: FourRows, masks: &[u8], count: usize, i: usize)
    requires lanes { (1 ≤ N) × (N ≤ 32) }
    requires wide { N ≤ length rows.a.now }
    requires b { length rows.b.now ≡ length rows.a.now }
    requires c { length rows.c.now ≡ length rows.a.now }
    requires d { length rows.d.now ≡ length rows.a.now }
    requires masks { length masks.now ≡ 2048 }
    requires some { 1 ≤ count }
    requires few { count ≤ 16 }
    requires memory { N * i < MOST_WIDTH }
    requires room { N * (i * count + count) ≤ length sums.old }
    ensures { IsAddedInBlock N (masked_at N rows.entry masks.now count) count i sums.old sums.new }
{
    let FourRows { a, b, c, d } = rows;
    let start = start_of::<N>(a.len(), i);
    let in_a = lanes_of::<N>(a, start);
    let in_b = lanes_of::<N>(b, start);
    let in_c = lanes_of::<N>(c, start);
    let in_d = lanes_of::<N>(d, start);
    for v in 0..count {
        let at = N * (i * count + v);
        let sum = lanes_of::<N>(sums, at)
            ^ (in_a & lanes_of(masks, 128 * v))
            ^ (in_b & lanes_of(masks, 128 * v + 32))
            ^ (in_c & lanes_of(masks, 128 * v + 64))
            ^ (in_d & lanes_of(masks, 128 * v + 96));
        sum.copy_to_slice(&mut sums[at..]);
    }
}
