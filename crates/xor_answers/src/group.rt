//! The sums over a run of rows for a group of bitmaps: what four rows give to them, under masks, and
//! what the few give that are left over.

ghost use Rattle.std.specs.Prelude.{◌≡◌, ℕ, ◌+◌, ◌*◌, ◌<◌, ◌≤◌, length, slice_index};
ghost use Rattle.quantity_limits.specs.declared.TheConstants.{MOST_ROWS};
ghost use Rattle.chor_xor.specs.Bitmap.{size_of, bit_of};
ghost use Rattle.xor_answers.specs.Asked.{asked_of};
ghost use Rattle.xor_answers.specs.Masked.{AreMasks};

use crate::four_rows::add_four_rows;
use chor_xor::{add_chosen_rows, is_set};
use row_workers::{Group, GroupSums, four_apart};
use std::simd::prelude::*;

/// Bitmaps, each of which takes the bytes of a row as far as its mask has bits.
#[derive(Drop)]
pub struct Masks;

impl<const N: usize> GroupSums<N> for Masks {
    ghost query_size = { size_of };

    ghost gives = { asked_of };

    fn add_four(&self, group: Group, j: u32, apart: u32, room: &mut [u8], blocks: &mut [u8]) {
        let Group {
            matrix,
            queries: bitmaps,
            count,
        } = group;
        let size = matrix.rows().div_ceil(8) as usize;
        // Its contract bounds the width.
        let _width = matrix.width();
        set_masks(room, bitmaps, size, count, j, apart);
        let four = four_apart(matrix, j, apart);
        add_four_rows::<N>(blocks, four, room, count);
    }

    fn add_few(&self, group: Group, v: usize, from: u32, to: u32, sums: &mut [u8]) {
        let size = group.matrix.rows().div_ceil(8) as usize;
        let bitmap = &group.queries[v * size..(v + 1) * size];
        add_chosen_rows(group.matrix, bitmap, from, to, sums);
    }
}

/// Sets the masks of so many bitmaps for row `j` and for the three that follow each so many rows
/// after the one before: 32 bytes with all bits where the bitmap asks for the row, and else none.
fn set_masks(masks: &mut [u8], bitmaps: &[u8], size: usize, count: usize, j: u32, apart: u32)
    requires room { length masks.old ≡ 2048 }
    requires few { count ≤ 16 }
    requires within { j + 3 * apart < 8 * size }
    requires memory { size ≤ MOST_ROWS }
    requires bitmaps { length bitmaps.now ≡ count * size }
    ensures { AreMasks masks.new bitmaps.now size count j apart }
{
    for v in 0..count {
        let bitmap = &bitmaps[v * size..(v + 1) * size];
        mask_of(bitmap, j).copy_to_slice(&mut masks[128 * v..]);
        mask_of(bitmap, j + apart).copy_to_slice(&mut masks[128 * v + 32..]);
        mask_of(bitmap, j + 2 * apart).copy_to_slice(&mut masks[128 * v + 64..]);
        mask_of(bitmap, j + 3 * apart).copy_to_slice(&mut masks[128 * v + 96..]);
    }
}

/// All bits where the bitmap asks for row `j`, and else none.
#[inline(always)]
fn mask_of(bitmap: &[u8], j: u32) -> u8x32
    requires { j < 8 * length bitmap.now }
    ensures size { length result ≡ 32 }
    ensures each { (k : ℕ) → k < 32 → slice_index result k ≡ 255 * bit_of bitmap.now j }
{
    u8x32::splat(if is_set(bitmap, j) { 255 } else { 0 })
}
