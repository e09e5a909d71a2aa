//! The bitmaps that a client sends.

ghost use Rattle.std.specs.Prelude.{◌≡◌, ℕ, ◌+◌, ◌-◌, ◌*◌, ◌<◌, ◌≤◌, ◌^◌, MatchBool, length, slice_index, if◌then◌else◌};
ghost use Rattle.quantity_limits.specs.declared.TheConstants.{MOST_ROWS};
ghost use Rattle.chor_xor.specs.Bitmap.{AreSummed, IsTrim, bit_of, bitmap, cleared, has_unused, size_of, unused_bits};

use gf256::rows::{add_row, clear};

/// Writes the bitmap of server `index`, counted from 1, where `n` servers are asked for the row
/// `block` of `r` rows.
///
/// There are two servers or more, the index is from 1 to `n`, and the block is one of the rows.
/// There are `(n - 1) * ceil(r / 8)` coins, and `out` has `ceil(r / 8)` bytes. Each server before
/// the last gets a piece of the coins as its bitmap, with the unused low bits of the last byte
/// cleared; the last gets the XOR of all those and of the bit of the block (Chor, Goldreich,
/// Kushilevitz and Sudan 1995). It takes no memory.
///
/// ```
/// // Two servers, two rows, block 1: the bitmaps are `80` and `c0`.
/// let mut out = [0];
/// bitmap_into(&[0x80], 2, 2, 1, 2, &mut out); // out is `c0`
/// ```
pub fn bitmap_into(coins: &[u8], n: u32, r: u32, block: u32, index: u8, out: &mut [u8])
    requires servers { 2 ≤ n }
    requires first { 1 ≤ index }
    requires last { index ≤ n }
    requires block { block < r }
    requires coins { length coins.now ≡ (n - 1) * size_of r }
    requires room { length out.old ≡ size_of r }
    ensures { out.new ≡ bitmap coins.now n r block index }
{
    let size = out.len();
    let others = n as usize - 1;
    let piece = index as usize - 1;
    if piece < others {
        out.copy_from_slice(&coins[piece * size..(piece + 1) * size]);
        clear_unused(out, r);
    } else {
        sum_pieces(coins, others, out);
        clear_unused(out, r);
        out[block as usize / 8] ^= 1 << (7 - block % 8);
    }
}

/// Makes `out` the XOR of so many pieces of the coins, each as long as it is.
fn sum_pieces(coins: &[u8], count: usize, out: &mut [u8])
    requires { length coins.now ≡ count * length out.old }
    ensures { AreSummed coins.now (length out.old) count out.new }
{
    clear(out);
    let size = out.len();
    for i in 0..count {
        add_row(out, &coins[i * size..(i + 1) * size]);
    }
}

/// Clears the unused bits of a bitmap of `r` bits.
fn clear_unused(bitmap: &mut [u8], r: u32)
    requires some { 1 ≤ r }
    requires size { length bitmap.old ≡ size_of r }
    ensures { (k : ℕ) → slice_index bitmap.new k ≡ cleared r k (slice_index bitmap.old k) }
{
    let last = bitmap.len() - 1;
    bitmap[last] &= 0xff << unused_in_last(r);
}

/// How many low bits are unused of the last byte of a bitmap of `r` bits.
fn unused_in_last(r: u32) -> u32
    requires { 1 ≤ r }
    ensures few { result < 8 }
    ensures is { result ≡ unused_bits r (size_of r - 1) }
{
    (8 - r % 8) % 8
}

/// Whether a bit past those of the `r` rows is set, for which a server refuses a query. There is a
/// row or more, and the bitmap has `ceil(r / 8)` bytes. With two rows `c0` has none, and `a0` has
/// one.
pub fn has_unused_bits(bitmap: &[u8], r: u32) -> bool
    requires some { 1 ≤ r }
    requires size { length bitmap.now ≡ size_of r }
    ensures is { result ≡ has_unused r bitmap.now }
    ensures bits { MatchBool result (IsTrim r bitmap.now → ⊥) (IsTrim r bitmap.now) }
{
    bitmap[bitmap.len() - 1] & ((1 << unused_in_last(r)) - 1) != 0
}

/// Whether row `j`, for which the bitmap has a bit, has it set.
#[inline(always)]
pub fn is_set(bitmap: &[u8], j: u32) -> bool
    requires { j < 8 * length bitmap.now }
    ensures { bit_of bitmap.now j ≡ (if result then 1 else 0) }
{
    bitmap[j as usize / 8] >> (7 - j % 8) & 1 == 1
}

/// The first row from `from` on whose bit is set, or `to` where none before it has one.
#[inline(always)]
pub(crate) fn next_set(bitmap: &[u8], from: u32, to: u32) -> u32
    requires order { from ≤ to }
    requires within { to ≤ 8 * length bitmap.now }
    requires few { to ≤ MOST_ROWS }
    ensures from { from ≤ result }
    ensures to { result ≤ to }
    ensures others { (j : ℕ) → from ≤ j → j < result → bit_of bitmap.now j ≡ 0 }
    ensures set { result < to → bit_of bitmap.now result ≡ 1 }
{
    if from == to {
        return to;
    }
    let mut byte = from / 8;
    let mut rest = bitmap[byte as usize] & 0xff >> (from % 8);
    'bytes: while rest == 0 {
        byte += 1;
        if 8 * byte >= to {
            return to;
        }
        rest = bitmap[byte as usize];
    }
    (8 * byte + rest.leading_zeros()).min(to)
}
