//! Partners of coins in the XOR scheme.

ghost use Rattle.std.specs.Prelude.{◌≡◌, ◌+◌, ◌*◌, ◌/◌, ◌<◌, ◌≤◌, length, IfOk};
ghost use Rattle.chor_xor.specs.Bitmap.{unit_byte};
ghost use Rattle.privacy_law.specs.Alike.{OthersAreSentAlike, asking};
ghost use Rattle.privacy_law.specs.Partner.{bitmap_coins, partner_xor};
ghost use Rattle.privacy_law.specs.Pieces.{added};

use std::alloc::{AllocError, Global};

/// The partner of the coins of a query in the XOR scheme, for all of `n` servers but `left_out`,
/// which are counted from 1, and two blocks `b` and `b2`: from the partner each of these servers is
/// sent for block `b2` exactly the bitmap that it is sent from the coins for block `b`. The partner
/// of the partner, with the blocks exchanged, is the coins.
///
/// There are `(n - 1) * ceil(r / 8)` coins, as `chor_xor::bitmap_into` takes them, and both blocks
/// are among the `r` rows.
///
/// The last server is sent the XOR of all other bitmaps and the block's bit. Where it is left out,
/// nobody else is sent anything of the block, and the coins stay. Else the bits of both blocks are
/// flipped in the bitmap that is left out, and so in the XOR, where each undoes the change of a
/// block's bit. Unused bits stay as they are.
///
/// Want of memory is the only error.
///
/// ```
/// // Two servers, two rows. Server 2 is sent `c0` for block 1 from `80`, and for block 0 from the partner.
/// let changed = partner_xor(alloc, &[0x80], 2, 2, 1, 1, 0)?; // `40`
/// ```
pub fn partner_xor(
    alloc: Global,
    coins: &[u8],
    n: u32,
    r: u32,
    left_out: u8,
    b: u32,
    b2: u32,
) -> Result<Vec<u8>, AllocError>
    requires first { 1 ≤ left_out }
    requires last { left_out ≤ n }
    requires block { b < r }
    requires other { b2 < r }
    requires coins { length coins.now ≡ bitmap_coins n r }
    ensures is { IfOk result (λ v. v.items ≡ partner_xor coins.now n r left_out b b2) }
    ensures bitmaps { IfOk result (λ v.
        OthersAreSentAlike n r left_out (asking v.items b2) (asking coins.now b)) }
    ensures length { IfOk result (λ v. length v.items ≡ length coins.now) }
    ensures own_inverse { IfOk result (λ v. partner_xor v.items n r left_out b2 b ≡ coins.now) }
{
    let mut changed = Vec::from_slice(alloc, coins)?;
    exchange(&mut changed, n, r, left_out, b, b2);
    Ok(changed)
}

/// Makes the coins their partner.
fn exchange(coins: &mut [u8], n: u32, r: u32, left_out: u8, b: u32, b2: u32)
    requires first { 1 ≤ left_out }
    requires last { left_out ≤ n }
    requires block { b < r }
    requires other { b2 < r }
    requires coins { length coins.old ≡ bitmap_coins n r }
    ensures { coins.new ≡ partner_xor coins.old n r left_out b b2 }
{
    if u32::from(left_out) == n {
        return;
    }
    let size = r.div_ceil(8) as usize;
    let piece = left_out as usize - 1;
    flip_bit(coins, size, piece, b);
    flip_bit(coins, size, piece, b2);
}

/// Flips the bit of one row in one of the bitmaps of so many bytes.
fn flip_bit(coins: &mut [u8], size: usize, piece: usize, row: u32)
    requires room { piece * size + size ≤ length coins.old }
    requires row { row / 8 < size }
    ensures { coins.new ≡ added coins.old size piece (unit_byte row) }
{
    coins[piece * size + row as usize / 8] ^= 1 << (7 - row % 8);
}
