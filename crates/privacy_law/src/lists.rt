//! Partners of the coins for several blocks: those of each block's own coins.

ghost use Rattle.std.specs.Prelude.{◌≡◌, ◌≢◌, ◌*◌, ◌<◌, ◌≤◌, length, All, IfOk};
ghost use Rattle.quantity_limits.specs.declared.TheConstants.{MOST_BLOCKS};
ghost use Rattle.privacy_law.specs.Alike.{AllAreSentAlike, AllOthersAreSentAlike, asking_all};
ghost use Rattle.privacy_law.specs.Partner.{bitmap_coins, partner_list, partner_xor_list};

use crate::shamir::partner;
use crate::xor::partner_xor;
use std::alloc::{AllocError, Global};

/// The partner of the coins of a query for several blocks: one after another that of each block's own
/// coins, as [`partner`] has it for the blocks at the same place of `b` and of `b2`.
///
/// The coins are `r * t` for each block, one after the other. Both lists have from 1 to
/// [`MOST_BLOCKS`](wire_frames::MOST_BLOCKS) rows, and are of one length.
///
/// Want of memory is the only error.
///
/// ```
/// // Two rows and degree 1. From `0507 0102` server 2 is asked for rows 1 and 0, by `0a0f 0304`,
/// // and from the partner for rows 0 and 1.
/// let changed = partner_list(alloc, &[0x05, 0x07, 0x01, 0x02], 1, 2, &[2], &[1, 0], &[0, 1])?; // `888a 8c8f`
/// ```
pub fn partner_list(
    alloc: Global,
    coins: &[u8],
    t: u32,
    r: u32,
    coalition: &[u8],
    b: &[u32],
    b2: &[u32],
) -> Result<Vec<u8>, AllocError>
    requires some { 1 ≤ length b.now }
    requires few { length b.now ≤ MOST_BLOCKS }
    requires as_many { length b2.now ≡ length b.now }
    requires coins { length coins.now ≡ length b.now * (r * t) }
    requires bound { length coalition.now ≤ t }
    requires nonzero { All (λ a. a ≢ 0) coalition.now }
    requires blocks { All (λ block. block < r) b.now }
    requires others { All (λ block. block < r) b2.now }
    ensures is { IfOk result (λ v.
        v.items ≡ partner_list coins.now t r coalition.now b.now b2.now) }
    ensures queries { IfOk result (λ v. AllAreSentAlike t r coalition.now
        (asking_all v.items b2.now) (asking_all coins.now b.now)) }
    ensures length { IfOk result (λ v. length v.items ≡ length coins.now) }
    ensures own_inverse { IfOk result (λ v.
        partner_list v.items t r coalition.now b2.now b.now ≡ coins.now) }
{
    let size = r as usize * t as usize;
    let mut changed = Vec::with_capacity(alloc, coins.len())?;
    for i in 0..b.len() {
        let own = &coins[i * size..(i + 1) * size];
        let partner = partner(alloc, own, t, r, coalition, b[i], b2[i])?;
        changed.extend_from_slice(&partner)?;
    }
    Ok(changed)
}

/// The partner of the coins of a query for several blocks in the XOR scheme: one after another that of
/// each block's own coins, as [`partner_xor`] has it for the blocks at the same place of `b` and of
/// `b2`.
///
/// There are `(n - 1) * ceil(r / 8)` coins for each block, one after the other. Both lists have from 1
/// to [`MOST_BLOCKS`](wire_frames::MOST_BLOCKS) rows, and are of one length.
///
/// Want of memory is the only error.
///
/// ```
/// // Two servers, two rows, for rows 1 and 0, and then for rows 0 and 1.
/// let changed = partner_xor_list(alloc, &[0x80, 0x80], 2, 2, 1, &[1, 0], &[0, 1])?; // `40 40`
/// ```
pub fn partner_xor_list(
    alloc: Global,
    coins: &[u8],
    n: u32,
    r: u32,
    left_out: u8,
    b: &[u32],
    b2: &[u32],
) -> Result<Vec<u8>, AllocError>
    requires some { 1 ≤ length b.now }
    requires few { length b.now ≤ MOST_BLOCKS }
    requires as_many { length b2.now ≡ length b.now }
    requires first { 1 ≤ left_out }
    requires last { left_out ≤ n }
    requires blocks { All (λ block. block < r) b.now }
    requires others { All (λ block. block < r) b2.now }
    requires coins { length coins.now ≡ length b.now * bitmap_coins n r }
    ensures is { IfOk result (λ v.
        v.items ≡ partner_xor_list coins.now n r left_out b.now b2.now) }
    ensures bitmaps { IfOk result (λ v. AllOthersAreSentAlike n r left_out
        (asking_all v.items b2.now) (asking_all coins.now b.now)) }
    ensures length { IfOk result (λ v. length v.items ≡ length coins.now) }
    ensures own_inverse { IfOk result (λ v.
        partner_xor_list v.items n r left_out b2.now b.now ≡ coins.now) }
{
    let size = (n as usize - 1) * r.div_ceil(8) as usize;
    let mut changed = Vec::with_capacity(alloc, coins.len())?;
    for i in 0..b.len() {
        let bitmaps = &coins[i * size..(i + 1) * size];
        let partner = partner_xor(alloc, bitmaps, n, r, left_out, b[i], b2[i])?;
        changed.extend_from_slice(&partner)?;
    }
    Ok(changed)
}
