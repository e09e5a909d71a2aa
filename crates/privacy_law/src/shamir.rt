//! Partners of coins in Shamir's scheme.

ghost use Rattle.std.specs.Prelude.{◌≡◌, ◌≢◌, ◌+◌, ◌*◌, ◌<◌, ◌≤◌, length, map, All, IfOk};
ghost use Rattle.gf256.specs.Field.{◌⊗◌};
ghost use Rattle.privacy_law.specs.Alike.{AreSentAlike, asking};
ghost use Rattle.privacy_law.specs.Hiding.{hiding};
ghost use Rattle.privacy_law.specs.Partner.{added_to_row, partner};

use std::alloc::{AllocError, Global};

/// The partner of the coins of a query, for a coalition of servers and two blocks `b` and `b2`:
/// from the partner each member of the coalition is sent for block `b2` exactly what it is sent
/// from the coins for block `b`. The partner of the partner, with the blocks exchanged, is the
/// coins. So the call is a bijection of the coins, under which the two blocks look the same to the
/// coalition.
///
/// The coins are `t` for each of the `r` rows, as `shamir_share::query_into` takes them, and both
/// blocks are rows. The coalition is given by the servers' indices, at most `t` of them and none 0,
/// in any order.
///
/// To the coins of row `b`, and to those of row `b2`, coefficients 1 to `t` of the polynomial
/// `g(x)` are added that is the product of `1 - x/a` over the members `a` (Shamir 1979). It is 1 at
/// 0 and 0 at each member, so that the two constants exchange and no member's value changes.
///
/// Want of memory is the only error.
///
/// ```
/// // Two rows and degree 1. Server 2 is asked for block 1 from `05 07`, and for block 0 from the partner, by `0a 0f`.
/// let changed = partner(alloc, &[0x05, 0x07], 1, 2, &[2], 1, 0)?; // `88 8a`
/// ```
pub fn partner(
    alloc: Global,
    coins: &[u8],
    t: u32,
    r: u32,
    coalition: &[u8],
    b: u32,
    b2: u32,
) -> Result<Vec<u8>, AllocError>
    requires coins { length coins.now ≡ r * t }
    requires bound { length coalition.now ≤ t }
    requires nonzero { All (λ a. a ≢ 0) coalition.now }
    requires block { b < r }
    requires other { b2 < r }
    ensures is { IfOk result (λ v. v.items ≡ partner coins.now t coalition.now b b2) }
    ensures queries { IfOk result (λ v.
        AreSentAlike t r coalition.now (asking v.items b2) (asking coins.now b)) }
    ensures length { IfOk result (λ v. length v.items ≡ length coins.now) }
    ensures own_inverse { IfOk result (λ v. partner v.items t coalition.now b2 b ≡ coins.now) }
{
    let hiding = hiding(alloc, coalition)?;
    let mut changed = Vec::from_slice(alloc, coins)?;
    add_to_rows(&mut changed, &hiding, t as usize, b as usize, b2 as usize);
    Ok(changed)
}

/// The product of `1 - x/a` over the members `a` of the coalition, none of which is 0 (Shamir 1979):
/// one coefficient more than there are members. It is 1 at 0, and 0 at each member. Want of memory
/// is the only error.
pub fn hiding(alloc: Global, coalition: &[u8]) -> Result<Vec<u8>, AllocError>
    requires { All (λ a. a ≢ 0) coalition.now }
    ensures { IfOk result (λ v. v.items ≡ hiding coalition.now) }
{
    let mut made = uni_poly::vanishing(alloc, coalition)?;
    let scale = gf256::inv(made[0]);
    multiply(&mut made, scale);
    Ok(made)
}

/// Multiplies each coefficient by the factor.
fn multiply(p: &mut [u8], factor: u8)
    ensures { p.new ≡ map (λ c. factor ⊗ c) p.old }
{
    for i in 0..p.len() {
        p[i] = gf256::mul(factor, p[i]);
    }
}

/// Adds the coefficients of `g` from 1 on to the coins of two rows, `t` a row, one after the other.
fn add_to_rows(coins: &mut [u8], g: &[u8], t: usize, b: usize, b2: usize)
    requires row { b * t + t ≤ length coins.old }
    requires other { b2 * t + t ≤ length coins.old }
    requires some { 0 < length g.now }
    requires few { length g.now ≤ t + 1 }
    ensures { coins.new ≡ added_to_row (added_to_row coins.old t g.now b) t g.now b2 }
{
    add_to_row(coins, g, t, b);
    add_to_row(coins, g, t, b2);
}

/// Adds the coefficients of `g` from 1 on to the coins of one row.
fn add_to_row(coins: &mut [u8], g: &[u8], t: usize, row: usize)
    requires row { row * t + t ≤ length coins.old }
    requires some { 0 < length g.now }
    requires few { length g.now ≤ t + 1 }
    ensures { coins.new ≡ added_to_row coins.old t g.now row }
{
    uni_poly::add_into(&mut coins[row * t..row * t + t], &g[1..]);
}
