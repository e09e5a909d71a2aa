//! Partners of the coins of a shared database.

ghost use Rattle.std.specs.Prelude.{◌≡◌, ◌≢◌, ◌*◌, ◌≤◌, length, All, IfOk};
ghost use Rattle.gf256.specs.Rows.{IsAdded};
ghost use Rattle.share_db.specs.Partner.{HoldAlike, difference, partner_db};

use privacy_law::hiding;
use std::alloc::{AllocError, Global};

/// The partner of the coins of a shared database, for a coalition of servers and two databases
/// `from` and `to`: from the partner each member of the coalition holds for `to` exactly the share
/// that it holds from the coins for `from`. The partner of the partner, with the databases
/// exchanged, is the coins. So the call is a bijection of the coins, under which the two databases
/// look the same to the coalition.
///
/// Both databases have one length, and there are `tau` coins for each byte, as [`crate::share_into`]
/// takes them. The coalition is given by the servers' indices, at most `tau` of them and none 0, in
/// any order.
///
/// To coefficient `e` of position `i` it adds `g[e] * (from[i] + to[i])`, `g(x)` being the product
/// of `1 - x/a` over the members `a` (Shamir 1979). It is 1 at 0 and 0 at each member, so that the
/// two constants exchange and no member's value changes.
///
/// Want of memory is the only error.
///
/// ```
/// // One byte and degree 1. From `01` server 2 holds `43` for `41`, and from the partner for `00`.
/// let changed = partner_db(alloc, &[0x01], &[0x41], &[0x00], 1, &[2])?; // `ac`
/// ```
pub fn partner_db(
    alloc: Global,
    coins: &[u8],
    from: &[u8],
    to: &[u8],
    tau: u32,
    coalition: &[u8],
) -> Result<Vec<u8>, AllocError>
    requires coins { length coins.now ≡ length from.now * tau }
    requires shape { length to.now ≡ length from.now }
    requires bound { length coalition.now ≤ tau }
    requires nonzero { All (λ a. a ≢ 0) coalition.now }
    ensures is { IfOk result (λ v. v.items ≡ partner_db coins.now from.now to.now tau coalition.now) }
    ensures shares { IfOk result (λ v. HoldAlike tau coalition.now from.now coins.now to.now v.items) }
    ensures length { IfOk result (λ v. length v.items ≡ length coins.now) }
    ensures own_inverse { IfOk result (λ v.
        partner_db v.items to.now from.now tau coalition.now ≡ coins.now) }
{
    let hiding = hiding(alloc, coalition)?;
    let mut changed = Vec::from_slice(alloc, coins)?;
    add_differences(&mut changed, &hiding, from, to, tau as usize);
    Ok(changed)
}

/// Adds to each coin its coefficient of `g`, times the sum of both databases at its position.
fn add_differences(coins: &mut [u8], g: &[u8], from: &[u8], to: &[u8], tau: usize)
    requires coins { length coins.old ≡ length from.now * tau }
    requires shape { length to.now ≡ length from.now }
    ensures { IsAdded coins.new coins.old (difference g.now from.now to.now tau) 0 (length coins.old) }
{
    for j in 0..coins.len() {
        let coefficient = g.get(j % tau + 1).copied().unwrap_or(0);
        coins[j] ^= gf256::mul(coefficient, from[j / tau] ^ to[j / tau]);
    }
}
