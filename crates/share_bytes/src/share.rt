//! The share of one server.

ghost use Rattle.std.specs.Prelude.{◌≡◌, ◌≢◌, ◌*◌, ◌≤◌, length, take};
ghost use Rattle.share_bytes.specs.Share.{share};

use gf256::rows::add_row;
use gf256::vectors::{LANES, LookUp, Vectors};
use shamir_share::{MOST_IN_LANES, ProductTable, Sixteens, lane_masks, masks_into, wide_masks};
use std::simd::prelude::*;

/// How many positions that lanes don't take are worked off at once, so that their share is still at
/// hand when the bytes are added.
const PIECE: usize = 4096;

/// Writes the share of one server: at `i` the value at `index` of the polynomial of position `i`,
/// with the constant `bytes[i]` and then the `tau` coins of the position, at `i * tau` and on.
///
/// `out` is as long as the bytes, there are `tau` times as many coins, the index isn't 0, and the
/// degree `tau` is from 1 to 254. It takes no memory.
///
/// ```
/// // Two positions and degree 1: the polynomials are `41 + 01 x` and `42 + 02 x`.
/// let mut out = [0; 2];
/// share_into(&[0x41, 0x42], &[0x01, 0x02], 1, 2, &mut out); // out is `43 46`
/// ```
pub fn share_into(bytes: &[u8], coins: &[u8], tau: u32, index: u8, out: &mut [u8])
    requires coins { length coins.now ≡ length bytes.now * tau }
    requires room { length out.old ≡ length bytes.now }
    requires index { index ≢ 0 }
    requires some { 1 ≤ tau }
    requires few { tau ≤ 254 }
    ensures { out.new ≡ share bytes.now coins.now tau index }
{
    let products = ProductTable::of(index);
    let tau = tau as usize;
    let mut at = lanes_into(&products, bytes, coins, tau, out);
    'pieces: while at < out.len() {
        let end = at + PIECE.min(out.len() - at);
        share_piece(
            &products,
            &bytes[at..end],
            &coins[at * tau..end * tau],
            tau,
            &mut out[at..end],
        );
        at = end;
    }
}

/// Writes the share of the first positions, many of them at once. Gives how many are done.
fn lanes_into(
    products: &ProductTable,
    bytes: &[u8],
    coins: &[u8],
    tau: usize,
    out: &mut [u8],
) -> usize
    requires some { 1 ≤ tau }
    requires coins { length coins.now ≡ length bytes.now * tau }
    requires room { length out.old ≡ length bytes.now }
    ensures within { result ≤ length bytes.now }
    ensures done { take result out.new ≡ take result (share bytes.now coins.now tau products.now) }
{
    if tau > MOST_IN_LANES {
        return lanes_from::<16>(products, bytes, coins, tau, 0, out);
    }
    let wide = lanes_from::<LANES>(products, bytes, coins, tau, 0, out);
    lanes_from::<16>(products, bytes, coins, tau, wide, out)
}

/// The same from position `from` on, N of them at once, where those before are done: until fewer
/// than N are left.
fn lanes_from<const N: usize>(
    products: &ProductTable,
    bytes: &[u8],
    coins: &[u8],
    tau: usize,
    from: usize,
    out: &mut [u8],
) -> usize
where
    Vectors: LookUp<N>,
    Vectors: Sixteens<N>,
    requires some { 1 ≤ tau }
    requires coins { length coins.now ≡ length bytes.now * tau }
    requires room { length out.old ≡ length bytes.now }
    requires within { from ≤ length bytes.now }
    requires done { take from out.old ≡ take from (share bytes.now coins.now tau products.now) }
    ensures within { result ≤ length bytes.now }
    ensures done { take result out.new ≡ take result (share bytes.now coins.now tau products.now) }
{
    let mut at = from;
    'lanes: while out.len() - at >= N {
        let own = &coins[at * tau..];
        let masks = if tau > MOST_IN_LANES {
            wide_masks::<N>(products, own, tau)
        } else {
            lane_masks::<N>(products, own, tau)
        };
        (masks ^ Simd::<u8, N>::from_slice(&bytes[at..])).copy_to_slice(&mut out[at..]);
        at += N;
    }
    at
}

/// The share of positions that are few.
fn share_piece(products: &ProductTable, bytes: &[u8], coins: &[u8], tau: usize, out: &mut [u8])
    requires coins { length coins.now ≡ length bytes.now * tau }
    requires room { length out.old ≡ length bytes.now }
    ensures { out.new ≡ share bytes.now coins.now tau products.now }
{
    masks_into(products, coins, tau, out);
    add_row(out, bytes);
}
