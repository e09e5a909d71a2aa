//! The queries of Shamir's sharing (Shamir 1979; Goldberg 2007): what a client sends to each server
//! that it asks for one block of a database.
//!
//! Each row of the database has a polynomial of degree at most `t`, whose constant is 1 for the
//! block that is asked for and 0 for the others, and whose other coefficients are the row's coins.
//! A server's query is the value of each at the server's index.
//!
//! Promised, for all coins: [`query_into`] writes exactly these values, and takes no memory.
//! [`masks_into`] writes the values of the polynomials without their constants, for any number of
//! coins a row.
//!
//! Not promised: that up to `t` servers together learn nothing. That holds where the coins are
//! uniform, secret and used once, which the caller sees to. Nor is anything said of time: the
//! places that are read of a table depend on the coins.
#![tactic(auto)]

mod cells;
mod lanes;
mod masks;
mod places;
mod products;
mod sixteens;

ghost use Rattle.std.specs.Prelude.{◌≡◌, ◌≢◌, ◌*◌, ◌<◌, ◌≤◌, length};
ghost use Rattle.shamir_share.specs.Query.{query};

pub use lanes::{MOST_IN_LANES, lane_masks, wide_masks};
pub use masks::masks_into;
pub use products::ProductTable;
pub use sixteens::Sixteens;

/// Writes the query of one server: at `j` the value at `index` of the polynomial of row `j`, with
/// the constant 1 where `j` is `block` and 0 elsewhere, and then the `t` coins of the row, at
/// `j * t` and on.
///
/// There are `r * t` coins, `out` is `r` long, the block is one of the `r` rows, the index isn't 0,
/// and the degree `t` is from 1 to 254. It takes no memory.
///
/// ```
/// // Two rows and degree 1: the polynomials are `05 x` and `01 + 07 x`.
/// let mut out = [0; 2];
/// query_into(&[0x05, 0x07], 1, 2, 1, 2, &mut out); // out is `0a 0f`
/// ```
pub fn query_into(coins: &[u8], t: u32, r: u32, block: u32, index: u8, out: &mut [u8])
    requires coins { length coins.now ≡ r * t }
    requires room { length out.old ≡ r }
    requires block { block < r }
    requires index { index ≢ 0 }
    requires some { 1 ≤ t }
    requires few { t ≤ 254 }
    ensures { out.new ≡ query coins.now t r block index }
{
    let products = ProductTable::of(index);
    masks_into(&products, coins, t as usize, out);
    out[block as usize] ^= 1;
}
