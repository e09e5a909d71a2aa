//! Where the coins of rows stand in 16 bytes, for rows whose coins are to fill a width of 2, 4, 8 or
//! 16 lanes with zeros behind them.

ghost use Rattle.std.specs.Prelude.{◌≡◌, ◌+◌, ◌≤◌, length};
ghost use Rattle.std.specs.Simd.Lanes.{chunk};
ghost use Rattle.gf256.specs.Rows.{AreLanes};
ghost use Rattle.shamir_share.specs.Lanes.{IsWidth, sorted_place};

use std::simd::prelude::*;

/// For each width and each number of coins from 1 to the width the places of 16 lanes, 16 bytes each:
/// those of the width 2 first. Lanes with even numbers stand
/// before those with odd ones. A swizzle makes a lane 0 where its place is 128.
const PLACES: [u8; 480] = [
    0, 1, 2, 3, 4, 5, 6, 7, 128, 128, 128, 128, 128, 128, 128, 128, 0, 2, 4, 6, 8, 10, 12, 14, 1,
    3, 5, 7, 9, 11, 13, 15, 0, 128, 1, 128, 2, 128, 3, 128, 128, 128, 128, 128, 128, 128, 128, 128,
    0, 128, 2, 128, 4, 128, 6, 128, 1, 128, 3, 128, 5, 128, 7, 128, 0, 2, 3, 5, 6, 8, 9, 11, 1,
    128, 4, 128, 7, 128, 10, 128, 0, 2, 4, 6, 8, 10, 12, 14, 1, 3, 5, 7, 9, 11, 13, 15, 0, 128,
    128, 128, 1, 128, 128, 128, 128, 128, 128, 128, 128, 128, 128, 128, 0, 128, 128, 128, 2, 128,
    128, 128, 1, 128, 128, 128, 3, 128, 128, 128, 0, 2, 128, 128, 3, 5, 128, 128, 1, 128, 128, 128,
    4, 128, 128, 128, 0, 2, 128, 128, 4, 6, 128, 128, 1, 3, 128, 128, 5, 7, 128, 128, 0, 2, 4, 128,
    5, 7, 9, 128, 1, 3, 128, 128, 6, 8, 128, 128, 0, 2, 4, 128, 6, 8, 10, 128, 1, 3, 5, 128, 7, 9,
    11, 128, 0, 2, 4, 6, 7, 9, 11, 13, 1, 3, 5, 128, 8, 10, 12, 128, 0, 2, 4, 6, 8, 10, 12, 14, 1,
    3, 5, 7, 9, 11, 13, 15, 0, 128, 128, 128, 128, 128, 128, 128, 128, 128, 128, 128, 128, 128,
    128, 128, 0, 128, 128, 128, 128, 128, 128, 128, 1, 128, 128, 128, 128, 128, 128, 128, 0, 2,
    128, 128, 128, 128, 128, 128, 1, 128, 128, 128, 128, 128, 128, 128, 0, 2, 128, 128, 128, 128,
    128, 128, 1, 3, 128, 128, 128, 128, 128, 128, 0, 2, 4, 128, 128, 128, 128, 128, 1, 3, 128, 128,
    128, 128, 128, 128, 0, 2, 4, 128, 128, 128, 128, 128, 1, 3, 5, 128, 128, 128, 128, 128, 0, 2,
    4, 6, 128, 128, 128, 128, 1, 3, 5, 128, 128, 128, 128, 128, 0, 2, 4, 6, 128, 128, 128, 128, 1,
    3, 5, 7, 128, 128, 128, 128, 0, 2, 4, 6, 8, 128, 128, 128, 1, 3, 5, 7, 128, 128, 128, 128, 0,
    2, 4, 6, 8, 128, 128, 128, 1, 3, 5, 7, 9, 128, 128, 128, 0, 2, 4, 6, 8, 10, 128, 128, 1, 3, 5,
    7, 9, 128, 128, 128, 0, 2, 4, 6, 8, 10, 128, 128, 1, 3, 5, 7, 9, 11, 128, 128, 0, 2, 4, 6, 8,
    10, 12, 128, 1, 3, 5, 7, 9, 11, 128, 128, 0, 2, 4, 6, 8, 10, 12, 128, 1, 3, 5, 7, 9, 11, 13,
    128, 0, 2, 4, 6, 8, 10, 12, 14, 1, 3, 5, 7, 9, 11, 13, 128, 0, 2, 4, 6, 8, 10, 12, 14, 1, 3, 5,
    7, 9, 11, 13, 15,
];

/// The places of the lanes where each row has so many coins.
#[inline(always)]
pub(crate) fn places_of(width: usize, coins: usize) -> u8x16
    requires width { IsWidth width }
    requires some { 1 ≤ coins }
    requires few { coins ≤ width }
    ensures { AreLanes 16 result (sorted_place width coins) 0 }
{
    sixteen_at(&PLACES, (width + coins - 3) * 16)
}

/// The 16 bytes from place `at` on.
#[inline(always)]
fn sixteen_at(bytes: &[u8], at: usize) -> u8x16
    requires { at + 16 ≤ length bytes.now }
    ensures { result ≡ chunk at 16 bytes.now }
{
    u8x16::from_slice(&bytes[at..])
}
