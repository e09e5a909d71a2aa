//! The values of polynomials whose constant is 0, for 32 or 16 rows at once.

ghost use Rattle.std.specs.Prelude.{◌≡◌, ◌*◌, ◌+◌, ◌-◌, ◌/◌, ◌<◌, ◌≤◌, length, take, true};
ghost use Rattle.std.specs.Int.{div_ceil};
ghost use Rattle.gf256.specs.Rows.{AreLanes};
ghost use Rattle.shamir_share.specs.Query.{masks};
ghost use Rattle.shamir_share.specs.declared.lanes.TheConstants.{MOST_IN_LANES};
ghost use Rattle.shamir_share.specs.Lanes.{value_from, AreSixteens, IsWidth};

use crate::cells::Cells;
use crate::masks::rows_into;
use crate::places::places_of;
use crate::products::ProductTable;
use crate::sixteens::Sixteens;
use gf256::vectors::{LANES, LookUp, Vectors};
use std::simd::prelude::*;

/// The most coins a row of which 32 rows are worked off at once. Where a row has more, what is
/// worked off at once is more than the registers of some processors hold.
pub const MOST_IN_LANES: usize = 8;

/// Writes the values of the first rows, many of them at once. Gives how many rows are done: those
/// that are left are fewer than sixteen, or are the last sixteen, or have no coins.
pub(crate) fn lanes_into(products: &ProductTable, coins: &[u8], t: usize, out: &mut [u8]) -> usize
    requires { length coins.now ≡ length out.old * t }
    ensures within { result ≤ length out.old }
    ensures done { take result out.new ≡ masks coins.now t result products.now }
{
    if t == 0 {
        return 0;
    }
    if t > MOST_IN_LANES {
        return lanes_from::<16>(products, coins, t, 0, out);
    }
    let wide = lanes_from::<LANES>(products, coins, t, 0, out);
    lanes_from::<16>(products, coins, t, wide, out)
}

/// The same from row `from` on, N of them at once, where those before are done: until fewer than N
/// are left, or their last lanes would be read past the last coin.
#[inline(always)]
fn lanes_from<const N: usize>(
    products: &ProductTable,
    coins: &[u8],
    t: usize,
    from: usize,
    out: &mut [u8],
) -> usize
where
    Vectors: LookUp<N>,
    Vectors: Sixteens<N>,
    requires lanes { AreSixteens N }
    requires some { 1 ≤ t }
    requires coins { length coins.now ≡ length out.old * t }
    requires within { from ≤ length out.old }
    requires done { take from out.old ≡ masks coins.now t from products.now }
    ensures within { result ≤ length out.old }
    ensures done { take result out.new ≡ masks coins.now t result products.now }
{
    let width = width_of(t);
    let mut row = from;
    'lanes: while out.len() - row >= N && may_read::<N>(&coins[row * t..], t, width) {
        let values = lane_values::<N>(products, &coins[row * t..], t, width);
        products.times_lanes(values).copy_to_slice(&mut out[row..]);
        row += N;
    }
    row
}

/// The values of the first N rows of `t` coins, as [`crate::masks_into`] writes them, for N of 16 or
/// 32: a row has one coin or more. There may be more coins behind the rows, which are read and change
/// nothing.
#[inline(always)]
pub fn lane_masks<const N: usize>(products: &ProductTable, rows: &[u8], t: usize) -> Simd<u8, N>
where
    Vectors: LookUp<N>,
    Vectors: Sixteens<N>,
    requires some { 1 ≤ t }
    requires rows { N * t ≤ length rows.now }
    ensures { result ≡ masks rows.now t N products.now }
{
    if t == 1 {
        return products.times_lanes(Simd::<u8, N>::from_slice(rows));
    }
    let width = width_of(t);
    if !may_read::<N>(rows, t, width) {
        return last_masks::<N>(products, &rows[..N * t], t);
    }
    products.times_lanes(lane_values::<N>(products, rows, t, width))
}

/// What [`lane_masks`] gives, sooner where a row has more than [`MOST_IN_LANES`] coins.
#[inline(always)]
pub fn wide_masks<const N: usize>(products: &ProductTable, rows: &[u8], t: usize) -> Simd<u8, N>
where
    Vectors: LookUp<N>,
    Vectors: Sixteens<N>,
    requires some { 1 ≤ t }
    requires rows { N * t ≤ length rows.now }
    ensures { result ≡ masks rows.now t N products.now }
{
    if !may_read::<N>(rows, t, 16) {
        return last_masks::<N>(products, &rows[..N * t], t);
    }
    products.times_lanes(wide_values::<N>(products, rows, t))
}

/// The same row by row, where the last lanes would be read past the last coin.
#[inline(never)]
fn last_masks<const N: usize>(products: &ProductTable, rows: &[u8], t: usize) -> Simd<u8, N>
    requires { length rows.now ≡ N * t }
    ensures { result ≡ masks rows.now t N products.now }
{
    let mut values = [0; N];
    rows_into(products, rows, t, 0, &mut values);
    Simd::from_array(values)
}

/// How many lanes a row of `t` coins fills: where there are more than 16, they are read 16 at a time.
#[inline(always)]
fn width_of(t: usize) -> usize
    ensures width { IsWidth result }
    ensures wide { result < 16 → t ≤ result }
{
    if t <= 2 {
        2
    } else if t <= 4 {
        4
    } else if t <= 8 {
        8
    } else {
        16
    }
}

/// Whether the coins of N rows, with those behind them, are enough for the last lanes.
#[inline(always)]
fn may_read<const N: usize>(rows: &[u8], t: usize, width: usize) -> bool
    requires lanes { AreSixteens N }
    requires width { IsWidth width }
    requires whole { N * t ≤ length rows.now }
    ensures { result ≡ true → (N - 16 / width) * t + div_ceil t 16 * 16 ≤ length rows.now }
{
    rows.len() >= (N - 16 / width) * t + t.div_ceil(16) * 16
}

/// The values of N rows, each of the polynomial whose coefficients are all of the row's coins.
#[inline(always)]
fn lane_values<const N: usize>(
    products: &ProductTable,
    rows: &[u8],
    t: usize,
    width: usize,
) -> Simd<u8, N>
where
    Vectors: LookUp<N>,
    Vectors: Sixteens<N>,
    requires lanes { AreSixteens N }
    requires width { IsWidth width }
    requires some { 1 ≤ t }
    requires wide { width < 16 → t ≤ width }
    requires whole { N * t ≤ length rows.now }
    requires room { (N - 16 / width) * t + div_ceil t 16 * 16 ≤ length rows.now }
    ensures { AreLanes N result (value_from rows.now t 0 products.now) 0 }
{
    if width == 16 {
        return values_in_parts(products, rows, t);
    }
    let cells = Cells {
        t,
        from: 0,
        width,
        apart: 16 / width * t,
        places: places_of(width, t),
    };
    if width == 2 {
        return cells.twos(rows, products, 0);
    }
    if width == 4 {
        return cells.fours(rows, products, 0);
    }
    cells.eights(rows, products, 0)
}

/// The same of rows that are read 16 coins at a time. It is a call, since `lane_values` would be too
/// large to be inlined always.
#[inline(never)]
fn values_in_parts<const N: usize>(products: &ProductTable, rows: &[u8], t: usize) -> Simd<u8, N>
where
    Vectors: LookUp<N>,
    Vectors: Sixteens<N>,
    requires lanes { AreSixteens N }
    requires some { 1 ≤ t }
    requires whole { N * t ≤ length rows.now }
    requires room { (N - 1) * t + div_ceil t 16 * 16 ≤ length rows.now }
    ensures { AreLanes N result (value_from rows.now t 0 products.now) 0 }
{
    wide_values::<N>(products, rows, t)
}

/// The same, from the last coins to the first, by Horner's rule.
#[inline(always)]
fn wide_values<const N: usize>(products: &ProductTable, rows: &[u8], t: usize) -> Simd<u8, N>
where
    Vectors: LookUp<N>,
    Vectors: Sixteens<N>,
    requires lanes { AreSixteens N }
    requires some { 1 ≤ t }
    requires whole { N * t ≤ length rows.now }
    requires room { (N - 1) * t + div_ceil t 16 * 16 ≤ length rows.now }
    ensures { AreLanes N result (value_from rows.now t 0 products.now) 0 }
{
    let mut values = Simd::<u8, N>::splat(0);
    let mut part = t.div_ceil(16);
    'parts: while part > 0 {
        part -= 1;
        let from = 16 * part;
        let cells = Cells {
            t,
            from,
            width: 16,
            apart: t,
            places: places_of(16, (t - from).min(16)),
        };
        values = products.sixteenth().times(values) ^ cells.sixteens(rows, products);
    }
    values
}
