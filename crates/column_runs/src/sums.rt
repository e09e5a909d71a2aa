//! The bytes that factors give in the columns of a tile, 128 at once, then 32 or 16.

ghost use Rattle.std.specs.Prelude.{◌≡◌, ◌+◌, ◌<◌, ◌≤◌, length, All};
ghost use Rattle.gf256.specs.Rows.{AreLanes};
ghost use Rattle.column_runs.specs.Tile.{given, AreGiven};

use crate::halves::HalvedRow;
use gf256::add;
use gf256::rows::Products;
use gf256::vectors::{LANES, LookUp, Vectors};
use std::simd::prelude::*;

/// As many columns as are held in registers at once, while the factors pass.
pub(crate) const BLOCK: usize = 128;

/// The byte of `first` in column `c`, plus each factor times that byte of its row of `differences`.
pub(crate) fn byte_at(first: &[u8], differences: &[HalvedRow], factors: &[Products], c: usize) -> u8
    requires within { c < length first.now }
    requires count { length factors.now ≡ length differences.now }
    requires room { All (λ d. length first.now ≤ length d) differences.now }
    ensures { result ≡ given first.now differences.now factors.now c }
{
    let mut sum = first[c];
    for i in 0..factors.len() {
        sum = add(sum, differences[i].product(c, &factors[i]));
    }
    sum
}

/// The same in N columns, from `at` on.
#[inline(always)]
pub(crate) fn bytes_at<const N: usize>(
    first: &[u8],
    differences: &[HalvedRow],
    factors: &[Products],
    at: usize,
) -> Simd<u8, N>
where
    Vectors: LookUp<N>,
    requires within { at + N ≤ length first.now }
    requires count { length factors.now ≡ length differences.now }
    requires room { All (λ d. length first.now ≤ length d) differences.now }
    ensures { AreLanes N result (given first.now differences.now factors.now) at }
{
    let mut sums = Simd::<u8, N>::from_slice(&first[at..]);
    for i in 0..factors.len() {
        sums = sums ^ differences[i].products::<N>(at, &factors[i]);
    }
    sums
}

/// The same in a block of columns, from `at` on, of which each vector has a quarter.
#[inline(always)]
pub(crate) fn block_at(
    first: &[u8],
    differences: &[HalvedRow],
    factors: &[Products],
    at: usize,
) -> (u8x32, u8x32, u8x32, u8x32)
    requires within { at + BLOCK ≤ length first.now }
    requires count { length factors.now ≡ length differences.now }
    requires room { All (λ d. length first.now ≤ length d) differences.now }
    ensures a { AreLanes 32 result.0 (given first.now differences.now factors.now) at }
    ensures b { AreLanes 32 result.1 (given first.now differences.now factors.now) (at + 32) }
    ensures c { AreLanes 32 result.2 (given first.now differences.now factors.now) (at + 64) }
    ensures d { AreLanes 32 result.3 (given first.now differences.now factors.now) (at + 96) }
{
    let mut a = u8x32::from_slice(&first[at..]);
    let mut b = u8x32::from_slice(&first[at + 32..]);
    let mut c = u8x32::from_slice(&first[at + 64..]);
    let mut d = u8x32::from_slice(&first[at + 96..]);
    for i in 0..factors.len() {
        a = a ^ differences[i].products::<32>(at, &factors[i]);
        b = b ^ differences[i].products::<32>(at + 32, &factors[i]);
        c = c ^ differences[i].products::<32>(at + 64, &factors[i]);
        d = d ^ differences[i].products::<32>(at + 96, &factors[i]);
    }
    (a, b, c, d)
}

/// Makes each of the `sums` that byte of `first`, plus each factor times that byte of its row of `differences`.
///
/// Where the last columns are fewer than 16, the last 16 are made at once, some of them once more.
pub(crate) fn extend(first: &[u8], differences: &[HalvedRow], factors: &[Products], sums: &mut [u8])
    requires same { length first.now ≡ length sums.old }
    requires count { length factors.now ≡ length differences.now }
    requires room { All (λ d. length first.now ≤ length d) differences.now }
    ensures { AreGiven first.now differences.now factors.now sums.new (length first.now) }
{
    if sums.len() < 16 {
        return extend_bytes(first, differences, factors, sums);
    }
    let blocks = extend_blocks(first, differences, factors, sums);
    let wide = extend_lanes::<LANES>(first, differences, factors, sums, blocks);
    let at = extend_lanes::<16>(first, differences, factors, sums, wide);
    if at < sums.len() {
        let last = sums.len() - 16;
        bytes_at::<16>(first, differences, factors, last).copy_to_slice(&mut sums[last..]);
    }
}

/// The same for few columns.
fn extend_bytes(first: &[u8], differences: &[HalvedRow], factors: &[Products], sums: &mut [u8])
    requires same { length first.now ≡ length sums.old }
    requires count { length factors.now ≡ length differences.now }
    requires room { All (λ d. length first.now ≤ length d) differences.now }
    ensures { AreGiven first.now differences.now factors.now sums.new (length first.now) }
{
    for c in 0..sums.len() {
        sums[c] = byte_at(first, differences, factors, c);
    }
}

/// Makes the `sums` a block at once, until fewer are left. Gives the place of the first that is left.
#[inline(always)]
fn extend_blocks(
    first: &[u8],
    differences: &[HalvedRow],
    factors: &[Products],
    sums: &mut [u8],
) -> usize
    requires same { length first.now ≡ length sums.old }
    requires count { length factors.now ≡ length differences.now }
    requires room { All (λ d. length first.now ≤ length d) differences.now }
    ensures within { result ≤ length first.now }
    ensures made { AreGiven first.now differences.now factors.now sums.new result }
{
    let mut at = 0;
    'whole: while sums.len() - at >= BLOCK {
        let (a, b, c, d) = block_at(first, differences, factors, at);
        a.copy_to_slice(&mut sums[at..]);
        b.copy_to_slice(&mut sums[at + 32..]);
        c.copy_to_slice(&mut sums[at + 64..]);
        d.copy_to_slice(&mut sums[at + 96..]);
        at += BLOCK;
    }
    at
}

/// Goes on with the `sums`, of which those before `from` are made, N at once, until fewer than N are left. Gives the place of
/// the first that is left.
#[inline(always)]
fn extend_lanes<const N: usize>(
    first: &[u8],
    differences: &[HalvedRow],
    factors: &[Products],
    sums: &mut [u8],
    from: usize,
) -> usize
where
    Vectors: LookUp<N>,
    requires some { 1 ≤ N }
    requires same { length first.now ≡ length sums.old }
    requires count { length factors.now ≡ length differences.now }
    requires room { All (λ d. length first.now ≤ length d) differences.now }
    requires within { from ≤ length first.now }
    requires made { AreGiven first.now differences.now factors.now sums.old from }
    ensures within { result ≤ length first.now }
    ensures few { length first.now < result + N }
    ensures made { AreGiven first.now differences.now factors.now sums.new result }
{
    let mut at = from;
    'lanes: while sums.len() - at >= N {
        bytes_at::<N>(first, differences, factors, at).copy_to_slice(&mut sums[at..]);
        at += N;
    }
    at
}
