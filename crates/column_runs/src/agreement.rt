//! How far a row agrees with what its factors give, 128 columns at once, then 32 or 16.

ghost use Rattle.std.specs.Prelude.{◌≡◌, ◌≢◌, ℕ, ◌+◌, ◌<◌, ◌≤◌, length, slice_index, true, All};
ghost use Rattle.std.specs.Simd.Lanes.{chunk};
ghost use Rattle.column_runs.specs.Blocks.{IsBlock};
ghost use Rattle.column_runs.specs.Tile.{AreGiven, Differs, Fits};

use crate::halves::HalvedRow;
use crate::sums::{BLOCK, block_at, byte_at, bytes_at};
use gf256::rows::Products;
use gf256::vectors::{LANES, LookUp, Vectors};
use std::simd::prelude::*;

/// In how many columns from the first on the row has the byte of `first`, plus each factor times that of its row of
/// `differences`.
pub(crate) fn agreed_length(
    first: &[u8],
    differences: &[HalvedRow],
    factors: &[Products],
    row: &[u8],
) -> usize
    requires width { length row.now ≡ length first.now }
    requires count { length factors.now ≡ length differences.now }
    requires room { All (λ d. length first.now ≤ length d) differences.now }
    ensures within { result ≤ length first.now }
    ensures same { AreGiven first.now differences.now factors.now row.now result }
    ensures differ { Differs first.now differences.now factors.now row.now result }
{
    if row.len() < 16 {
        return agreed_bytes(first, differences, factors, row);
    }
    let blocks = agreeing_blocks(first, differences, factors, row);
    let mut at = agreeing_lanes::<LANES>(first, differences, factors, row, blocks);
    'lanes: while row.len() - at >= 16 {
        let agreed = agreed_lanes(first, differences, factors, row, at);
        at += agreed;
        if agreed < 16 {
            return at;
        }
    }
    if at == row.len() {
        return at;
    }
    let last = row.len() - 16;
    last + agreed_lanes(first, differences, factors, row, last)
}

/// The same for few columns.
fn agreed_bytes(first: &[u8], differences: &[HalvedRow], factors: &[Products], row: &[u8]) -> usize
    requires width { length row.now ≡ length first.now }
    requires count { length factors.now ≡ length differences.now }
    requires room { All (λ d. length first.now ≤ length d) differences.now }
    ensures within { result ≤ length first.now }
    ensures same { AreGiven first.now differences.now factors.now row.now result }
    ensures differ { Differs first.now differences.now factors.now row.now result }
{
    for c in 0..row.len() {
        if row[c] != byte_at(first, differences, factors, c) {
            return c;
        }
    }
    row.len()
}

/// The same, a block at once: where the row differs, or fewer columns are left, it may stop up to a block early.
#[inline(always)]
fn agreeing_blocks(
    first: &[u8],
    differences: &[HalvedRow],
    factors: &[Products],
    row: &[u8],
) -> usize
    requires width { length row.now ≡ length first.now }
    requires count { length factors.now ≡ length differences.now }
    requires room { All (λ d. length first.now ≤ length d) differences.now }
    ensures within { result ≤ length first.now }
    ensures same { AreGiven first.now differences.now factors.now row.now result }
{
    let mut at = 0;
    'whole: while row.len() - at >= BLOCK {
        let block = block_at(first, differences, factors, at);
        if !is_block(row, at, block) {
            return at;
        }
        at += BLOCK;
    }
    at
}

/// The same of a row that agrees in the columns before `from`, N columns at once: where the row differs, or fewer than N are
/// left, it may stop up to N columns early.
#[inline(always)]
fn agreeing_lanes<const N: usize>(
    first: &[u8],
    differences: &[HalvedRow],
    factors: &[Products],
    row: &[u8],
    from: usize,
) -> usize
where
    Vectors: LookUp<N>,
    requires some { 1 ≤ N }
    requires width { length row.now ≡ length first.now }
    requires count { length factors.now ≡ length differences.now }
    requires room { All (λ d. length first.now ≤ length d) differences.now }
    requires within { from ≤ length first.now }
    requires same { AreGiven first.now differences.now factors.now row.now from }
    ensures within { result ≤ length first.now }
    ensures same { AreGiven first.now differences.now factors.now row.now result }
{
    let mut at = from;
    'lanes: while row.len() - at >= N
        && are_lanes::<N>(row, at, bytes_at::<N>(first, differences, factors, at))
    {
        at += N;
    }
    at
}

/// In how many of the 16 columns from `at` on, from the first of them, the row agrees.
fn agreed_lanes(
    first: &[u8],
    differences: &[HalvedRow],
    factors: &[Products],
    row: &[u8],
    at: usize,
) -> usize
    requires width { length row.now ≡ length first.now }
    requires count { length factors.now ≡ length differences.now }
    requires room { All (λ d. length first.now ≤ length d) differences.now }
    requires within { at + 16 ≤ length first.now }
    ensures within { result ≤ 16 }
    ensures same { (c : ℕ) → c < result
        → Fits first.now differences.now factors.now row.now (at + c) }
    ensures differ { result < 16
        → ¬ Fits first.now differences.now factors.now row.now (at + result) }
{
    let sums = bytes_at::<16>(first, differences, factors, at);
    if are_lanes::<16>(row, at, sums) {
        return 16;
    }
    for i in 0..16 {
        if row[at + i] != sums[i] {
            return i;
        }
    }
    16
}

/// Whether the N bytes of the row from `at` on are these.
#[inline(always)]
fn are_lanes<const N: usize>(row: &[u8], at: usize, lanes: Simd<u8, N>) -> bool
    requires size { length lanes ≡ N }
    requires within { at + N ≤ length row.now }
    ensures { result ≡ true → chunk at N row.now ≡ lanes.entry }
{
    let differences = Simd::<u8, N>::from_slice(&row[at..]) ^ lanes;
    differences.reduce_or() == 0
}

/// Whether the bytes of the row in a block of columns, from `at` on, are these, of which each vector has a quarter.
#[inline(always)]
fn is_block(row: &[u8], at: usize, block: (u8x32, u8x32, u8x32, u8x32)) -> bool
    requires a { length block.0 ≡ 32 }
    requires b { length block.1 ≡ 32 }
    requires c { length block.2 ≡ 32 }
    requires d { length block.3 ≡ 32 }
    requires within { at + BLOCK ≤ length row.now }
    ensures { result ≡ true → IsBlock row.now at block }
{
    let (a, b, c, d) = block;
    let in_a = u8x32::from_slice(&row[at..]) ^ a;
    let in_b = u8x32::from_slice(&row[at + 32..]) ^ b;
    let in_c = u8x32::from_slice(&row[at + 64..]) ^ c;
    let in_d = u8x32::from_slice(&row[at + 96..]) ^ d;
    ((in_a | in_b) | (in_c | in_d)).reduce_or() == 0
}
