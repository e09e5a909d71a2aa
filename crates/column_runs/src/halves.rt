//! Rows of bytes whose low four bits and high four lie apart, as products with many factors take them.

ghost use Rattle.std.specs.Prelude.{◌≡◌, ℕ, ◌+◌, ◌<◌, ◌≤◌, length, slice_index, IfOk};
ghost use Rattle.gf256.specs.Field.{◌⊕◌};
ghost use Rattle.gf256.specs.Rows.{multiple, AreLanes};
ghost use Rattle.column_runs.specs.Halves.{difference, together, AreHalves, AreParts};

use gf256::mul;
use gf256::rows::Products;
use gf256::vectors::{LANES, LookUp, Vectors};
use std::alloc::{AllocError, Global};
use std::marker::Model;
use std::simd::prelude::*;

/// A row of bytes, their low four bits in one list and their high four in another. Contracts see the bytes.
#[derive(Drop)]
pub(crate) struct HalvedRow {
    low: Vec<u8>,
    high: Vec<u8>,
}

impl Model for HalvedRow {
    ghost use Rattle.std.specs.Prelude.{ℕ, List};
    ghost use Rattle.column_runs.specs.Halves.{together, AreHalves};

    ghost Value = { List ℕ };

    ghost view = { λ r. together r.low.items r.high.items };

    ghost invariant = { λ r. AreHalves r.low.items r.high.items };
}

impl HalvedRow {
    /// So many zeros.
    ///
    /// `AllocError` where there is no memory for them.
    pub(crate) fn zeros(alloc: Global, count: usize) -> Result<HalvedRow, AllocError>
        ensures { IfOk result (λ row. length row ≡ count) }
    {
        let low = vec![in alloc; 0; count]?;
        let high = vec![in alloc; 0; count]?;
        Ok(HalvedRow { low, high })
    }

    /// The product of the byte at a place with a factor.
    #[inline(always)]
    pub(crate) fn product(&self, place: usize, factor: &Products) -> u8
        requires { place < length self.now }
        ensures { result ≡ multiple self.now factor.now place }
    {
        let low: &[u8] = &self.low;
        let high: &[u8] = &self.high;
        mul(factor.factor(), high[place] * 16 + low[place])
    }

    /// The products of N bytes, from place `at` on, with a factor.
    #[inline(always)]
    pub(crate) fn products<const N: usize>(&self, at: usize, factor: &Products) -> Simd<u8, N>
    where
        Vectors: LookUp<N>,
        requires { at + N ≤ length self.now }
        ensures { AreLanes N result (multiple self.now factor.now) at }
    {
        products_of_halves(&self.low, &self.high, at, factor)
    }

    /// Makes the first bytes those of the row less those of `first`, which is as long.
    pub(crate) fn set_difference(&mut self, row: &[u8], first: &[u8])
        requires same { length row.now ≡ length first.now }
        requires room { length first.now ≤ length self.old }
        ensures size { length self.new ≡ length self.old }
        ensures each { (c : ℕ) → c < length first.now
            → slice_index self.new c ≡ difference row.now first.now c }
    {
        part_difference(row, first, &mut self.low, &mut self.high);
    }
}

/// The products of N bytes, from place `at` on, with a factor.
#[inline(always)]
fn products_of_halves<const N: usize>(
    low: &[u8],
    high: &[u8],
    at: usize,
    factor: &Products,
) -> Simd<u8, N>
where
    Vectors: LookUp<N>,
    requires halves { AreHalves low.now high.now }
    requires within { at + N ≤ length low.now }
    ensures { AreLanes N result (multiple (together low.now high.now) factor.now) at }
{
    factor.times_halves(Simd::from_slice(&low[at..]), Simd::from_slice(&high[at..]))
}

/// Makes the first of `low` and `high` the low four bits and the high four of the bytes of the row less those of `first`.
///
/// Where the last of these are fewer than 16, the last 16 are made at once, some of them once more.
fn part_difference(row: &[u8], first: &[u8], low: &mut [u8], high: &mut [u8])
    requires width { length row.now ≡ length first.now }
    requires same { length low.old ≡ length high.old }
    requires room { length first.now ≤ length low.old }
    requires parts { AreParts low.old high.old (difference row.now first.now) 0 }
    ensures { AreParts low.new high.new (difference row.now first.now) (length first.now) }
{
    if first.len() < 16 {
        return part_bytes(row, first, low, high);
    }
    let wide = part_in_lanes::<LANES>(row, first, low, high, 0);
    let at = part_in_lanes::<16>(row, first, low, high, wide);
    if at < first.len() {
        part_lanes::<16>(row, first, low, high, first.len() - 16);
    }
}

/// The same for short rows.
fn part_bytes(row: &[u8], first: &[u8], low: &mut [u8], high: &mut [u8])
    requires width { length row.now ≡ length first.now }
    requires same { length low.old ≡ length high.old }
    requires room { length first.now ≤ length low.old }
    requires parts { AreParts low.old high.old (difference row.now first.now) 0 }
    ensures { AreParts low.new high.new (difference row.now first.now) (length first.now) }
{
    for c in 0..first.len() {
        let byte = row[c] ^ first[c];
        low[c] = byte & 15;
        high[c] = byte >> 4;
    }
}

/// Goes on from place `from` on, N bytes at once, until fewer than N are left. Gives the place of the first that is left.
#[inline(always)]
fn part_in_lanes<const N: usize>(
    row: &[u8],
    first: &[u8],
    low: &mut [u8],
    high: &mut [u8],
    from: usize,
) -> usize
    requires some { 1 ≤ N }
    requires width { length row.now ≡ length first.now }
    requires same { length low.old ≡ length high.old }
    requires room { length first.now ≤ length low.old }
    requires within { from ≤ length first.now }
    requires parts { AreParts low.old high.old (difference row.now first.now) from }
    ensures within { result ≤ length first.now }
    ensures few { length first.now < result + N }
    ensures parts { AreParts low.new high.new (difference row.now first.now) result }
{
    let mut at = from;
    'lanes: while first.len() - at >= N {
        part_lanes::<N>(row, first, low, high, at);
        at += N;
    }
    at
}

/// Makes N bytes, from place `at` on.
#[inline(always)]
fn part_lanes<const N: usize>(row: &[u8], first: &[u8], low: &mut [u8], high: &mut [u8], at: usize)
    requires width { length row.now ≡ length first.now }
    requires same { length low.old ≡ length high.old }
    requires room { length first.now ≤ length low.old }
    requires within { at + N ≤ length first.now }
    ensures { (n : ℕ) → at ≤ n → AreParts low.old high.old (difference row.now first.now) n
        → AreParts low.new high.new (difference row.now first.now) (at + N) }
{
    let bytes = Simd::<u8, N>::from_slice(&row[at..]) ^ Simd::from_slice(&first[at..]);
    (bytes & Simd::splat(15)).copy_to_slice(&mut low[at..]);
    (bytes >> Simd::splat(4)).copy_to_slice(&mut high[at..]);
}
