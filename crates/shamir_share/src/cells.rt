//! Rows of coins, as many as lanes, of which each fills 2, 4, 8 or 16 lanes, with zeros behind its
//! coins, and their values by halves: each second number, and a factor times the one behind it, are
//! the numbers of rows that are half as wide. Each sixteen of the lanes is for sixteen of the rows.
//!
//! A polynomial's value is that of its even coefficients at the square of the point, and the point
//! times that of its odd ones (Estrin 1960). So rows of 16 coins, as many as lanes, take 15 products
//! of lanes.

ghost use Rattle.std.specs.Prelude.{◌≡◌, ◌+◌, ◌*◌, ◌≤◌, length};
ghost use Rattle.gf256.specs.Rows.{AreLanes};
ghost use Rattle.shamir_share.specs.Lanes.{joined, padded_by, paired, part, spread, unit_lane, value_lane, AreCellsOf};

use crate::products::ProductTable;
use crate::sixteens::Sixteens;
use gf256::rows::Products;
use gf256::vectors::{LookUp, Vectors};
use std::simd::prelude::*;

/// How rows of `t` coins are read, from coin `from` of each on. Sixteen lanes are 16 bytes, which
/// `places` sorts, and stand `apart` bytes after those before.
#[derive(Drop)]
pub(crate) struct Cells {
    pub t: usize,
    pub from: usize,
    pub width: usize,
    pub apart: usize,
    pub places: u8x16,
}

impl Cells {
    /// Of each sixteen rows 16 lanes, those with number `u`, the even ones of them before the odd
    /// ones.
    #[inline(always)]
    fn unit<const N: usize>(&self, rows: &[u8], u: usize) -> Simd<u8, N>
    where
        Vectors: Sixteens<N>,
        requires cells { AreCellsOf N rows.now self.now }
        requires within { u + 1 ≤ self.now.width }
        ensures { AreLanes N result (unit_lane rows.now self.now u) 0 }
    {
        Vectors::sorted_at(rows, u * self.apart + self.from, 16 * self.t, self.places)
    }

    /// The values of pairs of lanes: of each sixteen rows 16 of them, from that of lane `16 * u` on.
    #[inline(always)]
    pub fn twos<const N: usize>(
        &self,
        rows: &[u8],
        products: &ProductTable,
        u: usize,
    ) -> Simd<u8, N>
    where
        Vectors: LookUp<N>,
        Vectors: Sixteens<N>,
        requires cells { AreCellsOf N rows.now self.now }
        requires within { u + 2 ≤ self.now.width }
        ensures { AreLanes N result (value_lane rows.now self.now 2 products.now u) 0 }
    {
        join(products.first(), self.unit(rows, u), self.unit(rows, u + 1))
    }

    /// The values of four lanes each: of each sixteen rows 16 of them, from that of lane `16 * u` on.
    #[inline(always)]
    pub fn fours<const N: usize>(
        &self,
        rows: &[u8],
        products: &ProductTable,
        u: usize,
    ) -> Simd<u8, N>
    where
        Vectors: LookUp<N>,
        Vectors: Sixteens<N>,
        requires cells { AreCellsOf N rows.now self.now }
        requires within { u + 4 ≤ self.now.width }
        ensures { AreLanes N result (value_lane rows.now self.now 4 products.now u) 0 }
    {
        pair(
            products.second(),
            self.twos(rows, products, u),
            self.twos(rows, products, u + 2),
        )
    }

    /// The values of eight lanes each: of each sixteen rows 16 of them, from that of lane `16 * u` on.
    #[inline(always)]
    pub fn eights<const N: usize>(
        &self,
        rows: &[u8],
        products: &ProductTable,
        u: usize,
    ) -> Simd<u8, N>
    where
        Vectors: LookUp<N>,
        Vectors: Sixteens<N>,
        requires cells { AreCellsOf N rows.now self.now }
        requires within { u + 8 ≤ self.now.width }
        ensures { AreLanes N result (value_lane rows.now self.now 8 products.now u) 0 }
    {
        pair(
            products.fourth(),
            self.fours(rows, products, u),
            self.fours(rows, products, u + 4),
        )
    }

    /// The values of sixteen lanes each: of each sixteen rows 16 of them.
    #[inline(always)]
    pub fn sixteens<const N: usize>(&self, rows: &[u8], products: &ProductTable) -> Simd<u8, N>
    where
        Vectors: LookUp<N>,
        Vectors: Sixteens<N>,
        requires cells { AreCellsOf N rows.now self.now }
        requires within { 16 ≤ self.now.width }
        ensures { AreLanes N result (λ k. part (padded_by rows.now self.now) 16 products.now (spread 0 self.now.width k)) 0 }
    {
        pair(
            products.eighth(),
            self.eights(rows, products, 0),
            self.eights(rows, products, 8),
        )
    }
}

/// The first eight lanes of each sixteen of both, and the factor times the last eight.
#[inline(always)]
fn join<const N: usize>(products: &Products, a: Simd<u8, N>, b: Simd<u8, N>) -> Simd<u8, N>
where
    Vectors: LookUp<N>,
    Vectors: Sixteens<N>,
    ensures { AreLanes N result (joined N a.entry b.entry products.now) 0 }
{
    Vectors::first_eights(a, b) ^ products.times(Vectors::last_eights(a, b))
}

/// Each second lane of both, and the factor times the lane behind it.
#[inline(always)]
fn pair<const N: usize>(products: &Products, a: Simd<u8, N>, b: Simd<u8, N>) -> Simd<u8, N>
where
    Vectors: LookUp<N>,
    Vectors: Sixteens<N>,
    ensures { AreLanes N result (paired N a.entry b.entry products.now) 0 }
{
    let even = Vectors::evens(a, b);
    let odd = Vectors::odds(a, b);
    even ^ products.times(odd)
}
