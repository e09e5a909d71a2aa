//! The products of one byte and every other, from tables.
ghost use Rattle.std.specs.Prelude.{◌≡◌, ◌≤◌, length, map, take};
ghost use Rattle.gf256.specs.Field.{◌⊗◌, power};

use gf256::rows;
use gf256::vectors::{LANES, LookUp, Vectors};
use std::marker::Model;
use std::simd::prelude::*;

/// The products of one byte, the factor, and every byte: looked up for one, and by
/// [`rows::Products`] for many at once, also with some powers of the factor. Contracts see the factor.
#[derive(Drop)]
pub struct ProductTable {
    // The product with each byte.
    table: [u8; 256],
    lanes: rows::Products,
    second: rows::Products,
    fourth: rows::Products,
    eighth: rows::Products,
    sixteenth: rows::Products,
}

impl Model for ProductTable {
    ghost use Rattle.std.specs.Prelude.{◌≡◌, ℕ, ◌<◌, slice_index};
    ghost use Rattle.gf256.specs.Field.{◌⊗◌, power};

    ghost Value = { ℕ };

    ghost view = { λ p. p.lanes };

    ghost invariant = { λ p. ((x : ℕ) → x < 256 → slice_index p.table x ≡ p.lanes ⊗ x)
        × (p.second ≡ power p.lanes 2) × (p.fourth ≡ power p.lanes 4)
        × (p.eighth ≡ power p.lanes 8) × (p.sixteenth ≡ power p.lanes 16) };
}

impl ProductTable {
    /// The products of this byte.
    pub fn of(factor: u8) -> ProductTable
        ensures { result ≡ factor }
    {
        let mut table = [0; 256];
        for x in 0..256usize {
            table[x] = gf256::mul(factor, x as u8);
        }
        ProductTable {
            table,
            lanes: rows::Products::of(factor),
            second: rows::Products::of(gf256::pow(factor, 2)),
            fourth: rows::Products::of(gf256::pow(factor, 4)),
            eighth: rows::Products::of(gf256::pow(factor, 8)),
            sixteenth: rows::Products::of(gf256::pow(factor, 16)),
        }
    }

    /// The products with the factor.
    #[inline(always)]
    pub(crate) fn first(&self) -> &rows::Products
        ensures { result.now ≡ self.now }
    {
        &self.lanes
    }

    /// The products with the square of the factor.
    #[inline(always)]
    pub(crate) fn second(&self) -> &rows::Products
        ensures { result.now ≡ power self.now 2 }
    {
        &self.second
    }

    /// The products with the fourth power of the factor.
    #[inline(always)]
    pub(crate) fn fourth(&self) -> &rows::Products
        ensures { result.now ≡ power self.now 4 }
    {
        &self.fourth
    }

    /// The products with the eighth power of the factor.
    #[inline(always)]
    pub(crate) fn eighth(&self) -> &rows::Products
        ensures { result.now ≡ power self.now 8 }
    {
        &self.eighth
    }

    /// The products with the sixteenth power of the factor.
    #[inline(always)]
    pub(crate) fn sixteenth(&self) -> &rows::Products
        ensures { result.now ≡ power self.now 16 }
    {
        &self.sixteenth
    }

    /// The product of the factor and this byte.
    pub(crate) fn times(&self, x: u8) -> u8
        ensures { result ≡ self.now ⊗ x }
    {
        self.table[x as usize]
    }

    /// The product of the factor and each of the bytes.
    #[inline(always)]
    pub(crate) fn times_lanes<const N: usize>(&self, bytes: Simd<u8, N>) -> Simd<u8, N>
    where
        Vectors: LookUp<N>,
        ensures { result ≡ map (λ b. self.now ⊗ b) bytes.entry }
    {
        self.lanes.times(bytes)
    }

    /// Writes the product of the factor and each byte.
    pub(crate) fn times_each(&self, from: &[u8], into: &mut [u8])
        requires { length from.now ≡ length into.old }
        ensures { into.new ≡ map (λ b. self.now ⊗ b) from.now }
    {
        let wide = self.times_in_lanes::<LANES>(from, into, 0);
        let at = self.times_in_lanes::<16>(from, into, wide);
        for i in at..into.len() {
            into[i] = self.times(from[i]);
        }
    }

    /// The same from place `done` on, N bytes at once, where those before are done: until fewer than
    /// N are left. Gives the place of the first of these.
    #[inline(always)]
    fn times_in_lanes<const N: usize>(&self, from: &[u8], into: &mut [u8], done: usize) -> usize
    where
        Vectors: LookUp<N>,
        requires same { length from.now ≡ length into.old }
        requires some { 1 ≤ N }
        requires within { done ≤ length into.old }
        requires done { take done into.old ≡ map (λ b. self.now ⊗ b) (take done from.now) }
        ensures within { result ≤ length into.old }
        ensures done { take result into.new ≡ map (λ b. self.now ⊗ b) (take result from.now) }
    {
        let mut at = done;
        'lanes: while into.len() - at >= N {
            let products = self.times_lanes(Simd::<u8, N>::from_slice(&from[at..]));
            products.copy_to_slice(&mut into[at..]);
            at += N;
        }
        at
    }
}
