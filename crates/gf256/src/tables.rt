//! The products with every byte, made once, for who multiplies by many factors.

ghost use Rattle.std.specs.Prelude.{◌≡◌, ◌+◌, ◌≤◌, map};
ghost use Rattle.std.specs.Simd.Lanes.{chunk};
ghost use Rattle.gf256.specs.Field.{◌⊗◌};
ghost use Rattle.gf256.specs.Tables.{HasProducts};

use crate::rows::Products;
use crate::vectors::{LookUp, Vectors};
use std::simd::prelude::*;

/// Puts the products of `factor` where they belong in a table of 8192 bytes.
fn put_products(table: &mut [u8], factor: u8)
    requires { HasProducts table.old factor }
    ensures { HasProducts table.new (factor + 1) }
{
    let products = Products::of(factor);
    let at = 32 * usize::from(factor);
    let low = u8x16::from_array([0, 1, 2, 3, 4, 5, 6, 7, 8, 9, 10, 11, 12, 13, 14, 15]);
    products.times(low).copy_to_slice(&mut table[at..]);
    let high = products.times(low << u8x16::splat(4));
    high.copy_to_slice(&mut table[at + 16..]);
}

/// The 16 bytes of a table from place `at` on.
#[inline(always)]
fn lanes_at(table: &[u8; 8192], at: usize) -> u8x16
    requires { at + 16 ≤ 8192 }
    ensures { result ≡ chunk at 16 table.now }
{
    u8x16::from_slice(&table[at..])
}

/// For each factor its products with 0 to 15 and with 0, 16, .. 240: 32 bytes each.
#[derive(Drop)]
pub struct Tables {
    bytes: [u8; 8192],
    ghost held: { HasProducts bytes 256 },
}

impl Tables {
    /// All of them.
    pub fn new() -> Tables {
        let mut bytes = [0; 8192];
        for factor in 0..256u32 {
            put_products(&mut bytes, factor as u8);
        }
        Tables { bytes }
    }

    /// The products with `factor`, which takes less time than [`Products::of`].
    #[inline(always)]
    pub fn products(&self, factor: u8) -> Products
        ensures { result ≡ factor }
    {
        let at = 32 * usize::from(factor);
        Products::of_lanes(lanes_at(&self.bytes, at), lanes_at(&self.bytes, at + 16))
    }

    /// The product of each of the bytes with the factor.
    #[inline(always)]
    pub fn times<const N: usize>(&self, factor: u8, bytes: Simd<u8, N>) -> Simd<u8, N>
    where
        Vectors: LookUp<N>,
        ensures { result ≡ map (λ x. factor ⊗ x) bytes.entry }
    {
        self.products(factor).times(bytes)
    }
}
