//! Three rows of the same factor at once: their sum is multiplied, which costs one product for the
//! three.

ghost use Rattle.std.specs.Prelude.{◌≡◌, ℕ, ◌+◌, ◌≤◌, length, slice_index};
ghost use Rattle.gf256.specs.Field.{◌⊕◌, ◌⊗◌};
ghost use Rattle.gf256.specs.Rows.{IsAdded};
ghost use Rattle.server_product.specs.Trios.{trio_at, AddsTrios};

use gf256::mul;
use gf256::rows::Products;
use gf256::vectors::{LANES, LookUp, Vectors};
use row_workers::lanes_of;
use std::simd::prelude::*;

/// How many columns the second of two trios stays behind the first: half a page of 4096 bytes.
const LAG: usize = 2048;

/// Three rows, and the factor that each is multiplied by.
#[derive(Clone, Copy, Drop)]
pub struct Trio<'a> {
    pub a: &'a [u8],
    pub b: &'a [u8],
    pub c: &'a [u8],
    pub factor: u8,
}

/// Adds the products of N places of the rows, from place `at` on, to those of `acc`.
#[inline(always)]
fn add_lanes<const N: usize>(acc: &mut [u8], trio: Trio, products: &Products, at: usize)
where
    Vectors: LookUp<N>,
    requires a { length trio.a.now ≡ length acc.old }
    requires b { length trio.b.now ≡ length acc.old }
    requires c { length trio.c.now ≡ length acc.old }
    requires factor { products.now ≡ trio.factor }
    requires within { at + N ≤ length acc.old }
    ensures { IsAdded acc.new acc.old (trio_at trio.entry) at (at + N) }
{
    let rows = lanes_of::<N>(trio.a, at) ^ lanes_of(trio.b, at) ^ lanes_of(trio.c, at);
    let sum = lanes_of::<N>(acc, at) ^ products.times(rows);
    sum.copy_to_slice(&mut acc[at..]);
}

/// Adds the products of the places from `from` on to those of `acc`, N at once, until fewer than N
/// are left before `to`. Gives the first that is left.
#[inline(always)]
fn add_in_lanes<const N: usize>(
    acc: &mut [u8],
    trio: Trio,
    products: &Products,
    from: usize,
    to: usize,
) -> usize
where
    Vectors: LookUp<N>,
    requires a { length trio.a.now ≡ length acc.old }
    requires b { length trio.b.now ≡ length acc.old }
    requires c { length trio.c.now ≡ length acc.old }
    requires factor { products.now ≡ trio.factor }
    requires some { 1 ≤ N }
    requires order { from ≤ to }
    requires within { to ≤ length acc.old }
    ensures order { from ≤ result }
    ensures within { result ≤ to }
    ensures added { IsAdded acc.new acc.old (trio_at trio.entry) from result }
{
    let mut at = from;
    'lanes: while to - at >= N {
        add_lanes::<N>(acc, trio, products, at);
        at += N;
    }
    at
}

/// Adds the products of the places from `from` up to `to` to those of `acc`.
fn add_places(acc: &mut [u8], trio: Trio, products: &Products, from: usize, to: usize)
    requires a { length trio.a.now ≡ length acc.old }
    requires b { length trio.b.now ≡ length acc.old }
    requires c { length trio.c.now ≡ length acc.old }
    requires factor { products.now ≡ trio.factor }
    requires order { from ≤ to }
    requires within { to ≤ length acc.old }
    ensures { IsAdded acc.new acc.old (trio_at trio.entry) from to }
{
    let wide = add_in_lanes::<LANES>(acc, trio, products, from, to);
    let at = add_in_lanes::<16>(acc, trio, products, wide, to);
    for i in at..to {
        acc[i] ^= mul(trio.factor, trio.a[i] ^ trio.b[i] ^ trio.c[i]);
    }
}

/// Adds the rows of two trios, each times its factor, to `acc`: each row is as long. The second
/// trio stays half a page behind the first. So not all six rows come to a new page at the same
/// time, as rows of whole pages do otherwise, which makes them slower.
pub fn add_two_trios(acc: &mut [u8], first: Trio, second: Trio)
    requires first_a { length first.a.now ≡ length acc.old }
    requires first_b { length first.b.now ≡ length acc.old }
    requires first_c { length first.c.now ≡ length acc.old }
    requires second_a { length second.a.now ≡ length acc.old }
    requires second_b { length second.b.now ≡ length acc.old }
    requires second_c { length second.c.now ≡ length acc.old }
    ensures { AddsTrios first.entry second.entry acc.old acc.new }
{
    let by_first = Products::of(first.factor);
    let by_second = Products::of(second.factor);
    let len = acc.len();
    let lag = LAG.min(len);
    add_places(acc, first, &by_first, 0, lag);
    let mut at = lag;
    'lanes: while len - at >= LANES {
        add_lanes::<LANES>(acc, first, &by_first, at);
        add_lanes::<LANES>(acc, second, &by_second, at - lag);
        at += LANES;
    }
    add_places(acc, first, &by_first, at, len);
    add_places(acc, second, &by_second, at - lag, len);
}
