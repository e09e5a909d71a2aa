//! Six rows at once, each times a factor of its own, so that the sums are read and written once for
//! the six.

ghost use Rattle.std.specs.Prelude.{◌≡◌, ◌+◌, ◌<◌, ◌≤◌, length};
ghost use Rattle.gf256.specs.Rows.{AreLanes, IsAdded};
ghost use Rattle.row_workers.specs.RowSums.{Adds};
ghost use Rattle.server_product.specs.SixRows.{scaled_at, six_at, AreProductsOf};

use crate::rows::Scaled;
use gf256::mul;
use gf256::rows::Products;
use gf256::tables::Tables;
use gf256::vectors::{LANES, LookUp, Vectors};
use row_workers::lanes_of;
use std::simd::prelude::*;

/// Six rows, each with the factor that it is multiplied by.
#[derive(Clone, Copy, Drop)]
pub struct SixRows<'a> {
    pub a: Scaled<'a>,
    pub b: Scaled<'a>,
    pub c: Scaled<'a>,
    pub d: Scaled<'a>,
    pub e: Scaled<'a>,
    pub f: Scaled<'a>,
}

/// The products of the factor of each of six rows.
#[derive(Drop)]
pub struct SixProducts {
    a: Products,
    b: Products,
    c: Products,
    d: Products,
    e: Products,
    f: Products,
}

/// The products with the factor, from the tables where there are such.
#[inline(always)]
fn products_with(factor: u8, tables: Option<&Tables>) -> Products
    ensures { result ≡ factor }
{
    match tables {
        Some(tables) => tables.products(factor),
        None => Products::of(factor),
    }
}

/// Those of these rows.
#[inline(always)]
fn products_of(six: SixRows, tables: Option<&Tables>) -> SixProducts
    ensures { AreProductsOf result six.entry }
{
    SixProducts {
        a: products_with(six.a.factor, tables),
        b: products_with(six.b.factor, tables),
        c: products_with(six.c.factor, tables),
        d: products_with(six.d.factor, tables),
        e: products_with(six.e.factor, tables),
        f: products_with(six.f.factor, tables),
    }
}

/// The products of N bytes of the row from place `at` on.
#[inline(always)]
fn products_at<const N: usize>(scaled: Scaled, products: &Products, at: usize) -> Simd<u8, N>
where
    Vectors: LookUp<N>,
    requires factor { products.now ≡ scaled.factor }
    requires within { at + N ≤ length scaled.row.now }
    ensures { AreLanes N result (scaled_at scaled.entry) at }
{
    products.times(lanes_of(scaled.row, at))
}

/// The sums of the products of N bytes of each row from place `at` on.
#[inline(always)]
fn six_lanes<const N: usize>(six: SixRows, products: &SixProducts, at: usize) -> Simd<u8, N>
where
    Vectors: LookUp<N>,
    requires products { AreProductsOf products.now six }
    requires a { at + N ≤ length six.a.row.now }
    requires b { at + N ≤ length six.b.row.now }
    requires c { at + N ≤ length six.c.row.now }
    requires d { at + N ≤ length six.d.row.now }
    requires e { at + N ≤ length six.e.row.now }
    requires f { at + N ≤ length six.f.row.now }
    ensures { AreLanes N result (six_at six.entry) at }
{
    products_at(six.a, &products.a, at)
        ^ products_at(six.b, &products.b, at)
        ^ products_at(six.c, &products.c, at)
        ^ products_at(six.d, &products.d, at)
        ^ products_at(six.e, &products.e, at)
        ^ products_at(six.f, &products.f, at)
}

/// Adds the products of N places of the rows, from place `at` on, to those of `acc`.
#[inline(always)]
fn add_lanes<const N: usize>(acc: &mut [u8], six: SixRows, products: &SixProducts, at: usize)
where
    Vectors: LookUp<N>,
    requires products { AreProductsOf products.now six }
    requires a { length six.a.row.now ≡ length acc.old }
    requires b { length six.b.row.now ≡ length acc.old }
    requires c { length six.c.row.now ≡ length acc.old }
    requires d { length six.d.row.now ≡ length acc.old }
    requires e { length six.e.row.now ≡ length acc.old }
    requires f { length six.f.row.now ≡ length acc.old }
    requires within { at + N ≤ length acc.old }
    ensures { IsAdded acc.new acc.old (six_at six.entry) at (at + N) }
{
    let sum = lanes_of::<N>(acc, at) ^ six_lanes(six, products, at);
    sum.copy_to_slice(&mut acc[at..]);
}

/// Adds the products of the places of the rows to those of `acc`, 32 at once and then 16, until fewer
/// than 16 are left. Gives the first that is left.
#[inline(always)]
fn add_in_lanes(acc: &mut [u8], six: SixRows, products: &SixProducts) -> usize
    requires products { AreProductsOf products.now six }
    requires a { length six.a.row.now ≡ length acc.old }
    requires b { length six.b.row.now ≡ length acc.old }
    requires c { length six.c.row.now ≡ length acc.old }
    requires d { length six.d.row.now ≡ length acc.old }
    requires e { length six.e.row.now ≡ length acc.old }
    requires f { length six.f.row.now ≡ length acc.old }
    ensures within { result ≤ length acc.old }
    ensures few { length acc.old < result + 16 }
    ensures added { IsAdded acc.new acc.old (six_at six.entry) 0 result }
{
    let mut at = 0;
    'lanes: while acc.len() - at >= LANES {
        add_lanes::<LANES>(acc, six, products, at);
        at += LANES;
    }
    if acc.len() - at < 16 {
        return at;
    }
    add_lanes::<16>(acc, six, products, at);
    at + 16
}

/// Adds the six rows, each times its factor, to `acc`: each is as long. Where the last places are
/// fewer than 16, the last 16 are added at once: some of them are done before, so their sums are
/// taken from what stood there at first. The products of the factors come from the tables where there
/// are such.
pub fn add_six_rows(acc: &mut [u8], six: SixRows, tables: Option<&Tables>)
    requires a { length six.a.row.now ≡ length acc.old }
    requires b { length six.b.row.now ≡ length acc.old }
    requires c { length six.c.row.now ≡ length acc.old }
    requires d { length six.d.row.now ≡ length acc.old }
    requires e { length six.e.row.now ≡ length acc.old }
    requires f { length six.f.row.now ≡ length acc.old }
    ensures { Adds (six_at six.entry) acc.old acc.new }
{
    if acc.len() < 16 {
        return add_six_short(acc, six);
    }
    let products = products_of(six, tables);
    let last = acc.len() - 16;
    let end = lanes_of::<16>(acc, last);
    let at = add_in_lanes(acc, six, &products);
    if at < acc.len() {
        let sum = end ^ six_lanes(six, &products, last);
        sum.copy_to_slice(&mut acc[last..]);
    }
}

/// The same for rows of fewer than 16 bytes.
fn add_six_short(acc: &mut [u8], six: SixRows)
    requires a { length six.a.row.now ≡ length acc.old }
    requires b { length six.b.row.now ≡ length acc.old }
    requires c { length six.c.row.now ≡ length acc.old }
    requires d { length six.d.row.now ≡ length acc.old }
    requires e { length six.e.row.now ≡ length acc.old }
    requires f { length six.f.row.now ≡ length acc.old }
    ensures { Adds (six_at six.entry) acc.old acc.new }
{
    let SixRows { a, b, c, d, e, f } = six;
    for i in 0..acc.len() {
        acc[i] ^= mul(a.factor, a.row[i])
            ^ mul(b.factor, b.row[i])
            ^ mul(c.factor, c.row[i])
            ^ mul(d.factor, d.row[i])
            ^ mul(e.factor, e.row[i])
            ^ mul(f.factor, f.row[i]);
    }
}
