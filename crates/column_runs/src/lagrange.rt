//! Lagrange interpolation: values of polynomials by their values at enough places.

ghost use Rattle.std.specs.Prelude.{◌≡◌, ◌≢◌, ℕ, ◌+◌, ◌<◌, length, map, take, drop, slice_index, AllPairs, IfOk};
ghost use Rattle.gf256.specs.Field.{◌⊗◌};
ghost use Rattle.gf256.specs.Polynomial.{val};
ghost use Rattle.uni_poly.specs.Product.{vanishing};
ghost use Rattle.column_runs.specs.Lagrange.{basis_polynomial, weight, AreFactors, AreWeights, Extends};

use gf256::rows::Products;
use gf256::{add, inv, mul};
use std::alloc::{AllocError, Global};

/// The factors by which values at the first of some places give those at the others, and at 0, ready to be multiplied with.
#[derive(Drop)]
pub struct Factors {
    /// Those for each of the other places.
    pub others: Vec<Vec<Products>>,
    /// Those for 0.
    pub zero: Vec<Products>,
}

/// The factors by which the values of a polynomial of degree at most `t` at the first `t + 1` of the `xs` give those at the
/// others, and its constant (Lagrange 1795). What they share, a weight for each of the first, is made once, so that all
/// together take about `t * t` products, and `4 * t` more for each of the others.
pub(crate) fn factors_by_first(alloc: Global, xs: &[u8], t: u32) -> Result<Factors, AllocError>
    requires enough { t < length xs.now }
    requires distinct { AllPairs (λ x y. x ≢ y) xs.now }
    ensures { IfOk result (λ f. AreFactors xs.now t (map (λ v. v.items) f.others.items) f.zero.items) }
{
    let base = &xs[..t as usize + 1];
    let weights = weights_of(alloc, base)?;
    let mut factors = vec![in alloc; 0; weights.len()]?;
    let mut others = Vec::with_capacity(alloc, xs.len() - base.len())?;
    for place in base.len()..xs.len() {
        let own = factors_for(alloc, base, &weights, xs[place], &mut factors)?;
        others.push(own)?;
    }
    let zero = factors_for(alloc, base, &weights, 0, &mut factors)?;
    Ok(Factors { others, zero })
}

/// The weights of the `xs` but the first.
fn weights_of(alloc: Global, xs: &[u8]) -> Result<Vec<u8>, AllocError>
    requires some { 0 < length xs.now }
    requires distinct { AllPairs (λ x y. x ≢ y) xs.now }
    ensures { IfOk result (λ v. AreWeights xs.now v.items) }
{
    let mut weights = Vec::with_capacity(alloc, xs.len() - 1)?;
    for place in 1..xs.len() {
        weights.push(weight(xs, place))?;
    }
    Ok(weights)
}

/// The inverse of the product of the differences of the place of the `xs` from the others.
fn weight(xs: &[u8], place: usize) -> u8
    requires within { place < length xs.now }
    requires distinct { AllPairs (λ x y. x ≢ y) xs.now }
    ensures { result ≡ weight xs.now place }
{
    inv(basis_value(xs, place, xs[place]))
}

/// The factors for the value at `x`: for each of the `xs` but the first the factor of the difference of the value there
/// from that at the first (Lagrange 1795). They are made in `factors`, which has a place for each.
fn factors_for(
    alloc: Global,
    xs: &[u8],
    weights: &[u8],
    x: u8,
    factors: &mut [u8],
) -> Result<Vec<Products>, AllocError>
    requires distinct { AllPairs (λ x y. x ≢ y) xs.now }
    requires weights { AreWeights xs.now weights.now }
    requires room { length factors.old ≡ length weights.now }
    ensures { IfOk result (λ v. Extends xs.now x v.items) }
{
    set_times_those_before(xs, weights, x, factors);
    multiply_by_those_behind(xs, x, factors);
    products_of(alloc, factors)
}

/// The products with each of the factors.
fn products_of(alloc: Global, factors: &[u8]) -> Result<Vec<Products>, AllocError>
    ensures { IfOk result (λ v. v.items ≡ factors.now) }
{
    let mut made = Vec::with_capacity(alloc, factors.len())?;
    for &factor in factors {
        made.push(Products::of(factor))?;
    }
    Ok(made)
}

/// Makes the factors each of the weights of the `xs` but the first, times the product of `x - a` over those before its own.
fn set_times_those_before(xs: &[u8], weights: &[u8], x: u8, factors: &mut [u8])
    requires weights { length xs.now ≡ length weights.now + 1 }
    requires room { length factors.old ≡ length weights.now }
    ensures { (i : ℕ) → i < length weights.now
        → slice_index factors.new i ≡ slice_index weights.now i ⊗ val (vanishing (take (i + 1) xs.now)) x }
{
    let mut product = 1;
    for i in 0..weights.len() {
        product = mul(add(x, xs[i]), product);
        factors[i] = mul(weights[i], product);
    }
}

/// Multiplies what there is for each of the `xs` but the first by the product of `x - a` over those behind its own.
fn multiply_by_those_behind(xs: &[u8], x: u8, factors: &mut [u8])
    requires { length xs.now ≡ length factors.old + 1 }
    ensures { (i : ℕ) → i < length factors.old
        → slice_index factors.new i ≡ slice_index factors.old i ⊗ val (vanishing (drop (i + 2) xs.now)) x }
{
    let mut product = 1;
    for i in (0..factors.len()).rev() {
        factors[i] = mul(factors[i], product);
        product = mul(add(x, xs[i + 1]), product);
    }
}

/// The product of `x - a` over the `xs` but that at the place.
fn basis_value(xs: &[u8], place: usize, x: u8) -> u8
    requires { place < length xs.now }
    ensures { result ≡ val (basis_polynomial xs.now place) x }
{
    mul(
        vanishing_value(&xs[..place], x),
        vanishing_value(&xs[place + 1..], x),
    )
}

/// The product of `x - a` over the `xs`.
fn vanishing_value(xs: &[u8], x: u8) -> u8
    ensures { result ≡ val (vanishing xs.now) x }
{
    let mut product = 1;
    for &a in xs {
        product = mul(add(x, a), product);
    }
    product
}
