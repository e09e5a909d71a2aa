//! Polynomials in one variable over GF(256).
//!
//! A polynomial is a slice of bytes, its coefficient at `x^e` at place `e`. Zeros at the end are
//! allowed and change nothing.
//!
//! Promised: each call gives exactly the sum, product, quotient, value or interpolating polynomial
//! that its contract names, and want of memory is its only error. [`laws`] has the laws of the
//! product and of roots: how many there are, each counted with its multiplicity, and that
//! interpolation has one answer.
//!
//! [`steps`] has the counter by which the crates above bound their work.
//!
//! Not promised: anything of time. The methods are the schoolbook's, and `interpolate` and
//! `vanishing` take a number of products that grows with the square of the number of points.
#![tactic(auto)]

pub mod laws;
pub mod steps;

ghost use Rattle.std.specs.Prelude.{ℕ, List, ◌≡◌, ◌≢◌, ◌<◌, ◌≤◌, length, IfOk, AllPairs};
ghost use Rattle.gf256.specs.Polynomial.{val};
ghost use Rattle.uni_poly.specs.Coefficients.{IsBytes, IsSum, IsScaledSum};
ghost use Rattle.uni_poly.specs.Division.{IsDivided};
ghost use Rattle.uni_poly.specs.Interpolation.{Interpolates};
ghost use Rattle.uni_poly.specs.Product.{linear, product, vanishing};

use gf256::rows::{add_row, add_scaled_row};
use std::alloc::{AllocError, Global};

/// The value of `p` at `a`, by Horner's rule: that of `01 03` (the polynomial `1 + 3x`) at `02` is
/// `07`.
pub fn eval(p: &[u8], a: u8) -> u8
    ensures { result ≡ val p.now a }
{
    p.iter()
        .rev()
        .fold(0, |value, &c| gf256::add(gf256::mul(value, a), c))
}

/// Adds `p` to `acc`, which must be at least as long.
pub fn add_into(acc: &mut [u8], p: &[u8])
    requires { length p.now ≤ length acc.old }
    ensures { IsSum acc.new acc.old p.now }
{
    add_row(&mut acc[..p.len()], p);
}

/// The product of `p` and `x - root`, one longer than `p`: `02 01` times `x - 1` is `02 03 01`.
pub fn mul_by_linear(alloc: Global, p: &[u8], root: u8) -> Result<Vec<u8>, AllocError>
    ensures { IfOk result (λ v. v.items ≡ product p.now (linear root)) }
{
    let mut made = Vec::new(alloc);
    let mut carry = 0;
    for &c in p {
        made.push(gf256::add(carry, gf256::mul(c, root)))?;
        carry = c;
    }
    made.push(carry)?;
    Ok(made)
}

/// The quotient of `p` by `x - root`, one shorter than `p`, and the rest, which is the value of `p`
/// at `root`. `p` must not be empty. `02 03 01` by `x - 1` is `02 01` with rest `00`.
pub fn divide_by_linear(alloc: Global, p: &[u8], root: u8) -> Result<(Vec<u8>, u8), AllocError>
    requires { 0 < length p.now }
    ensures divided { IfOk result (λ r. IsDivided p.now root r.0.items r.1) }
    ensures rest { IfOk result (λ r. r.1 ≡ val p.now root) }
{
    let mut quotient = vec![in alloc; 0; p.len() - 1]?;
    let mut rest = 0;
    for i in (1..p.len()).rev() {
        rest = gf256::add(gf256::mul(rest, root), p[i]);
        quotient[i - 1] = rest;
    }
    rest = gf256::add(gf256::mul(rest, root), p[0]);
    Ok((quotient, rest))
}

/// The vanishing polynomial of `xs`, the product of `x - a` over its members `a`: that of `01 02`
/// is `02 03 01`. It is one longer than `xs`.
pub fn vanishing(alloc: Global, xs: &[u8]) -> Result<Vec<u8>, AllocError>
    ensures { IfOk result (λ v. v.items ≡ vanishing xs.now) }
{
    let mut made = vec![in alloc; 1]?;
    for &a in xs {
        made = mul_by_linear(alloc, &made, a)?;
    }
    Ok(made)
}

/// Adds `factor` times `p` to `acc`, which must be at least as long.
pub fn add_scaled(acc: &mut [u8], p: &[u8], factor: u8)
    requires { length p.now ≤ length acc.old }
    ensures { IsScaledSum acc.new acc.old p.now factor }
{
    add_scaled_row(&mut acc[..p.len()], p, factor);
}

/// Adds a multiple of `basis`, which is not 0 at `x`, to `made`, so that its value at `x` becomes
/// `y`. Where `basis` is 0, the value stays.
fn pass_through(made: &mut [u8], basis: &[u8], x: u8, y: u8)
    requires room { length basis.now ≤ length made.old }
    requires apart { val basis.now x ≢ 0 }
    ensures bytes { IsBytes made.new }
    ensures through { val made.new x ≡ y }
    ensures kept { (a : ℕ) → val basis.now a ≡ 0 → val made.new a ≡ val made.old a }
{
    let missing = gf256::add(y, eval(made, x));
    let inverse = gf256::inv(eval(basis, x));
    add_scaled(made, basis, gf256::mul(missing, inverse));
}

/// The one polynomial of degree below the number of points that takes the value `ys[i]` at each
/// `xs[i]`, with as many coefficients as there are points. There must be a point, and no two may
/// have one `x`. That through `(01, cf)` and `(02, 40)` is `43 8c`. The method is Newton's: each
/// point adds a multiple of the vanishing polynomial of those before.
pub fn interpolate(alloc: Global, xs: &[u8], ys: &[u8]) -> Result<Vec<u8>, AllocError>
    requires same_length { length xs.now ≡ length ys.now }
    requires some { 0 < length xs.now }
    requires distinct { AllPairs (λ x y. x ≢ y) xs.now }
    ensures through { IfOk result (λ v. Interpolates xs.now ys.now v.items) }
    ensures only { IfOk result (λ v. (p : List ℕ) → Interpolates xs.now ys.now p → p ≡ v.items) }
{
    let mut made = vec![in alloc; 0; xs.len()]?;
    let mut basis = vec![in alloc; 1]?;
    let last = xs.len() - 1;
    for i in 0..last {
        pass_through(&mut made, &basis, xs[i], ys[i]);
        basis = mul_by_linear(alloc, &basis, xs[i])?;
    }
    pass_through(&mut made, &basis, xs[last], ys[last]);
    Ok(made)
}
