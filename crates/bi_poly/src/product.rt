//! Products of polynomials in one variable.

ghost use Rattle.std.specs.Prelude.{ℕ, ◌≡◌, ◌+◌, ◌<◌, length, IfOk};
ghost use Rattle.gf256.specs.Field.{◌⊕◌};
ghost use Rattle.gf256.specs.Polynomial.{coef};
ghost use Rattle.uni_poly.specs.Product.{product_coef};

use crate::row::coefficient;
use std::alloc::{AllocError, Global};

/// The coefficient at `x^e` of the product of `p` and `q`.
fn product_coefficient(p: &[u8], q: &[u8], e: usize) -> u8
    requires { e < usize.MAX }
    ensures { result ≡ product_coef p.now q.now e }
{
    let mut sum = 0;
    for i in 0..p.len().min(e + 1) {
        sum = gf256::add(sum, gf256::mul(p[i], coefficient(q, e - i)));
    }
    sum
}

/// The product of `p` and `q`, plus `r`. Its time grows with the length of `p` times that of the
/// whole.
///
/// # Errors
///
/// `AllocError` where there is no memory for the coefficients.
pub fn multiply_and_add(alloc: Global, p: &[u8], q: &[u8], r: &[u8]) -> Result<Vec<u8>, AllocError>
    ensures { IfOk result (λ v. (e : ℕ) →
        coef v.items e ≡ product_coef p.now q.now e ⊕ coef r.now e) }
{
    let len = (p.len() + q.len()).saturating_sub(1).max(r.len());
    let mut made = Vec::new(alloc);
    for e in 0..len {
        made.push(gf256::add(product_coefficient(p, q, e), coefficient(r, e)))?;
    }
    Ok(made)
}
