//! Points that all lie on one polynomial.

ghost use Rattle.std.specs.Prelude.{◌≡◌, ◌≢◌, ◌<◌, ◌↔◌, ℕ, List, length, All, AllPairs, IfOk, IsTrue};
ghost use Rattle.gf256.specs.Polynomial.{val, IsPolynomial};

use std::alloc::{AllocError, Global};
use uni_poly::{eval, interpolate};

/// The polynomial of degree at most `t` through the first `t + 1` points, as `t + 1` bytes.
pub fn through_first(alloc: Global, points: &[(u8, u8)], t: u32) -> Result<Vec<u8>, AllocError>
    requires enough { t < length points.now }
    requires distinct { AllPairs (λ p q. p.0 ≢ q.0) points.now }
    ensures polynomial { IfOk result (λ phi. IsPolynomial t phi.items) }
    ensures only { IfOk result (λ phi. (psi : List ℕ) → IsPolynomial t psi → All (λ p. val psi p.0 ≡ p.1) points.now → psi ≡ phi.items) }
{
    let mut xs = Vec::new(alloc);
    let mut ys = Vec::new(alloc);
    for &(x, y) in &points[..t as usize + 1] {
        xs.push(x)?;
        ys.push(y)?;
    }
    interpolate(alloc, &xs, &ys)
}

/// Whether all points lie on `phi`.
pub fn lie_on(phi: &[u8], points: &[(u8, u8)]) -> bool
    ensures { IsTrue result ↔ All (λ p. val phi.now p.0 ≡ p.1) points.now }
{
    points.iter().all(|point| eval(phi, point.0) == point.1)
}
