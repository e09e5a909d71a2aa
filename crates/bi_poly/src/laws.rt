//! The laws of polynomials in two variables, each as a call whose contract is the law. A call
//! changes nothing.

ghost use Rattle.std.specs.Prelude.{ℕ, ◌≡◌, ◌≤◌, ◌∷◌, length};
ghost use Rattle.gf256.specs.Polynomial.{val};
ghost use Rattle.uni_poly.specs.Coefficients.{IsBytes};
ghost use Rattle.uni_poly.specs.Product.{HasFactor};
ghost use Rattle.bi_poly.specs.Rows.{row, AreBytes, IsZero};
ghost use Rattle.bi_poly.specs.Hasse.{HasZero};
ghost use Rattle.bi_poly.specs.Expansion.{IsExpansion};
ghost use Rattle.bi_poly.specs.Substitution.{IsAtPoly, IsShiftedRoot, at_poly_coef};

use crate::BiPoly;

/// The coefficients of one row are bytes.
fn row_has_bytes(p: &[u8])
    ensures { IsBytes p.now }
{}

/// The coefficients are bytes. It looks at each row once, since a contract sees the rows as lists
/// of numbers.
pub fn coefficients_are_bytes(q: &BiPoly)
    ensures { AreBytes q.now }
{
    for j in 0..q.len() {
        row_has_bytes(q.row(j));
    }
}

/// A zero of multiplicity `m` of `q` at `(a, phi(a))` gives `composed`, which is `q(x, phi(x))`,
/// the factor `(x - a)^m` (Guruswami and Sudan 1999).
pub fn zero_gives_a_factor(q: &BiPoly, phi: &[u8], composed: &[u8], a: u8, m: u32)
    requires zero { HasZero q.now a (val phi.now a) m }
    requires composed { IsAtPoly q.now phi.now composed.now }
    ensures { HasFactor composed.now a m }
{}

/// A polynomial is the sum of its Hasse derivatives of order `(u, v)` at `(a, b)` times
/// `(x - a)^u * (y - b)^v`, over each `u` below a number `n` that no row is longer than, and each
/// row `v` (Hasse 1936).
pub fn polynomial_is_its_expansion(q: &BiPoly, a: u8, b: u8)
    ensures { (n : ℕ) → ((j : ℕ) → length (row q.now j) ≤ n) → IsExpansion q.now a b n }
{
    coefficients_are_bytes(q);
}

/// What `shifted`, which is `q(x, x*y + gamma)`, becomes where `phi` stands for y is what `q`
/// becomes where `gamma + x * phi` does, so that the one is 0 exactly where the other is (Roth and
/// Ruckenstein 2000).
pub fn shift_takes_the_constant_off(q: &BiPoly, shifted: &BiPoly, gamma: u8, phi: &[u8])
    requires { IsShiftedRoot q.now gamma shifted.now }
    ensures { (e : ℕ) →
        at_poly_coef shifted.now phi.now e ≡ at_poly_coef q.now (gamma ∷ phi.now) e }
{
    coefficients_are_bytes(q);
}

/// Where `shifted`, which is `q(x, x*y + gamma)`, is 0, `q` is.
pub fn shift_is_zero_only_of_zero(q: &BiPoly, shifted: &BiPoly, gamma: u8)
    requires { IsShiftedRoot q.now gamma shifted.now }
    ensures { IsZero shifted.now → IsZero q.now }
{
    coefficients_are_bytes(q);
}
