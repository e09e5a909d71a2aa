//! That the contracts count the monomials of a weighted degree rightly.

ghost use Rattle.std.specs.Prelude.{◌≡◌, ℕ, ◌≤◌, List, length};
ghost use Rattle.interpolation.specs.Monomials.{monomials, ArePairs};

/// The monomials that the contract of [`Interpolate`](crate::Interpolate) counts row by row are as many as the pairs
/// `(i, j)` with `i + t*j <= d` are, each counted once. `t` is at least 1.
pub fn monomials_are_pairs(t: u32, d: u32)
    requires { 1 ≤ t }
    ensures { (pairs : List (ℕ × ℕ)) × (ArePairs t d pairs) × (length pairs ≡ monomials t d) }
{}
