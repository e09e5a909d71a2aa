//! What interpolation with multiplicities over GF(256) promises, the first step of the list decoding of Guruswami and Sudan
//! (1999), and no way to do it: whoever decodes is given one, as a type that implements [`Interpolate`].
//!
//! Promised: whatever implements [`Interpolate`] gives a polynomial in two variables, not 0 and of small weighted degree,
//! that has a zero of a given multiplicity at each of the given points, of bounded size. Want of memory is the only error.
//! [`laws::monomials_are_pairs`] says that the contract counts monomials rightly.
//!
//! Not promised: which of the many such polynomials it is, anything of time, and that there is a way. `gs_interpolate` has
//! two.
#![tactic(auto)]

pub mod laws;

ghost use Rattle.std.specs.Prelude.{◌≢◌, ◌<◌, ◌≤◌, length, AllPairs, IfOk};
ghost use Rattle.interpolation.specs.Monomials.{monomials, conditions};
ghost use Rattle.interpolation.specs.Interpolant.{IsInterpolant};

use bi_poly::BiPoly;
use quantity_limits::MOST_DEGREE;
use std::alloc::{AllocError, Global};

/// The most that the multiplicity of a zero is asked to be.
pub const MOST_MULTIPLICITY: u32 = 255;

/// The most equations that a zero of the given multiplicity at each of the points is, together.
pub const MOST_EQUATIONS: u32 = 1 << 15;

/// The most that the weighted degree of a polynomial is bounded by.
pub const MOST_WEIGHTED_DEGREE: u32 = 1 << 16;

/// A way to interpolate with multiplicities.
pub trait Interpolate {
    /// A polynomial that is not 0, of `(1, t)`-weighted degree at most `d`, with a zero of multiplicity `m` at each of the
    /// points: each Hasse derivative of order `(u, v)` with `u + v < m` is 0 there. It has at most `d / t + 1` rows, of at
    /// most `d + 1` bytes each (Guruswami and Sudan 1999).
    ///
    /// A point is `(x, y)`, and no two have the same x. `m` is from 1 to [`MOST_MULTIPLICITY`], `t` from 1 to
    /// [`MOST_DEGREE`], and `d` at most [`MOST_WEIGHTED_DEGREE`]. A zero of multiplicity m is `m * (m + 1) / 2` equations at
    /// a point; together they are at most [`MOST_EQUATIONS`], and fewer than the monomials `x^i * y^j` with
    /// `i + t*j <= d`, so that there is such a polynomial.
    ///
    /// Of the five points `(01, 10)`, `(02, 10)`, `(03, 10)`, `(04, 17)` and `(05, 16)`, with `m` 1, `t` 1 and `d` 2, the
    /// product of two lines through them is one: `(y - 10) * (y - 13 - x)`.
    ///
    /// # Errors
    ///
    /// `AllocError` where there is no memory for it, or for what it is made from.
    fn interpolate(
        &self,
        alloc: Global,
        points: &[(u8, u8)],
        m: u32,
        t: u32,
        d: u32,
    ) -> Result<BiPoly, AllocError>
        requires multiplicity { (1 ≤ m) × (m ≤ MOST_MULTIPLICITY) }
        requires weight { (1 ≤ t) × (t ≤ MOST_DEGREE) }
        requires degree { d ≤ MOST_WEIGHTED_DEGREE }
        requires distinct { AllPairs (λ p q. p.0 ≢ q.0) points.now }
        requires few { conditions (length points.now) m ≤ MOST_EQUATIONS }
        requires enough { conditions (length points.now) m < monomials t d }
        ensures { IfOk result (λ q. IsInterpolant q points.now m t d) };
}
