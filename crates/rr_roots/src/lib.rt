//! The y-roots of a polynomial in two variables over GF(256), by the method of Roth and Ruckenstein (2000).
//!
//! Promised: [`y_roots`] lists exactly the polynomials of degree at most t that can stand for y so that the whole is 0,
//! each once and ascending, and takes no more steps than t + 1 times the degree in y. Want of memory is the only error.
//!
//! Not promised: anything of time but that bound on steps, and nothing of how the roots come about: that some polynomial
//! is a root of what an interpolation gives is for the crate that interpolates.
#![tactic(auto)]

mod descent;
mod values;

ghost use Rattle.std.specs.Prelude.{ℕ, ◌≡◌, ◌+◌, ◌*◌, ◌<◌, ◌≤◌, length, map, IfOk};
ghost use Rattle.bi_poly.specs.Rows.{IsZero};
ghost use Rattle.rr_roots.specs.Roots.{HasDegreeInYAtMost, ListsYRoots};

use crate::descent::{Walk, descend};
use crate::values::powers_of_bytes;
use bi_poly::BiPoly;
use quantity_limits::MOST_DEGREE;
use std::alloc::{AllocError, Global};
use std::sync::ledger::Ledger;
use uni_poly::steps::Steps;

/// A copy of `q`.
fn copy(alloc: Global, q: &BiPoly) -> Result<BiPoly, AllocError>
    ensures { IfOk result (λ c. c ≡ q.now) }
{
    let mut rows = Vec::with_capacity(alloc, q.rows().len())?;
    for row in q.rows() {
        rows.push(Vec::from_slice(alloc, row)?)?;
    }
    Ok(BiPoly::from_rows(rows))
}

/// The y-roots of `q`, which must not be 0, of degree at most `t`, itself at most [`MOST_DEGREE`]: the polynomials phi with
/// `q(x, phi(x)) = 0` (Roth and Ruckenstein 2000). Each is listed once, as `t + 1` bytes, in ascending order of these. Those
/// of `y^2 + (1 + x)*y + x` for `t` 1 are `00 01` and `01 00`.
///
/// A root's coefficients are fixed one after another, which makes a tree of `t + 1` levels, and `nodes` counts its nodes,
/// that is, coefficients fixed. There are at most `t + 1` times as many as the greatest power of y with a row that is not
/// 0, and at least `t + 1` where there is a root.
///
/// It takes memory for the roots, for a copy of `q`, for 256 bytes for each row of `q`, which are the powers of all bytes,
/// and for one polynomial on each level of the tree but the last, with as many rows as `q`, each longer by less than that
/// number than the longest row of the level before. It is a recursion of depth `t + 1`.
///
/// # Errors
///
/// `AllocError` where there is no memory for these.
pub fn y_roots<N: Ledger>(
    alloc: Global,
    q: &BiPoly,
    t: u32,
    nodes: &mut Steps<N>,
) -> Result<Vec<Vec<u8>>, AllocError>
    requires nonzero { ¬ IsZero q.now }
    requires degree { t ≤ MOST_DEGREE }
    ensures exact { IfOk result (λ roots. ListsYRoots (map (λ r. r.items) roots.items) q.now t) }
    ensures most { (d : ℕ) → HasDegreeInYAtMost q.now d → nodes.new ≤ nodes.old + (t + 1) * d }
    ensures least { IfOk result (λ roots. 0 < length roots.items → nodes.old + (t + 1) ≤ nodes.new) }
    ensures rises { nodes.old ≤ nodes.new }
{
    let mut walk = Walk {
        prefix: Vec::new(alloc),
        roots: Vec::new(alloc),
    };
    let whole = copy(alloc, q)?;
    let powers = powers_of_bytes(alloc, q.rows().len())?;
    descend(alloc, whole, &powers, t, &mut walk, nodes)?;
    Ok(walk.roots)
}
