//! Polynomials that all but a few points lie on.

ghost use Rattle.std.specs.Prelude.{◌≢◌, ◌≡◌, ◌+◌, ◌<◌, ◌≤◌, ◌↔◌, length, AllPairs, IfNone, IfOk, IfSome, IsTrue};
ghost use Rattle.column_runs.specs.Close.{least_misses, misses, EachMisses, IsClose};

use crate::one_polynomial::through_first;
use std::alloc::{AllocError, Global};
use uni_poly::eval;

/// A polynomial of degree at most `t`, as `t + 1` bytes, that fewer than `h - t` of the points are off: at the x of such a
/// point it does not take the y. Any other agrees with at most `t` of the points on it, so with fewer than `h` in all. Where
/// none is found, each polynomial of degree at most `t` misses at least [`least_misses`] of the points.
///
/// The points are cut into groups of `t + 1`, and each gives a polynomial. Where fewer points are off a polynomial than there
/// are groups, some group has none of them, and gives it.
///
/// There are at least `h` points, with `t < h`, and no two have the same x.
///
/// Of the points `(01, 10)`, `(02, 10)`, `(03, 10)`, `(04, 17)` and `(05, 10)`, with `t` 1 and `h` 3, it is `10 00`.
///
/// # Errors
///
/// `AllocError` where there is no memory to interpolate.
pub fn close_polynomial(
    alloc: Global,
    points: &[(u8, u8)],
    t: u32,
    h: u32,
) -> Result<Option<Vec<u8>>, AllocError>
    requires redundant { t < h }
    requires agreement { h ≤ length points.now }
    requires distinct { AllPairs (λ p q. p.0 ≢ q.0) points.now }
    ensures close { IfOk result (λ found. IfSome found (λ phi. IsClose phi.items points.now t h)) }
    ensures far { IfOk result (λ found. IfNone found (EachMisses (least_misses t h) points.now t)) }
{
    let size = t as usize + 1;
    let groups = (points.len() / size).min((h - t) as usize);
    for group in 0..groups {
        let start = group * size;
        let phi = through_first(alloc, &points[start..start + size], t)?;
        if is_close(&phi, points, t, h) {
            return Ok(Some(phi));
        }
    }
    Ok(None)
}

/// How many of `h` points or more each polynomial of degree at most `t` misses where [`close_polynomial`] finds none: the
/// lesser of `h - t` and `h / (t + 1)`, in whole numbers.
pub fn least_misses(t: u32, h: u32) -> u32
    requires { t < h }
    ensures { result ≡ least_misses t h }
{
    (h - t).min(h / (t + 1))
}

/// Whether fewer than `h - t` of the points are off `phi`. It stops at the first that is one too many.
fn is_close(phi: &[u8], points: &[(u8, u8)], t: u32, h: u32) -> bool
    requires { t < h }
    ensures { IsTrue result ↔ (misses phi.now points.now + t < h) }
{
    let most = h - t;
    let mut misses = 0;
    for &(x, y) in points {
        if eval(phi, x) != y {
            misses += 1;
            if misses == most {
                return false;
            }
        }
    }
    true
}
