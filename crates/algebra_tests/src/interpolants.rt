// Interpolation with multiplicities.
ghost use Rattle.std.specs.Prelude.{◌≢◌, ◌<◌, ◌≤◌, length, AllPairs, IsTrue};
ghost use Rattle.interpolation.specs.Monomials.{monomials, conditions};

use bi_poly::BiPoly;
use gs_interpolate::{Elimination, Koetter};
use interpolation::{Interpolate, MOST_EQUATIONS, MOST_WEIGHTED_DEGREE};
use std::alloc::{AllocError, Global};

/// Whether the first members ascend.
fn is_ascending(points: &[(u8, u8)]) -> bool
    ensures { IsTrue result → AllPairs (λ p q. p.0 ≢ q.0) points.now }
{
    for i in 1..points.len() {
        if points[i - 1].0 >= points[i].0 {
            return false;
        }
    }
    true
}

/// Whether each derivative of order `(u, v)` with `u + v < m` is 0 at the point.
fn has_zero(q: &BiPoly, point: (u8, u8), m: u32) -> bool {
    let (a, b) = point;
    for u in 0..m {
        for v in 0..m - u {
            if q.hasse(u, v, a, b) != 0 {
                return false;
            }
        }
    }
    true
}

/// Whether `way` gives a polynomial, not 0, of weighted degree at most `d` with these zeros, and of bounded size.
#[tactic(auto, using(interpolation::proofs::Promise::within_limits))]
fn is_interpolated<I: Interpolate>(
    alloc: Global,
    way: &I,
    points: &[(u8, u8)],
    m: u32,
    t: u32,
    d: u32,
) -> Result<bool, AllocError>
    requires multiplicity { (1 ≤ m) × (m ≤ 255) }
    requires weight { (1 ≤ t) × (t ≤ 254) }
    requires degree { d ≤ MOST_WEIGHTED_DEGREE }
    requires distinct { AllPairs (λ p q. p.0 ≢ q.0) points.now }
    requires few { conditions (length points.now) m ≤ MOST_EQUATIONS }
    requires enough { conditions (length points.now) m < monomials t d }
{
    let q = way.interpolate(alloc, points, m, t, d)?;
    let is_light = q.weighted_degree(t).is_some_and(|w| w <= u64::from(d));
    let is_small = q.rows().len() <= d as usize / t as usize + 1
        && q.rows().iter().all(|row| row.len() <= d as usize + 1);
    Ok(is_light && is_small && points.iter().all(|&point| has_zero(&q, point, m)))
}

/// The same, both by elimination and by Koetter's iteration.
fn is_interpolated_both_ways(
    alloc: Global,
    points: &[(u8, u8)],
    m: u32,
    t: u32,
    d: u32,
) -> Result<bool, AllocError>
    requires multiplicity { (1 ≤ m) × (m ≤ 255) }
    requires weight { (1 ≤ t) × (t ≤ 254) }
    requires degree { d ≤ MOST_WEIGHTED_DEGREE }
    requires distinct { AllPairs (λ p q. p.0 ≢ q.0) points.now }
    requires few { conditions (length points.now) m ≤ MOST_EQUATIONS }
    requires enough { conditions (length points.now) m < monomials t d }
{
    Ok(
        is_interpolated(alloc, &Elimination, points, m, t, d)?
            && is_interpolated(alloc, &Koetter, points, m, t, d)?,
    )
}

/// A byte that looks random (Press et al. 1992).
fn next(state: &mut u32) -> u8 {
    *state = state.wrapping_mul(1_664_525).wrapping_add(1_013_904_223);
    (*state >> 24) as u8
}

/// Eight points whose second members look random.
fn eight(state: &mut u32) -> [(u8, u8); 8] {
    [
        (1, next(state)),
        (2, next(state)),
        (3, next(state)),
        (4, next(state)),
        (5, next(state)),
        (6, next(state)),
        (7, next(state)),
        (8, next(state)),
    ]
}

// Five points on two lines, of which each has three: a product of the two lines is among what may come out.
#[test]
#[tactic(auto, unfolding(interpolation::specs::Monomials::monomials_below))]
fn through_two_lines(rt: HostRuntime) -> Result<(), AllocError> {
    let points = [(1, 0x10), (2, 0x10), (3, 0x10), (4, 0x17), (5, 0x16)];
    assert!(rt; is_ascending(&points));
    assert!(rt; is_interpolated_both_ways(rt.alloc(), &points, 1, 1, 2)?);
    Ok(())
}

#[test]
#[tactic(auto, unfolding(interpolation::specs::Monomials::monomials_below))]
fn with_multiplicity_two(rt: HostRuntime) -> Result<(), AllocError> {
    let points = [(1, 0x10), (2, 0x10), (3, 0x10), (4, 0x17), (5, 0x16)];
    assert!(rt; is_ascending(&points));
    assert!(rt; is_interpolated_both_ways(rt.alloc(), &points, 2, 1, 5)?);
    Ok(())
}

// Eight points on one constant, of which three decide: 168 conditions, and 171 monomials.
#[test]
#[tactic(auto, unfolding(interpolation::specs::Monomials::monomials_below))]
fn with_multiplicity_six(rt: HostRuntime) -> Result<(), AllocError> {
    let points = [
        (1, 0x43),
        (2, 0x43),
        (3, 0x43),
        (4, 0x43),
        (5, 0x43),
        (6, 0x43),
        (7, 0x43),
        (8, 0x43),
    ];
    assert!(rt; is_ascending(&points));
    assert!(rt; is_interpolated_both_ways(rt.alloc(), &points, 6, 1, 17)?);
    Ok(())
}

// Random points, at each multiplicity, weight and degree with more monomials than conditions, by few.
#[test]
#[tactic(auto, unfolding(interpolation::specs::Monomials::monomials_below))]
fn through_random_points(rt: HostRuntime) -> Result<(), AllocError> {
    let mut state = 1u32;
    for _ in 0..4 {
        let points = eight(&mut state);
        assert!(rt; is_ascending(&points));
        assert!(rt; is_interpolated_both_ways(rt.alloc(), &points, 1, 3, 5)?);
        assert!(rt; is_interpolated_both_ways(rt.alloc(), &points, 2, 2, 8)?);
        assert!(rt; is_interpolated_both_ways(rt.alloc(), &points, 6, 1, 17)?);
        assert!(rt; is_interpolated_both_ways(rt.alloc(), &points, 10, 3, 49)?);
    }
    Ok(())
}
