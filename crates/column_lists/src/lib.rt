//! List decoding of one column: the polynomials over GF(256) of small degree that agree with many of the given points, by
//! the method of Guruswami and Sudan (1999).
//!
//! A polynomial in two variables is interpolated that is 0 at each point with some multiplicity, and has so small a degree
//! that each polynomial that agrees with enough of the points is one of its y-roots (Roth and Ruckenstein 2000).
//!
//! Promised: [`column_list`] lists exactly the polynomials that agree, each once and ascending, whatever way it
//! interpolates, and counts and bounds its steps. [`close_list`] gives the same list where it can be told without an
//! interpolation in two variables. Want of memory is the only error. [`plan`] gives the numbers that [`column_list`] works
//! with, and takes no memory. [`decode_run`] goes through many columns at once, as long as all points lie on one polynomial;
//! it comes from `column_runs`.
//!
//! Not promised: anything of time but that bound on steps.
#![tactic(auto)]

mod agreement;
mod close;
mod numbers;

ghost use Rattle.std.specs.Prelude.{◌≡◌, ◌≢◌, ◌+◌, ◌*◌, ◌/◌, ◌<◌, ◌≤◌, length, map, All, AllPairs, IfOk};
ghost use Rattle.interpolation.specs.Monomials.{monomials};
ghost use Rattle.column_lists.specs.Numbers.{mult, cost, degree_of};
ghost use Rattle.column_runs.specs.OnOne.{LieOnOne};
ghost use Rattle.column_lists.specs.Agreement.{ListsAgreeing};

use crate::agreement::{keep_agreeing, places_are_bytes};
use bi_poly::laws::coefficients_are_bytes;
pub use close::close_list;
use column_runs::one_polynomial::{lie_on, through_first};
pub use column_runs::{Columns, decode_run};
use interpolation::Interpolate;
pub use numbers::Plan;
use quantity_limits::MOST_SERVERS;
use rr_roots::y_roots;
use std::alloc::{AllocError, Global};
use std::sync::ledger::Ledger;
use uni_poly::steps::Steps;

/// The most points of a list decoding, one for each server's answer. Their first members are bytes, and none is 0.
pub const MOST_POINTS: u32 = MOST_SERVERS as u32;

/// The most equations that a list decoding takes, as many as an
/// [interpolation](interpolation::MOST_EQUATIONS) takes. With so many the multiplicity and the degree of [`plan`] are
/// in the ranges that the interpolation has for them.
pub const MOST_COST: u64 = 1 << 15;

/// The numbers of a list decoding of `k` points of which `h` agree with polynomials of degree at most `t`, where
/// `1 <= t < h <= k`, `h * h > k * t` and k is at most [`MOST_POINTS`] (Guruswami and Sudan 1999): the multiplicity m is
/// `t * (k - h) / (h * h - k * t) + 1`, the degree `h * m - 1`, and the cost `k * m * (m + 1) / 2`, all in whole numbers. There
/// are more monomials of that weighted degree than the cost, which is below 2^40.
///
/// For five points, of which three agree with lines, m is 1, the degree 2 and the cost 5. It takes no memory.
pub fn plan(k: u32, t: u32, h: u32) -> Plan
    requires degree { 1 ≤ t }
    requires redundant { t < h }
    requires agreement { h ≤ k }
    requires points { k ≤ MOST_POINTS }
    requires strong { k * t < h * h }
    ensures multiplicity { result.m ≡ mult k t h }
    ensures degree { result.d + 1 ≡ h * result.m }
    ensures cost { result.cost ≡ cost k t h }
    ensures enough { result.cost < monomials t result.d }
{
    let m = t * (k - h) / (h * h - k * t) + 1;
    let cost = u64::from(k * m) * u64::from(m + 1) / 2;
    Plan {
        m,
        d: h * m - 1,
        cost,
    }
}

/// The polynomials of degree at most `t` that agree with at least `h` of the points `(x, y)`, that is, take the value y at
/// x (Guruswami and Sudan 1999). Each is listed once, as `t + 1` bytes, in ascending order of these. `way` interpolates.
///
/// With k points, `1 <= t < h <= k` and `h * h > k * t`, k is at most [`MOST_POINTS`] and [`plan`]'s cost at most
/// [`MOST_COST`]. No two points have the
/// same x, and none has x 0.
///
/// Of the five points `(01, 10)`, `(02, 10)`, `(03, 10)`, `(04, 17)` and `(05, 16)`, with `t` 1 and `h` 3, these are
/// `10 00` and `13 01`.
///
/// `cols` counts the column, and `nodes` the coefficients fixed in looking for the y-roots: at most `(t + 1) * (d / t)`,
/// where d is the plan's degree, and at least `t + 1` where something is listed. Where all points lie on one polynomial of
/// degree at most `t`, it is listed alone, and no y-roots are looked for: `nodes` stays.
///
/// # Errors
///
/// `AllocError` where there is no memory to interpolate, or to look for the y-roots.
pub fn column_list<I: Interpolate, C: Ledger, N: Ledger>(
    alloc: Global,
    way: &I,
    points: &[(u8, u8)],
    t: u32,
    h: u32,
    cols: &mut Steps<C>,
    nodes: &mut Steps<N>,
) -> Result<Vec<Vec<u8>>, AllocError>
    requires degree { 1 ≤ t }
    requires redundant { t < h }
    requires agreement { h ≤ length points.now }
    requires points { length points.now ≤ MOST_POINTS }
    requires strong { length points.now * t < h * h }
    requires cheap { cost (length points.now) t h ≤ MOST_COST }
    requires distinct { AllPairs (λ p q. p.0 ≢ q.0) points.now }
    requires nonzero { All (λ p. p.0 ≢ 0) points.now }
    ensures exact { IfOk result (λ list. ListsAgreeing (map (λ r. r.items) list.items) points.now t h) }
    ensures cols { cols.new ≡ cols.old + 1 }
    ensures most { nodes.new ≤ nodes.old + (t + 1) * (degree_of (length points.now) t h / t) }
    ensures least { IfOk result (λ list. 0 < length list.items → ¬ LieOnOne points.now t → nodes.old + (t + 1) ≤ nodes.new) }
    ensures short { LieOnOne points.now t → nodes.new ≡ nodes.old }
    ensures rises { nodes.old ≤ nodes.new }
{
    cols.tick();
    places_are_bytes(points);
    let first = through_first(alloc, points, t)?;
    if lie_on(&first, points) {
        return Ok(vec![in alloc; first]?);
    }
    list_roots(alloc, way, points, t, h, nodes)
}

/// The same list, whatever the points lie on: those of the y-roots of what `way` interpolates that agree.
fn list_roots<I: Interpolate, N: Ledger>(
    alloc: Global,
    way: &I,
    points: &[(u8, u8)],
    t: u32,
    h: u32,
    nodes: &mut Steps<N>,
) -> Result<Vec<Vec<u8>>, AllocError>
    requires degree { 1 ≤ t }
    requires redundant { t < h }
    requires agreement { h ≤ length points.now }
    requires points { length points.now ≤ MOST_POINTS }
    requires strong { length points.now * t < h * h }
    requires cheap { cost (length points.now) t h ≤ MOST_COST }
    requires distinct { AllPairs (λ p q. p.0 ≢ q.0) points.now }
    requires nonzero { All (λ p. p.0 ≢ 0) points.now }
    requires bytes { All (λ p. p.0 < 256) points.now }
    ensures exact { IfOk result (λ list. ListsAgreeing (map (λ r. r.items) list.items) points.now t h) }
    ensures most { nodes.new ≤ nodes.old + (t + 1) * (degree_of (length points.now) t h / t) }
    ensures least { IfOk result (λ list. 0 < length list.items → nodes.old + (t + 1) ≤ nodes.new) }
    ensures rises { nodes.old ≤ nodes.new }
{
    let plan = plan(points.len() as u32, t, h);
    let q = way.interpolate(alloc, points, plan.m, t, plan.d)?;
    coefficients_are_bytes(&q);
    let mut list = y_roots(alloc, &q, t, nodes)?;
    keep_agreeing(&mut list, points, h);
    Ok(list)
}
