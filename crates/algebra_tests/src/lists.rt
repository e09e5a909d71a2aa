// List decoding of one column.
ghost use Rattle.std.specs.Prelude.{◌≢◌, ◌≡◌, ◌<◌, All, AllPairs, IsTrue};

use crate::rows::are;
use column_lists::{MOST_COST, MOST_POINTS, column_list, plan};
use gs_interpolate::{Elimination, Koetter};
use interpolation::Interpolate;
use std::alloc::{AllocError, Global};
use std::marker::Brand;
use std::sync::ledger::{Blank, Ledger};
use uni_poly::steps::Steps;
use uni_poly::{eval, interpolate};

/// Whether the first members ascend, and the least is not 0.
pub fn are_places(points: &[(u8, u8)]) -> bool
    ensures distinct { IsTrue result → AllPairs (λ p q. p.0 ≢ q.0) points.now }
    ensures nonzero { IsTrue result → All (λ p. p.0 ≢ 0) points.now }
{
    let mut last = 0;
    for i in 0..points.len() {
        if points[i].0 <= last {
            return false;
        }
        last = points[i].0;
    }
    true
}

/// Whether the bytes ascend.
pub fn ascends(xs: &[u8]) -> bool
    ensures { IsTrue result → AllPairs (λ x y. x ≢ y) xs.now }
{
    for i in 1..xs.len() {
        if xs[i - 1] >= xs[i] {
            return false;
        }
    }
    true
}

/// The list, where each counter is that of its blank's ledger; `None` where the numbers don't admit one.
fn listed_in_steps<I: Interpolate, C: Ledger, N: Ledger>(
    cols: Blank,
    nodes: Blank,
    alloc: Global,
    way: &I,
    points: &[(u8, u8)],
    t: u32,
    h: u32,
) -> Result<Option<Vec<Vec<u8>>>, AllocError>
    requires cols { (cols.name ≡ C.name) × (cols.parts ≡ C.parts) × (0 < cols.parts) }
    requires nodes { (nodes.name ≡ N.name) × (nodes.parts ≡ N.parts) × (0 < nodes.parts) }
{
    if points.len() > MOST_POINTS as usize || !are_places(points) {
        return Ok(None);
    }
    let k = points.len() as u32;
    if t < 1 || t >= h || h > k || h * h <= k * t || plan(k, t, h).cost > MOST_COST {
        return Ok(None);
    }
    let mut cols: Steps<C> = Steps::new(cols);
    let mut nodes: Steps<N> = Steps::new(nodes);
    let list = column_list(alloc, way, points, t, h, &mut cols, &mut nodes)?;
    Ok(Some(list))
}

fn listed_by_elimination(
    alloc: Global,
    points: &[(u8, u8)],
    t: u32,
    h: u32,
) -> Result<Option<Vec<Vec<u8>>>, AllocError> {
    listed_in_steps::<Elimination, Brand, Brand>(
        Blank::new(1),
        Blank::new(1),
        alloc,
        &Elimination,
        points,
        t,
        h,
    )
}

/// The list as it is made where Koetter's iteration interpolates; `None` where the numbers have none.
pub fn listed_by_koetter(
    alloc: Global,
    points: &[(u8, u8)],
    t: u32,
    h: u32,
) -> Result<Option<Vec<Vec<u8>>>, AllocError> {
    listed_in_steps::<Koetter, Brand, Brand>(
        Blank::new(1),
        Blank::new(1),
        alloc,
        &Koetter,
        points,
        t,
        h,
    )
}

/// Points, and the polynomials of degree at most `t` that agree with at least `h` of them.
struct Worked<'a> {
    points: &'a [(u8, u8)],
    t: u32,
    h: u32,
    list: &'a [&'a [u8]],
}

/// Lists that another program found by trying all lines through two points.
const WORKED: [Worked<'static>; 3] = [
    Worked {
        points: &[(1, 0x10), (2, 0x10), (3, 0x10), (4, 0x17), (5, 0x16)],
        t: 1,
        h: 3,
        list: &[&[0x10, 0x00], &[0x13, 0x01]],
    },
    Worked {
        points: &[
            (1, 0x43),
            (2, 0x43),
            (3, 0x43),
            (4, 0x43),
            (5, 0x43),
            (6, 0x43),
            (7, 0x43),
            (8, 0x43),
        ],
        t: 1,
        h: 3,
        list: &[&[0x43, 0x00]],
    },
    // As many lines as there can be: a projective plane of seven points.
    Worked {
        points: &[
            (32, 205),
            (88, 109),
            (107, 227),
            (147, 101),
            (148, 133),
            (151, 254),
            (218, 142),
        ],
        t: 1,
        h: 3,
        list: &[
            &[36, 130],
            &[68, 245],
            &[121, 96],
            &[133, 45],
            &[138, 164],
            &[152, 32],
            &[192, 41],
        ],
    },
];

#[test]
fn lists_the_worked_points(rt: HostRuntime) -> Result<(), AllocError> {
    for worked in &WORKED {
        let list = listed_by_elimination(rt.alloc(), worked.points, worked.t, worked.h)?;
        assert!(rt; list.is_some_and(|list| are(&list, worked.list)));
        let list = listed_by_koetter(rt.alloc(), worked.points, worked.t, worked.h)?;
        assert!(rt; list.is_some_and(|list| are(&list, worked.list)));
    }
    Ok(())
}

/// The polynomial through the points whose bits are set in `choice`, where these are `t + 1`.
fn through(
    alloc: Global,
    points: &[(u8, u8)],
    choice: u32,
    t: u32,
) -> Result<Option<Vec<u8>>, AllocError> {
    let mut xs = Vec::new(alloc);
    let mut ys = Vec::new(alloc);
    let mut bits = choice;
    for &(x, y) in points {
        if bits % 2 == 1 {
            xs.push(x)?;
            ys.push(y)?;
        }
        bits /= 2;
    }
    if xs.is_empty()
        || xs.len() != ys.len()
        || xs.len() as u64 != u64::from(t) + 1
        || !ascends(&xs)
    {
        return Ok(None);
    }
    Ok(Some(interpolate(alloc, &xs, &ys)?))
}

/// At how many points it agrees.
fn count(phi: &[u8], points: &[(u8, u8)]) -> u32 {
    let mut agree = 0u32;
    for &(x, y) in points {
        if eval(phi, x) == y {
            agree = agree.saturating_add(1);
        }
    }
    agree
}

/// The list of up to nine points, by trying each choice of `t + 1` of them.
fn listed_slowly(
    alloc: Global,
    points: &[(u8, u8)],
    t: u32,
    h: u32,
) -> Result<Vec<Vec<u8>>, AllocError> {
    let mut found = Vec::new(alloc);
    for choice in 0..512 {
        if let Some(phi) = through(alloc, points, choice, t)? {
            if count(&phi, points) >= h {
                found.push(phi)?;
            }
        }
    }
    found.sort()?;
    found.dedup();
    Ok(found)
}

/// Whether the list is that of the slow program, whichever way is taken to interpolate.
fn is_as_slow(alloc: Global, points: &[(u8, u8)], t: u32, h: u32) -> Result<bool, AllocError> {
    let slow = listed_slowly(alloc, points, t, h)?;
    let by_elimination = listed_by_elimination(alloc, points, t, h)?;
    let by_koetter = listed_by_koetter(alloc, points, t, h)?;
    Ok(
        by_elimination.is_some_and(|list| list == slow)
            && by_koetter.is_some_and(|list| list == slow),
    )
}

/// A byte that looks random (Press et al. 1992).
pub fn next(state: &mut u32) -> u8 {
    *state = state.wrapping_mul(1_664_525).wrapping_add(1_013_904_223);
    (*state >> 24) as u8
}

/// A polynomial of `t + 1` such bytes.
pub fn next_polynomial(alloc: Global, state: &mut u32, t: u32) -> Result<Vec<u8>, AllocError> {
    let mut phi = vec![in alloc; next(state)]?;
    for _ in 0..t {
        phi.push(next(state))?;
    }
    Ok(phi)
}

/// How the second members come about.
#[derive(Copy, Clone)]
enum Kind {
    /// Most lie on one polynomial.
    Errors,
    /// Each lies on one of two polynomials.
    Two,
    /// Each is 0 or 1.
    Bits,
}

/// Points of this kind.
fn points_of(
    alloc: Global,
    state: &mut u32,
    kind: Kind,
    k: u32,
    t: u32,
) -> Result<Vec<(u8, u8)>, AllocError> {
    let first = next_polynomial(alloc, state, t)?;
    let second = next_polynomial(alloc, state, t)?;
    let mut points = Vec::new(alloc);
    let mut x = 0u8;
    for _ in 0..k {
        x = x.wrapping_add(1 + next(state) % 8);
        let coin = next(state);
        let y = match kind {
            Kind::Errors if coin < 64 => next(state),
            Kind::Two if coin < 128 => eval(&second, x),
            Kind::Errors | Kind::Two => eval(&first, x),
            Kind::Bits => coin % 2,
        };
        points.push((x, y))?;
    }
    Ok(points)
}

/// Numbers of points, degrees and numbers of those that agree.
const SHAPES: [(u32, u32, u32); 15] = [
    (3, 1, 2),
    (4, 1, 3),
    (4, 2, 3),
    (5, 1, 3),
    (5, 2, 4),
    (6, 1, 3),
    (6, 2, 4),
    (6, 3, 5),
    (7, 1, 3),
    (7, 1, 4),
    (7, 2, 5),
    (7, 3, 5),
    (8, 3, 6),
    (9, 2, 5),
    (9, 3, 6),
];

#[test]
fn lists_as_the_slow_program(rt: HostRuntime) -> Result<(), AllocError> {
    let mut state = 1u32;
    for (k, t, h) in SHAPES {
        for _ in 0..7 {
            for kind in [Kind::Errors, Kind::Two, Kind::Bits] {
                let points = points_of(rt.alloc(), &mut state, kind, k, t)?;
                assert!(rt; is_as_slow(rt.alloc(), &points, t, h)?);
            }
        }
    }
    Ok(())
}
