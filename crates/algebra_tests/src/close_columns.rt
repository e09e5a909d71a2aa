// Columns of which most points lie on one polynomial.
ghost use Rattle.std.specs.Prelude.{◌≡◌, ◌<◌};

use crate::lists::are_places;
use crate::rows::are;
use column_lists::close_list;
use std::alloc::{AllocError, Global};
use std::marker::Brand;
use std::sync::ledger::{Blank, Ledger};
use uni_poly::steps::Steps;

/// Points, and what is listed of them at once: `None` where a list proper has to be made.
struct Worked<'a> {
    points: &'a [(u8, u8)],
    t: u32,
    h: u32,
    list: Option<&'a [&'a [u8]]>,
}

/// What another program found by trying all polynomials through `t + 1` of the points.
const WORKED: [Worked<'static>; 5] = [
    // Two lines with three points each.
    Worked {
        points: &[(1, 0x10), (2, 0x10), (3, 0x10), (4, 0x17), (5, 0x16)],
        t: 1,
        h: 3,
        list: None,
    },
    // All but one on a line.
    Worked {
        points: &[(1, 0x10), (2, 0x10), (3, 0x10), (4, 0x17), (5, 0x10)],
        t: 1,
        h: 3,
        list: Some(&[&[0x10, 0x00]]),
    },
    // The two lines again, where four points have to lie on one.
    Worked {
        points: &[(1, 0x10), (2, 0x10), (3, 0x10), (4, 0x17), (5, 0x16)],
        t: 1,
        h: 4,
        list: Some(&[]),
    },
    // The first point is off.
    Worked {
        points: &[
            (7, 0xb5),
            (9, 0x7f),
            (30, 0x89),
            (41, 0xa1),
            (77, 0x81),
            (130, 0x21),
            (200, 0x4f),
            (255, 0x67),
        ],
        t: 2,
        h: 5,
        list: Some(&[&[0x2a, 0x57, 0x81]]),
    },
    // Four are off, in four of the five groups of four.
    Worked {
        points: &[
            (1, 0x5f),
            (2, 0xae),
            (3, 0x71),
            (4, 0x27),
            (5, 0x8c),
            (6, 0xb1),
            (7, 0xec),
            (8, 0xf3),
            (9, 0xfe),
            (10, 0x8c),
            (11, 0x8b),
            (12, 0x0a),
            (13, 0x3b),
            (14, 0x79),
            (15, 0x1e),
            (16, 0xff),
            (17, 0x37),
            (18, 0xe1),
            (19, 0x23),
            (20, 0x29),
        ],
        t: 3,
        h: 8,
        list: Some(&[&[0x2a, 0x57, 0x81, 0x03]]),
    },
];

/// Whether what is listed at once is what it should be, where the counter is that of the blank's ledger.
fn is_told_in_steps<C: Ledger>(
    cols: Blank,
    alloc: Global,
    worked: &Worked,
) -> Result<bool, AllocError>
    requires { (cols.name ≡ C.name) × (cols.parts ≡ C.parts) × (0 < cols.parts) }
{
    let points = worked.points;
    if !are_places(points) || worked.t >= worked.h || worked.h as usize > points.len() {
        return Ok(false);
    }
    let mut cols: Steps<C> = Steps::new(cols);
    let told = close_list(alloc, points, worked.t, worked.h, &mut cols)?;
    Ok(match (told, worked.list) {
        (Some(told), Some(list)) => are(&told, list),
        (told, list) => told.is_none() && list.is_none(),
    })
}

fn is_told(alloc: Global, worked: &Worked) -> Result<bool, AllocError> {
    is_told_in_steps::<Brand>(Blank::new(1), alloc, worked)
}

#[test]
fn tells_the_worked_points(rt: HostRuntime) -> Result<(), AllocError> {
    for worked in &WORKED {
        assert!(rt; is_told(rt.alloc(), worked)?);
    }
    Ok(())
}
