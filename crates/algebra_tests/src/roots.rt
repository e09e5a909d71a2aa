// The y-roots of polynomials in two variables.
ghost use Rattle.std.specs.Prelude.{◌≡◌, ◌<◌, ◌≤◌, ◌+◌, length};
ghost use Rattle.bi_poly.specs.Rows.{IsZero};

use crate::rows::{are, from_slices, is_nonzero};
use bi_poly::BiPoly;
use rr_roots::y_roots;
use std::alloc::{AllocError, Global};
use std::marker::Brand;
use std::sync::ledger::{Blank, Ledger};
use uni_poly::steps::Steps;

/// A polynomial, row by row, and its y-roots of degree at most `t`.
struct Worked<'a> {
    rows: &'a [&'a [u8]],
    t: u32,
    roots: &'a [&'a [u8]],
}

/// Products of `y - phi` by another program; for `t` 1 it tried all lines, for others it took the factors.
const WORKED: [Worked<'static>; 11] = [
    // (y - x) * (y - 1)
    Worked {
        rows: &[&[0x00, 0x01], &[0x01, 0x01], &[0x01]],
        t: 1,
        roots: &[&[0x00, 0x01], &[0x01, 0x00]],
    },
    // Two roots have the constant 0.
    Worked {
        rows: &[
            &[0x00, 0x00, 0x00, 0x77, 0x6c, 0x65, 0x7e],
            &[0x00, 0x0f, 0x17, 0x29, 0x23],
            &[0x03, 0x04, 0x0c],
            &[0x01],
        ],
        t: 2,
        roots: &[
            &[0x00, 0x00, 0x09],
            &[0x00, 0x05, 0x07],
            &[0x03, 0x01, 0x02],
        ],
    },
    // One root is double.
    Worked {
        rows: &[
            &[0xa5, 0x51, 0x11, 0x22],
            &[0xb5, 0x00, 0x75],
            &[0x10, 0x20],
            &[0x01],
        ],
        t: 1,
        roots: &[&[0x10, 0x20], &[0x53, 0xca]],
    },
    // x^3 divides it.
    Worked {
        rows: &[
            &[0x00, 0x00, 0x00, 0x04, 0x32, 0x74],
            &[0x00, 0x00, 0x00, 0x00, 0x32],
            &[0x00, 0x00, 0x00, 0x04],
        ],
        t: 1,
        roots: &[&[0x01, 0x02], &[0x01, 0x83]],
    },
    // y^2 + x has no root, though 0 is one of Q(0, y).
    Worked {
        rows: &[&[0x00, 0x01], &[], &[0x01]],
        t: 1,
        roots: &[],
    },
    // Nor has a polynomial in y alone that has none.
    Worked {
        rows: &[&[0x20], &[0x01], &[0x01]],
        t: 1,
        roots: &[],
    },
    // x^2 and 7 + 2*x^3 are roots too, of higher degree.
    Worked {
        rows: &[
            &[0x00, 0x00, 0x07, 0x00, 0x00, 0x02],
            &[0x07, 0x00, 0x06, 0x02, 0x00, 0x02],
            &[0x06, 0x00, 0x01, 0x02],
            &[0x01],
        ],
        t: 1,
        roots: &[&[0x01, 0x00]],
    },
    // The least and the greatest coefficients.
    Worked {
        rows: &[&[], &[0x00, 0x73, 0x73], &[0x13, 0x13, 0x13], &[], &[0x01]],
        t: 1,
        roots: &[&[0x00, 0x00], &[0x00, 0xff], &[0xff, 0x00], &[0xff, 0xff]],
    },
    // Seven lines.
    Worked {
        rows: &[
            &[0x00, 0xd1, 0x93, 0x5c, 0xc8, 0x03, 0x4b],
            &[0x1b, 0xb1, 0x51, 0xef, 0x09, 0x49, 0x16],
            &[0xe5, 0xf2, 0xe8, 0x41, 0xbc, 0x71],
            &[0xa2, 0x48, 0x7c, 0xc4, 0x8c],
            &[0x0c, 0x78, 0xbe, 0x6e],
            &[0xb8, 0x56, 0x27],
            &[0xe9, 0xf4],
            &[0x01],
        ],
        t: 1,
        roots: &[
            &[0x00, 0xfe],
            &[0x01, 0x02],
            &[0x01, 0x03],
            &[0x10, 0x11],
            &[0x43, 0x8c],
            &[0x44, 0x96],
            &[0xfe, 0x00],
        ],
    },
    // Roots that begin alike.
    Worked {
        rows: &[
            &[0xfe, 0x7c, 0x6e, 0xf1, 0xe1, 0x64, 0x4d, 0xe9, 0x3c],
            &[0xfd, 0x3e, 0xb7, 0xf5, 0xd7, 0x26, 0x97, 0xf9, 0x1e],
            &[0x53, 0x10, 0x42, 0x06, 0x15, 0x0a, 0x1e],
            &[0x0b, 0x08, 0x01, 0x03],
            &[0x01],
        ],
        t: 3,
        roots: &[
            &[0x02, 0x00, 0x00, 0x00],
            &[0x09, 0x08, 0x01, 0x00],
            &[0x09, 0x08, 0x07, 0x05],
            &[0x09, 0x08, 0x07, 0x06],
        ],
    },
    // Two lines, and a factor (1 + x)*y^2 + x without a root.
    Worked {
        rows: &[
            &[0x00, 0x2d, 0x29, 0x1b],
            &[0x00, 0x86, 0x1a],
            &[0x2d, 0x05, 0x32, 0x1b],
            &[0x86, 0x9c, 0x1a],
            &[0x01, 0x01],
        ],
        t: 1,
        roots: &[&[0x06, 0x1b], &[0x80, 0x01]],
    },
];

/// The y-roots of `q`, where the nodes are counted by the blank's ledger.
fn roots_in_steps<N: Ledger>(
    nodes: Blank,
    alloc: Global,
    q: &BiPoly,
    t: u32,
) -> Result<Vec<Vec<u8>>, AllocError>
    requires nodes { (nodes.name ≡ N.name) × (nodes.parts ≡ N.parts) × (0 < nodes.parts) }
    requires nonzero { ¬ IsZero q.now }
    requires degree { t ≤ 254 }
{
    let mut nodes: Steps<N> = Steps::new(nodes);
    y_roots(alloc, q, t, &mut nodes)
}

/// Whether the y-roots are as they should.
fn is_solved(alloc: Global, worked: &Worked<'_>) -> Result<bool, AllocError> {
    let q = from_slices(alloc, worked.rows)?;
    if worked.t > 254 || !is_nonzero(&q) {
        return Ok(false);
    }
    let roots = roots_in_steps::<Brand>(Blank::new(1), alloc, &q, worked.t)?;
    Ok(are(&roots, worked.roots))
}

#[test]
fn lists_the_worked_roots(rt: HostRuntime) -> Result<(), AllocError> {
    for worked in &WORKED {
        assert!(rt; is_solved(rt.alloc(), worked)?);
    }
    Ok(())
}

/// The lines that are y-roots of a polynomial of degree at most 2 in y: at most 4 coefficients are fixed.
fn lines_of_two<N: Ledger>(
    alloc: Global,
    q: &BiPoly,
    nodes: &mut Steps<N>,
) -> Result<Vec<Vec<u8>>, AllocError>
    requires nonzero { ¬ IsZero q.now }
    requires rows { length q.now ≤ 3 }
    ensures four { nodes.new ≤ nodes.old + 4 }
{
    y_roots(alloc, q, 1, nodes)
}

/// The same, where the nodes are counted by the blank's ledger.
fn lines_in_steps<N: Ledger>(
    nodes: Blank,
    alloc: Global,
    q: &BiPoly,
) -> Result<Vec<Vec<u8>>, AllocError>
    requires nodes { (nodes.name ≡ N.name) × (nodes.parts ≡ N.parts) × (0 < nodes.parts) }
    requires nonzero { ¬ IsZero q.now }
    requires rows { length q.now ≤ 3 }
{
    let mut nodes: Steps<N> = Steps::new(nodes);
    lines_of_two(alloc, q, &mut nodes)
}

/// Whether the two y-roots of `(y - x) * (y - 1)` are found so.
fn is_found_in_four(alloc: Global, worked: &Worked<'_>) -> Result<bool, AllocError> {
    let q = from_slices(alloc, worked.rows)?;
    if q.rows().len() > 3 || !is_nonzero(&q) {
        return Ok(false);
    }
    let roots = lines_in_steps::<Brand>(Blank::new(1), alloc, &q)?;
    Ok(are(&roots, worked.roots))
}

#[test]
fn two_roots_take_four_nodes(rt: HostRuntime) -> Result<(), AllocError> {
    assert!(rt; is_found_in_four(rt.alloc(), &WORKED[0])?);
    Ok(())
}
