//! Which way to interpolate the decoder asks, and how often.

ghost use Rattle.std.specs.Prelude.{◌≡◌, ◌+◌, ◌<◌, ◌≤◌, IfOk};

use bi_poly::BiPoly;
use block_decoder::{Verdict, decide};
use gs_interpolate::Elimination;
use interpolation::Interpolate;
use std::alloc::{AllocError, Global};
use std::cell::Cell;
use std::marker::Brand;
use std::sync::ledger::{Blank, Ledger};
use std::test::Fail;
use uni_poly::steps::Steps;

/// Elimination, with the number of times that it was asked, and of points that it was asked about in all.
#[derive(Drop)]
struct Counted {
    calls: Cell<u32>,
    points: Cell<usize>,
}

impl Interpolate for Counted {
    fn interpolate(
        &self,
        alloc: Global,
        points: &[(u8, u8)],
        m: u32,
        t: u32,
        d: u32,
    ) -> Result<BiPoly, AllocError> {
        self.calls.replace(self.calls.replace(0).wrapping_add(1));
        let before = self.points.replace(0);
        self.points.replace(before.wrapping_add(points.len()));
        Elimination.interpolate(alloc, points, m, t, d)
    }
}

/// The verdict on five answers of a byte, of which each three on a line agree on a block: `10`, `10`, `10`, `17`, `16`. One
/// column is decoded.
fn decided<C: Ledger, N: Ledger>(
    alloc: Global,
    way: &Counted,
    cols: &mut Steps<C>,
    nodes: &mut Steps<N>,
) -> Result<Verdict, AllocError>
    ensures { IfOk result (λ _. cols.new ≡ cols.old + 1) }
{
    let indices = [1, 2, 3, 4, 5];
    let bytes = [0x10, 0x10, 0x10, 0x17, 0x16];
    decide(alloc, way, &indices, &bytes, 1, 3, 1, cols, nodes)
}

/// The same, with counters made of the blanks.
fn decided_with<C: Ledger, N: Ledger>(
    cols: Blank,
    nodes: Blank,
    alloc: Global,
    way: &Counted,
) -> Result<Verdict, AllocError>
    requires cols { (cols.name ≡ C.name) × (cols.parts ≡ C.parts) × (0 < cols.parts) }
    requires nodes { (nodes.name ≡ N.name) × (nodes.parts ≡ N.parts) × (0 < nodes.parts) }
{
    let mut cols: Steps<C> = Steps::new(cols);
    let mut nodes: Steps<N> = Steps::new(nodes);
    decided(alloc, way, &mut cols, &mut nodes)
}

// A body that tries choices of answers never asks. That one column is decoded is proved of `decided`.
#[test]
fn the_way_that_is_handed_on_is_asked_once(rt: HostRuntime) -> Result<(), Fail> {
    let way = Counted {
        calls: Cell::new(0),
        points: Cell::new(0),
    };
    let verdict = decided_with::<Brand, Brand>(Blank::new(1), Blank::new(1), rt.alloc(), &way)?;
    let lists_two = match &verdict {
        Verdict::Listed(listing) => listing.len() == 2,
        _ => false,
    };
    assert!(rt; lists_two);
    assert!(rt; way.calls.replace(0) == 1);
    assert!(rt; way.points.replace(0) == 5);
    Ok(())
}
