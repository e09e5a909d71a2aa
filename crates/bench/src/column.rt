//! bench column T H ROUNDS X Y ..: the best time to list the polynomials of degree at most T that agree with at least H of
//! the points (X, Y), in nanoseconds, and how many they are.

ghost use Rattle.std.specs.Prelude.{◌≢◌, ◌≡◌, ◌<◌, All, AllPairs, IsTrue};
ghost use Rattle.bench.specs.Listable.{CanList};

use crate::words::next_number;
use anyhow::Result;
use column_lists::{MOST_COST, MOST_POINTS, column_list, plan};
use gs_interpolate::Koetter;
use std::env::Args;
use std::io::Print;
use std::marker::Brand;
use std::rt::Clock;
use std::sync::ledger::{Blank, Ledger};
use std::time::Instant;
use uni_poly::steps::Steps;

/// The points of a column, and with how many of them a polynomial of degree at most `t` is to agree.
#[derive(Drop)]
struct Column<'a> {
    points: &'a [(u8, u8)],
    t: u32,
    h: u32,
    ghost can_list: { CanList points.now t h },
}

/// Whether the first members ascend, and the least is not 0.
fn are_places(points: &[(u8, u8)]) -> bool
    ensures distinct { IsTrue result → AllPairs (λ p q. p.0 ≢ q.0) points.now }
    ensures nonzero { IsTrue result → All (λ p. p.0 ≢ 0) points.now }
{
    let mut last = 0;
    for i in 0..points.len() {
        if points[i].0 <= last {
            return false;
        }
        last = points[i].0;
    }
    true
}

/// Whether there is a list for these numbers.
fn can_list(points: &[(u8, u8)], t: u32, h: u32) -> bool
    ensures { IsTrue result → CanList points.now t h }
{
    if points.len() > MOST_POINTS as usize || !are_places(points) {
        return false;
    }
    let k = points.len() as u32;
    1 <= t && t < h && h <= k && k * t < h * h && plan(k, t, h).cost <= MOST_COST
}

/// Lists once, with the steps counted by the blanks' ledgers, and says how many nanoseconds it took and how many there are.
fn measure<C: Ledger, N: Ledger, R: Clock + AllocGlobal>(
    cols: Blank,
    nodes: Blank,
    rt: &R,
    column: &Column<'_>,
) -> Result<(u128, usize)>
    requires cols { (cols.name ≡ C.name) × (cols.parts ≡ C.parts) × (0 < cols.parts) }
    requires nodes { (nodes.name ≡ N.name) × (nodes.parts ≡ N.parts) × (0 < nodes.parts) }
{
    let mut cols: Steps<C> = Steps::new(cols);
    let mut nodes: Steps<N> = Steps::new(nodes);
    let (points, t, h) = (column.points, column.t, column.h);
    let start = Instant::now(rt)?;
    let list = column_list(rt.alloc(), &Koetter, points, t, h, &mut cols, &mut nodes)?;
    Ok((start.elapsed(rt)?.as_nanos(), list.len()))
}

/// Reads the words, and prints the time and the number.
pub fn measure_lists<R: Clock + Print + AllocGlobal>(rt: &R, mut words: Args) -> Result<()> {
    let t = next_number::<u32>(&mut words, "degree")?;
    let h = next_number::<u32>(&mut words, "agreement")?;
    let rounds = next_number::<u64>(&mut words, "rounds")?;
    let mut points = Vec::new(rt.alloc());
    // A point more than there can be is no list.
    for _ in 0..256u32 {
        let Some(word) = words.next() else { break };
        let x = word.as_str().parse::<u8>()?;
        let y = next_number::<u8>(&mut words, "value")?;
        points.push((x, y))?;
    }
    if !can_list(&points, t, h) {
        println!(rt; "no list")?;
        return Ok(());
    }
    let column = Column {
        points: &points,
        t,
        h,
    };
    let mut best = (u128::MAX, 0);
    for _ in 0..rounds {
        let (time, count) = measure::<Brand, Brand, _>(Blank::new(1), Blank::new(1), rt, &column)?;
        best = (best.0.min(time), count);
    }
    println!(rt; "{} {}", best.0, best.1)?;
    Ok(())
}
