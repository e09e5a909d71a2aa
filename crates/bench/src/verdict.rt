//! bench decide T H WIDTH ROUNDS FILE: the best time of the verdict on the answers of servers 1, 2, .., in nanoseconds, and
//! how many blocks it lists. Their payloads of WIDTH bytes stand in the file one after another, T is the degree, and H have
//! to agree.

ghost use Rattle.std.specs.Prelude.{◌≡◌, ◌≢◌, ◌<◌, All, IsTrue};
ghost use Rattle.std.specs.List.Sorted.{IsStrictlyIncreasing};
ghost use Rattle.bench.specs.Decidable.{CanDecide};

use crate::words::next_number;
use anyhow::{Context, Result};
use block_decoder::{Verdict, decide};
use gs_interpolate::Koetter;
use quantity_limits::MOST_SERVERS;
use std::alloc::Global;
use std::env::Args;
use std::fs;
use std::io::Print;
use std::marker::Brand;
use std::rt::{Clock, Files};
use std::sync::ledger::{Blank, Ledger};
use std::time::Instant;
use uni_poly::steps::Steps;

/// The answers of the servers with these indices, whose payloads of `s` bytes stand one after another, of which `h` have to
/// agree in the degree `t`.
#[derive(Drop)]
struct Answers<'a> {
    indices: &'a [u8],
    bytes: &'a [u8],
    t: u32,
    h: u32,
    s: u32,
    ghost can_decide: { CanDecide indices.now bytes.now t h s },
}

/// Whether the indices ascend, and the least is not 0.
fn are_indices(indices: &[u8]) -> bool
    ensures ascending { IsTrue result → IsStrictlyIncreasing indices.now }
    ensures nonzero { IsTrue result → All (λ a. a ≢ 0) indices.now }
{
    let mut last = 0;
    for i in 0..indices.len() {
        if indices[i] <= last {
            return false;
        }
        last = indices[i];
    }
    true
}

/// Whether there is a verdict on these.
fn can_decide(indices: &[u8], bytes: &[u8], t: u32, h: u32, s: u32) -> bool
    ensures { IsTrue result → CanDecide indices.now bytes.now t h s }
{
    if indices.len() > usize::from(MOST_SERVERS) || !are_indices(indices) {
        return false;
    }
    1 <= t && t < h && 1 <= s && bytes.len() == indices.len() * s as usize
}

/// Judges once, with the steps counted by the blanks' ledgers, and says how many nanoseconds it took and how many blocks
/// are listed.
fn measure<C: Ledger, N: Ledger, R: Clock + AllocGlobal>(
    cols: Blank,
    nodes: Blank,
    rt: &R,
    answers: &Answers<'_>,
) -> Result<(u128, usize)>
    requires cols { (cols.name ≡ C.name) × (cols.parts ≡ C.parts) × (0 < cols.parts) }
    requires nodes { (nodes.name ≡ N.name) × (nodes.parts ≡ N.parts) × (0 < nodes.parts) }
{
    let mut cols: Steps<C> = Steps::new(cols);
    let mut nodes: Steps<N> = Steps::new(nodes);
    let (indices, bytes) = (answers.indices, answers.bytes);
    let (t, h, s) = (answers.t, answers.h, answers.s);
    let alloc = rt.alloc();
    let start = Instant::now(rt)?;
    let verdict = decide(
        alloc, &Koetter, indices, bytes, t, h, s, &mut cols, &mut nodes,
    )?;
    let time = start.elapsed(rt)?.as_nanos();
    match verdict {
        Verdict::Listed(listing) => Ok((time, listing.len())),
        _ => Ok((time, 0)),
    }
}

/// The first so many indices, or as many as there may be.
fn first_indices(alloc: Global, count: usize) -> Result<Vec<u8>> {
    let mut indices = Vec::new(alloc);
    for index in 1..=MOST_SERVERS {
        if usize::from(index) <= count {
            indices.push(index)?;
        }
    }
    Ok(indices)
}

/// Reads the words and the file, and prints the time and the number.
pub fn measure_verdicts<R: Clock + Files + Print + AllocGlobal>(
    rt: &R,
    mut words: Args,
) -> Result<()> {
    let t = next_number::<u32>(&mut words, "degree")?;
    let h = next_number::<u32>(&mut words, "agreement")?;
    let s = next_number::<u32>(&mut words, "width")?;
    let rounds = next_number::<u64>(&mut words, "rounds")?;
    let bytes = fs::read(rt, words.next().context("file")?.as_str())?;
    let count = bytes.len().checked_div(s as usize).unwrap_or(0);
    let indices = first_indices(rt.alloc(), count)?;
    if !can_decide(&indices, &bytes, t, h, s) {
        println!(rt; "no verdict")?;
        return Ok(());
    }
    let answers = Answers {
        indices: &indices,
        bytes: &bytes,
        t,
        h,
        s,
    };
    let mut best = (u128::MAX, 0);
    for _ in 0..rounds {
        let (time, count) = measure::<Brand, Brand, _>(Blank::new(1), Blank::new(1), rt, &answers)?;
        best = (best.0.min(time), count);
    }
    println!(rt; "{} {}", best.0, best.1)?;
    Ok(())
}
