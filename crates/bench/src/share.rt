//! bench share POSITIONS TAU ROUNDS: the best time of a share of a database of so many bytes, and that of reading its bytes
//! and coins and writing as many bytes as the share has once, in microseconds.

ghost use Rattle.std.specs.Prelude.{◌≡◌, ◌*◌, ◌≤◌, length};
ghost use Rattle.quantity_limits.specs.declared.TheConstants.{MOST_DEGREE};

use crate::drawn::{SEED, fill};
use crate::words::next_number;
use anyhow::Result;
use quantity_limits::MOST_DEGREE;
use share_bytes::share_into;
use std::alloc::Global;
use std::env::Args;
use std::io::Print;
use std::rt::Clock;
use std::simd::prelude::*;
use std::time::Instant;

/// Writes at each position a sum of its byte and of as many coins as it has: one pass that reads
/// each byte and each coin once.
fn sum_once(bytes: &[u8], coins: &[u8], tau: usize, out: &mut [u8])
    requires coins { length coins.now ≡ length bytes.now * tau }
    requires room { length out.old ≡ length bytes.now }
{
    let mut at = 0;
    'lanes: while out.len() - at >= 16 {
        let mut sum = u8x16::from_slice(&bytes[at..]);
        let own = &coins[at * tau..(at + 16) * tau];
        for e in 0..tau {
            sum = sum ^ u8x16::from_slice(&own[e * 16..]);
        }
        sum.copy_to_slice(&mut out[at..]);
        at += 16;
    }
}

/// Makes one sum and one share, and says how many nanoseconds each took.
fn measure<R: Clock>(
    rt: &R,
    tau: u32,
    bytes: &[u8],
    coins: &[u8],
    out: &mut [u8],
) -> Result<(u128, u128)>
    requires coins { length coins.now ≡ length bytes.now * tau }
    requires room { length out.old ≡ length bytes.now }
    requires some { 1 ≤ tau }
    requires few { tau ≤ MOST_DEGREE }
{
    let start = Instant::now(rt)?;
    sum_once(bytes, coins, tau as usize, out);
    let reading = start.elapsed(rt)?.as_nanos();
    let start = Instant::now(rt)?;
    share_into(bytes, coins, tau, 0x53, out);
    let sharing = start.elapsed(rt)?.as_nanos();
    Ok((reading, sharing))
}

/// Reads the words, and prints the two times.
pub fn measure_shares<R: Clock + Print>(rt: &R, alloc: Global, mut words: Args) -> Result<()> {
    let positions = next_number::<u32>(&mut words, "positions")? as usize;
    let tau = next_number::<u32>(&mut words, "tau")?.clamp(1, u32::from(MOST_DEGREE));
    let rounds = next_number::<u64>(&mut words, "rounds")?;
    let mut bytes = vec![in alloc; 0; positions]?;
    let mut coins = vec![in alloc; 0; positions * tau as usize]?;
    let mut out = vec![in alloc; 0; positions]?;
    let mut state = SEED;
    fill(&mut state, &mut bytes);
    fill(&mut state, &mut coins);
    let mut best = (u128::MAX, u128::MAX);
    for _ in 0..rounds {
        let (reading, sharing) = measure(rt, tau, &bytes, &coins, &mut out)?;
        best = (best.0.min(reading), best.1.min(sharing));
    }
    println!(rt; "{} {}", best.0 / 1000, best.1 / 1000)?;
    Ok(())
}
