//! bench query ROWS DEGREE ROUNDS: the best time of a query for a database of so many rows, and that of a copy of its
//! coins, in microseconds.

ghost use Rattle.std.specs.Prelude.{◌≡◌, ◌*◌, ◌<◌, ◌≤◌, length};
ghost use Rattle.quantity_limits.specs.declared.TheConstants.{MOST_DEGREE};

use crate::drawn::{SEED, fill};
use crate::words::next_number;
use anyhow::Result;
use quantity_limits::MOST_DEGREE;
use shamir_share::query_into;
use std::alloc::Global;
use std::env::Args;
use std::io::Print;
use std::rt::Clock;
use std::time::Instant;

/// Makes one copy and one query, and says how many nanoseconds each took.
fn measure<R: Clock>(
    rt: &R,
    degree: u32,
    rows: u32,
    coins: &[u8],
    copy: &mut [u8],
    out: &mut [u8],
) -> Result<(u128, u128)>
    requires coins { length coins.now ≡ rows * degree }
    requires copy { length copy.old ≡ length coins.now }
    requires out { length out.old ≡ rows }
    requires rows { 0 < rows }
    requires some { 1 ≤ degree }
    requires few { degree ≤ MOST_DEGREE }
{
    let start = Instant::now(rt)?;
    copy.copy_from_slice(coins);
    let copying = start.elapsed(rt)?.as_nanos();
    let start = Instant::now(rt)?;
    query_into(coins, degree, rows, 0, 0x53, out);
    let asking = start.elapsed(rt)?.as_nanos();
    Ok((copying, asking))
}

/// Reads the words, and prints the two times.
pub fn measure_queries<R: Clock + Print>(rt: &R, alloc: Global, mut words: Args) -> Result<()> {
    let rows = next_number::<u32>(&mut words, "rows")?.max(1);
    let degree = next_number::<u32>(&mut words, "degree")?.clamp(1, u32::from(MOST_DEGREE));
    let rounds = next_number::<u64>(&mut words, "rounds")?;
    let mut coins = vec![in alloc; 0; rows as usize * degree as usize]?;
    let mut copy = vec![in alloc; 0; rows as usize * degree as usize]?;
    let mut out = vec![in alloc; 0; rows as usize]?;
    let mut state = SEED;
    fill(&mut state, &mut coins);
    let mut best = (u128::MAX, u128::MAX);
    for _ in 0..rounds {
        let (copying, asking) = measure(rt, degree, rows, &coins, &mut copy, &mut out)?;
        best = (best.0.min(copying), best.1.min(asking));
    }
    println!(rt; "{} {}", best.0 / 1000, best.1 / 1000)?;
    Ok(())
}
