//! bench stream ROWS WIDTH ROUNDS: the best time of a `selfrun` with a database of so many rows, each of so many bytes, and
//! of two servers that both lie, and that of filling a small buffer with as many bytes of ChaCha20, over and over, by
//! `rand_chacha` itself; both in microseconds.
//!
//! Where all servers lie no product is made: nearly all that such a run does is to draw its stream.

use crate::words::next_number;
use anyhow::{Result, bail};
use pir_ports::{MemPorts, Port};
use pir_tool::{Status, run};
use rand_chacha::ChaCha20Rng;
use rand_core::{Rng, SeedableRng};
use std::alloc::{AllocError, Global};
use std::env::Args;
use std::io::Print;
use std::rt::Clock;
use std::thread::Threads;
use std::time::Instant;

const ROOM: usize = 1 << 16;

/// The words that blanks separate.
fn words_in(alloc: Global, text: &str) -> Result<Vec<String>, AllocError> {
    let mut words = Vec::new(alloc);
    for word in text.split_whitespace() {
        words.push(String::from_str(alloc, word)?)?;
    }
    Ok(words)
}

/// Runs the words once, and says how many nanoseconds that took.
fn measure_run<R: Clock + Threads + Sync>(
    rt: &R,
    alloc: Global,
    words: &[String],
    width: u32,
) -> Result<u128> {
    let mut ports = MemPorts::new(alloc, 1 << 20, &[], 1, 64)?;
    ports.room(alloc, Port::Output, 2 * width as usize + 200)?;
    let start = Instant::now(rt)?;
    let status = run(rt, alloc, words, &mut ports);
    let elapsed = start.elapsed(rt)?.as_nanos();
    match status {
        Status::NoBlock | Status::One => Ok(elapsed),
        _ => bail!("the run ended otherwise"),
    }
}

/// Fills the buffer so many times with bytes of ChaCha20, and says how many nanoseconds that took.
fn measure_fill<R: Clock>(rt: &R, room: &mut [u8], pieces: u64) -> Result<u128> {
    let mut rng = ChaCha20Rng::from_seed([7; 32]);
    let start = Instant::now(rt)?;
    for _ in 0..pieces {
        rng.fill_bytes(room);
    }
    Ok(start.elapsed(rt)?.as_nanos())
}

/// Reads the words, and prints the two times.
pub fn measure_streams<R: Clock + Print + Threads + Sync>(
    rt: &R,
    alloc: Global,
    mut words: Args,
) -> Result<()> {
    let rows = next_number::<u32>(&mut words, "rows")?;
    let width = next_number::<u32>(&mut words, "width")?;
    let rounds = next_number::<u64>(&mut words, "rounds")?;
    let text = format!(in alloc;
        "selfrun --seed 7 --rows {rows} --width {width} --servers 2 --degree 1 --agree 2 --liars 2"
    )?;
    let order = words_in(alloc, &text)?;
    let bytes = u64::from(rows) * (u64::from(width) + 1);
    let mut room = vec![in alloc; 0; ROOM]?;
    let mut best = (u128::MAX, u128::MAX);
    for _ in 0..rounds {
        let running = measure_run(rt, alloc, &order, width)?;
        let filling = measure_fill(rt, &mut room, bytes / ROOM as u64)?;
        best = (best.0.min(running), best.1.min(filling));
    }
    println!(rt; "{} {}", best.0 / 1000, best.1 / 1000)?;
    Ok(())
}
