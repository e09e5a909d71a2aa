//! Sums over all rows, in parts, each on a thread of its own.

ghost use Rattle.std.specs.Prelude.{◌≡◌, ℕ, ◌≤◌, ◌<◌, ◌+◌, ◌*◌, ◌^◌, length, slice_index};
ghost use Rattle.quantity_limits.specs.declared.TheConstants.{MOST_ROWS, MOST_WORKERS};
ghost use Rattle.row_workers.specs.Parts.{part};
ghost use Rattle.row_workers.specs.RowSums.{AreSums};

use crate::gate::Gate;
use crate::parts::{Task, rows_of, run_on_parts};
use gf256::rows::{add_row, clear};
use std::thread::Threads;

/// Sums over rows, each of which gives something to each of so many bytes.
pub trait RowSums {
    /// How many rows there are.
    ghost row_count: { Self → ℕ };

    /// How many bytes the sums have.
    ghost places: { Self → ℕ };

    /// What row j gives to place p: the place comes first.
    ghost gives: { Self → ℕ → ℕ → ℕ };

    /// Where the sums can be made.
    ghost ready: { Self → Type 0 };

    /// How many rows there are.
    fn rows(&self) -> u32
        ensures is { result ≡ row_count self.now }
        ensures few { result ≤ MOST_ROWS };

    /// Makes `sums` the sums over the rows from `from` up to `to`.
    fn sum(&self, from: u32, to: u32, sums: &mut [u8])
        requires ready { ready self.now }
        requires order { from ≤ to }
        requires within { to ≤ row_count self.now }
        requires room { length sums.old ≡ places self.now }
        ensures { AreSums (gives self.now) (places self.now) from to sums.new };
}

/// Makes `out` the sums over all rows.
///
/// With r rows, worker w, counted from 0, passes the gate once and makes the sums over the rows from
/// `w * r / workers` up to `(w + 1) * r / workers` in its own part of `scratch`, which has `workers`
/// times the bytes of `out` and is written over. The parts are added when all workers have ended.
/// One worker runs on the caller's thread.
pub fn sum_in_parts<R: Threads + Sync, S: RowSums + Sync, G: Gate + Sync>(
    rt: &R,
    sums: &S,
    workers: u8,
    scratch: &mut [u8],
    gate: &G,
    out: &mut [u8],
)
    requires some { 1 ≤ workers }
    requires few { workers ≤ MOST_WORKERS }
    requires ready { S.ready sums.now }
    requires scratch { length scratch.old ≡ workers * length out.old }
    requires room { length out.old ≡ S.places sums.now }
    ensures { AreSums (S.gives sums.now) (S.places sums.now) 0 (S.row_count sums.now) out.new }
{
    let places = out.len();
    let shared = Shared {
        sums,
        workers,
        gate,
    };
    run_on_parts(rt, &shared, workers, places, scratch);
    clear(out);
    for worker in 0..u32::from(workers) {
        let start = worker as usize * places;
        add_row(out, &scratch[start..start + places]);
    }
}

/// The sums that so many workers share, and their gate.
#[derive(Drop)]
struct Shared<'a, S, G> {
    sums: &'a S,
    workers: u8,
    gate: &'a G,
}

impl<S: RowSums, G: Gate> Task for Shared<'_, S, G> {
    ghost accepts = { λ shared worker places. (shared.workers ≤ MOST_WORKERS) × (worker < shared.workers)
        × S.ready shared.sums.now × (places ≡ S.places shared.sums.now) };

    ghost leaves = { λ shared worker own. (p : ℕ) → p < S.places shared.sums.now
        → slice_index own p ≡ part (S.gives shared.sums.now) (S.row_count shared.sums.now) shared.workers worker p };

    fn run(&self, worker: u8, part: &mut [u8]) {
        self.gate.pass(worker);
        let (from, to) = rows_of(self.sums.rows(), self.workers, worker);
        self.sums.sum(from, to, part);
    }
}
