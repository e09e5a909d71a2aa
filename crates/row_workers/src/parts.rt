//! The parts of a slice, each worked on by a thread of its own, and the rows that each adds up.

ghost use Rattle.std.specs.Prelude.{◌≡◌, ℕ, List, ◌+◌, ◌*◌, ◌<◌, ◌≤◌, length};
ghost use Rattle.std.specs.Thread.{IsSync};
ghost use Rattle.quantity_limits.specs.declared.TheConstants.{MOST_ROWS, MOST_WORKERS};
ghost use Rattle.row_workers.specs.Parts.{first_row, Accepts, LeavesAll, OfParts};

use std::thread::{Threads, join_mut};

/// What each of several workers does with its part of a slice.
pub trait Task {
    /// Where a worker may run it, with a part of so many bytes.
    ghost accepts: { Self → ℕ → ℕ → Type 0 };

    /// What the part of a worker is then.
    ghost leaves: { Self → ℕ → List ℕ → Type 0 };

    /// What the worker of this number does.
    fn run(&self, worker: u8, part: &mut [u8])
        requires { accepts self.now worker (length part.old) }
        ensures { leaves self.now worker part.new };
}

/// Runs the task for each of so many workers, counted from 0, with its part of `parts`, which are one
/// after the other and have `size` bytes each: each on a thread of its own, but the last on this one.
/// This thread starts all others, so that none of them has to wait until another is running.
pub fn run_on_parts<R: Threads + Sync, T: Task + Sync>(
    rt: &R,
    task: &T,
    workers: u8,
    size: usize,
    parts: &mut [u8],
)
    requires some { 1 ≤ workers }
    requires parts { length parts.old ≡ workers * size }
    requires accepts { Accepts (T.accepts task.now) workers size }
    ensures { LeavesAll (T.leaves task.now) workers size parts.new }
{
    run_from(rt, task, 0, workers, size, parts);
}

/// Runs it for the workers from `first` on, whose parts these are.
#[cycle(starts)]
fn run_from<R: Threads + Sync, T: Task + Sync>(
    rt: &R,
    task: &T,
    first: u8,
    workers: u8,
    size: usize,
    parts: &mut [u8],
)
    requires first { first < workers }
    requires parts { length parts.old + first * size ≡ workers * size }
    requires accepts { Accepts (T.accepts task.now) workers size }
    ensures { OfParts (T.leaves task.now) first workers size parts.new }
{
    if first + 1 == workers {
        return task.run(first, parts);
    }
    let (own, others) = parts.split_at_mut(size);
    run_both(rt, task, first, workers, own, others);
}

/// Runs it for the worker `first` on a new thread, and for those after it.
#[cycle(starts)]
fn run_both<R: Threads + Sync, T: Task + Sync>(
    rt: &R,
    task: &T,
    first: u8,
    workers: u8,
    own: &mut [u8],
    others: &mut [u8],
)
    requires more { first + 1 < workers }
    requires own { T.accepts task.now first (length own.old) }
    requires others { length others.old + (first + 1) * length own.old ≡ workers * length own.old }
    requires accepts { Accepts (T.accepts task.now) workers (length own.old) }
    ensures own { T.leaves task.now first own.new }
    ensures others { OfParts (T.leaves task.now) (first + 1) workers (length own.old) others.new }
{
    let next = first + 1;
    let size = own.len();
    let mut front = ||
        requires { IsSync T.row × T.accepts task.now first (length own.now) }
        ensures { T.leaves task.entry.now first own.exit.now }
    { task.run(first, own) };
    let mut back = ||
        requires { IsSync R.row × IsSync T.row × (next < workers)
            × (length others.now + next * size ≡ workers * size)
            × Accepts (T.accepts task.now) workers size }
        ensures { OfParts (T.leaves task.entry.now) next workers size others.exit.now }
    { run_from(rt, task, next, workers, size, others) };
    join_mut(rt, &mut front, &mut back);
}

/// The rows of a worker: from the first up to where those of the next worker begin.
pub fn rows_of(rows: u32, workers: u8, worker: u8) -> (u32, u32)
    requires rows { rows ≤ MOST_ROWS }
    requires few { workers ≤ MOST_WORKERS }
    requires within { worker < workers }
    ensures from { result.0 ≡ first_row rows workers worker }
    ensures to { result.1 ≡ first_row rows workers (worker + 1) }
    ensures order { result.0 ≤ result.1 }
    ensures within { result.1 ≤ rows }
{
    let workers = u32::from(workers);
    let worker = u32::from(worker);
    (worker * rows / workers, (worker + 1) * rows / workers)
}
