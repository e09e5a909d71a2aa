//! The answers in parts, each on a thread of its own.

ghost use Rattle.std.specs.Prelude.{◌≡◌, ◌≤◌, ◌*◌, length};
ghost use Rattle.quantity_limits.specs.declared.TheConstants.{MOST_BLOCKS, MOST_WORKERS};
ghost use Rattle.chor_xor.specs.Bitmap.{size_of};
ghost use Rattle.xor_answers.specs.Asked.{asked_of, AreAnswers};

use crate::bitmaps::sum_bitmaps;
use block_matrix::Matrix;
use row_workers::{Gate, RowSums, sum_in_parts};
use std::thread::Threads;

/// Makes `out` the answers to so many bitmaps, one after the other, as `bitmaps` has the bitmaps:
/// each is the XOR of the rows whose bit is set, the answer that
/// [`answer_into`](chor_xor::answer_into) gives. Of the rows `41 42` and `43 44` the bitmaps `c0`
/// and `40` have the answers `02 06` and `43 44`.
///
/// With r rows, worker w, counted from 0, passes the gate once and adds up the rows from
/// `w * r / workers` up to `(w + 1) * r / workers` into its own part of `scratch`, which has
/// `workers` times the bytes of `out` and is written over. The parts are added when all workers have
/// ended. One worker runs on the caller's thread.
pub fn answers_into<R: Threads + Sync, G: Gate + Sync>(
    rt: &R,
    matrix: &Matrix,
    bitmaps: &[u8],
    count: u8,
    workers: u8,
    scratch: &mut [u8],
    gate: &G,
    out: &mut [u8],
)
    requires few_bitmaps { count ≤ MOST_BLOCKS }
    requires some { 1 ≤ workers }
    requires few { workers ≤ MOST_WORKERS }
    requires bitmaps { length bitmaps.now ≡ count * size_of (length matrix.now.rows) }
    requires scratch { length scratch.old ≡ workers * (count * matrix.now.width) }
    requires room { length out.old ≡ count * matrix.now.width }
    ensures { AreAnswers matrix.now count bitmaps.now out.new }
{
    let sums = AnswerSums {
        matrix,
        bitmaps,
        count,
    };
    sum_in_parts(rt, &sums, workers, scratch, gate, out);
}

/// So many bitmaps, one after the other, and the matrix whose rows they ask for.
#[derive(Drop)]
struct AnswerSums<'a> {
    matrix: &'a Matrix,
    bitmaps: &'a [u8],
    count: u8,
}

impl RowSums for AnswerSums<'_> {
    ghost row_count = { λ sums. length sums.matrix.now.rows };

    ghost places = { λ sums. sums.count * sums.matrix.now.width };

    ghost gives = { λ sums. asked_of sums.bitmaps.now sums.matrix.now };

    ghost ready = { λ sums. (sums.count ≤ MOST_BLOCKS)
        × (length sums.bitmaps.now ≡ sums.count * size_of (length sums.matrix.now.rows)) };

    fn rows(&self) -> u32 {
        self.matrix.rows()
    }

    fn sum(&self, from: u32, to: u32, sums: &mut [u8]) {
        sum_bitmaps(self.matrix, self.bitmaps, self.count, from, to, sums);
    }
}
