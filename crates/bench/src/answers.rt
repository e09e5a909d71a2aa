//! bench answer ROWS WIDTH CALLS ..: the answer in the XOR scheme to a bitmap with about half of its bits set, for a matrix
//! of that shape. It prints a line with the word `answer`, the shape, 1, the best time of so many calls in nanoseconds, and
//! a checksum of the answer. Further words aren't used: an answer has one worker.
//!
//! bench answers ROWS WIDTH CALLS WORKERS COUNT ..: the answers to COUNT bitmaps, with a line for each COUNT: the word, the
//! shape, the numbers of workers and of bitmaps, the best time, and a checksum of all answers.

ghost use Rattle.std.specs.Prelude.{◌≡◌, ◌*◌, ◌≤◌, length};
ghost use Rattle.chor_xor.specs.Bitmap.{size_of};
ghost use Rattle.quantity_limits.specs.declared.TheConstants.{MOST_BLOCKS};

use crate::drawn::{SEED, checksum, fill, matrix_of};
use crate::orders::{Order, print_line};
use crate::products::Work;
use anyhow::{Context, Result};
use block_matrix::Matrix;
use chor_xor::answer_into;
use quantity_limits::{MOST_BLOCKS, MOST_WORKERS};
use server_product::OpenGate;
use std::alloc::Global;
use std::io::Print;
use std::rt::Clock;
use std::thread::Threads;
use std::time::Instant;
use xor_answers::answers_into;

/// The best time of so many answers, in nanoseconds. The last one stays in `out`.
fn best_answer<R: Clock>(
    rt: &R,
    matrix: &Matrix,
    bitmap: &[u8],
    calls: u64,
    out: &mut [u8],
) -> Result<u128>
    requires bitmap { length bitmap.now ≡ size_of (length matrix.now.rows) }
    requires room { length out.old ≡ matrix.now.width }
{
    let mut best = u128::MAX;
    for _ in 0..calls {
        let start = Instant::now(rt)?;
        answer_into(matrix, bitmap, out);
        best = best.min(start.elapsed(rt)?.as_nanos());
    }
    Ok(best)
}

/// The best time of the answers to `count` bitmaps, in nanoseconds. The last ones stay in `out`.
fn best_answers<R: Clock + Threads + Sync>(
    rt: &R,
    work: &Work<'_>,
    bitmaps: &[u8],
    count: u8,
    scratch: &mut [u8],
    out: &mut [u8],
) -> Result<u128>
    requires few_bitmaps { count ≤ MOST_BLOCKS }
    requires bitmaps { length bitmaps.now ≡ count * size_of (length work.now.matrix.now.rows) }
    requires scratch { length scratch.old ≡ work.now.workers * (count * work.now.matrix.now.width) }
    requires room { length out.old ≡ count * work.now.matrix.now.width }
{
    let (matrix, workers) = (work.matrix, work.workers);
    let mut best = u128::MAX;
    for _ in 0..work.calls {
        let start = Instant::now(rt)?;
        answers_into(rt, matrix, bitmaps, count, workers, scratch, &OpenGate, out);
        best = best.min(start.elapsed(rt)?.as_nanos());
    }
    Ok(best)
}

/// Makes the matrix and the bitmap, and prints a line, with the best time if there is more than one call.
pub fn measure_answer<R: Clock + Print>(rt: &R, alloc: Global, order: &Order) -> Result<()> {
    let mut state = SEED;
    let matrix = matrix_of(alloc, &mut state, order.rows, order.width)?;
    let mut bitmap = vec![in alloc; 0; matrix.rows().div_ceil(8) as usize]?;
    fill(&mut state, &mut bitmap);
    let mut out = vec![in alloc; 0; matrix.width() as usize]?;
    let best = best_answer(rt, &matrix, &bitmap, order.calls, &mut out)?;
    let best = (order.calls > 1).then_some(best);
    print_line(rt, "answer", &matrix, 1, best, &out)
}

/// Makes the matrix and the bitmaps, and prints a line for each number of bitmaps.
pub fn measure_answers<R: Clock + Print + Threads + Sync>(
    rt: &R,
    alloc: Global,
    order: &Order,
) -> Result<()> {
    let mut state = SEED;
    let matrix = matrix_of(alloc, &mut state, order.rows, order.width)?;
    let (workers, counts) = order.numbers.split_first().context("workers")?;
    let work = Work {
        matrix: &matrix,
        workers: (*workers).clamp(1, MOST_WORKERS),
        calls: order.calls,
    };
    for &count in counts {
        let count = count.clamp(1, MOST_BLOCKS);
        let mut bitmaps = vec![in alloc; 0; count as usize * matrix.rows().div_ceil(8) as usize]?;
        fill(&mut state, &mut bitmaps);
        let places = work.places_of(count);
        let mut out = vec![in alloc; 0; places]?;
        let mut scratch = vec![in alloc; 0; work.workers as usize * places]?;
        let best = best_answers(rt, &work, &bitmaps, count, &mut scratch, &mut out)?;
        let (rows, width, workers, sum) = (order.rows, order.width, work.workers, checksum(&out));
        println!(rt; "answers {rows} {width} {workers} {count} {best} {sum:016x}")?;
    }
    Ok(())
}
