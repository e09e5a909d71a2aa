//! bench product ROWS WIDTH CALLS WORKERS ..: a product of a query and a matrix of that shape. For each number of workers
//! it prints a line with the word `product`, the shape, that number, the best time of so many calls in nanoseconds, and a
//! checksum of the product.
//!
//! bench products ROWS WIDTH CALLS WORKERS COUNT ..: the products of COUNT queries, with a line for each COUNT: the word,
//! the shape, the numbers of workers and of queries, the best time, and a checksum of all products.

ghost use Rattle.std.specs.Prelude.{◌≡◌, ◌*◌, ◌≤◌, length};
ghost use Rattle.quantity_limits.specs.declared.TheConstants.{MOST_BLOCKS, MOST_WORKERS};

use crate::drawn::{SEED, checksum, fill, matrix_of};
use crate::orders::{Order, print_line};
use anyhow::{Context, Result};
use block_matrix::Matrix;
use quantity_limits::{MOST_BLOCKS, MOST_WORKERS};
use server_product::{OpenGate, product_into, products_into};
use std::alloc::Global;
use std::io::Print;
use std::rt::Clock;
use std::thread::Threads;
use std::time::Instant;

/// A matrix, how many workers make its products, and how often.
#[derive(Drop)]
pub struct Work<'a> {
    pub matrix: &'a Matrix,
    pub workers: u8,
    pub calls: u64,
    pub ghost some: { 1 ≤ workers },
    pub ghost few: { workers ≤ MOST_WORKERS },
}

impl Work<'_> {
    /// How many bytes the products of so many queries have.
    pub fn places_of(&self, count: u8) -> usize
        ensures is { result ≡ count * self.now.matrix.now.width }
        ensures few { result ≤ 16777216 }
    {
        count as usize * self.matrix.width() as usize
    }
}

/// The best time of so many products, in nanoseconds. The last one stays in `out`.
fn best_product<R: Clock + Threads + Sync>(
    rt: &R,
    work: &Work<'_>,
    query: &[u8],
    scratch: &mut [u8],
    out: &mut [u8],
) -> Result<u128>
    requires query { length query.now ≡ length work.now.matrix.now.rows }
    requires scratch { length scratch.old ≡ work.now.workers * work.now.matrix.now.width }
    requires room { length out.old ≡ work.now.matrix.now.width }
{
    let mut best = u128::MAX;
    for _ in 0..work.calls {
        let start = Instant::now(rt)?;
        product_into(
            rt,
            work.matrix,
            query,
            work.workers,
            scratch,
            &OpenGate,
            out,
        );
        best = best.min(start.elapsed(rt)?.as_nanos());
    }
    Ok(best)
}

/// The best time of the products of `count` queries, in nanoseconds. The last ones stay in `out`.
fn best_products<R: Clock + Threads + Sync>(
    rt: &R,
    work: &Work<'_>,
    queries: &[u8],
    count: u8,
    scratch: &mut [u8],
    out: &mut [u8],
) -> Result<u128>
    requires few_queries { count ≤ MOST_BLOCKS }
    requires queries { length queries.now ≡ count * length work.now.matrix.now.rows }
    requires scratch { length scratch.old ≡ work.now.workers * (count * work.now.matrix.now.width) }
    requires room { length out.old ≡ count * work.now.matrix.now.width }
{
    let (matrix, workers) = (work.matrix, work.workers);
    let mut best = u128::MAX;
    for _ in 0..work.calls {
        let start = Instant::now(rt)?;
        products_into(rt, matrix, queries, count, workers, scratch, &OpenGate, out);
        best = best.min(start.elapsed(rt)?.as_nanos());
    }
    Ok(best)
}

/// Makes the matrix and the query, and prints a line for each number of workers, with the best time if there is more than
/// one call.
pub fn measure_product<R: Clock + Print + Threads + Sync>(
    rt: &R,
    alloc: Global,
    order: &Order,
) -> Result<()> {
    let mut state = SEED;
    let matrix = matrix_of(alloc, &mut state, order.rows, order.width)?;
    let mut query = vec![in alloc; 0; matrix.rows() as usize]?;
    fill(&mut state, &mut query);
    for &workers in &order.numbers {
        let work = Work {
            matrix: &matrix,
            workers: workers.clamp(1, MOST_WORKERS),
            calls: order.calls,
        };
        let mut out = vec![in alloc; 0; matrix.width() as usize]?;
        let mut scratch = vec![in alloc; 0; work.workers as usize * matrix.width() as usize]?;
        let best = best_product(rt, &work, &query, &mut scratch, &mut out)?;
        let best = (work.calls > 1).then_some(best);
        print_line(rt, "product", &matrix, work.workers, best, &out)?;
    }
    Ok(())
}

/// Makes the matrix and the queries, and prints a line for each number of queries.
pub fn measure_products<R: Clock + Print + Threads + Sync>(
    rt: &R,
    alloc: Global,
    order: &Order,
) -> Result<()> {
    let mut state = SEED;
    let matrix = matrix_of(alloc, &mut state, order.rows, order.width)?;
    let (workers, counts) = order.numbers.split_first().context("workers")?;
    let work = Work {
        matrix: &matrix,
        workers: (*workers).clamp(1, MOST_WORKERS),
        calls: order.calls,
    };
    for &count in counts {
        let count = count.clamp(1, MOST_BLOCKS);
        let mut queries = vec![in alloc; 0; count as usize * matrix.rows() as usize]?;
        fill(&mut state, &mut queries);
        let places = work.places_of(count);
        let mut out = vec![in alloc; 0; places]?;
        let mut scratch = vec![in alloc; 0; work.workers as usize * places]?;
        let best = best_products(rt, &work, &queries, count, &mut scratch, &mut out)?;
        let (rows, width, workers, sum) = (order.rows, order.width, work.workers, checksum(&out));
        println!(rt; "products {rows} {width} {workers} {count} {best} {sum:016x}")?;
    }
    Ok(())
}
