//! The program `bench`: times calls of the crates below. The first word says what is timed.
//!
//! ```text
//! bench query ROWS DEGREE ROUNDS                        a query of Shamir's scheme
//! bench share POSITIONS TAU ROUNDS                      a share of a database
//! bench column T H ROUNDS X Y ..                        the list of a column
//! bench decide T H WIDTH ROUNDS FILE                    the verdict on answers
//! bench product ROWS WIDTH CALLS WORKERS ..             a product of a query and a matrix
//! bench products ROWS WIDTH CALLS WORKERS COUNT ..      those of several queries
//! bench answer ROWS WIDTH CALLS ..                      an answer in the XOR scheme
//! bench answers ROWS WIDTH CALLS WORKERS COUNT ..       those to several bitmaps
//! bench stream ROWS WIDTH ROUNDS                        the drawing of a workload
//! ```
//!
//! What each prints stands at the head of its module. With no words it prints the checksums of a product and an answer for
//! a few small shapes, without times.
#![tactic(auto)]

mod answers;
mod column;
mod drawn;
mod orders;
mod products;
mod query;
mod share;
mod stream;
mod verdict;
mod words;

use answers::{measure_answer, measure_answers};
use anyhow::{Result, bail};
use column::measure_lists;
use orders::Order;
use products::{measure_product, measure_products};
use query::measure_queries;
use share::measure_shares;
use std::alloc::Global;
use std::env;
use std::io::Print;
use std::rt::Clock;
use std::thread::Threads;
use stream::measure_streams;
use verdict::measure_verdicts;

/// Prints the checksums of a product, by one, two and four workers, and of an answer for a few small shapes.
fn print_checksums<R: Clock + Print + Threads + Sync>(rt: &R, alloc: Global) -> Result<()> {
    for (rows, width) in [(1, 1), (7, 5), (64, 16), (300, 33), (1000, 256)] {
        let order = Order {
            rows,
            width,
            calls: 1,
            numbers: vec![in alloc; 1, 2, 4]?,
        };
        measure_product(rt, alloc, &order)?;
        measure_answer(rt, alloc, &order)?;
    }
    Ok(())
}

fn main(rt: HostRuntime) -> Result<()> {
    let alloc = rt.alloc();
    let mut words = env::args(&rt)?;
    let _program = words.next();
    let Some(word) = words.next() else {
        return print_checksums(&rt, alloc);
    };
    match word.as_str() {
        "query" => measure_queries(&rt, alloc, words),
        "share" => measure_shares(&rt, alloc, words),
        "column" => measure_lists(&rt, words),
        "decide" => measure_verdicts(&rt, words),
        "product" => measure_product(&rt, alloc, &Order::read(alloc, words)?),
        "products" => measure_products(&rt, alloc, &Order::read(alloc, words)?),
        "answer" => measure_answer(&rt, alloc, &Order::read(alloc, words)?),
        "answers" => measure_answers(&rt, alloc, &Order::read(alloc, words)?),
        "stream" => measure_streams(&rt, alloc, words),
        _ => bail!("there is nothing of that name to be timed"),
    }
}
