//! What the words behind `product`, `products`, `answer` and `answers` ask for, and a line of what was measured.

use crate::drawn::checksum;
use crate::words::next_number;
use anyhow::Result;
use block_matrix::Matrix;
use std::alloc::Global;
use std::env::Args;
use std::io::Print;

/// A matrix of so many rows of so many bytes, the best of so many calls, and the numbers of workers and of queries or
/// bitmaps.
#[derive(Drop)]
pub struct Order {
    pub rows: u32,
    pub width: u32,
    pub calls: u64,
    pub numbers: Vec<u8>,
}

impl Order {
    /// Reads the words.
    pub fn read(alloc: Global, mut words: Args) -> Result<Order> {
        let rows = next_number::<u32>(&mut words, "rows")?;
        let width = next_number::<u32>(&mut words, "width")?;
        let calls = next_number::<u64>(&mut words, "calls")?.max(2);
        let mut numbers = Vec::new(alloc);
        for word in words {
            numbers.push(word.as_str().parse::<u8>()?)?;
        }
        Ok(Order {
            rows,
            width,
            calls,
            numbers,
        })
    }
}

/// Prints the word, the shape, the number of workers, the best time in nanoseconds if there is one, and the checksum.
pub fn print_line<R: Print>(
    rt: &R,
    word: &str,
    matrix: &Matrix,
    workers: u8,
    best: Option<u128>,
    out: &[u8],
) -> Result<()> {
    let (rows, width, sum) = (matrix.rows(), matrix.width(), checksum(out));
    match best {
        Some(best) => println!(rt; "{word} {rows} {width} {workers} {best} {sum:016x}")?,
        None => println!(rt; "{word} {rows} {width} {workers} {sum:016x}")?,
    }
    Ok(())
}
