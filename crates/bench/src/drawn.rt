//! Bytes that look random, a matrix of them, and the checksum of bytes.

use anyhow::Result;
use block_matrix::Matrix;
use quantity_limits::MOST_WIDTH;
use std::alloc::Global;

/// Where the numbers start that look random.
pub const SEED: u64 = 88_172_645_463_325_252;

/// Fills the slice with bytes that look random, eight from each number, and takes the state on (Marsaglia 2003).
pub fn fill(state: &mut u64, bytes: &mut [u8]) {
    let mut x = *state;
    let mut word = [0; 8];
    for i in 0..bytes.len() {
        let place = i % 8;
        if place == 0 {
            x ^= x << 13;
            x ^= x >> 7;
            x ^= x << 17;
            word = x.to_le_bytes();
        }
        bytes[i] = word[place];
    }
    *state = x;
}

/// Makes a matrix of that shape, and takes the state on.
pub fn matrix_of(alloc: Global, state: &mut u64, rows: u32, width: u32) -> Result<Matrix> {
    let width = width.clamp(1, MOST_WIDTH);
    let mut bytes = vec![in alloc; 0; rows as usize * width as usize]?;
    fill(state, &mut bytes);
    Ok(Matrix::from_bytes(alloc, bytes, width)?)
}

/// A checksum of the bytes (Fowler, Noll and Vo 1991, the variant 1a of 64 bits).
pub fn checksum(bytes: &[u8]) -> u64 {
    let mut hash = 0xcbf2_9ce4_8422_2325u64;
    for &byte in bytes {
        hash = (hash ^ u64::from(byte)).wrapping_mul(0x0000_0100_0000_01b3);
    }
    hash
}
