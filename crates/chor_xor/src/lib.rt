//! The XOR scheme of Chor, Goldreich, Kushilevitz and Sudan (1995), with n servers of which all
//! have to answer.
//!
//! A client that wants one block of a database asks each server for the XOR of some of its rows, by
//! a bitmap. Row j has bit `7 - (j mod 8)` of byte `j / 8`, where bit 7 is the greatest. The
//! bitmaps of all servers but the last are coins, and the last is the XOR of the others and the
//! block's bit. So the XOR of all answers is the block.
//!
//! Promised, for all coins: [`bitmap_into`] writes exactly these bitmaps, [`answer_into`] exactly
//! the XOR of the rows, and [`laws::answers_sum_to_the_block`] says that the answers, put together
//! by [`combine_into`], are the block. [`add_chosen_rows`] adds the rows of a run, and [`is_set`] tells
//! whether a bitmap asks for a row. [`has_unused_bits`] tells whether a bitmap has a bit for no
//! row. No call takes memory, and none can fail.
//!
//! Not promised: that fewer than n servers together learn nothing. That holds where the coins are
//! uniform, secret and used once, which the caller sees to. A wrong answer isn't noticed either.
//! Nor is anything said of time: which rows a server reads depends on the bitmap.
#![tactic(auto)]

mod answer;
mod bitmap;
pub mod laws;

pub use answer::{add_chosen_rows, answer_into, combine_into};
pub use bitmap::{bitmap_into, has_unused_bits, is_set};
