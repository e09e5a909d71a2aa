//! Columns of answers in which all points lie on one polynomial over GF(256), and runs of such columns; and columns in which
//! all but a few do.
//!
//! Promised: [`decode_run`] takes the longest run, and gives the constant of each column's polynomial, which it finds by
//! Lagrange's factors, rows of 128 columns at once. [`close_polynomial`] finds a polynomial that few points of a column are
//! off, or each misses some of them. Want of memory is the only error.
//!
//! Not promised: anything of time. For p rows and degree t it takes `(p - t) * t` products of 32 bytes for each 32 columns,
//! and memory for as many tables of 32 bytes and for `2 * t` rows of columns, each of at most 2048, and all together of 16 KB
//! or of 128 columns each; a column of p points that has no close polynomial some `p * p` products.
#![tactic(auto)]

mod agreement;
mod close;
mod columns;
mod halves;
mod lagrange;
pub mod one_polynomial;
pub mod rows;
mod run;
mod sums;
mod tile;

pub use close::{close_polynomial, least_misses};
pub use columns::Columns;
pub use run::decode_run;
