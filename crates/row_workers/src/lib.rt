//! What a server's sums over the rows of a database have in common, whatever is asked for: workers,
//! each on a thread of its own, and the order in which rows are read and sums are laid.
//!
//! Promised: [`sum_in_parts`] makes the sums over all rows, whatever a row gives to them
//! ([`RowSums`]): each worker has its share of the rows ([`rows_of`]) and its own part of the room
//! ([`run_on_parts`]), and the parts are added. [`sum_group`] makes the sums of several queries in one
//! pass over the rows ([`GroupSums`]), in blocks of 16 or 32 columns that [`blocks`] lays out query
//! by query, and [`takes_wide_lanes`] says for which rows there are 32. [`four_apart`] has four rows
//! to be added at once, [`share_of`] how far apart such rows stand, and [`lanes_of`] some bytes of a
//! row. No call takes memory, and none can fail.
//!
//! Not promised: that a worker passes its [`Gate`], that the workers run at the same time, or anything
//! of time.
#![tactic(auto)]

pub mod blocks;
mod four_rows;
mod gate;
mod group;
mod lanes;
mod parts;
mod streams;
mod whole;

pub use four_rows::{FourRows, four_apart};
pub use gate::{Gate, OpenGate};
pub use group::{Group, GroupSums, MOST_SUMS, sum_group};
pub use lanes::{lanes_of, takes_wide_lanes};
pub use parts::{Task, rows_of, run_on_parts};
pub use streams::share_of;
pub use whole::{RowSums, sum_in_parts};
