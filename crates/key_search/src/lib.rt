//! Looking up a row by its key, among rows that ascend by their first bytes.
//!
//! A [`Search`] says which row to ask for and is told the row, turn after turn, as in a binary search. It takes the same
//! number of turns whatever is told, so whoever sees the questions alone learns nothing of the key from their number.
//!
//! Promised: a text is read as a key exactly where it spells one, in hexadecimal digits, that is short enough. There are
//! [`Search::turns`] turns, a number that depends on the number of rows alone, and each asks for one of the rows. At the end
//! the answer is the first row told that begins with the key, or that none did, or that a row was lost on the way; and
//! where each row told is the one that was asked for, of rows that ascend, it is the row that begins with the key, or that
//! there is none.
//!
//! Not promised: that memory is found; nor, where the rows don't ascend, that a row with the key is met.
#![tactic(auto)]

mod key;
mod search;

pub use key::{Key, KeyFault, read_key};
pub use search::{Outcome, Search};
