//! The lines of a list of keys, read from Input one after another, however its bytes are cut.
//!
//! A line ends at a newline, which the last may lack. It is a key, or a key and a value that a tab parts; a carriage
//! return at its end belongs to it.
//!
//! Promised: [`LineReader`] gives exactly the lines of what Input holds, in their order, until all are given;
//! or it says which line is the first with a fault, and which fault that is; or that a call on Input failed.
//! It takes memory once, as it is made, and touches no port but Input. [`Keys::read`] holds the keys of all lines.
//!
//! Not promised: that two lines differ, or that memory is found.
#![tactic(auto)]

mod fault;
mod form;
mod keys;
mod place;
mod reader;
mod window;

pub use fault::{LineFault, LinesFault};
pub use form::{Form, Terms};
use key_table::MOST_VALUE;
pub use keys::Keys;
pub use reader::LineReader;

/// The greatest number of bytes of a key.
pub const MOST_KEY: usize = 65535;

/// The greatest number of keys that are asked for at once.
pub const MOST_KEYS: u32 = 1 << 16;

/// How many bytes a line has at most, if nothing is wrong with it: a key, a tab, and a value.
pub(crate) const LONGEST_LINE: usize = MOST_KEY + 1 + MOST_VALUE;
