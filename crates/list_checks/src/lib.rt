//! Whether a file is the database of a list that something is said of, as a catalog does.
//!
//! Promised: [`check_database`] reads the file row by row, in the memory of one row, and says that all that is said of it
//! holds, with how many entries there are and how many the fullest row has; or the first thing that doesn't hold, in the
//! order of the bytes: a row that is no row of the list's table, a file that is too short or too long, another SHA-256,
//! another number of entries.
//!
//! Not promised: that memory is found, that a port ever answers, or that what is said is true of any list of keys: a row
//! is judged by the tag, and the tag isn't computed.
#![tactic(auto)]

mod checking;
mod claim;
mod fault;
mod row;
mod tally;

pub use checking::check_database;
pub use claim::Claim;
pub use fault::CheckFault;
pub use tally::Tally;
