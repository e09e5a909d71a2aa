//! A list of keys as a table of rows, so that one row tells whether a key is in the list, and its value.
//!
//! A key is known by its digest, which says the row that it belongs to. A row has the digests that belong to it, with
//! their values, as one text of bytes that shows whether it was changed or is another row.
//!
//! Promised: [`find_in_row`] says of any bytes whether they are that row of some table, and if so whether the digest is
//! in it, and its value. In the row of a list's table that is what the list has for the digest ([`laws`]).
//! [`Entries`] gathers the pairs of a list and sorts them, or says where the list has a digest with two values.
//! [`SortedEntries`] says which number of rows is best, or which limit every one passes, and [`TableRows`] writes the
//! rows of the table one after the other, in the memory of one row. [`entries_in_row`] judges a row without a digest.
//!
//! Not promised: that no two keys have one digest.
#![tactic(auto)]

mod clash;
mod digest;
mod entries;
mod entry;
pub mod laws;
mod pairs;
mod place;
mod row;
mod rows;
mod runs;
mod shape;
mod tag;
mod write;

pub use clash::Clash;
pub use digest::{row_of, write_digest};
pub use entries::{AddFault, Entries, SortedEntries};
pub use entry::entry_size;
pub use row::{Finding, entries_in_row, find_in_row};
pub use rows::TableRows;
pub use shape::{Shape, ShapeFault, ShapeLimit};

/// The least number of bytes of a digest: so many say its row.
pub const LEAST_DIGEST: usize = 8;

/// The greatest number of bytes of a digest: SHA-256 has no more.
pub const MOST_DIGEST: usize = 32;

/// The greatest number of bytes of a value. A row with one entry has to fit the greatest width.
pub const MOST_VALUE: usize = 16384;

/// The greatest number of pairs of a list.
pub const MOST_PAIRS: usize = 1 << 26;
