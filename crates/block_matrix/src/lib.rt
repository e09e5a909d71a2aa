//! A database: a file of rows, held in memory as a server needs it.
//!
//! The file is raw bytes with no header. With the width s, row j is the bytes from `j * s` on, and the last row is filled
//! up with zero bytes.
//!
//! Promised: the rows of a [`Matrix`] are those of its file, and an empty file or one that is too big is refused; of the
//! file no more is read than one byte past what a database may have, and nothing after a failed call.
//!
//! Not promised: that memory is found.
#![tactic(auto)]

mod file;
mod matrix;

pub use file::load;
pub use matrix::{LoadFault, Matrix, most_bytes};
