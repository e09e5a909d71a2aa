//! A list of keys becomes a database and its catalog.
//!
//! The salt is the first bytes of Coins; Input is the list, a line for each key;
//! the table of the list goes to Record, row after row; and its catalog goes to a file, or to standard output.
//!
//! Promised: where [`build_list`] gives what it built, the database's file took exactly the bytes of the list's table,
//! in the shape that was asked for or the best one, and behind it exactly the catalog's text was written.
//! Where there is a salt, the list is good and no call failed, it is built, or memory ran out.
//! Each fault comes where its cause is, with its line or its numbers.
//! No file to write is opened before the shape of the table is known, the catalog is written behind a whole table alone,
//! and what a cut file has is a prefix. No other port is touched.
//!
//! Not promised: that memory is found, that a port ever answers, that coins are random,
//! or that no two keys have one digest.
#![tactic(auto)]

mod build;
mod fault;
mod gather;
mod layout;
mod no_shape;
mod order;
mod read;
mod salt;
mod table;
mod text;
mod writing;

pub use build::build_list;
pub use fault::{BuildFault, Built};
pub use order::{BuildOrder, Values};

/// How many bytes the salt has: the first ones of Coins.
pub const SALT_SIZE: usize = 16;
