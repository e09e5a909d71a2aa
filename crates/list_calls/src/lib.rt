//! What a client of a list of keys calls that brings its own sockets: the row of a key, and what that row says of it,
//! over bytes that the caller holds.
//!
//! Promised: whatever numbers and bytes they are given, the calls answer; a key is present or absent exactly by what
//! its row has for its digest, and the row is broken exactly where it is that row of no table of the list. They take no
//! memory.
//!
//! Not promised: that no two keys have one digest; anything of the digests' quality.
#![tactic(auto)]

mod find;
mod numbers;

pub use find::{KeyFound, KeyRefusal, find_key, row_of_key};
pub use numbers::ListNumbers;
