//! Looks up many keys in a list whose table several servers hold, without saying to them which keys.
//!
//! A key is known by its digest, which says the row of the table that it belongs to. The rows of the keys are fetched
//! in queries of several rows each, in Shamir's sharing (Goldberg 2007), and in each row its key is looked for. Each
//! query has its own piece of the coins.
//!
//! Promised: each query asks for the rows of the next keys, in their order, whatever was answered before; and the
//! answer to a key is what [`key_table::find_in_row`] says of its row in the one block that the verdict on its query
//! lists, or that the verdict lists none or several. So a key is told to be absent only where its row came, and is a
//! row of the list without its digest. Where in each query enough servers are honest and hold the table of the list,
//! and the agreement is close, each answer is what the list has for the key ([`laws`]).
//!
//! Not promised: that a server answers at all, that the coins are random (which is what hides the rows), that memory is
//! found, that no two keys have one digest, or anything of time.
#![tactic(auto)]

mod answers;
mod cuts;
mod finding;
mod finds;
mod known_list;
pub mod laws;
mod search;
mod telling;

pub use answers::Answer;
pub use finding::find_keys;
pub use finds::{Ending, Finds, Unlisted};
pub use known_list::KnownList;
pub use search::Search;

/// The greatest number of keys of one search.
pub const MOST_KEYS: usize = 1 << 16;
