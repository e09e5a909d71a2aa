//! Looks up a row by its key in a database that several servers hold, without saying to them which row, or which key.
//!
//! A look-up is a binary search among rows that ascend by their first bytes, in which each row is fetched. It makes as
//! many fetches as the number of rows has binary digits, whatever the servers answer, and each fetch has its own piece
//! of the coins.
//!
//! Promised: each fetch asks for the row that [`key_search::Search`] asks for then, and the search is told the one block
//! that its verdict lists, or that it lists none or several; each server is sent one frame in each fetch, whatever was
//! answered before; and at the end the answer is the first verdict that did not list exactly one block, or else the
//! first block listed that begins with the key, or else that none does. Where each fetch lists the row that it asked for,
//! of rows that ascend, that is the row with the key, or that there is none.
//!
//! Not promised: that a server answers at all, that the coins are random (which is what hides the rows), that memory is
//! found, or anything of time.
#![tactic(auto)]

mod key_request;
mod looked_up;
mod turns;
mod write;

pub use key_request::KeyRequest;
pub use looked_up::{Ending, LookUp};
pub use turns::look_up;
pub use write::write_end;
