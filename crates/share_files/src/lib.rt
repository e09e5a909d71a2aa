//! The files of a database in shares: each server is to hold one, and up to `tau` of them together can't read the database
//! (Goldberg 2007, who calls it tau-independence).
//!
//! Promised: each file has the share of its server, by the definition of `share_bytes`; the database and its coins are no
//! more than a database may have cells; no file is opened before all coins are there; and where one can't be written, the
//! files before it are whole, it has a prefix of its share, and those behind it are left alone.
//!
//! Not promised: that memory is found, that a port ever answers, or that coins are uniform, secret and used once, which is
//! what hides the database.
#![tactic(auto)]

mod coins;
mod fault;
mod limit;
mod names;
mod plan;
mod sharing;
mod splitting;

pub use fault::SplitFault;
pub use limit::{load_to_share, most_bytes_shared};
pub use plan::SplitPlan;
pub use splitting::split;
