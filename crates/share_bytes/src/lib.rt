//! The share of one server of a database in shares (Shamir 1979; Goldberg 2007, who calls it
//! tau-independence).
//!
//! Each byte of the database has a polynomial of degree at most `tau`, whose constant is the byte
//! and whose other coefficients are coins. A server's share is the value of each at the server's
//! index.
//!
//! Promised: [`share_into`] writes exactly these values, and takes no memory.
//!
//! Not promised: that up to `tau` servers together can't read the database; `share_db`, which hands
//! this on, has that law. Nor is anything said of time: the places that are read of a table depend
//! on the coins.
#![tactic(auto)]

mod share;

pub use share::share_into;
