//! A database in shares: each server holds one, and up to `tau` of them together can't read the
//! database (Shamir 1979; Goldberg 2007, who calls it tau-independence).
//!
//! Each byte of the database has a polynomial of degree at most `tau`, whose constant is the byte
//! and whose other coefficients are coins. A server's share is the value of each at the server's
//! index.
//!
//! [`share_into`], which writes these values, comes from `share_bytes`, on which the program stands.
//! The law stands above it, here: so the program is built without its proof.
//!
//! Promised, for all coins: for any coalition of at most `tau` servers and any two databases of one
//! size, [`partner_db`] is a bijection of the coins under which the coalition holds for the one
//! database what it holds for the other. [`laws`] says the same of the definitions, in a call that
//! takes no memory and cannot fail.
//!
//! Not promised: that coins are uniform, secret and used once. Where they are, what the coalition
//! holds has the same distribution whichever the database is. Nor is anything said of time: the
//! places that are read of a table depend on the coins.
#![tactic(auto)]

pub mod laws;
mod partner;

pub use partner::partner_db;
pub use share_bytes::share_into;
