//! Privacy as a theorem: what a coalition within the bound sees doesn't tell which block is asked
//! for.
//!
//! For any such coalition and any two blocks there is a bijection of the coins under which what the
//! coalition is sent for the one block from the coins is what it is sent for the other from their
//! image. So as many coins lead to what the coalition sees for one block as for another.
//!
//! The laws stand above what the program stands on: so it is built without their proofs.
//!
//! Promised, for all coins: [`partner`] is that bijection for the polynomials of Shamir's scheme,
//! of any degree and with at most as many members, and [`partner_xor`] for the bitmaps of the XOR
//! scheme, with all servers but one; [`partner_list`] and [`partner_xor_list`] are so for several
//! blocks in one query. The same is sent, and the call with the blocks exchanged gives
//! the coins back; want of memory is its only error. [`laws`] says the same of the definitions, in
//! calls that take no memory and cannot fail.
//!
//! Not promised: that coins are uniform, secret and used once. Where they are, what the coalition
//! sees has the same distribution whichever block is asked for. Nothing is said of when bytes are
//! sent.
#![tactic(auto)]

pub mod laws;
mod lists;
mod shamir;
mod xor;

pub use lists::{partner_list, partner_xor_list};
pub use shamir::{hiding, partner};
pub use xor::partner_xor;
