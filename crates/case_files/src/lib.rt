//! The cases of text files: what each is run on, and what is expected of it. The language stands in the README of
//! `pir_cases`, which runs them.
//!
//! Nothing is proved of what a line means, nor that one that can't be read is told with its number: the cases show the one,
//! and wrong ones were tried for both.
#![tactic(auto)]

pub mod bytes;
pub mod case;
mod expected_lines;
pub mod fault;
mod limits;
pub mod lines;
pub mod naming;
pub mod reading;
mod session;
pub mod setup_lines;
mod texts;
