//! Ports that show a person at a terminal how far a run of `pir_list` is: how many lines of a list are read, that they are
//! being sorted, how many rows are written; and how many queries of a search are done. They show it on one line of standard
//! error, which is written over, and only where the work takes more than a second.
//!
//! Promised: [`ProgressPorts`] keep the rules of their trait, and tell what the ports tell that they hand each call on to.
//!
//! Not promised: what the line says, and when. It is written as calls pass: so nothing changes on it while one is waited
//! for, or while a list is sorted.
#![tactic(auto)]

mod line;
mod ports;
mod progress;

pub use ports::ProgressPorts;
