//! The program `pir`: all that it does, over ports that tell what goes in and out, and the laws of what its clients and
//! servers send, of verdicts, and of honest servers.
//!
//! What [`run`], [`ending_of_run`] and the statuses promise comes from `commands`, on which the program stands.
//! The laws of privacy ([`laws`]), of verdicts ([`verdict_laws`]) and of honest servers ([`honest_laws`]) stand above it,
//! here: so the program is built without their proofs.
#![tactic(auto)]

pub mod honest_laws;
pub mod laws;
pub mod verdict_laws;

pub use commands::{Bad, Ending, Status, code, ending_of, ending_of_run, line, run};
