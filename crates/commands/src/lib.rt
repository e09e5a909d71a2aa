//! What the program `pir` does for each of its commands, over ports that tell what goes in and out.
//!
//! Promised: what [`run`] says of each command, and the exit code and the line of each status. The laws of privacy, which
//! join what clients send, stand above it in `pir_tool`, so that the program is built without their proofs.
#![tactic(auto)]

mod demo_command;
mod ending;
mod faults;
mod fetch_command;
mod front_command;
mod lookup_command;
mod orders;
mod replay_command;
mod report;
mod running;
mod selfrun_command;
mod serve_command;
mod split_command;
mod status;

pub use ending::ending_of_run;
pub use running::run;
pub use status::{Bad, Ending, Status, code, ending_of, line};
