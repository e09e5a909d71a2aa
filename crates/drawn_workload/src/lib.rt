//! A workload that comes from a number: its database, its coins and its lies, drawn from one stream of ChaCha20
//! (Bernstein 2008), what each of its servers answers (Goldberg 2007), and the verdict on their answers.
//!
//! Promised, for all numbers in their ranges: [`answer_all`] answers as each server does, the honest ones with the
//! product of their query and the database, the last ones with bytes that were drawn; [`judge_answers`] decides on
//! exactly these answers. Both are functions of the workload alone: not of the number of workers, nor of the way in
//! which the decoder interpolates. Want of memory is their only error.
//!
//! Not promised: that the numbers of the stream are random, which a workload doesn't need.
#![tactic(auto)]

mod judging;
mod order;
mod servers;
mod stream;

pub use judging::judge_answers;
pub use order::{Workload, WorkloadOrder};
pub use servers::answer_all;
