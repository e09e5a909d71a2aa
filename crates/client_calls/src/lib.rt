//! What a client calls that brings its own sockets: what each server is sent, what the answers agree on, and what a
//! recorded session comes to, over bytes that the caller holds.
//!
//! Promised: whatever numbers and bytes they are given, the calls answer; each refusal comes exactly where its cause
//! is, and then nothing is written; a frame is exactly the one that the program sends to that server, for the same
//! plan, blocks and coins; a verdict is exactly that on the session of the answers, or on the one that the bytes are,
//! and its text the one that the program prints; and a server is said to lie only where its usable answer isn't in the
//! one agreement that there can be.
//!
//! Not promised: that the coins are random and used once, which is what hides the blocks; anything of time. No call
//! opens, reads or writes a port, and none starts a thread.
#![tactic(auto)]

mod answers;
mod asking;
mod blocks;
mod frame;
mod judging;
mod liars;
mod listing;
mod numbers;
mod query;
mod refusal;
mod replaying;
mod text;

pub use answers::Answers;
pub use asking::{answer_size, coins_size, query_size};
pub use judging::judge_answers;
pub use liars::{AGREES, LIED, UNUSABLE, judge_liars};
pub use listing::write_listing;
pub use numbers::PlanNumbers;
pub use query::write_query;
pub use refusal::Refusal;
pub use replaying::{ReplayRefusal, replay_session};
