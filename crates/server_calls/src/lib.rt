//! What a server replies to the bytes of a guest, over rows that the caller holds: for programs that bring their own
//! sockets.
//!
//! Promised: whatever numbers and bytes they are given, the calls answer; the reply is exactly the one that `pir serve`
//! gives, and each refusal comes exactly where its cause is, and then nothing is written. They take no memory, and
//! start no thread.
//!
//! Not promised: anything of time. The rows are summed one after the other, and not in groups as by a server's workers.
#![tactic(auto)]

mod judging;
mod reply;
mod sums;

pub use reply::{ReplyRefusal, reply_to};
pub use serve_core::Met;
