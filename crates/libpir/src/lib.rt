//! The proved parts for programs in other languages: what `include/pir.h` declares.
//!
//! Promised: each call is total over the numbers and bytes that it is given, and answers what the call that it stands
//! on answers: a code, and what is written. What is refused leaves the caller's bytes as they were.
//!
//! Not promised: anything where a pointer isn't good for its length, is null, or where what is written overlaps what is
//! read. No call reads or writes anything else, keeps state, or starts a thread.
#![tactic(auto)]

mod code;
mod judgements;
mod liars;
mod lists;
mod numbers;
mod queries;
mod replays;
mod replies;
mod sizes;

ghost use Rattle.std.specs.Prelude.{◌≡◌};

/// The number of the interface that the header declares.
pub const INTERFACE: u32 = 1;

/// Which interface this is.
#[unsafe(no_mangle)]
pub extern "C" fn pir_version() -> u32
    ensures { result ≡ INTERFACE }
{
    INTERFACE
}
