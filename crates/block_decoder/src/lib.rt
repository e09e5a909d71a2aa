//! Which blocks a session's answers agree on, and the text that says so.
//!
//! Promised: a verdict lists exactly the blocks on which enough answers agree (Goldberg 2007), each once and ascending,
//! or says that too few answers are usable, that the agreement is too weak for Johnson's bound, or that the listing is too
//! costly (Guruswami and Sudan 1999), which it never is where `2h > k + t`. In the XOR scheme (Chor, Goldreich,
//! Kushilevitz and Sudan 1995) it lists the sum of all servers' payloads, or says that one is missing. That holds for any
//! degree, at most [`MOST_SERVERS`](wire_frames::MOST_SERVERS) answers, and whatever the servers do. A session has exactly
//! one verdict, which lists one block at most where `2h > k + t`, for k answers of which h agree with degree t: these laws
//! stand above, in `pir_tool::verdict_laws`.
//! It never lists more than [`bound`] blocks. The columns that are decoded are counted, and so are the coefficients that
//! are fixed in looking for the polynomials of a column (Roth and Ruckenstein 2000), also where memory ran out. There is
//! one column, and for each further one no more than [`bound`] says; how many coefficients at most doesn't grow with the
//! width of the block.
//!
//! Not promised: which of several blocks is the one that was stored, since servers enough that lie alike agree on a
//! block of their own; that a wrong answer is noticed in the XOR scheme; that memory is found.
#![tactic(auto)]

mod agreements;
mod answer_set;
mod answers;
mod candidate;
mod combining;
mod decoder;
mod decoding;
mod judging;
mod liars;
mod listing;
mod narrowing;
mod reporting;
mod usable;
mod verdict;
mod write;

pub use agreements::{Agreement, Report};
pub use answers::{Answer, PackedAnswers, ServerAnswers};
pub use decoder::{bound, decide, report};
pub use judging::{judge, judge_report, judge_with};
pub use listing::Listing;
pub use reporting::write_report;
pub use verdict::Verdict;
pub use write::{write_block, write_verdict};
