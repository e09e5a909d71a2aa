//! Frames and session files: which bytes stand for which fields. Numbers of more than one byte are
//! big endian.
//!
//! Promised: an answer is usable exactly where it is the whole answer of status 0 to the query at
//! hand, and a session holds the numbers and the records that it was given, in their order. A reader
//! of sessions takes a session's file in pieces, cut anywhere: the same answers come for every cut.
//! It refuses other bytes in the first call after which they begin no session, with the length of
//! their longest prefix that does. A file is the file of one session ([`laws`]).
//!
//! Not promised: where the bytes come from. A server that lies behind a right header gives a usable
//! answer.
//!
//! The sizes of frames and the schemes stand here, and definitions and code of every crate take them
//! from here; the limits of a session come from `quantity_limits`. The places of fields are this crate's own.
#![tactic(auto)]

mod answer;
mod cause;
mod field;
mod head;
mod header;
pub mod laws;
mod layout;
mod places;
mod query;
mod reader;
mod records;
mod records_reader;
mod scheme;
mod session;
mod sizes;
mod version;
mod write;

pub use answer::usable_answer;
pub use cause::{AnswerField, Cause, why};
pub use header::{QueryHeader, write_answer_header, write_query_header};
pub use quantity_limits::{
    LEAST_SERVERS, MOST_BLOCKS, MOST_CELLS, MOST_DEGREE, MOST_GUESTS, MOST_ROWS, MOST_SERVERS,
    MOST_WIDTH, MOST_WORKERS,
};
pub use query::{Field, FrameFault, read_query_header};
pub use reader::{BadSession, FeedFault, SessionReader};
pub use scheme::{SHAMIR, Scheme, XOR};
pub use session::{Session, SessionParams};
pub use sizes::{FRAME_HEADER_LEN, RECORD_HEADER_LEN, SESSION_HEADER_LEN, answer_len, query_len};
pub use version::Version;
pub use write::write_session;
