//! The client: fetches blocks of a database from its servers, without saying to them which.
//!
//! What is sent and taken comes from `query_rounds`, whose words are handed on; here the answers are judged.
//!
//! Promised: the verdict is that of the session. Where enough servers answer honestly from one matrix, its row is listed, and
//! alone where the agreement is close; then a report names exactly the servers whose usable answers are wrong. In the XOR
//! scheme (Chor, Goldreich, Kushilevitz and Sudan 1995) all servers have to answer, and a lie isn't noticed; where all answer
//! honestly, the row is listed alone.
//!
//! Not promised: that a server answers at all, that the coins are random (which is what hides the block), or anything
//! of time.
#![tactic(auto)]

mod fetching;

pub use fetching::{fetch, fetch_report};
pub use query_rounds::{FetchFault, FetchPlan, NUMBER_LEN};
