//! What a client sends to its servers, and what it takes from them: the two rounds of a fetch, before anything is judged.
//!
//! It knows two schemes. In Shamir's sharing (Goldberg 2007) the servers are asked for products, in the XOR scheme (Chor,
//! Goldreich, Kushilevitz and Sudan 1995) for the XOR of some rows.
//!
//! Promised: what each server is sent is a function of the plan, the coins and the server's index alone, never of an
//! answer; every server is asked, and the answer of each that was reached is taken; the session keeps what each one
//! answered, or that a call on its link failed; nothing is read of a link that didn't take its whole query, and nothing
//! is done with one after a failed call.
//!
//! Not promised: that all servers are asked before the answer of any is taken, which the body does and the cases of
//! `pir_cases` try; that a server answers at all, that the coins are random (which is what hides the block), or anything
//! of time.
#![tactic(auto)]

mod coins;
mod gathering;
mod links;
mod plan;
mod queries;
mod rounds;

pub use coins::NUMBER_LEN;
pub use gathering::{Gathered, gather};
pub use plan::{FetchFault, FetchPlan};
pub use queries::Queries;
