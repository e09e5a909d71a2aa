//! One server of private information retrieval, in one of two schemes: it takes a guest's query,
//! and answers with the product of the query and its database (Goldberg 2007), or with the XOR of
//! the rows that the query chooses (Chor, Goldreich, Kushilevitz and Sudan 1995).
//!
//! Promised is, for the bytes that a guest holds: the outcome and the frame, each refusal exactly
//! where it belongs ([`laws::reply_is_one`]), and that no byte is taken beyond those of the query.
//! Where a call on the guest fails, it was given nothing unless all that the reply takes was taken,
//! and then a proper prefix of the frame. The desk is the same after every guest, and no memory is
//! taken once it is open.
//!
//! Not promised: that a guest ever sends or takes a byte, who it is, and anything of time, side
//! channels or threads.
#![tactic(auto)]

mod answer;
mod attend;
mod desk;
mod give;
mod header;
pub mod laws;
mod met;
mod payload;
mod refusal;
mod room;
mod serve;
mod service;
mod take;
mod taken;
mod terms;

pub use desk::Desk;
pub use met::Met;
pub use serve::serve_one;
pub use take::take_query;
pub use taken::Taken;
