//! The catalog of a list: what a client has to know of it, as a text in TOML.
//!
//! Promised: a text is read as a catalog exactly where it is a document with the members of one, their values in their
//! ranges, and nothing else; any other is refused with the first fault, by a fixed order of the members. What
//! [`write_catalog`] wrote is read as the same catalog. Each [`Catalog`] and each [`Servers`] keeps the rules.
//!
//! Not promised: that a catalog speaks the truth of a list, or who wrote it; nor that memory is found.
#![tactic(auto)]

mod catalog;
mod fault;
mod member;
mod range;
mod read;
mod servers;
mod write;

pub use catalog::Catalog;
pub use fault::{CatalogFault, MemberFault, Name, ServersFault, WriteFault};
pub use member::Member;
pub use range::Range;
pub use read::read_catalog;
pub use servers::{Servers, with_options};
pub use write::write_catalog;

/// The greatest number of bytes of a catalog's text.
pub const MOST_CATALOG: usize = 65536;

/// The number of the format, which is the only one.
pub const FORMAT: u32 = 1;
