//! The outside itself, the trusted edge: files, standard streams, TCP streams, a listener and child
//! programs as the ports of `port_trait`.
//!
//! Promised is that a call that fails raises the count of its own port, that one that succeeds
//! raises none, and that no count but that of the port named is touched.
//!
//! No file, link, guest, listener or child's pipe is given one of the numbers 0, 1 and 2, whichever standard
//! streams the program was started without; that is tried and not proved.
//!
//! Not promised is anything about bytes: [`OsPorts`] tells its counts alone. What files, servers,
//! guests and children hold, take and do is the system's.
#![tactic(auto)]

mod children;
mod closed;
mod connections;
mod counts;
mod explainer;
mod files;
mod guest;
mod limits;
mod links;
mod parent;
mod port_name;
mod ports;
mod standard;
mod standard_error;
mod streams;
mod system;
mod timed;
mod variables;

pub use ports::OsPorts;
pub use system::System;
