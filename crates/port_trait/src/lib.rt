//! The outside, as the programs of private information retrieval see it: numbered ports that are
//! opened by name, hand out bytes, take bytes, and count their failed calls; guests, who come in one
//! after another at a port of their own; and children, which are started with words.
//!
//! Promised is, over any implementation of [`Ports`], that [`read_exactly`] and [`write_all`] move
//! exactly the bytes that they report, in order and each once, and touch no other port.
//!
//! Not promised is anything about the world itself: an implementation of [`Ports`] tells, by its
//! ghost member `world`, what it knows of each port, of the guests and of the children, and need tell
//! no more than the count of failed calls. A clause on bytes holds where those bytes are told.
//!
//! `pir_ports` hands all of this on, beside the ports in memory on which tests run.
#![tactic(auto)]

mod moves;
mod port;

pub use moves::{Filled, read_exactly, write_all};
pub use port::{Failed, LINK_COUNT, PORT_COUNT, Port, Ports};
