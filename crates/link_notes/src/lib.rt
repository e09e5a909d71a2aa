//! Ports that note what went over each link, and what is said of it to whoever asks why a run ended as it did.
//!
//! Promised: [`NotedPorts`] keep the rules of their trait, and tell what the ports tell that they hand each call on to.
//!
//! Not promised: what is said, which is tested alone. A line has a link's number, and what kind of answer it gave, by
//! [`wire_frames::why`], and no byte that the link gave or took. A note that finds no memory is left out.
#![tactic(auto)]

mod exchange;
mod noted;
mod said;

pub use noted::{NotedPorts, Notes};
pub use said::{say_links, say_next_look};
