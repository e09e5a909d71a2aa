//! A front server over shards: the rows of one database lie on several worker servers, each an
//! ordinary server of Shamir's scheme (Goldberg 2007), and to a client the front is one server.
//!
//! Promised is, for the bytes that a guest holds and those that each link holds: a query is refused,
//! and a guest is gone, as at a server that has all rows, and then no shard is asked; a good query is
//! cut into the parts for the shards, which are asked in their order, each by its own link and address;
//! where each answers, the guest is given the sum of the answers, and where each is honest, exactly what
//! one server of all rows gives; the first whose link fails, or whose answer isn't usable, is lost, none
//! behind it is asked, and the guest is given a frame that names it. Where a call on the guest fails, it
//! was given a proper prefix of its frame, or nothing. No memory is taken once the front is open.
//!
//! Not promised: that a shard or a guest ever sends or takes a byte, and anything of time. A shard that
//! lies behind a right header isn't noticed: its lie is in the sum.
#![tactic(auto)]

mod front;
mod links;
mod parts;
mod query;
mod relay;
mod relayed;
mod room;
mod serve;
mod shard;
mod spread;

pub use front::Front;
pub use quantity_limits::MOST_SHARDS;
pub use relayed::Relayed;
pub use serve::front_one;

/// The status of the frame that names a lost shard: its number stands behind the header.
pub const LOST: u8 = 4;
