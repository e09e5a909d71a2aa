//! How a guest of a front is met.

/// What became of a guest.
#[derive(Clone, Copy, Debug, PartialEq, Eq)]
pub enum Relayed {
    /// Its query was answered by all shards: the frame of status 0, with the sum of their answers, was
    /// given whole.
    Served,
    /// Its query was refused by a frame of this status alone, given whole: 1 where its first 24
    /// bytes are no header of a query; 2 where the query is for a database of another shape, 3 where
    /// it is of another scheme. No shard was asked.
    Refused(u8),
    /// It ended before its query was whole, and was given nothing. No shard was asked.
    Gone,
    /// A call on it failed. It was given a proper prefix of its frame, which may be empty.
    GuestFault,
    /// The shard with this number, counted from 1, is lost: it is the first whose link failed, or whose
    /// answer isn't usable. The frame of status 4, with that number behind it, was given whole. No later
    /// shard was asked.
    ShardLost(u8),
}
