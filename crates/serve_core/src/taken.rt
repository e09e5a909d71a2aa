//! What is taken of a guest.

use wire_frames::QueryHeader;

/// What was taken of a guest.
#[derive(Clone, Copy, Debug, PartialEq, Eq)]
pub enum Taken {
    /// A whole query, which is good. This is its header.
    Query(QueryHeader),
    /// Its query was refused by a frame of this status alone, given whole: 1 where its first 24
    /// bytes are no header of a query, or its bitmap sets a bit past those of the rows; 2 where the
    /// query is for a database of another shape, 3 where it is of another scheme.
    Refused(u8),
    /// It ended before its query was whole, and was given nothing.
    Gone,
    /// A call on it failed. It was given nothing, or a proper prefix of the frame of a refusal.
    GuestFault,
}
