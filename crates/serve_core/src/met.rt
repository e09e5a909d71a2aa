//! How a guest is met.

/// What became of a guest.
#[derive(Clone, Copy, Debug, PartialEq, Eq)]
pub enum Met {
    /// Its query was answered: the frame of status 0, with the answer to its payload, was given
    /// whole.
    Served,
    /// Its query was refused by a frame of this status alone, given whole: 1 where its first 24
    /// bytes are no header of a query, or its bitmap sets a bit past those of the rows; 2 where the
    /// query is for a database of another shape, 3 where it is of another scheme.
    Refused(u8),
    /// It ended before its query was whole, and was given nothing.
    Gone,
    /// A call on it failed. It was given nothing unless all that the reply takes was taken, and
    /// then a proper prefix of the reply, which may be empty.
    GuestFault,
}
