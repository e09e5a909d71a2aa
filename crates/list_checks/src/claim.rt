//! What is said of a database.

/// What is said of the database of a list, and is to be checked.
#[derive(Clone, Copy, Debug, PartialEq, Eq)]
pub struct Claim {
    /// The tag of the list, with which each row begins.
    pub tag: [u8; 8],
    /// How many bytes a digest has, from [`LEAST_DIGEST`](key_table::LEAST_DIGEST) to
    /// [`MOST_DIGEST`](key_table::MOST_DIGEST).
    pub size: usize,
    /// How many bytes a value has at most, no more than [`MOST_VALUE`](key_table::MOST_VALUE).
    pub most: usize,
    /// How many rows there are: 1 to 2^20.
    pub rows: u32,
    /// How many bytes a row has: 1 to 2^16, and all rows together no more than 2^30.
    pub width: u32,
    /// How many entries all rows have together.
    pub entries: u32,
    /// The SHA-256 of the file (FIPS 180-4).
    pub sha256: [u8; 32],
}
