//! The limits of the program's quantities: servers, rows, widths and what else is counted. What is greater is refused where
//! it is read, and everything above may take it for granted.
//!
//! Each stands here once. `wire_frames` hands them on; what knows no frames, as a database in memory, stands on these alone.
#![tactic(auto)]

/// The least number of servers: one alone would learn the block.
pub const LEAST_SERVERS: u8 = 2;

/// The greatest number of servers. An index is one byte and not 0, so 255 is the end; a verdict needs
/// list decodings of so many points, and a row of servers is gone through with no index past it.
pub const MOST_SERVERS: u8 = 255;

/// The greatest degree of a query's polynomials, so how many servers together may learn nothing. It
/// goes with [`MOST_SERVERS`]: one server more has to agree.
pub const MOST_DEGREE: u8 = MOST_SERVERS - 1;

/// The greatest number of blocks that one query asks for.
pub const MOST_BLOCKS: u8 = 16;

/// The greatest number of rows of a database. Its field has four bytes; [`MOST_CELLS`] has to allow
/// one byte a row.
pub const MOST_ROWS: u32 = 1 << 20;

/// The greatest width of a row, in bytes, and of all rows together that one query asks for. The
/// length of an answer to a query, a header and so many bytes, has to fit four bytes.
pub const MOST_WIDTH: u32 = 1 << 16;

/// The greatest size of a database, in bytes. A server holds so much memory, and a number of rows
/// times a width has to stay below 2^64.
pub const MOST_CELLS: u64 = 1 << 30;

/// The greatest number of workers that share the work on an answer. Each is a thread of its own; it
/// is kept in one byte.
pub const MOST_WORKERS: u8 = 16;

/// The greatest number of guests that a server takes before it ends. It is kept in four bytes.
pub const MOST_GUESTS: u32 = 65535;

/// The greatest number of servers over which the rows of a front server are spread.
pub const MOST_SHARDS: u8 = 32;
