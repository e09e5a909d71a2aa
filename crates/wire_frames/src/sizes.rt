//! How many bytes frames, and the parts of frames and sessions, have.
ghost use Rattle.std.specs.Prelude.{◌≡◌};
ghost use Rattle.wire_frames.specs.Sizes.{answer_len, query_len};

use crate::scheme::Scheme;

/// How many bytes stand before the payload of a query and of an answer.
pub const FRAME_HEADER_LEN: usize = 24;

/// How many bytes the header of a session has.
pub const SESSION_HEADER_LEN: usize = 28;

/// How many bytes stand before those of a record in a session.
pub const RECORD_HEADER_LEN: usize = 6;

/// How many bytes a query has, in a scheme, for so many blocks of a database of so many rows: the
/// header, and a vector for each block.
pub fn query_len(scheme: Scheme, count: u8, rows: u32) -> usize
    ensures { result ≡ query_len scheme count rows }
{
    FRAME_HEADER_LEN + usize::from(count) * scheme.payload_len(rows)
}

/// How many bytes the answer of status 0 has that holds so many rows of so many bytes: the header,
/// and the rows.
pub fn answer_len(count: u8, width: u32) -> usize
    ensures { result ≡ answer_len count width }
{
    FRAME_HEADER_LEN + usize::from(count) * width as usize
}
