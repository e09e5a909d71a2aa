//! The bytes that begin a query and an answer.
ghost use Rattle.std.specs.Prelude.{◌≡◌};
ghost use Rattle.std.specs.Int.{bytes_high_first};
ghost use Rattle.wire_frames.specs.Header.{frame_header, query_header, answer_header, answer_to};
ghost use Rattle.wire_frames.specs.Limits.{IsQuery};

use crate::places::{
    FRAME_INDEX_PLACE, FRAME_MAGIC_PLACE, FRAME_ROWS_PLACE, FRAME_SCHEME_PLACE,
    FRAME_SESSION_PLACE, FRAME_STATUS_PLACE, FRAME_VERSION_PLACE, FRAME_WIDTH_PLACE,
};
use crate::sizes::FRAME_HEADER_LEN;
use crate::version::{Version, answer_version, count_byte};
use byteorder::{BigEndian, ByteOrder};

/// `PIRQ`
pub(crate) const QUERY_MAGIC: u32 = 0x5049_5251;

// `PIRA`
const ANSWER_MAGIC: u32 = 0x5049_5241;

/// What a query says before its payload.
#[derive(Clone, Copy, Debug, PartialEq, Eq)]
pub struct QueryHeader {
    /// 1 for a query for one block, 2 for one that says for how many it asks.
    pub version: u8,
    /// 1 for Shamir's sharing, 2 for the XOR scheme.
    pub scheme: u8,
    /// The index of the server that is asked, not 0.
    pub index: u8,
    /// How many blocks are asked for: 1 in version 1.
    pub count: u8,
    /// The number of the session.
    pub session: u64,
    /// The number of rows of the database.
    pub r: u32,
    /// The width of a row, in bytes.
    pub s: u32,
}

/// The header of a frame, with its letters and its status, for which a query says for how many blocks
/// it asks.
fn frame_header(magic: u32, query: &QueryHeader, status: u8) -> [u8; FRAME_HEADER_LEN]
    ensures { result ≡ frame_header (bytes_high_first 4 magic) query.now status }
{
    let mut header = [0; FRAME_HEADER_LEN];
    header[FRAME_MAGIC_PLACE..FRAME_VERSION_PLACE].copy_from_slice(&magic.to_be_bytes());
    header[FRAME_VERSION_PLACE] = query.version;
    header[FRAME_SCHEME_PLACE] = query.scheme;
    header[FRAME_INDEX_PLACE] = query.index;
    header[FRAME_STATUS_PLACE] = status;
    BigEndian::write_u64(&mut header[FRAME_SESSION_PLACE..], query.session);
    BigEndian::write_u32(&mut header[FRAME_ROWS_PLACE..], query.r);
    BigEndian::write_u32(&mut header[FRAME_WIDTH_PLACE..], query.s);
    header
}

/// The header of the answer with this status to a query with this header.
pub fn answer_header(query: &QueryHeader, status: u8) -> [u8; FRAME_HEADER_LEN]
    ensures { result ≡ answer_header query.now status }
{
    frame_header(ANSWER_MAGIC, query, status)
}

/// Writes the bytes that begin a query: `PIRQ`, the version, the scheme, the index, 0 or in version 2
/// the number of blocks, the session, the rows and the width. The header's numbers must be in their
/// ranges: version 1 for one block, or 2 for from 1 to `MOST_BLOCKS`; scheme 1 or 2, an index that
/// is not 0, from 1 to `MOST_ROWS` rows of from 1 to `MOST_WIDTH` bytes, of at most `MOST_CELLS`
/// bytes together, and the blocks of at most `MOST_WIDTH` bytes together. It takes no memory.
pub fn write_query_header(header: &QueryHeader, out: &mut [u8; FRAME_HEADER_LEN])
    requires { IsQuery header.now }
    ensures { out.new ≡ query_header header.now }
{
    let version = Version::of(header.version);
    *out = frame_header(QUERY_MAGIC, header, count_byte(version, header.count));
}

/// Writes the bytes that begin the answer with this status to a query: `PIRA`, version 2 where that is
/// the query's and else 1, the query's scheme and index, the status, and the query's session, rows
/// and width. The query's bytes are taken as they came, whether they are the header of a query or
/// not. It takes no memory.
pub fn write_answer_header(
    query: &[u8; FRAME_HEADER_LEN],
    status: u8,
    out: &mut [u8; FRAME_HEADER_LEN],
)
    ensures { out.new ≡ answer_to query.now status }
{
    *out = *query;
    out[FRAME_MAGIC_PLACE..FRAME_VERSION_PLACE].copy_from_slice(&ANSWER_MAGIC.to_be_bytes());
    out[FRAME_VERSION_PLACE] = answer_version(query[FRAME_VERSION_PLACE]).number();
    out[FRAME_STATUS_PLACE] = status;
}
