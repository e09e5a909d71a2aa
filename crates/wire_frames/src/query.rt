//! Reads the header of a query, whose fields stand where `places` says.
//!
//! | Field | Range |
//! |---|---|
//! | letters | `PIRQ` |
//! | version | 1 or 2 |
//! | scheme | 1 or 2 |
//! | index | not 0 |
//! | zero, in version 2 blocks | 0, in version 2 from 1 to `MOST_BLOCKS` |
//! | session | any |
//! | rows | from 1 to `MOST_ROWS` |
//! | width | from 1 to `MOST_WIDTH`, with rows times width at most `MOST_CELLS`, and blocks times width at most `MOST_WIDTH` |
ghost use Rattle.std.specs.Prelude.{◌≡◌, ◌≤◌, take, drop, IfOk};
ghost use Rattle.quantity_limits.specs.declared.TheConstants.{MOST_BLOCKS};
ghost use Rattle.wire_frames.specs.declared.places.TheConstants.{FRAME_SESSION_PLACE};
ghost use Rattle.wire_frames.specs.Field.{IsField, IsNumber, count_field, session_field};
ghost use Rattle.wire_frames.specs.Query.{first_place, ReadsField, ReadsQuery};
ghost use Rattle.wire_frames.specs.Version.{count_name};

use crate::field::{Number, number_at};
use crate::header::{QUERY_MAGIC, QueryHeader};
use crate::layout::{ROWS, SCHEME, SESSION, VERSION, count_field, width_field};
use crate::places::{
    FRAME_INDEX_PLACE, FRAME_MAGIC_PLACE, FRAME_ROWS_PLACE, FRAME_SCHEME_PLACE,
    FRAME_SESSION_PLACE, FRAME_STATUS_PLACE, FRAME_VERSION_PLACE, FRAME_WIDTH_PLACE,
};
use crate::sizes::FRAME_HEADER_LEN;
use crate::version::Version;
use thiserror::Error;

/// A field of a query's header that can be wrong.
#[derive(Clone, Copy, Debug, PartialEq, Eq)]
pub enum Field {
    /// The four letters.
    Magic,
    /// The version.
    Version,
    /// The scheme's number.
    Scheme,
    /// The index of the server.
    Index,
    /// The byte that is 0 in version 1, where an answer has its status.
    Zero,
    /// The number of blocks, which stands there in version 2.
    Count,
    /// The number of rows.
    Rows,
    /// The width of a row. That the rows have too many bytes together counts to it, and that the
    /// blocks have.
    Width,
}

impl Field {
    /// Its first place.
    fn place(self) -> usize
        ensures { result ≡ first_place self }
    {
        match self {
            Field::Magic => FRAME_MAGIC_PLACE,
            Field::Version => FRAME_VERSION_PLACE,
            Field::Scheme => FRAME_SCHEME_PLACE,
            Field::Index => FRAME_INDEX_PLACE,
            Field::Zero | Field::Count => FRAME_STATUS_PLACE,
            Field::Rows => FRAME_ROWS_PLACE,
            Field::Width => FRAME_WIDTH_PLACE,
        }
    }
}

/// The bytes are no header of a query: `place` is the length of their longest prefix that begins
/// one, and `field` is the field at that place.
#[derive(Clone, Copy, Debug, PartialEq, Eq, Error)]
#[error("no header of a query: wrong at byte {place}")]
pub struct FrameFault {
    pub place: u64,
    pub field: Field,
}

// `PIRQ`
const MAGIC: Number = Number {
    width: 4,
    least: QUERY_MAGIC as u64,
    most: QUERY_MAGIC as u64,
};

const INDEX: Number = Number {
    width: 1,
    least: 1,
    most: 255,
};

/// The number of a field.
fn read_field(bytes: &[u8], field: Field, number: Number) -> Result<u64, FrameFault>
    requires { IsField number }
    ensures { ReadsField number field bytes.now result }
{
    match number_at(bytes, field.place(), number) {
        Ok(value) => Ok(value),
        Err(place) => {
            let place = place as u64;
            Err(FrameFault { place, field })
        }
    }
}

/// The name of the field that says for how many blocks a query asks.
fn count_name(version: Version) -> Field
    ensures { result ≡ count_name version }
{
    match version {
        Version::Single => Field::Zero,
        Version::Several => Field::Count,
    }
}

/// The byte that says for how many blocks a query asks.
fn read_count(bytes: &[u8], version: Version) -> Result<u64, FrameFault>
    ensures reads { ReadsField (count_field version) (count_name version) bytes.now result }
    ensures few { IfOk result (λ byte. byte ≤ MOST_BLOCKS) }
{
    read_field(bytes, count_name(version), count_field(version))
}

/// The number of the session, which any bytes are.
fn read_session(bytes: &[u8; FRAME_HEADER_LEN]) -> u64
    ensures { IsNumber session_field
        (take session_field.width (drop FRAME_SESSION_PLACE bytes.now)) result }
{
    let Ok(session) = number_at(bytes, FRAME_SESSION_PLACE, SESSION) else {
        unreachable!()
    };
    session
}

/// The query whose header these bytes are. It takes no memory.
///
/// # Errors
///
/// `FrameFault` exactly where the bytes are no header of a query. A number of more bytes than one
/// is right up to a byte as long as some number in its range begins with the bytes up to there:
/// 2^20 + 1 rows are wrong at their last byte, 2^21 rows at their second. The bytes of the session
/// are never wrong.
pub fn read_query_header(bytes: &[u8; FRAME_HEADER_LEN]) -> Result<QueryHeader, FrameFault>
    ensures { ReadsQuery bytes.now result }
{
    read_field(bytes, Field::Magic, MAGIC)?;
    let version = read_field(bytes, Field::Version, VERSION)?;
    let scheme = read_field(bytes, Field::Scheme, SCHEME)?;
    let index = read_field(bytes, Field::Index, INDEX)?;
    let byte = read_count(bytes, Version::of(version as u8))?;
    let count = byte.max(1);
    let session = read_session(bytes);
    let r = read_field(bytes, Field::Rows, ROWS)?;
    let s = read_field(bytes, Field::Width, width_field(count, r))?;
    Ok(QueryHeader {
        version: version as u8,
        scheme: scheme as u8,
        index: index as u8,
        count: count as u8,
        session,
        r: r as u32,
        s: s as u32,
    })
}
