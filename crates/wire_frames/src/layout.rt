//! The parts of a session file that are numbers: its header, and what stands before the bytes of
//! a record. Both are read from the bytes that have come so far, and each field's range may depend
//! on the numbers before it. Where the fields stand is said in `places`.
//!
//! | Field of the header | Range |
//! |---|---|
//! | letters | `PIRS` |
//! | version | 1 or 2 |
//! | scheme | 1 or 2 |
//! | degree t | from 1 to `MOST_DEGREE` |
//! | agreement h | from t + 1 to `MOST_SERVERS`; in the XOR scheme t + 1 |
//! | servers n | from h to `MOST_SERVERS`; in the XOR scheme h |
//! | zero, in version 2 blocks | 0, in version 2 from 1 to `MOST_BLOCKS` |
//! | zero | 0 |
//! | session | any |
//! | rows | from 1 to `MOST_ROWS` |
//! | width | from 1 to `MOST_WIDTH`, with rows times width at most `MOST_CELLS`, and blocks times width at most `MOST_WIDTH` |
//!
//! | Field before a record's bytes | Range |
//! |---|---|
//! | index | that of the record, from 1 |
//! | present | 0 or 1 |
//! | length | at most that of an answer, and 0 where present is 0 |
ghost use Rattle.std.specs.Prelude.{◌≡◌, ◌≤◌, ◌<◌, ◌^◌, length};
ghost use Rattle.quantity_limits.specs.declared.TheConstants.{MOST_BLOCKS, MOST_ROWS};
ghost use Rattle.wire_frames.specs.declared.sizes.TheConstants.{SESSION_HEADER_LEN, RECORD_HEADER_LEN};
ghost use Rattle.wire_frames.specs.Field.{IsField, count_field, servers_field, width_field};
ghost use Rattle.wire_frames.specs.Form.{Reads};
ghost use Rattle.wire_frames.specs.Layout.{IsHeader, IsRecordHeader};

use crate::field::{Number, number_at};
use crate::places::{
    RECORD_INDEX_PLACE, RECORD_LENGTH_PLACE, RECORD_PRESENT_PLACE, SESSION_AGREEMENT_PLACE,
    SESSION_COUNT_PLACE, SESSION_DEGREE_PLACE, SESSION_MAGIC_PLACE, SESSION_NUMBER_PLACE,
    SESSION_ROWS_PLACE, SESSION_SCHEME_PLACE, SESSION_SERVERS_PLACE, SESSION_VERSION_PLACE,
    SESSION_WIDTH_PLACE, SESSION_ZERO_PLACE,
};
use crate::scheme::{SHAMIR, Scheme, XOR};
use crate::session::SessionParams;
use crate::version::{Version, count_byte};
use crate::{MOST_BLOCKS, MOST_CELLS, MOST_DEGREE, MOST_ROWS, MOST_SERVERS, MOST_WIDTH};

/// `PIRS`
pub(crate) const SESSION_MAGIC: u32 = 0x5049_5253;

const MAGIC: Number = Number {
    width: 4,
    least: SESSION_MAGIC as u64,
    most: SESSION_MAGIC as u64,
};

/// The version.
pub(crate) const VERSION: Number = Number {
    width: 1,
    least: Version::Single as u64,
    most: Version::Several as u64,
};

/// The number of a scheme.
pub(crate) const SCHEME: Number = Number {
    width: 1,
    least: SHAMIR as u64,
    most: XOR as u64,
};

const DEGREE: Number = Number {
    width: 1,
    least: 1,
    most: MOST_DEGREE as u64,
};

const SERVERS: Number = Number {
    width: 1,
    least: 1,
    most: MOST_SERVERS as u64,
};

const ZERO: Number = Number {
    width: 2,
    least: 0,
    most: 0,
};

/// The number of a session.
pub(crate) const SESSION: Number = Number {
    width: 8,
    least: 0,
    most: u64::MAX,
};

/// The number of rows of a database.
pub(crate) const ROWS: Number = Number {
    width: 4,
    least: 1,
    most: MOST_ROWS as u64,
};

const WIDTH: Number = Number {
    width: 4,
    least: 1,
    most: MOST_WIDTH as u64,
};

const PRESENT: Number = Number {
    width: 1,
    least: 0,
    most: 1,
};

const NO_LEN: Number = Number {
    width: 4,
    least: 0,
    most: 0,
};

const LEN: Number = Number {
    width: 4,
    least: 0,
    most: u32::MAX as u64,
};

/// The byte that says for how many blocks a query of a version asks.
pub(crate) fn count_field(version: Version) -> Number
    ensures is { result ≡ count_field version }
    ensures field { IsField result }
    ensures few { result.most ≤ MOST_BLOCKS }
{
    Number {
        width: 1,
        least: u64::from(count_byte(version, 1)),
        most: u64::from(count_byte(version, MOST_BLOCKS)),
    }
}

/// The width of so many rows, of which so many are asked for.
pub(crate) fn width_field(count: u64, rows: u64) -> Number
    requires asked { 0 < count }
    requires blocks { count ≤ MOST_BLOCKS }
    requires some { 0 < rows }
    requires rows { rows ≤ MOST_ROWS }
    ensures is { result ≡ width_field count rows }
    ensures field { IsField result }
{
    let most = (WIDTH.most / count).min(MOST_CELLS / rows);
    Number { most, ..WIDTH }
}

/// A number of servers from the least on, and in the XOR scheme no more: there all servers have to
/// answer, and all of them but one learn nothing.
fn servers_field(scheme: Scheme, least: u64) -> Number
    ensures { result ≡ servers_field scheme least }
{
    let most = match scheme {
        Scheme::Shamir => SERVERS.most,
        Scheme::Xor => least,
    };
    Number {
        least,
        most,
        ..SERVERS
    }
}

/// The numbers that the header of a session spells, or the place up to which the bytes begin one.
pub(crate) fn read_header(bytes: &[u8]) -> Result<SessionParams, usize>
    requires { length bytes.now ≤ SESSION_HEADER_LEN }
    ensures { Reads IsHeader bytes.now result }
{
    number_at(bytes, SESSION_MAGIC_PLACE, MAGIC)?;
    let version = number_at(bytes, SESSION_VERSION_PLACE, VERSION)?;
    let scheme = number_at(bytes, SESSION_SCHEME_PLACE, SCHEME)?;
    let t = number_at(bytes, SESSION_DEGREE_PLACE, DEGREE)?;
    let kind = Scheme::of(scheme as u8);
    let h = number_at(bytes, SESSION_AGREEMENT_PLACE, servers_field(kind, t + 1))?;
    let n = number_at(bytes, SESSION_SERVERS_PLACE, servers_field(kind, h))?;
    let byte = number_at(
        bytes,
        SESSION_COUNT_PLACE,
        count_field(Version::of(version as u8)),
    )?;
    let count = byte.max(1);
    number_at(bytes, SESSION_ZERO_PLACE, ZERO)?;
    let session = number_at(bytes, SESSION_NUMBER_PLACE, SESSION)?;
    let r = number_at(bytes, SESSION_ROWS_PLACE, ROWS)?;
    let s = number_at(bytes, SESSION_WIDTH_PLACE, width_field(count, r))?;
    Ok(SessionParams {
        version: version as u8,
        scheme: scheme as u8,
        t: t as u8,
        h: h as u8,
        n: n as u8,
        count: count as u8,
        session,
        r: r as u32,
        s: s as u32,
    })
}

/// What stands before the bytes of record `index`: how many bytes it has, or that it is absent.
/// Else the place up to which the bytes begin such a header.
pub(crate) fn read_record_header(bytes: &[u8], index: u8, most: u32) -> Result<Option<u32>, usize>
    requires { length bytes.now ≤ RECORD_HEADER_LEN }
    ensures { Reads (IsRecordHeader index most) bytes.now result }
{
    let index = index as u64;
    let most = most as u64;
    let number = Number {
        width: 1,
        least: index,
        most: index,
    };
    number_at(bytes, RECORD_INDEX_PLACE, number)?;
    let present = number_at(bytes, RECORD_PRESENT_PLACE, PRESENT)?;
    if present == 0 {
        number_at(bytes, RECORD_LENGTH_PLACE, NO_LEN)?;
        return Ok(None);
    }
    let len = number_at(bytes, RECORD_LENGTH_PLACE, Number { most, ..LEN })?;
    Ok(Some(len as u32))
}
