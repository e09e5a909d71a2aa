//! The row of a key, and what it says of it.

ghost use Rattle.std.specs.Prelude.{◌≡◌, ◌≤◌, length};
ghost use Rattle.key_table.specs.declared.TheConstants.{MOST_DIGEST};
ghost use Rattle.list_calls.specs.Find.{FindsKey, SaysRow, WritesValue, look_up};

use crate::numbers::ListNumbers;
use key_table::{Finding, MOST_DIGEST, find_in_row, row_of, write_digest};
use quantity_limits::MOST_WIDTH;
use thiserror::Error;

/// What is said of a key.
#[derive(Clone, Copy, Debug, PartialEq, Eq)]
pub enum KeyFound {
    /// The bytes are the key's row in no table of the list.
    Broken,
    /// The key isn't in the list.
    Absent,
    /// It is, with a value of so many bytes, which is written.
    Present(usize),
}

/// Why nothing is said of a key.
#[derive(Clone, Copy, Debug, PartialEq, Eq, Error)]
pub enum KeyRefusal {
    /// The numbers are those of no list, or the row is longer than any.
    #[error("the numbers are those of no list, or the row is too long")]
    Numbers,
    /// There is less room than for the `wanted` bytes of the value.
    #[error("room for {wanted} bytes is wanted")]
    Room { wanted: usize },
}

/// The row that a key belongs to, counted from 0; nothing exactly where the numbers are those of no list. With the salt
/// of the bytes 0 to 15 and digests of 8 bytes `alpha` belongs to row 1 of 2, and to row 651 of 1000.
pub fn row_of_key(numbers: &ListNumbers, salt: &[u8; 16], key: &[u8]) -> Option<u32>
    ensures { SaysRow numbers.now salt.now key.now result }
{
    if !numbers.are_of_list() {
        return None;
    }
    let mut room = [0u8; MOST_DIGEST];
    let digest = &mut room[..numbers.digest_bytes as usize];
    write_digest(salt, key, digest);
    Some(row_of(numbers.rows, digest))
}

/// Writes a value at the front of `out`.
fn write_value(value: &[u8], out: &mut [u8]) -> Result<KeyFound, KeyRefusal>
    ensures { WritesValue value.now out.old out.new result }
{
    let wanted = value.len();
    if out.len() < wanted {
        return Err(KeyRefusal::Room { wanted });
    }
    out[..wanted].copy_from_slice(value);
    Ok(KeyFound::Present(wanted))
}

/// What the row of a key says of it, in a list with this salt and this tag; where it has a value, that is written at
/// the front of `out`, and its length given.
///
/// # Errors
///
/// `Numbers` exactly where the numbers are those of no list, or the row is longer than any; `Room` exactly where the
/// key is present and `out` is shorter than its value, with its length. Then, and where there is no value, `out` is as
/// it was.
pub fn find_key(
    numbers: &ListNumbers,
    salt: &[u8; 16],
    tag: &[u8; 8],
    row: &[u8],
    key: &[u8],
    out: &mut [u8],
) -> Result<KeyFound, KeyRefusal>
    ensures { FindsKey (look_up numbers.now salt.now tag.now row.now key.now) out.old out.new result }
{
    if !numbers.are_of_list() || row.len() > MOST_WIDTH as usize {
        return Err(KeyRefusal::Numbers);
    }
    let mut room = [0u8; MOST_DIGEST];
    let size = numbers.digest_bytes as usize;
    let most = numbers.value_bytes as usize;
    let digest = &mut room[..size];
    write_digest(salt, key, digest);
    match find_in_row(row, tag, size, most, numbers.rows, digest) {
        Finding::Broken => Ok(KeyFound::Broken),
        Finding::Absent => Ok(KeyFound::Absent),
        Finding::Found(value) => write_value(value, out),
    }
}
