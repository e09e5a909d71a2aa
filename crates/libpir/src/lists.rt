//! Keys in a list.

ghost use Rattle.list_calls.specs.Find.{look_up};
ghost use Rattle.libpir.specs.Lists.{AnswersFind, TellsRow};

use crate::code::Code;
use list_calls::{KeyFound, KeyRefusal, ListNumbers, find_key, row_of_key};

/// The row that a key belongs to, or a negative code.
#[unsafe(no_mangle)]
pub extern "C" fn pir_list_row(list: &ListNumbers, salt: &[u8; 16], key: &[u8]) -> i64
    ensures { TellsRow list.now salt.now key.now result }
{
    match row_of_key(list, salt, key) {
        Some(row) => i64::from(row),
        None => i64::from(Code::BadList.number()),
    }
}

/// Says what the row of a key says of it; its value goes to the front of `out`, and its length into `used`, also where
/// `out` is too short for it.
#[unsafe(no_mangle)]
pub extern "C" fn pir_list_find(
    list: &ListNumbers,
    salt: &[u8; 16],
    tag: &[u8; 8],
    row: &[u8],
    key: &[u8],
    out: &mut [u8],
    used: &mut usize,
) -> i32
    ensures { AnswersFind (look_up list.now salt.now tag.now row.now key.now) out.old out.new used.old used.new result }
{
    match find_key(list, salt, tag, row, key, out) {
        Ok(KeyFound::Broken) => Code::BrokenRow.number(),
        Ok(KeyFound::Absent) => Code::NotInList.number(),
        Ok(KeyFound::Present(size)) => {
            *used = size;
            Code::Done.number()
        }
        Err(KeyRefusal::Numbers) => Code::BadList.number(),
        Err(KeyRefusal::Room { wanted }) => {
            *used = wanted;
            Code::SmallRoom.number()
        }
    }
}
