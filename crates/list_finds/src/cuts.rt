//! The keys of each query, and the rows that they belong to.

ghost use Rattle.std.specs.Prelude.{◌≡◌, ◌≤◌, ◌<◌, ◌+◌, ◌-◌, ◌*◌, ◌/◌, length, map, take, drop, All};
ghost use Rattle.quantity_limits.specs.declared.TheConstants.{MOST_BLOCKS, MOST_WIDTH};
ghost use Rattle.list_finds.specs.Known.{IsKnown, row_in};
ghost use Rattle.list_finds.specs.Wanted.{held_keys, keys_each};
ghost use Rattle.list_finds.specs.declared.TheConstants.{MOST_KEYS};

use crate::known_list::KnownList;
use wire_frames::{MOST_BLOCKS, MOST_WIDTH};

/// How many keys a query has at most, in a table of so wide rows.
pub(crate) fn keys_each(width: u32) -> usize
    requires some { 1 ≤ width }
    requires few { width ≤ MOST_WIDTH }
    ensures is { result ≡ keys_each width }
    ensures some { 1 ≤ result }
    ensures blocks { result ≤ MOST_BLOCKS }
    ensures bytes { result * width ≤ MOST_WIDTH }
{
    usize::from(MOST_BLOCKS).min((MOST_WIDTH / width) as usize)
}

/// How many queries so many keys take.
pub(crate) fn queries_for(keys: usize, width: u32) -> usize
    requires some { 1 ≤ width }
    requires few { width ≤ MOST_WIDTH }
    requires keys { keys ≤ MOST_KEYS }
    ensures { result ≡ (keys + (keys_each width - 1)) / keys_each width }
{
    let each = keys_each(width);
    (keys + (each - 1)) / each
}

/// The keys of a query, counted from 0, which has at most so many.
pub(crate) fn keys_of<'a>(keys: &'a [&'a [u8]], each: usize, query: usize) -> &'a [&'a [u8]]
    requires few { query * each ≤ length keys.now }
    requires keys { length keys.now ≤ MOST_KEYS }
    ensures own { held_keys result.now ≡ take each (drop (query * each) (held_keys keys.now)) }
    ensures few { length result.now ≤ each }
{
    let from = query * each;
    let (_, rest) = keys.split_at(from);
    let (own, _) = rest.split_at(each.min(rest.len()));
    own
}

/// Writes the rows that keys belong to, in a table of so many rows.
pub(crate) fn write_rows(list: &KnownList, rows: u32, keys: &[&[u8]], out: &mut [u32])
    requires known { IsKnown list.now }
    requires room { length out.old ≡ length keys.now }
    ensures rows { out.new ≡ map (λ k. row_in list.now rows k.now) keys.now }
    ensures within { 1 ≤ rows → All (λ row. row < rows) out.new }
{
    for place in 0..keys.len() {
        out[place] = list.row_of_key(rows, keys[place]);
    }
}
