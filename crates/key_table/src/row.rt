//! Looking for a digest in a row.

ghost use Rattle.std.specs.Prelude.{◌≡◌, ◌≤◌, ◌<◌, ◌*◌, List, length, MatchOption, All, true, false};
ghost use Rattle.std.specs.List.{flat_map};
ghost use Rattle.quantity_limits.specs.declared.TheConstants.{MOST_WIDTH};
ghost use Rattle.key_table.specs.Entry.{IsPair, Pair, entry, entry_size};
ghost use Rattle.std.specs.Cmp.Lexicographic.{slice_cmp};
ghost use Rattle.std.specs.Ordering.{nat_cmp};
ghost use Rattle.std.specs.declared.cmp.Ordering.TheVariants.{Less};
ghost use Rattle.key_table.specs.Table.{AreEntries, Follows, HasFrame, LacksFrame};
ghost use Rattle.key_table.specs.Looked.{FindsEntries, JudgesRow, LooksUp, ValueFor, making};

use crate::digest::row_of;
use crate::entry::{are_zeros, entry_size, value_in};
use crate::{LEAST_DIGEST, MOST_DIGEST, MOST_VALUE};
use std::cmp::Ordering;

/// How many bytes stand before the entries of a row.
pub(crate) const HEAD_SIZE: usize = 10;

/// What a look-up in a row comes to.
#[derive(Clone, Copy, Debug, PartialEq, Eq)]
pub enum Finding<'a> {
    /// The bytes are not the row of the digest in a table of that list.
    Broken,
    /// The digest is not in the row.
    Absent,
    /// The value that stands with the digest.
    Found(&'a [u8]),
}

/// Looks for a digest in its row of a table with this tag, `rows` rows, digests of `size` bytes and values of at most
/// `most`. It takes no memory.
///
/// `Broken` exactly where the bytes are not the row of the digest in such a table: the tag, a count, so many entries
/// whose digests ascend and belong there, each with a value or none, and zeros.
pub fn find_in_row<'a>(
    row: &'a [u8],
    tag: &[u8; 8],
    size: usize,
    most: usize,
    rows: u32,
    digest: &[u8],
) -> Finding<'a>
    requires width { length row.now ≤ MOST_WIDTH }
    requires least { LEAST_DIGEST ≤ size }
    requires size { size ≤ MOST_DIGEST }
    requires most { most ≤ MOST_VALUE }
    requires digest { length digest.now ≡ size }
    ensures { LooksUp (making tag.now size most rows) row.now digest.now result }
{
    let entries = match judged_entries(row, tag, size, most, rows, row_of(rows, digest)) {
        Some(entries) => entries,
        None => return Finding::Broken,
    };
    match value_for(entries, size, most, digest) {
        Some(value) => Finding::Found(value),
        None => Finding::Absent,
    }
}

/// How many entries row `j` has of a table with this tag, `rows` rows, digests of `size` bytes and values of at most
/// `most`, whatever its keys are. It takes no memory.
///
/// `None` exactly where the bytes are not row `j` of such a table, as [`find_in_row`] says it.
pub fn entries_in_row(
    row: &[u8],
    tag: &[u8; 8],
    size: usize,
    most: usize,
    rows: u32,
    j: u32,
) -> Option<u16>
    requires width { length row.now ≤ MOST_WIDTH }
    requires least { LEAST_DIGEST ≤ size }
    requires size { size ≤ MOST_DIGEST }
    requires most { most ≤ MOST_VALUE }
    ensures { JudgesRow (making tag.now size most rows) j row.now result }
{
    match judged_entries(row, tag, size, most, rows, j) {
        Some(entries) => Some((entries.len() / entry_size(size, most)) as u16),
        None => None,
    }
}

/// The entries of row `j`, where the bytes are that row.
fn judged_entries<'a>(
    row: &'a [u8],
    tag: &[u8; 8],
    size: usize,
    most: usize,
    rows: u32,
    j: u32,
) -> Option<&'a [u8]>
    requires width { length row.now ≤ MOST_WIDTH }
    requires least { LEAST_DIGEST ≤ size }
    requires size { size ≤ MOST_DIGEST }
    requires most { most ≤ MOST_VALUE }
    ensures { FindsEntries (making tag.now size most rows) j row.now result }
{
    match entries_of(row, tag, entry_size(size, most)) {
        Some(entries) => {
            if are_entries(entries, size, most, rows, j) {
                Some(entries)
            } else {
                None
            }
        }
        None => None,
    }
}

/// The entries of a row, each of `step` bytes, as the count before them says; nothing where the row doesn't begin with
/// the tag, is too short for them, or has more than zeros behind them.
fn entries_of<'a>(row: &'a [u8], tag: &[u8; 8], step: usize) -> Option<&'a [u8]>
    requires step { step ≤ 65536 }
    ensures { MatchOption result (LacksFrame tag.now step row.now) (λ x. HasFrame tag.now step row.now x.now) }
{
    if row.len() < HEAD_SIZE {
        return None;
    }
    let (own, _) = row.split_at(8);
    if own != tag.as_slice() {
        return None;
    }
    let count = usize::from(u16::from_be_bytes([row[8], row[9]]));
    let (_, rest) = row.split_at(HEAD_SIZE);
    let taken = count * step;
    if taken > rest.len() {
        return None;
    }
    let (entries, zeros) = rest.split_at(taken);
    if are_zeros(zeros) {
        Some(entries)
    } else {
        None
    }
}

/// Whether the bytes are entries of pairs that may stand in row `j`.
fn are_entries(bytes: &[u8], size: usize, most: usize, rows: u32, j: u32) -> bool
    requires least { LEAST_DIGEST ≤ size }
    requires size { size ≤ MOST_DIGEST }
    requires most { most ≤ MOST_VALUE }
    ensures yes { result ≡ true → AreEntries size most rows j bytes.now }
    ensures no { result ≡ false → AreEntries size most rows j bytes.now → ⊥ }
{
    let step = entry_size(size, most);
    let mut rest = bytes;
    let mut last = &bytes[..0];
    'entries: while rest.len() >= step {
        let (entry, more) = rest.split_at(step);
        if !follows(last, entry, size, most, rows, j) {
            return false;
        }
        last = &entry[..size];
        rest = more;
    }
    rest.is_empty()
}

/// Whether the bytes are the entry of a pair that may stand in row `j` behind one with the digest `last`.
fn follows(last: &[u8], bytes: &[u8], size: usize, most: usize, rows: u32, j: u32) -> bool
    requires least { LEAST_DIGEST ≤ size }
    requires most { most ≤ MOST_VALUE }
    requires bytes { length bytes.now ≡ entry_size size most }
    ensures yes { result ≡ true → (p : Pair) × Follows size most rows j last.now bytes.now p }
    ensures no { result ≡ false → (p : Pair) → Follows size most rows j last.now bytes.now p → ⊥ }
{
    let (digest, behind) = bytes.split_at(size);
    if row_of(rows, digest) != j {
        return false;
    }
    if !is_below(last, digest) {
        return false;
    }
    match value_in(behind, most) {
        Some(_) => true,
        None => false,
    }
}

/// Whether one digest is below another.
fn is_below(one: &[u8], other: &[u8]) -> bool
    ensures yes { result ≡ true → slice_cmp nat_cmp one.now other.now ≡ Less }
    ensures no { result ≡ false → slice_cmp nat_cmp one.now other.now ≡ Less → ⊥ }
{
    match one.cmp(other) {
        Ordering::Less => true,
        Ordering::Equal => false,
        Ordering::Greater => false,
    }
}

/// The value that stands with the digest in these entries.
fn value_for<'a>(bytes: &'a [u8], size: usize, most: usize, digest: &[u8]) -> Option<&'a [u8]>
    requires least { LEAST_DIGEST ≤ size }
    requires size { size ≤ MOST_DIGEST }
    requires most { most ≤ MOST_VALUE }
    requires digest { length digest.now ≡ size }
    ensures { (pairs : List Pair) → All (IsPair size most) pairs → bytes.now ≡ flat_map (entry most) pairs
        → ValueFor pairs digest.now result }
{
    let step = entry_size(size, most);
    let mut rest = bytes;
    'entries: while rest.len() >= step {
        let (entry, more) = rest.split_at(step);
        let (other, behind) = entry.split_at(size);
        if other == digest {
            return value_in(behind, most);
        }
        rest = more;
    }
    None
}
