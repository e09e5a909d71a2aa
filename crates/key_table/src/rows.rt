//! The table of a list, row after row, in the memory of one row.

ghost use Rattle.std.specs.Prelude.{◌≡◌, ◌≤◌, ◌<◌, ◌+◌, ◌-◌, ◌*◌, length, take, drop};
ghost use Rattle.std.specs.List.{flat_map};
ghost use Rattle.quantity_limits.specs.declared.TheConstants.{MOST_WIDTH};
ghost use Rattle.key_table.specs.Entry.{entry, entry_size, pairs_between};
ghost use Rattle.key_table.specs.Rows.{StartsAt, row_bytes, rows_at};
ghost use Rattle.key_table.specs.Table.{head_size, table_row};
ghost use Rattle.key_table.specs.Width.{width_of};

use crate::entries::SortedEntries;
use crate::write::{clear, write_entry};
use std::marker::Model;

/// The rows of the table of a list, which are written one after the other.
///
/// ```text
/// let shape = entries.shape()?;
/// let mut rows = TableRows::new(&entries, shape.rows, shape.width, entries.tag(&salt));
/// for _ in 0..shape.rows {
///     rows.next_row(&mut row);
/// }
/// ```
#[derive(Drop)]
pub struct TableRows<'a> {
    entries: &'a SortedEntries,
    rows: u32,
    width: u32,
    tag: [u8; 8],
    /// The row that comes next.
    next: u32,
    /// Its first entry.
    place: usize,
}

impl<'a> Model for TableRows<'a> {
    ghost use Rattle.key_table.specs.Rows.{AreAt, Rows, rows_at};

    ghost Value = { Rows };

    ghost view = { λ t. rows_at t.entries.now t.tag t.rows t.width t.next };

    ghost invariant = { λ t. AreAt (rows_at t.entries.now t.tag t.rows t.width t.next) t.place };
}

/// Where row `j` ends, which begins at an entry. As the rows of entries never fall, its entries stand side by side.
fn row_end(entries: &SortedEntries, rows: u32, j: u32, start: usize) -> usize
    requires { StartsAt rows j entries.now.pairs start }
    ensures { StartsAt rows (j + 1) entries.now.pairs result }
{
    let count = entries.count();
    for entry in start..count {
        if entries.row(rows, entry) != j {
            return entry;
        }
    }
    count
}

/// Writes the entries from `start` up to `end`, one behind another.
fn write_entries(entries: &SortedEntries, start: usize, end: usize, out: &mut [u8])
    requires order { start ≤ end }
    requires within { end ≤ length entries.now.pairs }
    requires room { length out.old ≡ (end - start) * entry_size entries.now.size entries.now.most }
    ensures { out.new ≡ flat_map (entry entries.now.most) (pairs_between entries.now.pairs start end) }
{
    let step = entries.entry_size();
    for i in start..end {
        let at = (i - start) * step;
        write_entry(
            entries.digest(i),
            entries.value(i),
            entries.most(),
            &mut out[at..at + step],
        );
    }
}

/// Writes the row whose entries are those from `start` up to `end`.
fn write_row_of(entries: &SortedEntries, tag: &[u8; 8], start: usize, end: usize, out: &mut [u8])
    requires order { start ≤ end }
    requires within { end ≤ length entries.now.pairs }
    requires short { length out.old ≤ MOST_WIDTH }
    requires room { head_size + entry_size entries.now.size entries.now.most * (end - start) ≤ length out.old }
    ensures { out.new ≡ table_row (length out.old) tag.now entries.now.most
        (pairs_between entries.now.pairs start end) }
{
    let count = end - start;
    let taken = entries.entry_size() * count;
    let number = count as u16;
    let (front, behind) = out.split_at_mut(8);
    front.copy_from_slice(tag.as_slice());
    let (middle, rest) = behind.split_at_mut(2);
    middle.copy_from_slice(&number.to_be_bytes());
    let (own, zeros) = rest.split_at_mut(taken);
    write_entries(entries, start, end, own);
    clear(zeros);
}

impl<'a> TableRows<'a> {
    /// The rows of the table of a list, `rows` of `width` bytes each, with the list's tag ([`SortedEntries::tag`]). None
    /// is written yet.
    pub fn new(entries: &'a SortedEntries, rows: u32, width: u32, tag: [u8; 8]) -> TableRows<'a>
        requires room { width_of entries.now.size entries.now.most rows entries.now.pairs ≤ width }
        requires few { width ≤ MOST_WIDTH }
        ensures { result ≡ rows_at entries.entry.now tag rows width 0 }
    {
        TableRows {
            entries,
            rows,
            width,
            tag,
            next: 0,
            place: 0,
        }
    }

    /// Writes the next row, of which there is room for exactly the width. It takes no memory, and all rows together take
    /// time for each entry once.
    pub fn next_row(&mut self, out: &mut [u8])
        requires some { self.old.next < self.old.rows }
        requires room { length out.old ≡ self.old.width }
        ensures row { out.new ≡ row_bytes self.old self.old.next }
        ensures next { self.new ≡ record self.old { next = self.old.next + 1 } }
    {
        let end = row_end(self.entries, self.rows, self.next, self.place);
        write_row_of(self.entries, &self.tag, self.place, end, out);
        self.place = end;
        self.next += 1;
    }
}
