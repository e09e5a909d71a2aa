//! Worked tables, made by an independent program: the shape, the tag and each row. The salt is the bytes 0 to 15.

ghost use Rattle.std.specs.Prelude.{◌≡◌, ◌≤◌, ◌<◌, ◌+◌, length, All, IfOk};

use key_table::{
    AddFault, Entries, Shape, ShapeFault, ShapeLimit, SortedEntries, TableRows, entries_in_row,
    write_digest,
};
use std::alloc::Global;

const SALT: [u8; 16] = [0, 1, 2, 3, 4, 5, 6, 7, 8, 9, 10, 11, 12, 13, 14, 15];

/// The rows of the list of the keys `alpha`, `beta` and `gamma` alone: the first has `beta`.
const KEYS_0: [u8; 26] = [
    0x57, 0xc8, 0x3c, 0xd2, 0x9f, 0x54, 0x2f, 0xea, 0x00, 0x01, 0x7e, 0xb2, 0xf2, 0x77, 0xbd, 0xd6,
    0x01, 0x72, 0, 0, 0, 0, 0, 0, 0, 0,
];

const KEYS_1: [u8; 26] = [
    0x57, 0xc8, 0x3c, 0xd2, 0x9f, 0x54, 0x2f, 0xea, 0x00, 0x02, 0xa6, 0xcb, 0xea, 0x7e, 0xc4, 0x12,
    0xd1, 0x37, 0xad, 0x45, 0xbe, 0x30, 0x0d, 0x8d, 0x97, 0xd6,
];

/// The rows of the list in which they stand with the values `one`, nothing and `three`.
const PAIRS_0: [u8; 40] = [
    0x73, 0xf1, 0xe1, 0x4a, 0xbd, 0xbe, 0xd3, 0x22, 0x00, 0x01, 0x7e, 0xb2, 0xf2, 0x77, 0xbd, 0xd6,
    0x01, 0x72, 0, 0, 0, 0, 0, 0, 0, 0, 0, 0, 0, 0, 0, 0, 0, 0, 0, 0, 0, 0, 0, 0,
];

const PAIRS_1: [u8; 40] = [
    0x73, 0xf1, 0xe1, 0x4a, 0xbd, 0xbe, 0xd3, 0x22, 0x00, 0x02, 0xa6, 0xcb, 0xea, 0x7e, 0xc4, 0x12,
    0xd1, 0x37, 0x00, 0x03, 0x6f, 0x6e, 0x65, 0x00, 0x00, 0xad, 0x45, 0xbe, 0x30, 0x0d, 0x8d, 0x97,
    0xd6, 0x00, 0x05, 0x74, 0x68, 0x72, 0x65, 0x65,
];

/// A row of that list without an entry.
const NONE: [u8; 40] = [
    0x73, 0xf1, 0xe1, 0x4a, 0xbd, 0xbe, 0xd3, 0x22, 0, 0, 0, 0, 0, 0, 0, 0, 0, 0, 0, 0, 0, 0, 0, 0,
    0, 0, 0, 0, 0, 0, 0, 0, 0, 0, 0, 0, 0, 0, 0, 0,
];

/// One more pair.
fn add(list: &mut Entries, key: &[u8], value: &[u8], most: usize) -> Result<(), AddFault>
    requires size { list.old.size ≡ 8 }
    requires most { most ≤ 5 }
    requires few { length value.now ≤ most }
    requires values { All (λ p. length p.value ≤ most) list.old.pairs }
    ensures size { list.new.size ≡ 8 }
    ensures values { All (λ p. length p.value ≤ most) list.new.pairs }
{
    let mut digest = [0u8; 8];
    write_digest(&SALT, key, &mut digest);
    list.add(&digest, value)
}

/// The list of the three keys with these values.
fn list_of(alloc: Global, alpha: &[u8], gamma: &[u8], most: usize) -> Result<Entries, AddFault>
    requires most { most ≤ 5 }
    requires alpha { length alpha.now ≤ most }
    requires gamma { length gamma.now ≤ most }
    ensures { IfOk result (λ list. (list.size ≡ 8) × All (λ p. length p.value ≤ most) list.pairs) }
{
    let mut list = Entries::new(alloc, 8);
    add(&mut list, b"alpha", alpha, most)?;
    add(&mut list, b"beta", b"", most)?;
    add(&mut list, b"gamma", gamma, most)?;
    Ok(list)
}

/// Whether the next row of a table is this one.
fn next_is(rows: &mut TableRows<'_>, row: &[u8]) -> bool
    requires some { rows.old.next < rows.old.rows }
    requires wide { length row.now ≡ rows.old.width }
    requires few { length row.now ≤ 40 }
    ensures { rows.new ≡ record rows.old { next = rows.old.next + 1 } }
{
    let mut room = [1u8; 40];
    let (out, _) = room.split_at_mut(row.len());
    rows.next_row(out);
    &*out == row
}

/// Whether the table of a list has that shape, and these two rows.
fn has_rows(entries: &SortedEntries, one: &[u8], other: &[u8]) -> bool
    requires one { length one.now ≤ 40 }
    requires other { length other.now ≡ length one.now }
{
    let Ok(shape) = entries.shape() else {
        return false;
    };
    if shape.rows != 2 || shape.width as usize != one.len() {
        return false;
    }
    let mut rows = TableRows::new(entries, shape.rows, shape.width, entries.tag(&SALT));
    let first = next_is(&mut rows, one);
    let second = next_is(&mut rows, other);
    entries.count() == 3 && first && second
}

/// Whether the list of the keys alone is written so.
fn keys_are_written(alloc: Global) -> Result<bool, AddFault> {
    let list = list_of(alloc, b"", b"", 0)?;
    match list.sort(0) {
        Ok(sorted) => Ok(has_rows(&sorted, &KEYS_0, &KEYS_1)),
        Err(_) => Ok(false),
    }
}

#[test]
fn keys_alone_are_a_table(rt: HostRuntime) {
    assert!(rt; keys_are_written(rt.alloc()) == Ok(true));
}

/// Whether the list of the keys with their values is written so.
fn pairs_are_written(alloc: Global) -> Result<bool, AddFault> {
    let list = list_of(alloc, b"one", b"three", 5)?;
    match list.sort(5) {
        Ok(sorted) => Ok(has_rows(&sorted, &PAIRS_0, &PAIRS_1)),
        Err(_) => Ok(false),
    }
}

#[test]
fn keys_with_values_are_a_table(rt: HostRuntime) {
    assert!(rt; pairs_are_written(rt.alloc()) == Ok(true));
}

/// Whether four rows of a list are these: the middle ones have entries.
fn has_four_rows(entries: &SortedEntries) -> bool {
    let Ok(shape) = entries.shape_of(4) else {
        return false;
    };
    if shape.width != 40 {
        return false;
    }
    let mut rows = TableRows::new(entries, 4, shape.width, entries.tag(&SALT));
    let first = next_is(&mut rows, &NONE);
    let second = next_is(&mut rows, &PAIRS_0);
    let third = next_is(&mut rows, &PAIRS_1);
    let fourth = next_is(&mut rows, &NONE);
    entries.count() == 3 && first && second && third && fourth
}

/// Whether that list with a pair that is given again is written so in four rows.
fn four_rows_are_written(alloc: Global) -> Result<bool, AddFault> {
    let mut list = list_of(alloc, b"one", b"three", 5)?;
    add(&mut list, b"alpha", b"one", 5)?;
    match list.sort(5) {
        Ok(sorted) => Ok(has_four_rows(&sorted)),
        Err(_) => Ok(false),
    }
}

#[test]
fn so_many_rows_as_are_asked_for(rt: HostRuntime) {
    assert!(rt; four_rows_are_written(rt.alloc()) == Ok(true));
}

#[test]
fn a_row_is_judged_without_a_key(rt: HostRuntime) {
    let tag = [0x73, 0xf1, 0xe1, 0x4a, 0xbd, 0xbe, 0xd3, 0x22];
    assert!(rt; entries_in_row(&PAIRS_1, &tag, 8, 5, 2, 1) == Some(2));
    assert!(rt; entries_in_row(&PAIRS_0, &tag, 8, 5, 2, 0) == Some(1));
    assert!(rt; entries_in_row(&NONE, &tag, 8, 5, 4, 3) == Some(0));
    assert!(rt; entries_in_row(&PAIRS_1, &tag, 8, 5, 2, 0) == None);
}

/// One more digest, of zeros and a last byte.
fn add_digest(list: &mut Entries, last: u8) -> Result<(), AddFault>
    requires size { list.old.size ≡ 8 }
    requires values { All (λ p. length p.value ≤ 16384) list.old.pairs }
    ensures size { list.new.size ≡ 8 }
    ensures values { All (λ p. length p.value ≤ 16384) list.new.pairs }
{
    let digest = [0, 0, 0, 0, 0, 0, 0, last];
    list.add(&digest, b"")
}

/// What the shape is of a list of digests that differ in the last byte alone, where values may have 16384 bytes: an
/// entry has 16394.
fn wide_shape(alloc: Global, digests: u8) -> Result<Result<Shape, ShapeFault>, AddFault> {
    let mut list = Entries::new(alloc, 8);
    for last in 0..digests {
        add_digest(&mut list, last)?;
    }
    match list.sort(16384) {
        Ok(sorted) => Ok(sorted.shape()),
        Err(_) => Err(AddFault::TooMany),
    }
}

#[test]
fn a_list_may_have_no_shape(rt: HostRuntime) {
    let few = Shape {
        rows: 1,
        width: 49192,
    };
    assert!(rt; wide_shape(rt.alloc(), 3) == Ok(Ok(few)));
    let fault = ShapeFault {
        limit: ShapeLimit::TooWide,
        rows: 1 << 20,
        entries: 4,
        width: 65586,
    };
    assert!(rt; wide_shape(rt.alloc(), 4) == Ok(Err(fault)));
}
