//! Worked rows, made by an independent program. The salt is the bytes 0 to 15.

ghost use Rattle.std.specs.Prelude.{◌<◌};

use key_table::{AddFault, Clash, Entries, Finding, find_in_row, row_of, write_digest};
use std::alloc::Global;

const SALT: [u8; 16] = [0, 1, 2, 3, 4, 5, 6, 7, 8, 9, 10, 11, 12, 13, 14, 15];

/// The tag of the list of `alpha`, `beta` and `gamma`, with the values `one`, nothing and `three`.
const TAG: [u8; 8] = [0x73, 0xf1, 0xe1, 0x4a, 0xbd, 0xbe, 0xd3, 0x22];

/// Row 1 of two rows of its table.
const ROW: [u8; 40] = [
    0x73, 0xf1, 0xe1, 0x4a, 0xbd, 0xbe, 0xd3, 0x22, 0x00, 0x02, 0xa6, 0xcb, 0xea, 0x7e, 0xc4, 0x12,
    0xd1, 0x37, 0x00, 0x03, 0x6f, 0x6e, 0x65, 0x00, 0x00, 0xad, 0x45, 0xbe, 0x30, 0x0d, 0x8d, 0x97,
    0xd6, 0x00, 0x05, 0x74, 0x68, 0x72, 0x65, 0x65,
];

/// Row 0 of it.
const ROW_0: [u8; 40] = [
    0x73, 0xf1, 0xe1, 0x4a, 0xbd, 0xbe, 0xd3, 0x22, 0x00, 0x01, 0x7e, 0xb2, 0xf2, 0x77, 0xbd, 0xd6,
    0x01, 0x72, 0, 0, 0, 0, 0, 0, 0, 0, 0, 0, 0, 0, 0, 0, 0, 0, 0, 0, 0, 0, 0, 0,
];

/// What is found of a key in a row of that table.
fn found<'a>(row: &'a [u8; 40], key: &[u8]) -> Finding<'a> {
    let mut digest = [0u8; 8];
    write_digest(&SALT, key, &mut digest);
    find_in_row(row.as_slice(), &TAG, 8, 5, 2, &digest)
}

/// Whether a key is broken in row 1 with another byte at a place.
fn breaks(at: usize, byte: u8) -> bool
    requires { at < 40 }
{
    let mut row = ROW;
    row[at] = byte;
    found(&row, b"alpha") == Finding::Broken
}

/// Whether the first bytes and the rows among 1, 2, 4 and 1000 are those of a key.
fn stands(key: &[u8], digest: [u8; 8], rows: [u32; 4]) -> bool {
    let mut own = [0u8; 8];
    write_digest(&SALT, key, &mut own);
    own == digest
        && [
            row_of(1, &own),
            row_of(2, &own),
            row_of(4, &own),
            row_of(1000, &own),
        ] == rows
}

#[test]
fn digests_and_their_rows(rt: HostRuntime) {
    assert!(rt;
        stands(
            b"alpha",
            [0xa6, 0xcb, 0xea, 0x7e, 0xc4, 0x12, 0xd1, 0x37],
            [0, 1, 2, 651]
        )
    );
    assert!(rt;
        stands(
            b"beta",
            [0x7e, 0xb2, 0xf2, 0x77, 0xbd, 0xd6, 0x01, 0x72],
            [0, 0, 1, 494]
        )
    );
    assert!(rt;
        stands(
            b"gamma",
            [0xad, 0x45, 0xbe, 0x30, 0x0d, 0x8d, 0x97, 0xd6],
            [0, 1, 2, 676]
        )
    );
    assert!(rt;
        stands(
            b"delta",
            [0x57, 0x72, 0x19, 0x66, 0xee, 0xe3, 0xd9, 0x4b],
            [0, 0, 1, 341]
        )
    );
    assert!(rt;
        stands(
            b"epsilon",
            [0xf8, 0xa6, 0xc0, 0x71, 0x32, 0xa2, 0x95, 0xb0],
            [0, 1, 3, 971]
        )
    );
}

#[test]
fn values_are_found_in_their_row(rt: HostRuntime) {
    assert!(rt; found(&ROW, b"gamma") == Finding::Found(b"three"));
    assert!(rt; found(&ROW, b"alpha") == Finding::Found(b"one"));
    assert!(rt; found(&ROW, b"epsilon") == Finding::Absent);
    assert!(rt; found(&ROW_0, b"beta") == Finding::Found(b""));
    assert!(rt; found(&ROW_0, b"delta") == Finding::Absent);
}

#[test]
fn changed_rows_are_broken(rt: HostRuntime) {
    assert!(rt; breaks(9, 3));
    assert!(rt; breaks(24, 1));
    assert!(rt; breaks(19, 6));
    assert!(rt; breaks(0, 1));
    assert!(rt; found(&ROW_0, b"alpha") == Finding::Broken);
    let mut exchanged = ROW;
    exchanged[10..25].copy_from_slice(&ROW[25..40]);
    exchanged[25..40].copy_from_slice(&ROW[10..25]);
    assert!(rt; found(&exchanged, b"alpha") == Finding::Broken);
}

/// The clash of a list of `beta` without a value and `alpha` with two values.
fn clash_of(alloc: Global, one: &[u8; 3], other: &[u8; 3]) -> Result<Option<Clash>, AddFault> {
    let mut list = Entries::new(alloc, 8);
    list.add(&ROW_0[10..18], b"")?;
    list.add(&ROW[10..18], one)?;
    list.add(&ROW[10..18], other)?;
    match list.sort(5) {
        Ok(_) => Ok(None),
        Err(clash) => Ok(Some(clash)),
    }
}

/// The clash of a list of `alpha` with these two values.
fn clash_of_two(alloc: Global, one: &[u8; 3], other: &[u8; 3]) -> Result<Option<Clash>, AddFault> {
    let mut list = Entries::new(alloc, 8);
    list.add(&ROW[10..18], one)?;
    list.add(&ROW[10..18], other)?;
    match list.sort(5) {
        Ok(_) => Ok(None),
        Err(clash) => Ok(Some(clash)),
    }
}

#[test]
fn a_digest_with_two_values_is_a_clash(rt: HostRuntime) {
    assert!(rt; clash_of_two(rt.alloc(), b"one", b"two") == Ok(Some(Clash { first: 0, place: 1 })));
    assert!(rt; clash_of(rt.alloc(), b"one", b"two") == Ok(Some(Clash { first: 1, place: 2 })));
    assert!(rt; clash_of(rt.alloc(), b"one", b"one") == Ok(None));
}

/// Whether the worked pairs, one of them given twice, are sorted.
fn are_sorted(alloc: Global) -> Result<bool, AddFault> {
    let mut list = Entries::new(alloc, 8);
    list.add(&ROW[25..33], b"three")?;
    list.add(&ROW[10..18], b"one")?;
    list.add(&ROW_0[10..18], b"")?;
    list.add(&ROW[10..18], b"one")?;
    match list.sort(5) {
        Ok(sorted) => Ok(
            sorted.count() == 3
                && sorted.digest(0) == &ROW_0[10..18]
                && sorted.digest(1) == &ROW[10..18]
                && sorted.value(2) == b"three".as_slice(),
        ),
        Err(_) => Ok(false),
    }
}

#[test]
fn a_list_is_sorted(rt: HostRuntime) {
    assert!(rt; are_sorted(rt.alloc()) == Ok(true));
}
