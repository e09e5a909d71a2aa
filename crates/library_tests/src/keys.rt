// Keys in a worked row of a list.

use list_calls::{KeyFound, ListNumbers, find_key, row_of_key};

const SALT: [u8; 16] = [0, 1, 2, 3, 4, 5, 6, 7, 8, 9, 10, 11, 12, 13, 14, 15];

const NUMBERS: ListNumbers = ListNumbers {
    digest_bytes: 8,
    value_bytes: 5,
    rows: 2,
};

const TAG: [u8; 8] = [0x73, 0xf1, 0xe1, 0x4a, 0xbd, 0xbe, 0xd3, 0x22];

// Row 1 of the list in which `alpha` has the value `one` and `gamma` the value `three`.
const ROW: [u8; 40] = [
    0x73, 0xf1, 0xe1, 0x4a, 0xbd, 0xbe, 0xd3, 0x22, 0, 2, 0xa6, 0xcb, 0xea, 0x7e, 0xc4, 0x12, 0xd1,
    0x37, 0, 3, 0x6f, 0x6e, 0x65, 0, 0, 0xad, 0x45, 0xbe, 0x30, 0x0d, 0x8d, 0x97, 0xd6, 0, 5, 0x74,
    0x68, 0x72, 0x65, 0x65,
];

#[test]
fn worked_rows(rt: HostRuntime) {
    assert!(rt; row_of_key(&NUMBERS, &SALT, b"alpha") == Some(1));
    assert!(rt; row_of_key(&NUMBERS, &SALT, b"beta") == Some(0));
}

/// Whether the key has this value by the row.
fn has_value(key: &[u8], want: &[u8]) -> bool {
    let mut out = [0xff; 5];
    match find_key(&NUMBERS, &SALT, &TAG, &ROW, key, &mut out) {
        Ok(KeyFound::Present(size)) => &out[..size] == want,
        _ => false,
    }
}

/// What is said of the key by the row, without its value.
fn said_of(row: &[u8], key: &[u8]) -> Option<KeyFound> {
    let mut out = [0xff; 5];
    find_key(&NUMBERS, &SALT, &TAG, row, key, &mut out).ok()
}

#[test]
fn worked_keys(rt: HostRuntime) {
    assert!(rt; has_value(b"gamma", b"three"));
    assert!(rt; has_value(b"alpha", b"one"));
    assert!(rt; said_of(&ROW, b"epsilon") == Some(KeyFound::Absent));
    assert!(rt; said_of(&ROW[..39], b"gamma") == Some(KeyFound::Broken));
}
