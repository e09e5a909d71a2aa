//! Worked lists, whose tables and catalogs were made by an independent program, with the salt of the bytes 0 to 15.

/// The salt.
pub const SALT: [u8; 16] = [0, 1, 2, 3, 4, 5, 6, 7, 8, 9, 10, 11, 12, 13, 14, 15];

/// Three keys, with digests of 8 bytes.
pub const KEYS: &[u8] = b"alpha\nbeta\ngamma\n";

/// Their table, of two rows.
pub const TABLE_OF_KEYS: [u8; 52] = [
    0x57, 0xc8, 0x3c, 0xd2, 0x9f, 0x54, 0x2f, 0xea, 0x00, 0x01, 0x7e, 0xb2, 0xf2, 0x77, 0xbd, 0xd6,
    0x01, 0x72, 0x00, 0x00, 0x00, 0x00, 0x00, 0x00, 0x00, 0x00, 0x57, 0xc8, 0x3c, 0xd2, 0x9f, 0x54,
    0x2f, 0xea, 0x00, 0x02, 0xa6, 0xcb, 0xea, 0x7e, 0xc4, 0x12, 0xd1, 0x37, 0xad, 0x45, 0xbe, 0x30,
    0x0d, 0x8d, 0x97, 0xd6,
];

/// The SHA-256 of their table.
pub const SHA256_OF_KEYS: [u8; 32] = [
    0x23, 0x33, 0xa7, 0x54, 0xa2, 0x74, 0xd1, 0x5c, 0xac, 0x81, 0x9a, 0x27, 0xa4, 0xf2, 0xac, 0x88,
    0xbc, 0xfb, 0xcd, 0x2a, 0xd9, 0x54, 0xc0, 0xf4, 0xbb, 0x8e, 0x0b, 0xec, 0x61, 0x50, 0xce, 0x6b,
];

/// Their catalog.
pub const CATALOG_OF_KEYS: &[u8] =
    b"digest = 8\nentries = 3\nformat = 1\nlist = \"57c83cd29f542fea\"\nrows = 2\n\
salt = \"000102030405060708090a0b0c0d0e0f\"\n\
sha256 = \"2333a754a274d15cac819a27a4f2ac88bcfbcd2ad954c0f4bb8e0bec6150ce6b\"\nvalue = 0\nwidth = 26\n";

/// The same keys with the values `one`, nothing and `three`.
pub const VALUES: &[u8] = b"alpha\tone\nbeta\t\ngamma\tthree";

/// The two rows of their table.
pub const ROWS_OF_VALUES: [[u8; 40]; 2] = [
    [
        0x73, 0xf1, 0xe1, 0x4a, 0xbd, 0xbe, 0xd3, 0x22, 0x00, 0x01, 0x7e, 0xb2, 0xf2, 0x77, 0xbd,
        0xd6, 0x01, 0x72, 0, 0, 0, 0, 0, 0, 0, 0, 0, 0, 0, 0, 0, 0, 0, 0, 0, 0, 0, 0, 0, 0,
    ],
    [
        0x73, 0xf1, 0xe1, 0x4a, 0xbd, 0xbe, 0xd3, 0x22, 0x00, 0x02, 0xa6, 0xcb, 0xea, 0x7e, 0xc4,
        0x12, 0xd1, 0x37, 0x00, 0x03, 0x6f, 0x6e, 0x65, 0x00, 0x00, 0xad, 0x45, 0xbe, 0x30, 0x0d,
        0x8d, 0x97, 0xd6, 0x00, 0x05, 0x74, 0x68, 0x72, 0x65, 0x65,
    ],
];

/// A row of their table that has no entry.
pub const EMPTY_ROW: &[u8] =
    b"\x73\xf1\xe1\x4a\xbd\xbe\xd3\x22\0\0\0\0\0\0\0\0\0\0\0\0\0\0\0\0\0\0\0\0\0\0\0\0\0\0\0\0\0\0\0\0";

/// The catalog of their table of two rows.
pub const CATALOG_OF_VALUES: &[u8] =
    b"digest = 8\nentries = 3\nformat = 1\nlist = \"73f1e14abdbed322\"\nrows = 2\n\
salt = \"000102030405060708090a0b0c0d0e0f\"\n\
sha256 = \"9a1690a89b1cec9e64265cbcdbebd708ea926ed632a249c7082466300ce1e6ea\"\nvalue = 5\nwidth = 40\n";

/// The catalog of their table of four rows, of which the first and the last have no entry.
pub const CATALOG_OF_FOUR_ROWS: &[u8] =
    b"digest = 8\nentries = 3\nformat = 1\nlist = \"73f1e14abdbed322\"\nrows = 4\n\
salt = \"000102030405060708090a0b0c0d0e0f\"\n\
sha256 = \"56c37d475bc72c1333cddccd1065f9a9bee16e043c0fb49fc87f34e994105df3\"\nvalue = 5\nwidth = 40\n";

/// Row 0 of a table of another list.
pub const OTHER_ROW: [u8; 40] = [
    0x57, 0xc8, 0x3c, 0xd2, 0x9f, 0x54, 0x2f, 0xea, 0, 0, 0, 0, 0, 0, 0, 0, 0, 0, 0, 0, 0, 0, 0, 0,
    0, 0, 0, 0, 0, 0, 0, 0, 0, 0, 0, 0, 0, 0, 0, 0,
];
