// The queries of Shamir's sharing.
ghost use Rattle.std.specs.Prelude.{◌≢◌, ◌<◌};

use shamir_share::query_into;

/// Whether the server is sent this. The polynomials are `05 x` and `01 + 07 x`.
fn is_sent(index: u8, want: [u8; 2]) -> bool
    requires { index ≢ 0 }
{
    let mut out = [0xff; 2];
    query_into(&[0x05, 0x07], 1, 2, 1, index, &mut out);
    out == want
}

#[test]
fn two_rows(rt: HostRuntime) {
    assert!(rt; is_sent(1, [0x05, 0x06]));
    assert!(rt; is_sent(2, [0x0a, 0x0f]));
    assert!(rt; is_sent(3, [0x0f, 0x08]));
}

const SIX: [u8; 18] = [
    0x8b, 0x5b, 0x9d, 0xb0, 0xc1, 0x3d, 0xb2, 0x42, 0x56, 0xc8, 0x29, 0xaa, 0x36, 0x4a, 0xa9, 0x0c,
    0x6d, 0x2e,
];

/// Whether the server is sent this for six rows of degree three.
fn is_sent_for_six(block: u32, index: u8, want: [u8; 6]) -> bool
    requires block { block < 6 }
    requires index { index ≢ 0 }
{
    let mut out = [0xff; 6];
    query_into(&SIX, 3, 6, block, index, &mut out);
    out == want
}

// What a plain sum of products and powers gives, by another program.
#[test]
fn six_rows_of_degree_three(rt: HostRuntime) {
    assert!(rt; is_sent_for_six(0, 0x01, [0x4c, 0x4c, 0xa6, 0x4b, 0xd5, 0x4f]));
    assert!(rt; is_sent_for_six(4, 0x53, [0x21, 0xb8, 0xac, 0x1c, 0xeb, 0x6f]));
    assert!(rt; is_sent_for_six(5, 0xff, [0x29, 0xa0, 0x2e, 0xaa, 0x1c, 0x32]));
}

// The same, with more rows than are worked off at once.
#[test]
fn nineteen_rows_of_degree_one(rt: HostRuntime) {
    let coins = [
        0x76, 0x92, 0xc3, 0xad, 0x35, 0x40, 0xbb, 0x80, 0x3c, 0x02, 0x0b, 0x3a, 0xee, 0x66, 0xcd,
        0x88, 0x87, 0x12, 0x32,
    ];
    let want = [
        0xe6, 0x3b, 0xb5, 0x4d, 0xf3, 0x50, 0xd3, 0xa0, 0x33, 0x8f, 0x4f, 0xb9, 0x58, 0xf2, 0x35,
        0xaa, 0xe0, 0x9a, 0xb3,
    ];
    let mut out = [0xff; 19];
    query_into(&coins, 1, 19, 17, 0xca, &mut out);
    assert!(rt; out == want);
}
