// Databases in shares.
ghost use Rattle.std.specs.Prelude.{◌≢◌, ◌≤◌};

use share_db::{partner_db, share_into};
use std::alloc::AllocError;

/// Whether the server is given this of `41424344`, with the coins `01020304`.
fn is_share(index: u8, want: [u8; 4]) -> bool
    requires { index ≢ 0 }
{
    let mut out = [0xff; 4];
    share_into(
        &[0x41, 0x42, 0x43, 0x44],
        &[0x01, 0x02, 0x03, 0x04],
        1,
        index,
        &mut out,
    );
    out == want
}

#[test]
fn worked_shares(rt: HostRuntime) {
    assert!(rt; is_share(1, [0x40, 0x40, 0x40, 0x40]));
    assert!(rt; is_share(2, [0x43, 0x46, 0x45, 0x4c]));
    assert!(rt; is_share(3, [0x42, 0x44, 0x46, 0x48]));
}

/// Whether server `53` is given this of nineteen bytes `3, 10, ..`, with the coins `5, 34, ..`.
fn is_share_of_nineteen(tau: u32, want: [u8; 19]) -> bool
    requires some { 1 ≤ tau }
    requires few { tau ≤ 4 }
{
    let mut bytes = [0; 19];
    for i in 0..19usize {
        bytes[i] = (i * 7 + 3) as u8;
    }
    let mut coins = [0; 76];
    for i in 0..76usize {
        coins[i] = ((i * 29 + 5) % 256) as u8;
    }
    let mut out = [0xff; 19];
    share_into(&bytes, &coins[..19 * tau as usize], tau, 0x53, &mut out);
    out == want
}

// What a plain sum of products and powers gives, by another program: more positions than are worked off at once.
#[test]
fn nineteen_bytes(rt: HostRuntime) {
    assert!(rt;
        is_share_of_nineteen(
            1,
            [
                0x07, 0x22, 0xd4, 0xa1, 0x2c, 0x9e, 0x1f, 0x7a, 0x16, 0x4a, 0x65, 0x00, 0x8d, 0xcf,
                0x77, 0x05, 0x39, 0x1c, 0x8d
            ]
        )
    );
    assert!(rt;
        is_share_of_nineteen(
            2,
            [
                0x27, 0xf5, 0x4b, 0x72, 0x9c, 0x4a, 0xed, 0x52, 0x09, 0x22, 0xd3, 0xa5, 0xcc, 0x7b,
                0x11, 0x3e, 0x7b, 0x0c, 0x5c
            ]
        )
    );
    assert!(rt;
        is_share_of_nineteen(
            3,
            [
                0x8d, 0xfb, 0xa2, 0x60, 0x0b, 0x20, 0xea, 0x88, 0x22, 0xcb, 0xa6, 0xc0, 0x76, 0xc7,
                0x43, 0x7b, 0x50, 0xf0, 0x5a
            ]
        )
    );
    assert!(rt;
        is_share_of_nineteen(
            4,
            [
                0xd7, 0x0d, 0x5c, 0xb8, 0xde, 0xe2, 0xb0, 0x36, 0xf6, 0xf7, 0xb6, 0xe6, 0x89, 0x85,
                0x08, 0x9e, 0xa5, 0x71, 0xc0
            ]
        )
    );
}

/// The share that server 2 holds of one byte.
fn held_by_second(byte: u8, coin: u8) -> [u8; 1] {
    let mut out = [0];
    share_into(&[byte], &[coin], 1, 2, &mut out);
    out
}

// The worked coins: server 2 holds the same of `41` by `01` and of `00` by `ac`.
#[test]
fn worked_partner_of_a_database(rt: HostRuntime) -> Result<(), AllocError> {
    assert!(rt; held_by_second(0x41, 0x01) == [0x43]);
    assert!(rt; held_by_second(0x00, 0xac) == [0x43]);
    let changed = partner_db(rt.alloc(), &[0x01], &[0x41], &[0x00], 1, &[2])?;
    assert!(rt; changed.as_slice() == [0xac].as_slice());
    Ok(())
}
