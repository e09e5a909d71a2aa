// The field of 256 elements.
use gf256::rows::add_scaled_row;
use gf256::{GENERATOR, add, inv, mul, pow};

// The products are those of FIPS 197 and of the rule of reduction itself, as x^7 times its inverse.
#[test]
fn products_of_the_standard(rt: HostRuntime) {
    for (a, b, want) in [
        (0x57, 0x83, 0xc1),
        (0x57, 0x13, 0xfe),
        (0x02, 0x8d, 0x01),
        (0x53, 0xca, 0x01),
        (0x05, 0x41, 0x5e),
        (0x06, 0x43, 0x91),
    ] {
        assert!(rt; mul(a, b) == want, "{a} * {b}");
    }
    assert!(rt; add(0x57, 0x83) == 0xd4);
}

#[test]
fn each_nonzero_byte_has_an_inverse(rt: HostRuntime) {
    for a in 1..=255 {
        assert!(rt; mul(a, inv(a)) == 1, "{a}");
    }
    assert!(rt; inv(0x53) == 0xca);
}

/// How many bytes are powers of the generator, and whether 0 is one.
fn count_powers() -> (usize, bool) {
    let mut seen = [false; 256];
    for e in 0..255 {
        seen[pow(GENERATOR, e) as usize] = true;
    }
    (seen.iter().filter(|&&is_seen| is_seen).count(), seen[0])
}

#[test]
fn powers_of_the_generator_are_the_nonzero_bytes(rt: HostRuntime) {
    assert!(rt; count_powers() == (255, false));
    assert!(rt; pow(0x02, 8) == 0x1b);
    assert!(rt; pow(0, 0) == 1);
    assert!(rt; pow(0, u32::MAX) == 0);
}

/// Whether the first `n` of the bytes are `front`, and the others as they were.
fn are_added(sums: &[u8; 40], n: usize, front: u8) -> bool {
    (0..40).all(|i| sums[i] == if i < n { front } else { 0x01 })
}

/// Whether multiples of a row of `n` bytes are added to these bytes and to no others.
fn row_is_added(n: usize) -> bool {
    let row = [0x57; 40];
    let mut sums = [0x01; 40];
    let n = n.min(40);
    add_scaled_row(&mut sums[..n], &row[..n], 0x83);
    let is_first = are_added(&sums, n, 0x01 ^ 0xc1);
    add_scaled_row(&mut sums[..n], &row[..n], 0x13);
    is_first && are_added(&sums, n, 0x01 ^ 0xc1 ^ 0xfe)
}

// 0x57 * 0x83 = 0xc1 and 0x57 * 0x13 = 0xfe by the standard, at lengths that fill the lanes and that don't.
#[test]
fn rows_of_the_standard(rt: HostRuntime) {
    for n in [0, 1, 15, 16, 17, 31, 32, 40] {
        assert!(rt; row_is_added(n), "{n}");
    }
}
