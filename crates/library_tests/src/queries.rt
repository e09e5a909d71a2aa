// What each server is sent.

use client_calls::{PlanNumbers, answer_size, coins_size, query_size, write_query};

// Two rows of two bytes, on three servers.
const SHARED: PlanNumbers = PlanNumbers {
    scheme: 1,
    degree: 1,
    agreement: 2,
    servers: 3,
    tau: 0,
    rows: 2,
    width: 2,
};

// The same on two servers, in the XOR scheme.
const CHOSEN: PlanNumbers = PlanNumbers {
    scheme: 2,
    degree: 1,
    agreement: 2,
    servers: 2,
    tau: 0,
    rows: 2,
    width: 2,
};

/// Whether the query to a server for row 1 has this payload.
fn has_payload(plan: &PlanNumbers, coins: &[u8], index: u32, want: &[u8]) -> bool {
    let mut out = [0xff; 40];
    match write_query(plan, &[1], coins, index, &mut out) {
        Ok(size) => size >= 24 && &out[24..size] == want,
        Err(_) => false,
    }
}

#[test]
fn worked_queries(rt: HostRuntime) {
    let coins = [0, 0, 0, 0, 0, 0, 0, 7, 0x05, 0x07];
    assert!(rt; has_payload(&SHARED, &coins, 2, &[0x0a, 0x0f]));
    assert!(rt; has_payload(&SHARED, &coins, 3, &[0x0f, 0x08]));
}

#[test]
fn worked_bitmaps(rt: HostRuntime) {
    let coins = [0, 0, 0, 0, 0, 0, 0, 7, 0x80];
    assert!(rt; has_payload(&CHOSEN, &coins, 1, &[0x80]));
    assert!(rt; has_payload(&CHOSEN, &coins, 2, &[0xc0]));
}

#[test]
fn sizes_of_two_rows(rt: HostRuntime) {
    assert!(rt; coins_size(&SHARED, 1) == Ok(10));
    assert!(rt; query_size(&SHARED, 1) == Ok(26));
    assert!(rt; answer_size(&SHARED, 3) == Ok(30));
}
