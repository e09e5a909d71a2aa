//! Keys in the worked list of `alpha`, `beta` and `gamma`, with the values `one`, nothing and `three`.
//!
//! The coins are zeros, so that each server is asked for the rows themselves, and an honest one gives them.

ghost use Rattle.std.specs.Prelude.{◌≡◌, ◌<◌, ◌≤◌, length};

use crate::worked::{OTHER_ROW, ROWS_OF_VALUES as ROWS, SALT};
use fetch_client::{FetchFault, FetchPlan};
use gs_interpolate::Koetter;
use list_finds::{Answer, Ending, Finds, KnownList, Search, find_keys};
use pir_ports::{MemPorts, Port};
use std::alloc::{AllocError, Global};
use std::marker::Brand;
use std::sync::ledger::{Blank, Ledger};
use uni_poly::steps::Steps;

const PLAN: FetchPlan = FetchPlan {
    scheme: 1,
    t: 1,
    tau: 0,
    h: 3,
    n: 3,
    r: 2,
    s: 40,
};

const LIST: KnownList = KnownList {
    salt: SALT,
    tag: [0x73, 0xf1, 0xe1, 0x4a, 0xbd, 0xbe, 0xd3, 0x22],
    size: 8,
    most: 5,
};

/// Puts the header of a server's answer.
fn put_header(
    alloc: Global,
    ports: &mut MemPorts,
    server: u8,
    version: u8,
) -> Result<(), AllocError> {
    let header = [
        b'P', b'I', b'R', b'A', version, 1, server, 0, 0, 0, 0, 0, 0, 0, 0, 0, 0, 0, 0, 2, 0, 0, 0,
        40,
    ];
    ports.put(alloc, Port::Link(server), &header)
}

/// Puts what a server answers: to the query for the rows of the first 16 keys, and to the one for the row of the last.
fn put_answers(
    alloc: Global,
    ports: &mut MemPorts,
    server: u8,
    last: &[u8; 40],
) -> Result<(), AllocError> {
    put_header(alloc, ports, server, 2)?;
    for i in 0..16u32 {
        let row = if i % 5 == 1 || i % 5 == 3 {
            &ROWS[0]
        } else {
            &ROWS[1]
        };
        ports.put(alloc, Port::Link(server), row)?;
    }
    put_header(alloc, ports, server, 1)?;
    ports.put(alloc, Port::Link(server), last)?;
    ports.room(alloc, Port::Link(server), 82)
}

/// Ports with the coins of both queries, and with what three servers answer: the third with this row to the last.
fn ports_of_servers(
    alloc: Global,
    last: &[u8; 40],
    last_of_third: &[u8; 40],
) -> Result<MemPorts, AllocError> {
    let mut ports = MemPorts::new(alloc, 100, &[], 6, 60)?;
    ports.put(alloc, Port::Coins, &[0u8; 50])?;
    put_answers(alloc, &mut ports, 1, last)?;
    put_answers(alloc, &mut ports, 2, last)?;
    put_answers(alloc, &mut ports, 3, last_of_third)?;
    Ok(ports)
}

/// The search for 17 keys, with counters made of the blanks.
fn search<C: Ledger, N: Ledger>(
    alloc: Global,
    cols: Blank,
    nodes: Blank,
    addresses: &[String],
    ports: &mut MemPorts,
) -> Result<Finds, FetchFault>
    requires cols { (cols.name ≡ C.name) × (cols.parts ≡ C.parts) × (0 < cols.parts) }
    requires nodes { (nodes.name ≡ N.name) × (nodes.parts ≡ N.parts) × (0 < nodes.parts) }
    requires addresses { length addresses.now ≡ 3 }
{
    let mut cols: Steps<C> = Steps::new(cols);
    let mut nodes: Steps<N> = Steps::new(nodes);
    let (alpha, beta) = (b"alpha".as_slice(), b"beta".as_slice());
    let (gamma, delta) = (b"gamma".as_slice(), b"delta".as_slice());
    let epsilon = b"epsilon".as_slice();
    let keys = [
        alpha, beta, gamma, delta, epsilon, alpha, beta, gamma, delta, epsilon, alpha, beta, gamma,
        delta, epsilon, alpha, beta,
    ];
    let search = Search::new(alloc, &PLAN, &LIST, &keys, addresses)?;
    find_keys(alloc, &Koetter, search, ports, &mut cols, &mut nodes)
}

/// What is found, where the servers answer the last query like that.
fn found(alloc: Global, last: &[u8; 40], last_of_third: &[u8; 40]) -> Result<Finds, FetchFault> {
    let addresses = [
        String::from_str(alloc, "a")?,
        String::from_str(alloc, "b")?,
        String::from_str(alloc, "c")?,
    ];
    let mut ports = ports_of_servers(alloc, last, last_of_third)?;
    let cols = Blank::new(1);
    let nodes = Blank::new(1);
    search::<Brand, Brand>(alloc, cols, nodes, &addresses, &mut ports)
}

/// Whether the first 16 keys are answered as the list says, and the last like that.
fn says(finds: &Finds, last: Answer<&[u8]>) -> bool {
    finds.len() == 17
        && finds.answer(0) == Answer::Present(b"one")
        && finds.answer(1) == Answer::Present(b"")
        && finds.answer(2) == Answer::Present(b"three")
        && finds.answer(3) == Answer::Absent
        && finds.answer(4) == Answer::Absent
        && finds.answer(15) == Answer::Present(b"one")
        && finds.answer(16) == last
}

#[test]
fn keys_are_found_in_two_queries(rt: HostRuntime) {
    let found = found(rt.alloc(), &ROWS[0], &ROWS[0]);
    assert!(rt; matches!(&found, Ok(finds) if says(finds, Answer::Present(b""))));
    assert!(rt; matches!(&found, Ok(finds) if matches!(finds.end(), Ending::Settled)));
}

#[test]
fn keys_of_a_query_with_a_liar_are_unknown(rt: HostRuntime) {
    let found = found(rt.alloc(), &ROWS[0], &ROWS[1]);
    assert!(rt; matches!(&found, Ok(finds) if says(finds, Answer::Unknown)));
    assert!(rt; matches!(&found, Ok(finds) if matches!(finds.end(), Ending::Unlisted(_))));
}

#[test]
fn a_row_of_another_list_is_broken(rt: HostRuntime) {
    let found = found(rt.alloc(), &OTHER_ROW, &OTHER_ROW);
    assert!(rt; matches!(&found, Ok(finds) if says(finds, Answer::Broken)));
    assert!(rt; matches!(&found, Ok(finds) if matches!(finds.end(), Ending::BrokenRow(16))));
}
