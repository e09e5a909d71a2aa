//! A block, and two in one query, fetched from three servers in memory, and the texts of the faults of a fetch.

ghost use Rattle.std.specs.Prelude.{◌≡◌, ◌<◌, length};
ghost use Rattle.query_rounds.specs.Plan.{AreBlocks};
ghost use Rattle.program_tests.specs.declared.one_fetch.TheConstants.{PLAN};

use block_decoder::Verdict;
use fetch_client::{FetchFault, FetchPlan, fetch};
use gs_interpolate::Koetter;
use pir_ports::{MemPorts, Port};
use std::alloc::{AllocError, Global};
use std::marker::Brand;
use std::sync::ledger::{Blank, Ledger};
use std::test::Fail;
use uni_poly::steps::Steps;
use wire_frames::Session;

// Two rows of two bytes. The number of the session is 7, and the polynomials of the rows are `05 x` and `01 + 07 x` for
// the second row, and `01 + 01 x` and `02 x` for the first.
const PLAN: FetchPlan = FetchPlan {
    scheme: 1,
    t: 1,
    tau: 0,
    h: 2,
    n: 3,
    r: 2,
    s: 2,
};

// What the servers answer, and what the second is asked.
const ANSWERS: [&[u8; 26]; 3] = [
    b"PIRA\x01\x01\x01\0\0\0\0\0\0\0\0\x07\0\0\0\x02\0\0\0\x02\xcf\xd2",
    b"PIRA\x01\x01\x02\0\0\0\0\0\0\0\0\x07\0\0\0\x02\0\0\0\x02\x40\x73",
    b"PIRA\x01\x01\x03\0\0\0\0\0\0\0\0\x07\0\0\0\x02\0\0\0\x02\xcc\xe5",
];

const QUERY: &[u8] = b"PIRQ\x01\x01\x02\0\0\0\0\0\0\0\0\x07\0\0\0\x02\0\0\0\x02\x0a\x0f";

// The same for both rows, the second first.
const ANSWERS_OF_BOTH: [&[u8; 28]; 3] = [
    b"PIRA\x02\x01\x01\0\0\0\0\0\0\0\0\x07\0\0\0\x02\0\0\0\x02\xcf\xd2\x86\x88",
    b"PIRA\x02\x01\x02\0\0\0\0\0\0\0\0\x07\0\0\0\x02\0\0\0\x02\x40\x73\xd4\xcd",
    b"PIRA\x02\x01\x03\0\0\0\0\0\0\0\0\x07\0\0\0\x02\0\0\0\x02\xcc\xe5\x13\x07",
];

const QUERIES_OF_BOTH: [&[u8; 28]; 3] = [
    b"PIRQ\x02\x01\x01\x02\0\0\0\0\0\0\0\x07\0\0\0\x02\0\0\0\x02\x05\x06\0\x02",
    b"PIRQ\x02\x01\x02\x02\0\0\0\0\0\0\0\x07\0\0\0\x02\0\0\0\x02\x0a\x0f\x03\x04",
    b"PIRQ\x02\x01\x03\x02\0\0\0\0\0\0\0\x07\0\0\0\x02\0\0\0\x02\x0f\x08\x02\x06",
];

/// The fetch, with counters made of the blanks.
fn fetched<C: Ledger, N: Ledger>(
    alloc: Global,
    cols: Blank,
    nodes: Blank,
    blocks: &[u32],
    addresses: &[String],
    ports: &mut MemPorts,
) -> Result<(Session, Verdict), FetchFault>
    requires cols { (cols.name ≡ C.name) × (cols.parts ≡ C.parts) × (0 < cols.parts) }
    requires nodes { (nodes.name ≡ N.name) × (nodes.parts ≡ N.parts) × (0 < nodes.parts) }
    requires addresses { length addresses.now ≡ 3 }
    requires blocks { AreBlocks PLAN blocks.now }
{
    let mut cols: Steps<C> = Steps::new(cols);
    let mut nodes: Steps<N> = Steps::new(nodes);
    fetch(
        alloc, &Koetter, &PLAN, blocks, addresses, ports, &mut cols, &mut nodes,
    )
}

/// Ports with the coins, with the answers of the servers, and with room for their queries.
fn ports_of_servers(alloc: Global) -> Result<MemPorts, AllocError> {
    let mut ports = MemPorts::new(alloc, 7, &[], 3, 30)?;
    ports.put(alloc, Port::Coins, b"\0\0\0\0\0\0\0\x07\x05\x07")?;
    for i in 0..3u8 {
        let link = Port::Link(i + 1);
        ports.put(alloc, link, ANSWERS[i as usize])?;
        ports.room(alloc, link, 26)?;
    }
    Ok(ports)
}

fn addresses(alloc: Global) -> Result<[String; 3], AllocError> {
    Ok([
        String::from_str(alloc, "a")?,
        String::from_str(alloc, "b")?,
        String::from_str(alloc, "c")?,
    ])
}

#[test]
fn a_block_is_fetched(rt: HostRuntime) -> Result<(), Fail> {
    let alloc = rt.alloc();
    let addresses = addresses(alloc)?;
    let mut ports = ports_of_servers(alloc)?;
    let cols = Blank::new(1);
    let nodes = Blank::new(1);
    let Ok((session, verdict)) = fetched::<Brand, Brand>(
        alloc,
        cols,
        nodes,
        &[1],
        &addresses,
        &mut ports,
    ) else {
        return Err(Fail::new("a fault"));
    };
    assert!(rt;
        matches!(&verdict, Verdict::Listed(blocks) if blocks.len() == 1 && blocks.get(0) == Some(b"CD".as_slice()))
    );
    assert!(rt; session.session() == 7 && session.record_count() == 3);
    assert!(rt; ports.seen(Port::Link(2)) == QUERY);
    Ok(())
}

#[test]
fn two_blocks_are_fetched_in_one_query(rt: HostRuntime) -> Result<(), Fail> {
    let alloc = rt.alloc();
    let addresses = addresses(alloc)?;
    let mut ports = MemPorts::new(alloc, 7, &[], 3, 30)?;
    ports.put(alloc, Port::Coins, b"\0\0\0\0\0\0\0\x07\x05\x07\x01\x02")?;
    for i in 0..3u8 {
        let link = Port::Link(i + 1);
        ports.put(alloc, link, ANSWERS_OF_BOTH[i as usize])?;
        ports.room(alloc, link, 28)?;
    }
    let cols = Blank::new(1);
    let nodes = Blank::new(1);
    let Ok((session, verdict)) = fetched::<Brand, Brand>(
        alloc,
        cols,
        nodes,
        &[1, 0],
        &addresses,
        &mut ports,
    ) else {
        return Err(Fail::new("a fault"));
    };
    assert!(rt;
        matches!(&verdict, Verdict::Listed(blocks) if blocks.len() == 1 && blocks.get(0) == Some(b"CDAB".as_slice()))
    );
    assert!(rt; session.version() == 2 && session.count() == 2);
    for i in 0..3u8 {
        assert!(rt; ports.seen(Port::Link(i + 1)) == QUERIES_OF_BOTH[i as usize].as_slice());
    }
    Ok(())
}

#[test]
fn the_texts_of_faults(rt: HostRuntime) -> Result<(), Fail> {
    for (fault, text) in [
        (FetchFault::CoinsFault, "a call on the coins failed"),
        (
            FetchFault::CoinsEnded { taken: 9 },
            "the coins ended after 9 bytes",
        ),
        (FetchFault::Memory, "no memory"),
    ] {
        assert_eq!(rt; format!(in rt.alloc(); "{fault}")?.as_str(), text);
    }
    Ok(())
}
