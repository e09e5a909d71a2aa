//! A recorded session that is judged, and the texts of the faults of a replay.

ghost use Rattle.std.specs.Prelude.{◌≡◌, ◌<◌};

use block_decoder::Verdict;
use gs_interpolate::Koetter;
use pir_ports::{MemPorts, Port};
use replay::{ReplayFault, replay};
use std::alloc::Global;
use std::marker::Brand;
use std::sync::ledger::{Blank, Ledger};
use std::test::Fail;
use uni_poly::steps::Steps;

// Degree 1, agreement 2, three servers of which the second is silent, session number 7, two rows of one byte.
const SESSION: &[u8; 71] =
    b"PIRS\x01\x01\x01\x02\x03\0\0\0\0\0\0\0\0\0\0\x07\0\0\0\x02\0\0\0\x01\x01\x01\0\0\0\x19PIRA\x01\x01\x01\0\0\0\0\0\0\0\0\x07\0\0\0\x02\0\0\0\x01\xcf\x02\0\0\0\0\0\x03\x01\0\0\0\0";

/// The replay, with counters made of the blanks.
fn replayed<C: Ledger, N: Ledger>(
    alloc: Global,
    cols: Blank,
    nodes: Blank,
    ports: &mut MemPorts,
) -> Result<Verdict, ReplayFault>
    requires cols { (cols.name ≡ C.name) × (cols.parts ≡ C.parts) × (0 < cols.parts) }
    requires nodes { (nodes.name ≡ N.name) × (nodes.parts ≡ N.parts) × (0 < nodes.parts) }
{
    let mut cols: Steps<C> = Steps::new(cols);
    let mut nodes: Steps<N> = Steps::new(nodes);
    replay(alloc, &Koetter, ports, &mut cols, &mut nodes)
}

#[test]
fn a_session_is_judged(rt: HostRuntime) -> Result<(), Fail> {
    let alloc = rt.alloc();
    let mut ports = MemPorts::new(alloc, 7, &[], 0, 0)?;
    ports.put(alloc, Port::Input, SESSION)?;
    let verdict = replayed::<Brand, Brand>(alloc, Blank::new(1), Blank::new(1), &mut ports);
    assert!(rt; matches!(verdict, Ok(Verdict::TooFew { k: 1, h: 2 })));
    Ok(())
}

#[test]
fn the_texts_of_faults(rt: HostRuntime) -> Result<(), Fail> {
    for (fault, text) in [
        (ReplayFault::ReadFault, "a call on the input failed"),
        (
            ReplayFault::BadSession { place: 70 },
            "no session: wrong at byte 70",
        ),
        (ReplayFault::Memory, "no memory"),
    ] {
        assert_eq!(rt; format!(in rt.alloc(); "{fault}")?.as_str(), text);
    }
    Ok(())
}
