// Bytes through ports in memory.
ghost use Rattle.std.specs.Prelude.{◌<◌};

use pir_ports::{Failed, Filled, MemPorts, Port, read_exactly, write_all};
use std::alloc::{AllocError, Global};

/// Ports that got seven bytes in two pieces, and have room for seven; a call moves at most `cut`.
fn seven(alloc: Global, cut: usize) -> Result<MemPorts, AllocError>
    requires { 0 < cut }
{
    let mut ports = MemPorts::new(alloc, cut, &[], 0, 0)?;
    ports.put(alloc, Port::Input, b"abc")?;
    ports.put(alloc, Port::Input, b"defg")?;
    ports.room(alloc, Port::Output, 7)?;
    Ok(ports)
}

/// Whether the next read of five bytes comes so far, and leaves these.
fn reads(ports: &mut MemPorts, piece: &mut [u8; 5], filled: Filled, left: &[u8; 5]) -> bool {
    read_exactly(ports, Port::Input, piece) == filled && *piece == *left
}

/// Whether the bytes pass as they should.
fn pass(alloc: Global, cut: usize) -> Result<bool, AllocError>
    requires { 0 < cut }
{
    let mut ports = seven(alloc, cut)?;
    let mut piece = [0; 5];
    let ports = &mut ports;
    Ok(
        reads(ports, &mut piece, Filled::Full, b"abcde")
            && write_all(ports, Port::Output, &piece) == Ok(())
            // The input ends within the next piece, whose end stays as it was.
            && reads(ports, &mut piece, Filled::Ended(2), b"fgcde")
            && reads(ports, &mut piece, Filled::Ended(0), b"fgcde")
            // Of the next piece as much is taken as there is room for.
            && write_all(ports, Port::Output, &piece) == Err(Failed)
            && ports.seen(Port::Output) == b"abcdefg".as_slice(),
    )
}

#[test]
fn bytes_pass_in_any_cut(rt: HostRuntime) -> Result<(), AllocError> {
    for cut in 1..=5 {
        assert!(rt; pass(rt.alloc(), cut)?, "cut {cut}");
    }
    Ok(())
}

/// Ports that hold four bytes and have room for four; a call moves at most two, and the call with the number `fail`
/// fails.
fn four(alloc: Global, fail: u8) -> Result<MemPorts, AllocError> {
    let mut ports = MemPorts::new(alloc, 2, &[u64::from(fail)], 0, 0)?;
    ports.put(alloc, Port::Input, b"abcd")?;
    ports.room(alloc, Port::Output, 4)?;
    Ok(ports)
}

/// Whether two reads of four bytes and a write of four come so far.
fn come_so_far(ports: &mut MemPorts, first: Filled, second: Filled, seen: &[u8]) -> bool {
    let mut piece = [0; 4];
    let are_read = read_exactly(ports, Port::Input, &mut piece) == first
        && read_exactly(ports, Port::Input, &mut piece) == second;
    let _ = write_all(ports, Port::Output, b"abcd");
    are_read && ports.seen(Port::Output) == seen
}

#[test]
fn calls_fail_by_their_numbers(rt: HostRuntime) -> Result<(), AllocError> {
    for (fail, first, second, seen) in [
        (0, Filled::Full, Filled::Ended(0), b"abcd".as_slice()),
        (1, Filled::Failed, Filled::Full, b"abcd".as_slice()),
        (2, Filled::Failed, Filled::Ended(2), b"abcd".as_slice()),
        (3, Filled::Full, Filled::Failed, b"abcd".as_slice()),
        (4, Filled::Full, Filled::Ended(0), b"".as_slice()),
        (5, Filled::Full, Filled::Ended(0), b"ab".as_slice()),
    ] {
        let mut ports = four(rt.alloc(), fail)?;
        assert!(rt;
            come_so_far(&mut ports, first, second, seen),
            "call {fail} fails"
        );
    }
    Ok(())
}

#[test]
fn ports_have_their_numbers(rt: HostRuntime) {
    for (port, number) in [
        (Port::Input, 0),
        (Port::Output, 1),
        (Port::Database, 2),
        (Port::Coins, 3),
        (Port::Record, 4),
        (Port::Door, 5),
        (Port::Guest, 6),
        (Port::Link(0), 256),
        (Port::Link(255), 511),
        (Port::Child(0), 512),
        (Port::Child(255), 767),
        (Port::Share(0), 768),
        (Port::Share(255), 1023),
    ] {
        assert!(rt; port.number() == number, "number {number}");
    }
}
