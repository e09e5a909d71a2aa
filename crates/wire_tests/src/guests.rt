// Guests of ports in memory.
use pir_ports::{Failed, Filled, MemPorts, Port, Ports, read_exactly, write_all};
use std::alloc::{AllocError, Global};

/// Whether Guest holds nothing and has no room.
fn is_empty(ports: &mut MemPorts) -> bool {
    ports.take(Port::Guest, &mut [0]) == Ok(0) && ports.give(Port::Guest, b"a") == Err(Failed)
}

/// Whether Guest hands out this byte.
fn hands(ports: &mut MemPorts, byte: u8) -> bool {
    let mut held = [0];
    ports.take(Port::Guest, &mut held) == Ok(1) && held == [byte]
}

/// Ports that two guests are to come to, the second with room for three bytes.
fn awaited(alloc: Global) -> Result<MemPorts, AllocError> {
    let mut ports = MemPorts::new(alloc, 4, &[], 0, 0)?;
    ports.put(alloc, Port::Guest, b"b")?;
    ports.guest(alloc, b"first", 6)?;
    ports.guest(alloc, b"two", 3)?;
    Ok(ports)
}

/// Whether a guest comes in where `is_met`, a read of four bytes comes so far, and a write of six succeeds where
/// `is_given`.
fn comes(
    ports: &mut MemPorts,
    is_met: bool,
    filled: Filled,
    text: &[u8; 4],
    is_given: bool,
) -> bool {
    let mut held = [0; 4];
    ports.next_guest().is_ok() == is_met
        && read_exactly(ports, Port::Guest, &mut held) == filled
        && held == *text
        && write_all(ports, Port::Guest, b"answer").is_ok() == is_given
}

#[test]
fn guest_is_empty_at_first(rt: HostRuntime) -> Result<(), AllocError> {
    let mut ports = MemPorts::new(rt.alloc(), 4, &[], 0, 0)?;
    assert!(rt; is_empty(&mut ports));
    Ok(())
}

#[test]
fn guests_come_in_one_after_another(rt: HostRuntime) -> Result<(), AllocError> {
    let mut ports = awaited(rt.alloc())?;
    assert!(rt; hands(&mut ports, b'b'));
    assert!(rt; comes(&mut ports, true, Filled::Full, b"firs", true));
    // The second guest ends early, and has too little room.
    assert!(rt; comes(&mut ports, true, Filled::Ended(3), b"two\0", false));
    // No third guest comes, and the second is still in.
    assert!(rt; comes(&mut ports, false, Filled::Ended(0), b"\0\0\0\0", false));
    assert!(rt; ports.answered_to(0) == Some(b"answer".as_slice()));
    assert!(rt; ports.answered_to(1) == Some(b"ans".as_slice()));
    assert!(rt; ports.answered_to(2) == None);
    assert!(rt; ports.seen(Port::Guest) == b"ans".as_slice());
    Ok(())
}
