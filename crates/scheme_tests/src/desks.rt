//! A desk for the rows `4142` and `4344`, and how guests are met at it.

ghost use Rattle.std.specs.Prelude.{◌<◌};

use block_matrix::Matrix;
use pir_ports::{Failed, MemPorts, Ports};
use serve_core::{Desk, Met, serve_one};
use server_product::OpenGate;
use std::alloc::{AllocError, Global};
use std::test::Fail;
use std::thread::Threads;

const QUERY: &[u8; 26] = b"PIRQ\x01\x01\x01\0\0\0\0\0\0\0\0\x07\0\0\0\x02\0\0\0\x02\x05\x06";

/// Ports at whose door a guest with these bytes and so much room stands. The call with the number `fail` fails: call 1 lets the
/// guest in, calls 2 to 4 take its header and payload and give it the answer, and no call has the number 0.
fn ports_with(alloc: Global, guest: &[u8], room: usize, fail: u64) -> Result<MemPorts, AllocError>
    requires { fail < 100 }
{
    let mut ports = MemPorts::new(alloc, 99, &[fail], 0, 0)?;
    ports.guest(alloc, guest, room)?;
    Ok(ports)
}

/// Lets the guest in and serves it: how it was met, where it came in.
fn serve_next<R: Threads + Sync>(rt: &R, desk: &mut Desk, ports: &mut MemPorts) -> Option<Met> {
    match ports.next_guest() {
        Ok(()) => Some(serve_one(rt, desk, ports, &OpenGate)),
        Err(Failed) => None,
    }
}

#[test]
fn guests_are_met(rt: HostRuntime) -> Result<(), Fail> {
    let alloc = rt.alloc();
    let Ok(matrix) = Matrix::from_bytes(alloc, b"ABCD".to_vec(alloc)?, 2) else {
        return Err(Fail::new("no matrix"));
    };
    let mut desk = Desk::open(alloc, matrix, 1, 2)?;
    let mut other_first = *QUERY;
    other_first[0] = b'Q';
    let mut other_rows = *QUERY;
    other_rows[19] = 3;
    let mut other_scheme = *QUERY;
    other_scheme[5] = 2;
    for (guest, room, fail, wanted) in [
        (QUERY.as_slice(), 26, 0, Met::Served),
        (&other_first, 26, 0, Met::Refused(1)),
        (&other_rows, 26, 0, Met::Refused(2)),
        (&other_scheme, 26, 0, Met::Refused(3)),
        (&QUERY[..25], 26, 0, Met::Gone),
        (QUERY, 10, 0, Met::GuestFault),
        (QUERY, 26, 2, Met::GuestFault),
        (QUERY, 26, 3, Met::GuestFault),
        (QUERY, 26, 4, Met::GuestFault),
    ] {
        let mut ports = ports_with(alloc, guest, room, fail)?;
        let met = serve_next(&rt, &mut desk, &mut ports);
        assert!(rt; met == Some(wanted), "{guest:?}, call {fail} fails");
    }
    Ok(())
}
