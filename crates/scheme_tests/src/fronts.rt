//! A front over the shards `4142` and `4344`, and how one guest is met at it.

use pir_ports::{Failed, MemPorts, Port, Ports};
use shard_front::{Front, Relayed, front_one};
use std::alloc::{AllocError, Global};
use std::test::Fail;

/// The query of a guest for the two rows, and what it is given where both shards answer.
const QUERY: &[u8; 26] = b"PIRQ\x01\x01\x01\0\0\0\0\0\0\0\0\x07\0\0\0\x02\0\0\0\x02\x05\x06";

const REPLY: &[u8] = b"PIRA\x01\x01\x01\0\0\0\0\0\0\0\0\x07\0\0\0\x02\0\0\0\x02\xcf\xd2";

/// What each shard is asked of it, and answers.
const FIRST_PART: &[u8] = b"PIRQ\x01\x01\x01\0\0\0\0\0\0\0\0\x07\0\0\0\x01\0\0\0\x02\x05";

const FIRST: &[u8] = b"PIRA\x01\x01\x01\0\0\0\0\0\0\0\0\x07\0\0\0\x01\0\0\0\x02\x5e\x51";

const SECOND_PART: &[u8] = b"PIRQ\x01\x01\x01\0\0\0\0\0\0\0\0\x07\0\0\0\x01\0\0\0\x02\x06";

const SECOND: &[u8] = b"PIRA\x01\x01\x01\0\0\0\0\0\0\0\0\x07\0\0\0\x01\0\0\0\x02\x91\x83";

/// What the guest is given where the first shard is lost, where the second is, and where its query is for
/// other rows.
const FIRST_LOST: &[u8] = b"PIRA\x01\x01\x01\x04\0\0\0\0\0\0\0\x07\0\0\0\x02\0\0\0\x02\x01";

const SECOND_LOST: &[u8] = b"PIRA\x01\x01\x01\x04\0\0\0\0\0\0\0\x07\0\0\0\x02\0\0\0\x02\x02";

const OTHER_ROWS: &[u8; 26] = b"PIRQ\x01\x01\x01\0\0\0\0\0\0\0\0\x07\0\0\0\x03\0\0\0\x02\x05\x06";

const OTHER_SHAPE: &[u8] = b"PIRA\x01\x01\x01\x02\0\0\0\0\0\0\0\x07\0\0\0\x03\0\0\0\x02";

/// A guest at the door: its bytes, those that each shard answers, and the number of the call that fails. Call 1 lets the guest
/// in, calls 2 and 3 take its query, 4 to 6 ask the first shard, 7 to 9 the second, 10 gives the guest its frame, and no call
/// has the number 0.
#[derive(Clone, Copy)]
struct Visit<'a> {
    guest: &'a [u8],
    first: &'a [u8],
    second: &'a [u8],
    fail: u8,
}

/// How a guest is met: what each shard was asked, and what the guest was given.
#[derive(Clone, Copy)]
struct Meeting<'a> {
    met: Relayed,
    first_part: &'a [u8],
    second_part: &'a [u8],
    given: &'a [u8],
}

/// A guest with a good query, at a front whose shards both answer, where no call fails.
fn good_visit() -> Visit<'static> {
    Visit {
        guest: QUERY,
        first: FIRST,
        second: SECOND,
        fail: 0,
    }
}

/// Ports at whose door the guest stands, with room for 26 bytes, and links to two shards.
fn ports_with(alloc: Global, visit: Visit<'_>) -> Result<MemPorts, AllocError> {
    let mut ports = MemPorts::new(alloc, 99, &[u64::from(visit.fail)], 2, 2)?;
    ports.guest(alloc, visit.guest, 26)?;
    ports.put(alloc, Port::Link(1), visit.first)?;
    ports.put(alloc, Port::Link(2), visit.second)?;
    ports.room(alloc, Port::Link(1), 99)?;
    ports.room(alloc, Port::Link(2), 99)?;
    Ok(ports)
}

/// Lets the guest in at a front of its own and serves it: how it was met, where it came in.
fn serve_next(alloc: Global, ports: &mut MemPorts) -> Result<Option<Relayed>, AllocError> {
    let addresses = vec![in alloc;
        String::from_str(alloc, "a")?,
        String::from_str(alloc, "b")?,
    ]?;
    let mut front = Front::open(alloc, 2, 2, 1)?;
    match ports.next_guest() {
        Ok(()) => Ok(Some(front_one(&mut front, &addresses, ports))),
        Err(Failed) => Ok(None),
    }
}

/// Whether the guest is met so.
fn is_met_so(alloc: Global, visit: Visit<'_>, wanted: Meeting<'_>) -> Result<bool, AllocError> {
    let mut ports = ports_with(alloc, visit)?;
    let met = serve_next(alloc, &mut ports)?;
    Ok(
        met == Some(wanted.met)
            && ports.seen(Port::Link(1)) == wanted.first_part
            && ports.seen(Port::Link(2)) == wanted.second_part
            && ports.seen(Port::Guest) == wanted.given,
    )
}

/// Whether a guest is given the sum where both shards answer.
fn is_served(alloc: Global) -> Result<bool, AllocError> {
    let wanted = Meeting {
        met: Relayed::Served,
        first_part: FIRST_PART,
        second_part: SECOND_PART,
        given: REPLY,
    };
    is_met_so(alloc, good_visit(), wanted)
}

/// Whether the first shard is lost where it isn't reached, answers nothing, or names a lost shard itself. The second isn't asked.
fn first_is_lost(alloc: Global) -> Result<bool, AllocError> {
    let none: &[u8] = &[];
    for (first, fail, first_part) in [
        (FIRST, 4, none),
        (none, 0, FIRST_PART),
        (SECOND_LOST, 0, FIRST_PART),
    ] {
        let visit = Visit {
            first,
            fail,
            ..good_visit()
        };
        let wanted = Meeting {
            met: Relayed::ShardLost(1),
            first_part,
            second_part: none,
            given: FIRST_LOST,
        };
        if !is_met_so(alloc, visit, wanted)? {
            return Ok(false);
        }
    }
    Ok(true)
}

/// Whether the second shard is lost where a call on its link fails, or its answer is cut.
fn second_is_lost(alloc: Global) -> Result<bool, AllocError> {
    let none: &[u8] = &[];
    for (second, fail, second_part) in [
        (SECOND, 7, none),
        (SECOND, 8, none),
        (SECOND, 9, SECOND_PART),
        (&SECOND[..25], 0, SECOND_PART),
    ] {
        let visit = Visit {
            second,
            fail,
            ..good_visit()
        };
        let wanted = Meeting {
            met: Relayed::ShardLost(2),
            first_part: FIRST_PART,
            second_part,
            given: SECOND_LOST,
        };
        if !is_met_so(alloc, visit, wanted)? {
            return Ok(false);
        }
    }
    Ok(true)
}

/// Whether a guest whose query is for other rows, is cut, or can't be taken is refused or gone, and no shard is asked.
fn no_shard_is_asked(alloc: Global) -> Result<bool, AllocError> {
    let none: &[u8] = &[];
    for (guest, fail, met, given) in [
        (OTHER_ROWS.as_slice(), 0, Relayed::Refused(2), OTHER_SHAPE),
        (&QUERY[..25], 0, Relayed::Gone, none),
        (QUERY, 3, Relayed::GuestFault, none),
    ] {
        let visit = Visit {
            guest,
            fail,
            ..good_visit()
        };
        let wanted = Meeting {
            met,
            first_part: none,
            second_part: none,
            given,
        };
        if !is_met_so(alloc, visit, wanted)? {
            return Ok(false);
        }
    }
    Ok(true)
}

/// Whether a guest that takes nothing is given nothing, though both shards were asked.
fn nothing_is_given(alloc: Global) -> Result<bool, AllocError> {
    let visit = Visit {
        fail: 10,
        ..good_visit()
    };
    let wanted = Meeting {
        met: Relayed::GuestFault,
        first_part: FIRST_PART,
        second_part: SECOND_PART,
        given: &[],
    };
    is_met_so(alloc, visit, wanted)
}

#[test]
fn guests_are_met(rt: HostRuntime) -> Result<(), Fail> {
    let alloc = rt.alloc();
    assert!(rt; is_served(alloc)?);
    assert!(rt; first_is_lost(alloc)?);
    assert!(rt; second_is_lost(alloc)?);
    assert!(rt; no_shard_is_asked(alloc)?);
    assert!(rt; nothing_is_given(alloc)?);
    Ok(())
}
