// Recorded sessions.
ghost use Rattle.std.specs.Prelude.{◌≤◌};

use client_calls::{ReplayRefusal, replay_session};
use std::alloc::Global;

// Three servers answered a query for a block of two bytes, on the lines `43 + 8c x` and `44 + 96 x`; a byte stands behind.
const LONGER: [u8; 125] = *b"PIRS\x01\x01\x01\x02\x03\0\0\0\0\0\0\0\0\0\0\x07\0\0\0\x02\0\0\0\x02\
    \x01\x01\0\0\0\x1aPIRA\x01\x01\x01\0\0\0\0\0\0\0\0\x07\0\0\0\x02\0\0\0\x02\xcf\xd2\
    \x02\x01\0\0\0\x1aPIRA\x01\x01\x02\0\0\0\0\0\0\0\0\x07\0\0\0\x02\0\0\0\x02\x40\x73\
    \x03\x01\0\0\0\x1aPIRA\x01\x01\x03\0\0\0\0\0\0\0\0\x07\0\0\0\x02\0\0\0\x02\xcc\xe5\0";

// None of three servers answered.
const SILENT: [u8; 46] = *b"PIRS\x01\x01\x01\x02\x03\0\0\0\0\0\0\0\0\0\0\x07\0\0\0\x02\0\0\0\x02\
    \x01\0\0\0\0\0\x02\0\0\0\0\0\x03\0\0\0\0\0";

/// Whether the verdict on a session has this text.
fn has_text(alloc: Global, session: &[u8], want: &[u8]) -> bool {
    let mut out = [0xff; 16];
    match replay_session(alloc, session, &mut out) {
        Ok((_verdict, size)) => &out[..size] == want,
        Err(_) => false,
    }
}

#[test]
fn worked_sessions(rt: HostRuntime) {
    assert!(rt; has_text(rt.alloc(), &LONGER[..124], b"blocks 1\n4344\n"));
    assert!(rt; has_text(rt.alloc(), &SILENT, b"too few 0 2\n"));
}

/// Whether a session is refused so, where there is so much room.
fn is_refused(alloc: Global, session: &[u8], room: usize, want: ReplayRefusal) -> bool
    requires { room ≤ 16 }
{
    let mut out = [0xff; 16];
    match replay_session(alloc, session, &mut out[..room]) {
        Ok(_) => false,
        Err(refusal) => refusal == want,
    }
}

/// The refusal of bytes that begin a session up to a place.
fn wrong_at(place: u64) -> ReplayRefusal {
    ReplayRefusal::BadSession { place }
}

#[test]
fn refused_sessions(rt: HostRuntime) {
    assert!(rt; is_refused(rt.alloc(), &LONGER, 16, wrong_at(124)));
    assert!(rt; is_refused(rt.alloc(), &LONGER[..123], 16, wrong_at(123)));
    assert!(rt;
        is_refused(
            rt.alloc(),
            &LONGER[..124],
            13,
            ReplayRefusal::Room { wanted: 14 }
        )
    );
}
