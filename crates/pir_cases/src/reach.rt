//! How far a run comes.

use crate::watched::{Call, Deed};
use pir_ports::Port;

/// How far a run comes of all that is expected of the whole case.
#[derive(Clone, Copy)]
pub enum Reach<'a> {
    /// To its end.
    Whole,
    /// Not further than these calls.
    Until(&'a [Call]),
    /// To its end, but with the port not further than these calls.
    Without(Port, &'a [Call]),
    /// To its end, but the port takes so many bytes alone.
    Room(Port, usize),
}

/// How many of the calls did this, on the port if there is one, and succeeded.
fn count(calls: &[Call], deed: Deed, port: Option<Port>) -> usize {
    let mut found = 0usize;
    for call in calls {
        if call.deed == deed && call.succeeded && port.unwrap_or(call.port) == call.port {
            found = found.saturating_add(1);
        }
    }
    found
}

/// How many bytes the port took in these calls; of a guest, those since it came in.
fn bytes_given(calls: &[Call], port: Port) -> usize {
    let mut bytes = 0usize;
    for call in calls {
        if call.deed == Deed::Meet && call.succeeded && port == Port::Guest {
            bytes = 0;
        } else if call.deed == Deed::Give && call.port == port {
            bytes = bytes.saturating_add(call.bytes);
        }
    }
    bytes
}

impl<'a> Reach<'a> {
    /// The calls that the port comes to an end with, where there are such.
    fn calls(self, of: Port) -> Option<&'a [Call]> {
        match self {
            Reach::Until(calls) => Some(calls),
            Reach::Without(port, calls) if port == of => Some(calls),
            _ => None,
        }
    }

    /// How many bytes of all that the port is expected to take it takes.
    pub fn bytes(self, port: Port, all: usize) -> usize {
        match (self, self.calls(port)) {
            (_, Some(calls)) => bytes_given(calls, port).min(all),
            (Reach::Room(of, room), None) if of == port => room.min(all),
            _ => all,
        }
    }

    /// How many names of all that the port is expected to be opened with it is opened with.
    pub fn names(self, port: Port, all: usize) -> usize {
        match self.calls(port) {
            Some(calls) => count(calls, Deed::Open, Some(port)).min(all),
            None => all,
        }
    }

    /// How many guests of all come in.
    pub fn guests(self, all: usize) -> usize {
        match self {
            Reach::Until(calls) => count(calls, Deed::Meet, None).min(all),
            _ => all,
        }
    }

    /// How many bytes of all that the guest is expected to be given it is given; guests count from 0.
    pub fn guest_bytes(self, guest: usize, all: usize) -> usize {
        match self.calls(Port::Guest) {
            Some(calls) if count(calls, Deed::Meet, None) == guest.saturating_add(1) => {
                bytes_given(calls, Port::Guest).min(all)
            }
            _ => all,
        }
    }

    /// How many children of all are started.
    pub fn starts(self, all: usize) -> usize {
        match self {
            Reach::Until(calls) => count(calls, Deed::Start, None).min(all),
            _ => all,
        }
    }
}
