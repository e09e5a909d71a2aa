//! Ports in memory whose calls are noted.

ghost use Rattle.pir_ports.specs.Memory.{world_of};

use pir_ports::{Failed, MemPorts, Port, Ports};
use std::alloc::{AllocError, Global};

/// What a call does.
#[derive(Clone, Copy, PartialEq, Eq)]
pub enum Deed {
    Open,
    Take,
    Give,
    Meet,
    Start,
}

/// A call: its port, whether it succeeded, and how many bytes it moved.
#[derive(Clone, Copy)]
pub struct Call {
    pub port: Port,
    pub deed: Deed,
    pub succeeded: bool,
    pub bytes: usize,
}

/// Calls in their order, the first of them with all that is known of them, and how many there are.
#[derive(Drop)]
pub struct Log {
    calls: Vec<Call>,
    count: u64,
}

impl Log {
    /// Counts one call more, and notes it if there is room.
    fn note(&mut self, call: Call) {
        self.count = self.count.saturating_add(1);
        if self.calls.len() < self.calls.capacity() {
            let _ = self.calls.push(call);
        }
    }

    /// The calls that were noted.
    pub fn calls(&self) -> &[Call] {
        &self.calls
    }

    /// How many calls there were.
    pub fn count(&self) -> u64 {
        self.count
    }

    /// Whether no answer is taken before all servers of its round were asked. An opening of link 1 begins a round; behind it,
    /// no link is opened or given to once one was read.
    pub fn asks_before_it_takes(&self) -> bool {
        let mut reads = false;
        for call in &self.calls {
            let begins = call.deed == Deed::Open && call.port == Port::Link(1);
            let on_a_link = matches!(call.port, Port::Link(_));
            let takes = on_a_link && call.deed == Deed::Take;
            if on_a_link && reads && !begins && !takes {
                return false;
            }
            reads = takes || (reads && !begins);
        }
        true
    }

    /// The number over all calls that the call on the port with this number has; both count from 1.
    pub fn number_of(&self, port: Port, nth: u64) -> Option<u64> {
        let mut seen = 0u64;
        for (i, call) in self.calls.iter().enumerate() {
            if call.port == port {
                seen = seen.saturating_add(1);
                if seen == nth {
                    return Some((i as u64).saturating_add(1));
                }
            }
        }
        None
    }
}

/// How many calls are noted.
const LOG_ROOM: usize = 1 << 14;

/// Ports in memory, and their calls so far. They do what those do.
#[derive(Drop)]
pub struct WatchedPorts {
    pub ports: MemPorts,
    pub log: Log,
}

impl WatchedPorts {
    /// Ports of which no call is noted yet.
    pub fn new(alloc: Global, ports: MemPorts) -> Result<Self, AllocError> {
        let calls = Vec::with_capacity(alloc, LOG_ROOM)?;
        Ok(WatchedPorts {
            ports,
            log: Log { calls, count: 0 },
        })
    }
}

impl Ports for WatchedPorts {
    ghost world = { λ w. world_of w.ports };

    fn open(&mut self, p: Port, name: &str) -> Result<(), Failed> {
        let opened = self.ports.open(p, name);
        self.log.note(Call {
            port: p,
            deed: Deed::Open,
            succeeded: opened.is_ok(),
            bytes: 0,
        });
        opened
    }

    fn take(&mut self, p: Port, into: &mut [u8]) -> Result<usize, Failed> {
        let taken = self.ports.take(p, into);
        self.log.note(Call {
            port: p,
            deed: Deed::Take,
            succeeded: taken.is_ok(),
            bytes: taken.unwrap_or(0),
        });
        taken
    }

    fn give(&mut self, p: Port, piece: &[u8]) -> Result<usize, Failed> {
        let given = self.ports.give(p, piece);
        self.log.note(Call {
            port: p,
            deed: Deed::Give,
            succeeded: given.is_ok(),
            bytes: given.unwrap_or(0),
        });
        given
    }

    fn next_guest(&mut self) -> Result<(), Failed> {
        let met = self.ports.next_guest();
        self.log.note(Call {
            port: Port::Door,
            deed: Deed::Meet,
            succeeded: met.is_ok(),
            bytes: 0,
        });
        met
    }

    fn start_child(&mut self, i: u8, words: &[String]) -> Result<(), Failed> {
        let started = self.ports.start_child(i, words);
        self.log.note(Call {
            port: Port::Child(i),
            deed: Deed::Start,
            succeeded: started.is_ok(),
            bytes: 0,
        });
        started
    }
}
