//! A case: what it is run on, and what is expected.

use port_trait::Port;
use std::alloc::Global;

/// What a port holds.
#[derive(Drop)]
pub struct Held {
    pub port: Port,
    pub bytes: Vec<u8>,
}

/// How many bytes a port can accept.
#[derive(Clone, Copy)]
pub struct Room {
    pub port: Port,
    pub bytes: usize,
}

/// A guest: the bytes that it has, and how many it can accept.
#[derive(Drop)]
pub struct Guest {
    pub bytes: Vec<u8>,
    pub room: usize,
}

/// A call that fails.
#[derive(Clone, Copy)]
pub enum Failing {
    /// The call with this number over all ports.
    Call(u64),
    /// The call with this number on the port.
    On(Port, u64),
}

/// One byte in place of another, and where a session with it is refused, if it is.
#[derive(Clone, Copy)]
pub struct Swap {
    pub at: usize,
    pub byte: u8,
    pub place: Option<u64>,
}

/// The runs that a case stands for.
#[derive(Drop)]
pub enum Each {
    /// One.
    Once,
    /// One for each prefix of what the port holds whose length is from the first number to before the second.
    Front(Port, usize, usize),
    /// One for each byte that another stands in place of.
    Byte(Port, Vec<Swap>),
    /// One for each call on the port, which fails.
    Call(Port),
    /// One for each room on the port that is too small.
    Room(Port),
}

/// What a case is run on.
#[derive(Drop)]
pub struct Setup {
    pub words: Vec<String>,
    pub held: Vec<Held>,
    pub rooms: Vec<Room>,
    pub guests: Vec<Guest>,
    pub pieces: Vec<usize>,
    pub names: usize,
    pub name_bytes: usize,
    pub fails: Vec<Failing>,
}

/// How the bytes end that a port is expected to take.
#[derive(Clone, Copy)]
pub enum Ending {
    /// With the last of those that are given.
    Here,
    /// With any others.
    Anyhow,
    /// With the length of the front that the run has, in four bytes, and the front itself.
    Front,
}

/// The bytes that a port is expected to take.
#[derive(Drop)]
pub struct Took {
    pub port: Port,
    pub bytes: Vec<u8>,
    pub ending: Ending,
}

/// The names that a port is expected to be opened with.
#[derive(Drop)]
pub struct Opened {
    pub port: Port,
    pub names: Vec<String>,
}

/// What is expected of a run.
#[derive(Drop)]
pub struct Expected {
    /// The status, as the line spells it.
    pub status: String,
    pub output: Vec<u8>,
    pub took: Vec<Took>,
    pub opened: Vec<Opened>,
    pub given: Vec<Vec<u8>>,
    pub started: Vec<Vec<String>>,
    pub left: Vec<Held>,
    pub calls: Option<u64>,
    pub replays: bool,
    pub twice: bool,
}

/// A case, with the number of the line at which it begins.
#[derive(Drop)]
pub struct Case {
    pub line: usize,
    pub name: String,
    pub setup: Setup,
    pub each: Each,
    pub expected: Expected,
    /// Whether each of its lines could be read.
    pub sound: bool,
}

impl Setup {
    /// A set-up in which nothing is said yet.
    pub fn new(alloc: Global) -> Self {
        Setup {
            words: Vec::new(alloc),
            held: Vec::new(alloc),
            rooms: Vec::new(alloc),
            guests: Vec::new(alloc),
            pieces: Vec::new(alloc),
            names: 1000,
            name_bytes: 50_000,
            fails: Vec::new(alloc),
        }
    }
}

impl Expected {
    /// An expectation of which nothing is said yet.
    fn new(alloc: Global) -> Self {
        Expected {
            status: String::new(alloc),
            output: Vec::new(alloc),
            took: Vec::new(alloc),
            opened: Vec::new(alloc),
            given: Vec::new(alloc),
            started: Vec::new(alloc),
            left: Vec::new(alloc),
            calls: None,
            replays: false,
            twice: false,
        }
    }
}

impl Case {
    /// A case of which no line was read yet.
    pub fn new(alloc: Global, line: usize, name: String) -> Self {
        Case {
            line,
            name,
            setup: Setup::new(alloc),
            each: Each::Once,
            expected: Expected::new(alloc),
            sound: true,
        }
    }

    /// The bytes that the port holds.
    pub fn held(&self, port: Port) -> &[u8] {
        for held in &self.setup.held {
            if held.port == port {
                return held.bytes.as_slice();
            }
        }
        &[]
    }
}
