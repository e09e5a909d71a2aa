// The streams to servers.
ghost use Rattle.std.specs.Prelude.{◌≤◌, length, IfOk};

use crate::closed::closed;
use crate::limits::{Allowance, LINK, SERVER_LINK};
use crate::timed::{TimedStream, connect};
use std::alloc::Global;
use std::io::{self, ErrorKind, Read, Write};
use std::net::{Net, OpenStream};
use std::time::Clock;

// The stream to a server.
#[derive(Drop)]
struct Link<S> {
    server: u8,
    stream: TimedStream<S>,
    // The time that is its own, where links don't share one.
    time: Allowance,
}

/// The streams to servers, one at most to each.
#[derive(Drop)]
pub struct Links<S> {
    open: Vec<Link<S>>,
    // Where this process serves, the time of all links that are opened for one guest.
    shared: Option<Allowance>,
    // Where it doesn't, the servers of whose links a call was too late. None of them is waited for again.
    late: [bool; 256],
}

// Whether the call was too late.
fn is_late<T>(ended: &io::Result<T>) -> bool {
    matches!(ended, Err(error) if error.kind() == ErrorKind::TimedOut)
}

// The link to the server.
fn link_to<S>(links: &mut [Link<S>], server: u8) -> Option<&mut Link<S>> {
    for link in links {
        if link.server == server {
            return Some(link);
        }
    }
    None
}

// The time that a call on a link takes: that of all links, or else its own.
fn time_of<'a>(shared: &'a mut Option<Allowance>, own: &'a mut Allowance) -> &'a mut Allowance {
    match shared {
        Some(shared) => shared,
        None => own,
    }
}

impl<S: Drop> Links<S> {
    /// No link is open.
    pub fn new(alloc: Global) -> Self {
        Links {
            open: Vec::new(alloc),
            shared: None,
            late: [false; 256],
        }
    }

    /// From here on this process serves.
    pub fn serve(&mut self) {
        self.shared = Some(Allowance::new(SERVER_LINK));
    }

    /// Closes all links. Where this process serves, those that are opened from here on are for another guest.
    pub fn let_go(&mut self) {
        self.open.clear();
        if self.shared.is_some() {
            self.serve();
        }
    }

    /// Opens the link to the server, and closes the one before first. Where this process doesn't serve, that fails at once
    /// if a call on a link to the server was too late before.
    pub fn open<R>(&mut self, rt: &R, server: u8, address: &str) -> io::Result<()>
    where
        R: Net<Stream = S> + Clock,
    {
        self.open.retain(|link| link.server != server);
        if self.late[usize::from(server)] {
            return Err(io::Error::new(
                ErrorKind::TimedOut,
                "it was too late before, and isn't asked again",
            ));
        }
        let opened = self.connect(rt, server, address);
        self.note_late(server, is_late(&opened));
        opened
    }

    // Connects to the server.
    fn connect<R>(&mut self, rt: &R, server: u8, address: &str) -> io::Result<()>
    where
        R: Net<Stream = S> + Clock,
    {
        let mut time = self.shared.unwrap_or(Allowance::new(LINK));
        let connected = connect(rt, address, &mut time);
        if self.shared.is_some() {
            self.shared = Some(time);
        }
        self.open.push(Link {
            server,
            stream: connected?,
            time,
        })?;
        Ok(())
    }

    // Notes that a call on the link to the server was too late. A process that serves tries it again for the next guest.
    fn note_late(&mut self, server: u8, is_late: bool) {
        if is_late && self.shared.is_none() {
            self.late[usize::from(server)] = true;
        }
    }

    /// Reads from the link to the server.
    pub fn read<C: Clock>(&mut self, clock: &C, server: u8, into: &mut [u8]) -> io::Result<usize>
    where
        S: Read + OpenStream,
        ensures { IfOk result (λ n. n ≤ length into.new) }
    {
        let Some(link) = link_to(&mut self.open, server) else {
            return Err(closed());
        };
        let time = time_of(&mut self.shared, &mut link.time);
        let read = link.stream.read(clock, time, into);
        self.note_late(server, is_late(&read));
        read
    }

    /// Writes to the link to the server.
    pub fn write<C: Clock>(&mut self, clock: &C, server: u8, piece: &[u8]) -> io::Result<usize>
    where
        S: Write + OpenStream,
        ensures { IfOk result (λ n. n ≤ length piece.now) }
    {
        let Some(link) = link_to(&mut self.open, server) else {
            return Err(closed());
        };
        let time = time_of(&mut self.shared, &mut link.time);
        let written = link.stream.write(clock, time, piece);
        self.note_late(server, is_late(&written));
        written
    }
}
