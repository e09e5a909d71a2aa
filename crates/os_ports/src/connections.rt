// The streams to servers and to the guest, and where guests come in.
ghost use Rattle.std.specs.Prelude.{◌≤◌, length, IfOk};

use crate::children::Children;
use crate::closed::closed;
use crate::guest::Guest;
use crate::links::Links;
use crate::parent::Parent;
use crate::variables::{CHILD, is_one};
use port_trait::Port;
use std::alloc::Global;
use std::io::{self, ErrorKind, Read, Write};
use std::net::{Net, OpenListener, OpenStream, SocketAddr, TcpListener};
use std::os::fd::AsRawFd;
use std::process::OpenProcess;
use std::rt::Env;
use std::time::{Clock, Instant};

// The errors of Linux by which `accept` tells that one connection was given up: ENONET, EPROTO, ENOPROTOOPT,
// EOPNOTSUPP, ENETDOWN, ENETUNREACH, ECONNABORTED, EHOSTDOWN and EHOSTUNREACH.
const GIVEN_UP: [i32; 9] = [64, 71, 92, 95, 100, 101, 103, 112, 113];

/// The open streams, and the listener.
#[derive(Drop)]
pub struct Connections<L, S> {
    door: Option<L>,
    // Where this program is a child, once Door is open.
    parent: Option<Parent>,
    guest: Option<Guest<S>>,
    links: Links<S>,
}

// Whether an `accept` failed for one connection alone, which its other side or the network gave up: accept(2) names
// these errors, and says to try again.
fn is_given_up(error: &io::Error) -> bool {
    if error.kind() == ErrorKind::Interrupted {
        return true;
    }
    match error.raw_os_error() {
        Some(code) => GIVEN_UP.contains(&code),
        None => false,
    }
}

// Whether to ask for a guest again after an `accept` that failed. One who gave up before is passed over. A child, whose
// door doesn't wait, waits here: once its parent has ended, no guest comes in who wasn't there before.
fn ask_again(error: io::Error, parent: Option<&mut Parent>) -> io::Result<()> {
    if is_given_up(&error) {
        return Ok(());
    }
    match parent {
        Some(parent) if error.kind() == ErrorKind::WouldBlock => parent.await_guest(),
        _ => Err(error),
    }
}

// Lets the next guest in at the door, where that is open, and tells where it came from.
fn accept<L: OpenListener>(
    door: Option<&L>,
    parent: &mut Option<Parent>,
) -> io::Result<(L::Stream, SocketAddr)> {
    let Some(door) = door else {
        return Err(closed());
    };
    for _ in 0..u64::MAX {
        match door.accept() {
            Ok(met) => return Ok(met),
            Err(error) => ask_again(error, parent.as_mut())?,
        }
    }
    Err(io::Error::from(ErrorKind::ConnectionAborted))
}

// Watches for the parent's end beside guests, where this program is a child.
fn watch_parent<R, L>(rt: &R, door: &L) -> io::Result<Option<Parent>>
where
    R: Net + Env + AllocGlobal,
    L: OpenListener + AsRawFd,
{
    if is_one(rt, CHILD) {
        Ok(Some(Parent::watch(rt, door)?))
    } else {
        Ok(None)
    }
}

impl<L: OpenListener + Drop, S: Read + Write + OpenStream + Drop> Connections<L, S> {
    /// Nothing is open.
    pub fn new(alloc: Global) -> Self {
        Connections {
            door: None,
            parent: None,
            guest: None,
            links: Links::new(alloc),
        }
    }

    /// Listens at the address: from here on this process serves.
    pub fn listen<R>(&mut self, rt: &R, address: &str) -> io::Result<()>
    where
        R: Net<Listener = L> + Env + AllocGlobal,
        L: AsRawFd,
    {
        let door = TcpListener::bind(rt, address)?;
        self.parent = watch_parent(rt, &door)?;
        self.door = Some(door);
        self.links.serve();
        Ok(())
    }

    /// Opens the link to the server, and tells the children of its address. Where the guest who is in reset its stream,
    /// nobody waits for what the server would say, and that fails.
    pub fn open_link<R, P>(
        &mut self,
        rt: &R,
        server: u8,
        address: &str,
        children: &mut Children<P>,
    ) -> io::Result<()>
    where
        R: Net<Stream = S> + Clock,
        P: OpenProcess + Drop,
    {
        if let Some(guest) = &self.guest {
            guest.check()?;
        }
        self.links.open(rt, server, address)?;
        children.note_link(address);
        Ok(())
    }

    /// Closes all links, and lets the guest who is in go.
    pub fn let_go<C: Clock>(&mut self, clock: &C) {
        self.links.let_go();
        if let Some(guest) = self.guest.take() {
            guest.let_go(clock);
        }
    }

    /// Closes all links and the stream to the guest before, waits for the next guest, and opens the stream to it, which
    /// came from the address.
    pub fn meet<C: Clock>(&mut self, clock: &C) -> io::Result<SocketAddr>
    where
        L: OpenListener<Stream = S>,
    {
        self.let_go(clock);
        let (stream, address) = accept(self.door.as_ref(), &mut self.parent)?;
        self.guest = Some(Guest::new(stream, Instant::now(clock)?));
        Ok(address)
    }

    /// Reads from the port, where it is open.
    pub fn read<C: Clock>(&mut self, clock: &C, p: Port, into: &mut [u8]) -> io::Result<usize>
        ensures { IfOk result (λ n. n ≤ length into.new) }
    {
        match (p, self.guest.as_mut()) {
            (Port::Guest, Some(guest)) => guest.read(clock, into),
            (Port::Link(i), _) => self.links.read(clock, i, into),
            _ => Err(closed()),
        }
    }

    /// Writes to the port, where it is open.
    pub fn write<C: Clock>(&mut self, clock: &C, p: Port, piece: &[u8]) -> io::Result<usize>
        ensures { IfOk result (λ n. n ≤ length piece.now) }
    {
        match (p, self.guest.as_mut()) {
            (Port::Guest, Some(guest)) => guest.write(clock, piece),
            (Port::Link(i), _) => self.links.write(clock, i, piece),
            _ => Err(closed()),
        }
    }
}
