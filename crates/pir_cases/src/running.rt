//! One run of a case.

ghost use Rattle.std.specs.Prelude.{◌≡◌, ◌≢◌, ◌-◌, ◌^◌, ◌<◌, Contains};
ghost use Rattle.pir_ports.specs.Number.{number};

use crate::watched::WatchedPorts;
use case_files::case::{Case, Failing, Held, Setup};
use case_files::fault::Fault;
use case_files::setup_lines::append_words;
use pir_ports::{MemPorts, Port};
use pir_tool::{Status, run};
use std::alloc::{AllocError, Global};
use std::thread::Threads;

/// What a run has otherwise than the case says.
#[derive(Clone, Copy, Debug)]
pub enum Change {
    Unchanged,
    /// The port holds the front of this length alone.
    Front(Port, usize),
    /// At this place the port holds this byte.
    Byte(Port, usize, u8),
    /// The port can accept so many bytes alone.
    Room(Port, usize),
    /// The call with this number over all ports fails.
    Call(u64),
}

/// A run of a case: a call moves at most so many bytes, and something may be otherwise than the case says.
#[derive(Clone, Copy)]
pub struct Trial {
    pub piece: usize,
    pub change: Change,
}

impl Trial {
    /// The length of the front that the run has.
    pub fn front(self) -> usize {
        match self.change {
            Change::Front(_, len) => len,
            _ => 0,
        }
    }

    /// What a port or a guest holds, as far as the run has a prefix of it.
    fn front_of(self, port: Port, bytes: &[u8]) -> &[u8] {
        match self.change {
            Change::Front(of, len) if of == port => bytes.get(..len).unwrap_or(bytes),
            _ => bytes,
        }
    }
}

/// How a run ended, and its ports.
#[derive(Drop)]
pub struct Ran {
    pub status: Status,
    pub ports: WatchedPorts,
}

/// Makes room for so many bytes on the port; a guest has its own.
fn make_room(
    alloc: Global,
    ports: &mut MemPorts,
    port: Port,
    bytes: usize,
) -> Result<(), AllocError> {
    if port.number() == 6 {
        return Ok(());
    }
    ports.room(alloc, port, bytes)
}

/// Makes the room that a case has where it says nothing.
fn make_usual_rooms(alloc: Global, ports: &mut MemPorts) -> Result<(), AllocError> {
    make_room(alloc, ports, Port::Output, 200_000)?;
    make_room(alloc, ports, Port::Record, 200_000)?;
    for i in 1..33u8 {
        make_room(alloc, ports, Port::Link(i), 4096)?;
        make_room(alloc, ports, Port::Share(i), 4096)?;
    }
    Ok(())
}

/// Makes the room that the case and the run say.
fn make_rooms(
    alloc: Global,
    setup: &Setup,
    trial: Trial,
    ports: &mut MemPorts,
) -> Result<(), AllocError> {
    make_usual_rooms(alloc, ports)?;
    for room in &setup.rooms {
        make_room(alloc, ports, room.port, room.bytes)?;
    }
    match trial.change {
        Change::Room(port, room) => make_room(alloc, ports, port, room),
        _ => Ok(()),
    }
}

/// Puts bytes on the port, with another byte at the place.
fn put_with(
    alloc: Global,
    held: &Held,
    at: usize,
    byte: u8,
    ports: &mut MemPorts,
) -> Result<(), AllocError> {
    let bytes = held.bytes.as_slice();
    ports.put(alloc, held.port, bytes.get(..at).unwrap_or(bytes))?;
    ports.put(alloc, held.port, &[byte])?;
    let rest = bytes.get(at.saturating_add(1)..).unwrap_or(&[]);
    ports.put(alloc, held.port, rest)
}

/// Puts on the port what it holds.
fn put(alloc: Global, trial: Trial, held: &Held, ports: &mut MemPorts) -> Result<(), AllocError> {
    match trial.change {
        Change::Byte(of, at, byte) if of == held.port => put_with(alloc, held, at, byte, ports),
        _ => ports.put(alloc, held.port, trial.front_of(held.port, &held.bytes)),
    }
}

/// Puts on the ports what the case and the run say.
fn fill(
    alloc: Global,
    setup: &Setup,
    trial: Trial,
    ports: &mut MemPorts,
) -> Result<(), AllocError> {
    make_rooms(alloc, setup, trial, ports)?;
    for held in &setup.held {
        put(alloc, trial, held, ports)?;
    }
    for guest in &setup.guests {
        let bytes = trial.front_of(Port::Guest, &guest.bytes);
        ports.guest(alloc, bytes, guest.room)?;
    }
    Ok(())
}

/// Ports for a run in which the calls with these numbers fail.
fn new_ports(alloc: Global, setup: &Setup, trial: Trial, fails: &[u64]) -> Result<MemPorts, Fault> {
    if fails.contains(&u64::MAX) || trial.piece == 0 {
        return Err(Fault::Form("a call moves a byte at least"));
    }
    Ok(MemPorts::new(alloc, trial.piece, fails, setup.names, setup.name_bytes)?)
}

/// The run over these ports. What it did is looked at, and nothing of what it promises is needed.
fn run_over<R: Threads + Sync>(
    rt: &R,
    alloc: Global,
    words: &[String],
    ports: &mut WatchedPorts,
) -> Status {
    run(rt, alloc, words, ports)
}

/// Runs a case, where the calls with these numbers fail.
fn run_failing<R: Threads + Sync>(
    rt: &R,
    alloc: Global,
    setup: &Setup,
    trial: Trial,
    fails: &[u64],
) -> Result<Ran, Fault> {
    let mut inner = new_ports(alloc, setup, trial, fails)?;
    fill(alloc, setup, trial, &mut inner)?;
    let mut ports = WatchedPorts::new(alloc, inner)?;
    let status = run_over(rt, alloc, &setup.words, &mut ports);
    Ok(Ran { status, ports })
}

/// The number over all calls of a call that fails, where those with these numbers fail before it.
fn number_of<R: Threads + Sync>(
    rt: &R,
    alloc: Global,
    setup: &Setup,
    trial: Trial,
    failing: Failing,
    fails: &[u64],
) -> Result<u64, Fault> {
    match failing {
        Failing::Call(number) => Ok(number),
        Failing::On(port, nth) => {
            let ran = run_failing(rt, alloc, setup, trial, fails)?;
            match ran.ports.log.number_of(port, nth) {
                Some(number) => Ok(number),
                None => Err(Fault::Form("the run has no such call")),
            }
        }
    }
}

/// Finds the numbers over all calls of those that fail.
fn find_fails<R: Threads + Sync>(
    rt: &R,
    alloc: Global,
    setup: &Setup,
    trial: Trial,
    fails: &mut Vec<u64>,
) -> Result<(), Fault> {
    for failing in &setup.fails {
        let number = number_of(rt, alloc, setup, trial, *failing, fails)?;
        fails.push(number)?;
    }
    if let Change::Call(number) = trial.change {
        fails.push(number)?;
    }
    Ok(())
}

/// Runs a case.
pub fn run_case<R: Threads + Sync>(
    rt: &R,
    alloc: Global,
    setup: &Setup,
    trial: Trial,
) -> Result<Ran, Fault> {
    let mut fails = Vec::new(alloc);
    find_fails(rt, alloc, setup, trial, &mut fails)?;
    run_failing(rt, alloc, setup, trial, &fails)
}

/// Makes a case the replay of a recorded session.
fn set_replay(alloc: Global, session: &[u8], setup: &mut Setup) -> Result<(), Fault> {
    append_words(alloc, "replay F", &mut setup.words)?;
    let bytes = Vec::from_slice(alloc, session)?;
    setup.held.push(Held {
        port: Port::Input,
        bytes,
    })?;
    Ok(())
}

/// Replays a recorded session.
pub fn replay<R: Threads + Sync>(
    rt: &R,
    alloc: Global,
    session: &[u8],
    piece: usize,
) -> Result<Ran, Fault> {
    let mut setup = Setup::new(alloc);
    set_replay(alloc, session, &mut setup)?;
    let change = Change::Unchanged;
    run_case(rt, alloc, &setup, Trial { piece, change })
}
