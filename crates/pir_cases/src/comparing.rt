//! A run beside what is expected of it.

use crate::findings::{Findings, What};
use crate::reach::Reach;
use crate::running::{Change, Ran};
use case_files::case::{Case, Ending, Expected, Took};
use case_files::fault::Fault;
use case_files::naming::read_status;
use pir_ports::{Failed, MemPorts, Port, Ports};
use pir_tool::{Bad, Status};
use std::alloc::{AllocError, Global};

/// More calls than it takes to read what is left on a port.
const MANY: usize = 1000;

/// Whether these are the words of a client, which asks all servers before it takes an answer; a front asks its shards one by one.
fn are_a_clients(words: &[String]) -> bool {
    match words.first() {
        Some(word) => matches!(word.as_str(), "fetch" | "lookup" | "demo"),
        None => false,
    }
}

/// Compares a run that comes so far with what the case expects.
pub fn compare(
    alloc: Global,
    case: &Case,
    reach: Reach<'_>,
    ran: &mut Ran,
    found: &mut Findings,
) -> Result<(), Fault> {
    let expected = &case.expected;
    let status = read_status(expected.status.as_str(), found.trial.front())?;
    found.status(alloc, What::Status, ran.status, status)?;
    found.calls(alloc, ran.ports.log.count(), expected.calls)?;
    if are_a_clients(&case.setup.words) {
        found.order(alloc, ran.ports.log.asks_before_it_takes())?;
    }
    let ports = &mut ran.ports.ports;
    compare_output(alloc, expected, reach, ports, found)?;
    for took in &expected.took {
        compare_took(alloc, case, took, reach, ports, found)?;
    }
    compare_opened(alloc, expected, reach, ports, found)?;
    compare_given(alloc, expected, reach, ports, found)?;
    compare_started(alloc, expected, reach, ports, found)?;
    if let Reach::Whole = reach {
        compare_left(alloc, expected, ports, found)?;
    }
    Ok(())
}

/// Compares what Output took.
fn compare_output(
    alloc: Global,
    expected: &Expected,
    reach: Reach<'_>,
    ports: &MemPorts,
    found: &mut Findings,
) -> Result<(), AllocError> {
    let all = expected.output.as_slice();
    let len = reach.bytes(Port::Output, all.len());
    let wanted = all.get(..len).unwrap_or(all);
    found.bytes(
        alloc,
        What::Took(Port::Output),
        ports.seen(Port::Output),
        wanted,
    )
}

/// Compares what another port took.
fn compare_took(
    alloc: Global,
    case: &Case,
    took: &Took,
    reach: Reach<'_>,
    ports: &MemPorts,
    found: &mut Findings,
) -> Result<(), Fault> {
    let all = took.bytes.as_slice();
    let seen = ports.seen(took.port);
    let what = What::Took(took.port);
    match took.ending {
        Ending::Here => {
            let len = reach.bytes(took.port, all.len());
            found.bytes(alloc, what, seen, all.get(..len).unwrap_or(all))?;
        }
        Ending::Anyhow => {
            found.bytes(alloc, what, seen.get(..all.len()).unwrap_or(seen), all)?;
        }
        Ending::Front => {
            let mut wanted = Vec::from_slice(alloc, all)?;
            append_front(case, found.trial.change, &mut wanted)?;
            found.bytes(alloc, what, seen, &wanted)?;
        }
    }
    Ok(())
}

/// Appends the length of the front that a run has, in four bytes, and the front.
fn append_front(case: &Case, change: Change, bytes: &mut Vec<u8>) -> Result<(), Fault> {
    let Change::Front(port, len) = change else {
        return Err(Fault::Form("`front` stands in a case of fronts"));
    };
    let held = case.held(port);
    let front = held.get(..len).unwrap_or(held);
    bytes.extend_from_slice(&u32::try_from(front.len()).unwrap_or(0).to_be_bytes())?;
    bytes.extend_from_slice(front)?;
    Ok(())
}

/// Compares the names that ports were opened with.
fn compare_opened(
    alloc: Global,
    expected: &Expected,
    reach: Reach<'_>,
    ports: &MemPorts,
    found: &mut Findings,
) -> Result<(), AllocError> {
    for opened in &expected.opened {
        let what = What::OpenedWith(opened.port);
        let count = reach.names(opened.port, opened.names.len());
        for (i, name) in opened.names.iter().take(count).enumerate() {
            let seen = ports.opened_as(opened.port, i);
            found.some(alloc, what, seen, name.as_bytes())?;
        }
        found.none(alloc, what, ports.opened_as(opened.port, count))?;
    }
    Ok(())
}

/// Compares what each guest was given.
fn compare_given(
    alloc: Global,
    expected: &Expected,
    reach: Reach<'_>,
    ports: &MemPorts,
    found: &mut Findings,
) -> Result<(), AllocError> {
    let guests = reach.guests(expected.given.len());
    for (i, bytes) in expected.given.iter().take(guests).enumerate() {
        let len = reach.guest_bytes(i, bytes.len());
        let wanted = bytes.get(..len).unwrap_or(bytes);
        found.some(alloc, What::GuestWasGiven(i), ports.answered_to(i), wanted)?;
    }
    found.none(
        alloc,
        What::GuestWasGiven(guests),
        ports.answered_to(guests),
    )
}

/// Compares the words that a child was started with.
fn compare_start(
    alloc: Global,
    i: usize,
    words: &[String],
    ports: &MemPorts,
    found: &mut Findings,
) -> Result<(), AllocError> {
    let what = What::ChildWasStartedWith(i);
    for (j, word) in words.iter().enumerate() {
        found.some(alloc, what, ports.started_word(i, j), word.as_bytes())?;
    }
    found.none(alloc, what, ports.started_word(i, words.len()))
}

/// Compares the children that were started.
fn compare_started(
    alloc: Global,
    expected: &Expected,
    reach: Reach<'_>,
    ports: &MemPorts,
    found: &mut Findings,
) -> Result<(), AllocError> {
    let starts = reach.starts(expected.started.len());
    for (i, words) in expected.started.iter().take(starts).enumerate() {
        compare_start(alloc, i, words, ports, found)?;
    }
    let more = ports.started_word(starts, 0);
    found.none(alloc, What::ChildWasStartedWith(starts), more)
}

/// Appends what the port still holds.
fn append_left(ports: &mut MemPorts, port: Port, bytes: &mut Vec<u8>) -> Result<(), AllocError> {
    let mut piece = [0; 1000];
    for _ in 0..MANY {
        match ports.take(port, &mut piece) {
            Ok(0) => break,
            Ok(n) => bytes.extend_from_slice(piece.get(..n).unwrap_or(&[]))?,
            Err(Failed) => {}
        }
    }
    Ok(())
}

/// Compares what ports still hold.
fn compare_left(
    alloc: Global,
    expected: &Expected,
    ports: &mut MemPorts,
    found: &mut Findings,
) -> Result<(), AllocError> {
    for left in &expected.left {
        let mut seen = Vec::new(alloc);
        append_left(ports, left.port, &mut seen)?;
        found.bytes(alloc, What::StillHolds(left.port), &seen, &left.bytes)?;
    }
    Ok(())
}

/// Compares the place at which a session is refused, where it is.
pub fn compare_place(
    alloc: Global,
    place: Option<u64>,
    ran: &Ran,
    found: &mut Findings,
) -> Result<(), AllocError> {
    let Some(place) = place else {
        return found.refusal(alloc, ran.status);
    };
    let wanted = Status::BadInput(Bad::Session { place });
    found.status(alloc, What::Status, ran.status, wanted)?;
    let seen = ran.ports.ports.seen(Port::Output);
    found.bytes(alloc, What::Took(Port::Output), seen, &[])
}

/// Compares a run with the replay of what it recorded.
pub fn compare_replay(
    alloc: Global,
    ran: &Ran,
    replayed: &Ran,
    found: &mut Findings,
) -> Result<(), AllocError> {
    found.status(alloc, What::StatusOfTheReplay, replayed.status, ran.status)?;
    let seen = replayed.ports.ports.seen(Port::Output);
    let wanted = ran.ports.ports.seen(Port::Output);
    found.bytes(alloc, What::ReplayTook(Port::Output), seen, wanted)
}
