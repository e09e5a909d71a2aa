//! The runs that a case stands for.

use crate::comparing::{compare, compare_place, compare_replay};
use crate::findings::Findings;
use crate::reach::Reach;
use crate::running::{Change, Ran, Trial, replay, run_case};
use crate::watched::Call;
use case_files::case::{Case, Each, Swap};
use case_files::fault::Fault;
use pir_ports::Port;
use std::alloc::Global;
use std::thread::Threads;

/// The bytes of a piece where a case doesn't say.
const ALL_AT_ONCE: usize = 1_000_000;

/// Compares a run with the replay of what it recorded, where the case says so.
fn try_replay<R: Threads + Sync>(
    rt: &R,
    alloc: Global,
    case: &Case,
    ran: &Ran,
    found: &mut Findings,
) -> Result<(), Fault> {
    if case.expected.replays {
        let session = ran.ports.ports.seen(Port::Record);
        let replayed = replay(rt, alloc, session, found.trial.piece)?;
        compare_replay(alloc, ran, &replayed, found)?;
    }
    Ok(())
}

/// Runs a case once, with a change, and compares.
fn try_once<R: Threads + Sync>(
    rt: &R,
    alloc: Global,
    case: &Case,
    change: Change,
    reach: Reach<'_>,
    found: &mut Findings,
) -> Result<(), Fault> {
    found.trial.change = change;
    let mut ran = run_case(rt, alloc, &case.setup, found.trial)?;
    try_replay(rt, alloc, case, &ran, found)?;
    compare(alloc, case, reach, &mut ran, found)
}

/// Runs a case with a byte in place of another, and compares the place at which a session is refused.
fn try_swap<R: Threads + Sync>(
    rt: &R,
    alloc: Global,
    case: &Case,
    port: Port,
    swap: Swap,
    found: &mut Findings,
) -> Result<(), Fault> {
    found.trial.change = Change::Byte(port, swap.at, swap.byte);
    let ran = run_case(rt, alloc, &case.setup, found.trial)?;
    Ok(compare_place(alloc, swap.place, &ran, found)?)
}

/// Runs a case once for each of these calls that is on the port, which fails. A link or a guest alone ends with it; else the
/// run does.
fn try_calls<R: Threads + Sync>(
    rt: &R,
    alloc: Global,
    case: &Case,
    port: Port,
    calls: &[Call],
    found: &mut Findings,
) -> Result<(), Fault> {
    for (i, call) in calls.iter().enumerate() {
        if call.port == port {
            let before = calls.get(..i).unwrap_or(calls);
            let reach = match port {
                Port::Link(_) | Port::Guest => Reach::Without(port, before),
                _ => Reach::Until(before),
            };
            let change = Change::Call((i as u64).saturating_add(1));
            try_once(rt, alloc, case, change, reach, found)?;
        }
    }
    Ok(())
}

/// Runs a case once for each call on the port, which fails.
fn try_each_call<R: Threads + Sync>(
    rt: &R,
    alloc: Global,
    case: &Case,
    port: Port,
    found: &mut Findings,
) -> Result<(), Fault> {
    found.trial.change = Change::Unchanged;
    let whole = run_case(rt, alloc, &case.setup, found.trial)?;
    try_calls(rt, alloc, case, port, whole.ports.log.calls(), found)
}

/// How many bytes the port is expected to take.
fn taken_by(case: &Case, port: Port) -> usize {
    if port == Port::Output {
        return case.expected.output.len();
    }
    for took in &case.expected.took {
        if took.port == port {
            return took.bytes.len();
        }
    }
    0
}

/// Runs a case as often as it stands for, with pieces of one size.
fn try_pieces<R: Threads + Sync>(
    rt: &R,
    alloc: Global,
    case: &Case,
    found: &mut Findings,
) -> Result<(), Fault> {
    match &case.each {
        Each::Once => try_once(rt, alloc, case, Change::Unchanged, Reach::Whole, found)?,
        Each::Front(port, from, to) => {
            for len in *from..*to {
                let change = Change::Front(*port, len);
                try_once(rt, alloc, case, change, Reach::Whole, found)?;
            }
        }
        Each::Room(port) => {
            for room in 0..taken_by(case, *port) {
                let change = Change::Room(*port, room);
                try_once(rt, alloc, case, change, Reach::Room(*port, room), found)?;
            }
        }
        Each::Byte(port, swaps) => {
            for swap in swaps {
                try_swap(rt, alloc, case, *port, *swap, found)?;
            }
        }
        Each::Call(port) => try_each_call(rt, alloc, case, *port, found)?,
    }
    Ok(())
}

/// Runs a case with pieces of each size that it says.
fn try_all_pieces<R: Threads + Sync>(
    rt: &R,
    alloc: Global,
    case: &Case,
    found: &mut Findings,
) -> Result<(), Fault> {
    if case.setup.pieces.is_empty() {
        found.trial.piece = ALL_AT_ONCE;
        return try_pieces(rt, alloc, case, found);
    }
    for piece in &case.setup.pieces {
        found.trial.piece = *piece;
        try_pieces(rt, alloc, case, found)?;
    }
    Ok(())
}

/// Runs a case as often as it stands for, and says what was otherwise than expected.
pub fn try_case<R: Threads + Sync>(rt: &R, alloc: Global, case: &Case) -> Result<Findings, Fault> {
    let mut found = Findings {
        trial: Trial {
            piece: ALL_AT_ONCE,
            change: Change::Unchanged,
        },
        list: Vec::new(alloc),
    };
    try_all_pieces(rt, alloc, case, &mut found)?;
    if case.expected.twice {
        try_all_pieces(rt, alloc, case, &mut found)?;
    }
    Ok(found)
}
