//! The program `pir`. It makes the ports of the system and reads the words; `commands::ending_of_run` does the rest, and says
//! how the program ends. Where the variable `PIR_EXPLAIN` is `1`, what else is known of why is said behind the line of the
//! status.
#![tactic(auto)]

mod explanation;

use commands::{Ending, Status, ending_of, ending_of_run};
use explanation::explanation;
use link_notes::{NotedPorts, Notes};
use os_ports::{OsPorts, System};
use std::env;
use std::io::{self, ErrorKind};
use std::process::ExitCode;
use std::rt::Env;
use std::thread::Threads;

/// The words after the program's name. Words that are no UTF-8 have no form.
fn words_of<R: Env + AllocGlobal>(rt: &R) -> Result<Vec<String>, Status> {
    let args = match env::args(rt) {
        Ok(args) => args,
        Err(error) if error.kind() == ErrorKind::OutOfMemory => return Err(Status::Memory),
        Err(_) => return Err(Status::Usage),
    };
    let mut words = Vec::new(rt.alloc());
    for word in args.skip(1) {
        words.push(word).or(Err(Status::Memory))?;
    }
    Ok(words)
}

/// Whether it is asked why a run ended as it did.
fn is_asked<R: Env>(rt: &R) -> bool {
    let mut value = [0; 1];
    matches!(rt.var("PIR_EXPLAIN", &mut value), Ok(1)) && value == *b"1"
}

/// What the program ends with, and the lines that explain it, which are none where that isn't asked for.
#[derive(Drop)]
struct Ended {
    ending: Ending,
    why: String,
}

/// The lines that explain the status of a run of these words, by what is noted of its calls. Where there is no memory for
/// them, they are left out.
fn lines_for<R: AllocGlobal>(
    rt: &R,
    words: Option<&[String]>,
    status: &Status,
    notes: &Option<Notes>,
) -> String {
    let why = match notes {
        Some(notes) => explanation(rt.alloc(), words, status, notes),
        None => Ok(String::new(rt.alloc())),
    };
    why.unwrap_or(String::new(rt.alloc()))
}

/// How the program ends with this status where no command was run.
fn ended_before<R: AllocGlobal>(rt: &R, status: &Status, notes: &Option<Notes>) -> Ended {
    Ended {
        ending: ending_of(status),
        why: lines_for(rt, None, status, notes),
    }
}

/// Runs the program's words over these ports.
fn run_words<R, S>(rt: &R, ports: &mut NotedPorts<OsPorts<S>>) -> Ended
where
    R: Env + AllocGlobal + Threads + Sync,
    S: System,
{
    match words_of(rt) {
        Ok(words) => {
            let (status, ending) = ending_of_run(rt, rt.alloc(), &words, ports);
            let why = lines_for(rt, Some(&words), &status, &ports.notes);
            Ended { ending, why }
        }
        Err(status) => ended_before(rt, &status, &ports.notes),
    }
}

/// Runs the program's words over the system's ports, and then ends the children that were started and closes all ports.
/// They are closed there, and not in `main`, whose proof would go through each of their parts at each way out.
fn run_over<R, S>(rt: &R, ports: OsPorts<S>) -> Ended
where
    R: Env + AllocGlobal + Threads + Sync,
    S: System,
{
    let notes = if is_asked(rt) {
        Some(Notes::new(rt.alloc()))
    } else {
        None
    };
    let mut ports = NotedPorts { ports, notes };
    let ended = run_words(rt, &mut ports);
    ports.ports.end();
    ended
}

/// How the program ends where there are no ports: for want of memory, or since a standard stream is closed and its
/// number can't be kept from what would be opened. That counts as a fault of standard output.
fn status_without_ports(error: &io::Error) -> Status {
    if error.kind() == ErrorKind::OutOfMemory {
        Status::Memory
    } else {
        Status::WriteFault
    }
}

fn main(rt: HostRuntime) -> ExitCode {
    // The ports come first: nothing else is to be given the number of a standard stream.
    let ended = match OsPorts::new(&rt) {
        Ok(ports) => run_over(&rt, ports),
        Err(error) => ended_before(&rt, &status_without_ports(&error), &None),
    };
    let Ended { ending, why } = ended;
    let Ending { code, line } = ending;
    if !line.is_empty() {
        let _ = eprintln!(rt; "{line}");
    }
    let why = why.as_str();
    if !why.is_empty() {
        let _ = eprint!(rt; "{why}");
    }
    code
}
