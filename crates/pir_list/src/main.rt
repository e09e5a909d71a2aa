//! The program `pir_list`. It makes the ports of the system and reads the words; `list_tool::run_list` does the rest.
//! Help and the version go to standard output, and what else is said to standard error, in a sentence. A person who sits at
//! standard error sees how far the run is.
#![tactic(auto)]

use list_progress::ProgressPorts;
use list_tool::{ListEnd, exit_code, run_list, sentence};
use list_words::WordsFault;
use os_ports::{OsPorts, System};
use std::alloc::AllocError;
use std::env;
use std::io::{self, Eprint, ErrorKind, IsTerminal, Print};
use std::process::ExitCode;
use std::rt::Env;
use std::time::Clock;

/// The exit code where standard streams can't be had, or help can't be written.
const WRITE_FAULT: u8 = 9;
/// The exit code for want of memory.
const NO_MEMORY: u8 = 12;

/// The words after the program's name.
fn words_of<R: Env + AllocGlobal>(rt: &R) -> Result<Vec<String>, WordsFault> {
    let args = match env::args(rt) {
        Ok(args) => args,
        Err(error) if error.kind() == ErrorKind::OutOfMemory => return Err(WordsFault::Memory),
        Err(_) => {
            let said = String::from_str(rt.alloc(), "error: one of the words is no UTF-8");
            return Err(WordsFault::Refused(said.or(Err(WordsFault::Memory))?));
        }
    };
    let mut words = Vec::new(rt.alloc());
    for word in args.skip(1) {
        words.push(word).or(Err(WordsFault::Memory))?;
    }
    Ok(words)
}

/// Which of the standard streams are terminals, where a person sits.
#[derive(Clone, Copy)]
struct Terminals {
    input: bool,
    error: bool,
}

/// Whether each failed call is explained on standard error: then the line of how far a run is would stand among those.
fn explains<R: Env>(rt: &R) -> bool {
    let mut value = [0; 1];
    matches!(rt.var("PIR_EXPLAIN", &mut value), Ok(1)) && value == *b"1"
}

/// The ports of a run: those of the system, which show how far it is where a person sees that.
fn ports_of_run<R, S>(
    rt: R,
    ports: OsPorts<S>,
    terminals: Terminals,
) -> ProgressPorts<OsPorts<S>, R>
where
    R: Env + AllocGlobal + Clock + Eprint + Drop,
    S: System,
{
    if terminals.error && !explains(&rt) {
        ProgressPorts::with_line(ports, rt, terminals.input)
    } else {
        ProgressPorts::without_line(ports)
    }
}

/// Runs the program's words over the system's ports, and closes them.
/// They are closed there, and not in `main`, whose proof would go through each of their parts at each way out.
fn run_over<R, S>(rt: &R, ports: OsPorts<S>, terminals: Terminals) -> ListEnd
where
    R: Env + AllocGlobal + Clock + Eprint,
    S: System,
{
    let mut ports = ports_of_run(rt, ports, terminals);
    let end = match words_of(rt) {
        Ok(words) => run_list(rt.alloc(), &words, &mut ports),
        Err(fault) => ListEnd::Words(fault),
    };
    ports.end_line();
    ports.ports.end();
    end
}

/// The exit code where there are no ports: for want of memory, or since a standard stream is closed and its number can't be
/// kept from what would be opened. That counts as a fault of standard output.
fn code_without_ports(error: &io::Error) -> u8 {
    if error.kind() == ErrorKind::OutOfMemory {
        NO_MEMORY
    } else {
        WRITE_FAULT
    }
}

/// Prints help or the version, and gives the exit code.
fn print_text<R: Print + Eprint>(rt: &R, text: &str, code: u8) -> u8 {
    match print!(rt; "{text}") {
        Ok(()) => code,
        Err(_) => {
            let _ = eprintln!(rt; "pir_list: a call on the output failed");
            WRITE_FAULT
        }
    }
}

/// Says to a person what the run came to, and gives the exit code.
fn tell<R: Print + Eprint + AllocGlobal>(rt: &R, end: &ListEnd) -> u8 {
    if let ListEnd::Help(text) | ListEnd::Version(text) = end {
        return print_text(rt, text.as_str(), exit_code(end));
    }
    match sentence(rt.alloc(), end) {
        Ok(said) => {
            let said = said.as_str();
            if !said.is_empty() {
                let _ = eprintln!(rt; "pir_list: {said}");
            }
        }
        Err(AllocError) => {
            let _ = eprintln!(rt; "pir_list: no memory");
        }
    }
    exit_code(end)
}

fn main(rt: HostRuntime) -> ExitCode {
    // The ports come first: nothing else is to be given the number of a standard stream.
    match OsPorts::new(&rt) {
        Ok(ports) => {
            let terminals = Terminals {
                input: rt.stdin().is_terminal(),
                error: rt.stderr().is_terminal(),
            };
            let end = run_over(&rt, ports, terminals);
            ExitCode::from(tell(&rt, &end))
        }
        Err(error) => {
            let _ = eprintln!(rt; "pir_list: {error}");
            ExitCode::from(code_without_ports(&error))
        }
    }
}
