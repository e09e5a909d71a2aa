//! The program `pir_show`: shows a recorded session in words.
//!
//! ```text
//! pir_show FILE        (`-` is standard input)
//! ```
//!
//! It prints the numbers of the session but its own, and a line for each server: that it was silent, that its answer is
//! usable, that it refused the query and why, or in what its answer isn't one to the query. No coin, no byte of a query
//! and no byte of an answer stands there.
#![tactic(auto)]

mod fault;
mod reading;
mod text;
mod words;

use fault::Fault;
use reading::read_session;
use std::io::{ErrorKind, Input, Print};
use std::process::ExitCode;
use std::rt::{Env, Files};
use std::{env, fs};
use text::session_text;
use wire_frames::Session;
use words::file_of;

/// The words after the program's name. Words that are no UTF-8 have no form.
fn words_of<R: Env + AllocGlobal>(rt: &R) -> Result<Vec<String>, Fault> {
    let args = match env::args(rt) {
        Ok(args) => args,
        Err(error) if error.kind() == ErrorKind::OutOfMemory => return Err(Fault::Memory),
        Err(_) => return Err(Fault::Usage),
    };
    let mut words = Vec::new(rt.alloc());
    for word in args.skip(1) {
        words.push(word).or(Err(Fault::Memory))?;
    }
    Ok(words)
}

/// The session in the file of this name, `-` for standard input.
fn read_file<R: Files + Input + AllocGlobal>(rt: &R, name: &str) -> Result<Session, Fault> {
    if name == "-" {
        return read_session(rt.alloc(), &mut rt.reader());
    }
    match fs::open(rt, name) {
        Ok(mut file) => read_session(rt.alloc(), &mut file),
        Err(_) => Err(Fault::ReadFault),
    }
}

/// Shows the session that the words name.
fn show<R: Env + Files + Input + Print + AllocGlobal>(rt: &R) -> Result<(), Fault> {
    let words = words_of(rt)?;
    let Some(name) = file_of(&words) else {
        return Err(Fault::Usage);
    };
    let session = read_file(rt, name)?;
    let text = session_text(rt.alloc(), &session)?;
    print!(rt; "{text}").or(Err(Fault::WriteFault))
}

fn main(rt: HostRuntime) -> ExitCode {
    match show(&rt) {
        Ok(()) => ExitCode::SUCCESS,
        Err(fault) => {
            let _ = eprintln!(rt; "pir_show: {fault}");
            ExitCode::from(fault.code())
        }
    }
}
