//! Ports and statuses, as a line of a case spells them.

use crate::fault::Fault;
use crate::lines::{number, small_number, split_word};
use pir_tool::{Bad, Status};
use port_trait::Port;

/// The port at the head of a text, and what follows it.
pub fn read_port(text: &str) -> Result<(Port, &str), Fault> {
    let (name, rest) = split_word(text);
    match name {
        "input" => Ok((Port::Input, rest)),
        "output" => Ok((Port::Output, rest)),
        "database" => Ok((Port::Database, rest)),
        "coins" => Ok((Port::Coins, rest)),
        "record" => Ok((Port::Record, rest)),
        "door" => Ok((Port::Door, rest)),
        "guest" => Ok((Port::Guest, rest)),
        _ => read_numbered_port(name, rest),
    }
}

/// The port of this name that has the number at the head of the text, and what follows that.
fn read_numbered_port<'a>(name: &str, text: &'a str) -> Result<(Port, &'a str), Fault> {
    let (word, rest) = split_word(text);
    match name {
        "link" => Ok((Port::Link(small_number(word)?), rest)),
        "child" => Ok((Port::Child(small_number(word)?), rest)),
        "share" => Ok((Port::Share(small_number(word)?), rest)),
        _ => Err(Fault::Form("no port is called so")),
    }
}

/// The status that a text spells. The word `front` stands for the length of the front that the run has.
pub fn read_status(text: &str, front: usize) -> Result<Status, Fault> {
    let (name, rest) = split_word(text);
    match name {
        "one" => Ok(Status::One),
        "usage" => Ok(Status::Usage),
        "no-block" => Ok(Status::NoBlock),
        "several" => Ok(Status::Several),
        "absent" => Ok(Status::Absent),
        "read-fault" => Ok(Status::ReadFault),
        "write-fault" => Ok(Status::WriteFault),
        "door-fault" => Ok(Status::DoorFault),
        "child-fault" => Ok(Status::ChildFault),
        "memory" => Ok(Status::Memory),
        "bad-input" => Ok(Status::BadInput(read_bad(rest, front)?)),
        _ => read_verdict(name, rest),
    }
}

/// The number below 2^32 that a word is.
fn wide_number(word: &str) -> Result<u32, Fault> {
    match word.parse::<u32>() {
        Ok(number) => Ok(number),
        Err(_) => Err(Fault::Form("this is no number below 2^32")),
    }
}

/// The status of this name with the numbers of the text.
fn read_verdict(name: &str, text: &str) -> Result<Status, Fault> {
    let (first, rest) = split_word(text);
    let (second, third) = split_word(rest);
    match name {
        "too-few" if third.is_empty() => Ok(Status::TooFew {
            k: wide_number(first)?,
            h: wide_number(second)?,
        }),
        "too-weak" => Ok(Status::TooWeak {
            k: wide_number(first)?,
            t: wide_number(second)?,
            h: wide_number(third)?,
        }),
        "too-costly" if second.is_empty() => Ok(Status::TooCostly {
            cost: number(first)? as u64,
        }),
        _ => Err(Fault::Form("no status is called so")),
    }
}

/// What is wrong with the input, as a text spells it.
fn read_bad(text: &str, front: usize) -> Result<Bad, Fault> {
    let (name, word) = split_word(text);
    if name == "empty-file" && word.is_empty() {
        return Ok(Bad::EmptyFile);
    }
    let value = if word == "front" {
        front
    } else {
        number(word)?
    } as u64;
    match name {
        "session" => Ok(Bad::Session { place: value }),
        "too-big" => Ok(Bad::TooBig { limit: value }),
        "coins-ended" => Ok(Bad::CoinsEnded { taken: value }),
        _ => Err(Fault::Form("no status is called so")),
    }
}
