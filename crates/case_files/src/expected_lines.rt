//! The lines that say what is expected of a case, and how many runs it stands for.

use crate::bytes::{Names, read_bytes};
use crate::case::{Case, Each, Ending, Expected, Opened, Swap, Took};
use crate::fault::Fault;
use crate::lines::{number, split_word};
use crate::naming::{read_port, read_status};
use crate::setup_lines::{append_held, words_of};
use std::alloc::Global;

/// Reads a line that says what is expected of a case, or else how many runs it stands for.
pub fn read_expected(
    alloc: Global,
    names: &Names,
    case: &mut Case,
    word: &str,
    rest: &str,
) -> Result<(), Fault> {
    let expected = &mut case.expected;
    match word {
        "status" => set_status(alloc, rest, expected),
        "output" => set_output(alloc, names, rest, expected),
        "took" => append_took(alloc, names, rest, &mut expected.took),
        "opened" => append_opened(alloc, rest, &mut expected.opened),
        "given" => append_given(alloc, names, rest, &mut expected.given),
        "started" => append_started(alloc, rest, &mut expected.started),
        "left" => append_held(alloc, names, rest, &mut expected.left),
        "calls" => set_calls(rest, expected),
        _ => read_flag(alloc, case, word, rest),
    }
}

/// Reads a line that says something of the whole case.
fn read_flag(alloc: Global, case: &mut Case, word: &str, rest: &str) -> Result<(), Fault> {
    match word {
        "untouched" => case.expected.calls = Some(0),
        "replays" => case.expected.replays = true,
        "twice" => case.expected.twice = true,
        "each" => case.each = read_each(alloc, rest)?,
        "at" => return read_swaps(&mut case.each, rest),
        _ => return Err(Fault::Form("no line begins so")),
    }
    Ok(())
}

/// Sets the status, as a text that spells one.
fn set_status(alloc: Global, text: &str, expected: &mut Expected) -> Result<(), Fault> {
    read_status(text, 0)?;
    expected.status = String::from_str(alloc, text)?;
    Ok(())
}

/// Sets what Output takes.
fn set_output(
    alloc: Global,
    names: &Names,
    text: &str,
    expected: &mut Expected,
) -> Result<(), Fault> {
    expected.output = read_bytes(alloc, names, text)?;
    Ok(())
}

/// Sets the number of calls.
fn set_calls(text: &str, expected: &mut Expected) -> Result<(), Fault> {
    expected.calls = Some(number(text)? as u64);
    Ok(())
}

/// A text of bytes, and how they end.
fn split_ending(text: &str) -> (&str, Ending) {
    match (text.strip_suffix(".."), text.strip_suffix("front")) {
        (Some(text), _) => (text, Ending::Anyhow),
        (None, Some(text)) => (text, Ending::Front),
        (None, None) => (text, Ending::Here),
    }
}

/// Appends a port, the bytes that it takes, and how they end.
fn append_took(
    alloc: Global,
    names: &Names,
    text: &str,
    took: &mut Vec<Took>,
) -> Result<(), Fault> {
    let (port, rest) = read_port(text)?;
    let (text, ending) = split_ending(rest);
    let bytes = read_bytes(alloc, names, text)?;
    took.push(Took {
        port,
        bytes,
        ending,
    })?;
    Ok(())
}

/// Appends a port, and the names that it is opened with.
fn append_opened(alloc: Global, text: &str, opened: &mut Vec<Opened>) -> Result<(), Fault> {
    let (port, rest) = read_port(text)?;
    let names = words_of(alloc, rest)?;
    opened.push(Opened { port, names })?;
    Ok(())
}

/// Appends what a guest is given.
fn append_given(
    alloc: Global,
    names: &Names,
    text: &str,
    given: &mut Vec<Vec<u8>>,
) -> Result<(), Fault> {
    given.push(read_bytes(alloc, names, text)?)?;
    Ok(())
}

/// Appends the words that a child is started with.
fn append_started(alloc: Global, text: &str, started: &mut Vec<Vec<String>>) -> Result<(), Fault> {
    started.push(words_of(alloc, text)?)?;
    Ok(())
}

/// The runs that a case stands for, as `front of PORT A..B`, `byte of PORT`, `call on PORT fails` or `room of PORT`.
fn read_each(alloc: Global, text: &str) -> Result<Each, Fault> {
    let (kind, rest) = split_word(text);
    let (of, rest) = split_word(rest);
    let (port, rest) = read_port(rest)?;
    match (kind, of, rest) {
        ("front", "of", _) => {
            let (from, to) = rest.split_once("..").unwrap_or(("", ""));
            Ok(Each::Front(port, number(from)?, number(to)?))
        }
        ("byte", "of", "") => Ok(Each::Byte(port, Vec::new(alloc))),
        ("call", "on", "fails") => Ok(Each::Call(port)),
        ("room", "of", "") => Ok(Each::Room(port)),
        _ => Err(Fault::Form("no line begins so")),
    }
}

/// A byte that stands at this place, as `01:34`, where a session with it is refused at place 34, or as `01:-`.
fn read_swap(at: usize, word: &str) -> Result<Swap, Fault> {
    let (byte, place) = word.split_once(':').unwrap_or((word, ""));
    let Ok(byte) = u8::from_str_radix(byte, 16) else {
        return Err(Fault::Form("this is no byte"));
    };
    let place = if place == "-" {
        None
    } else {
        Some(number(place)? as u64)
    };
    Ok(Swap { at, byte, place })
}

/// The bytes that stand in place of one, as `28 00:28 01:-`.
fn read_swaps(each: &mut Each, text: &str) -> Result<(), Fault> {
    let Each::Byte(_, swaps) = each else {
        return Err(Fault::Form("`each byte of` stands before"));
    };
    let (at, rest) = split_word(text);
    let at = number(at)?;
    for word in rest.split_whitespace() {
        swaps.push(read_swap(at, word)?)?;
    }
    Ok(())
}
