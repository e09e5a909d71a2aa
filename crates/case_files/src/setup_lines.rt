//! The lines that say what a case is run on.

use crate::bytes::{Names, read_bytes};
use crate::case::{Case, Failing, Guest, Held, Room, Setup};
use crate::expected_lines::read_expected;
use crate::fault::Fault;
use crate::lines::{number, split_word};
use crate::naming::read_port;
use port_trait::Port;
use std::alloc::Global;

/// Appends a word; `''` is the empty one.
pub fn append_word(alloc: Global, word: &str, words: &mut Vec<String>) -> Result<(), Fault> {
    let word = if word == "''" { "" } else { word };
    words.push(String::from_str(alloc, word)?)?;
    Ok(())
}

/// Appends the words of a text.
pub fn append_words(alloc: Global, text: &str, words: &mut Vec<String>) -> Result<(), Fault> {
    for word in text.split_whitespace() {
        append_word(alloc, word, words)?;
    }
    Ok(())
}

/// The words of a text.
pub fn words_of(alloc: Global, text: &str) -> Result<Vec<String>, Fault> {
    let mut words = Vec::new(alloc);
    append_words(alloc, text, &mut words)?;
    Ok(words)
}

/// Appends a port, and the bytes that it holds.
pub fn append_held(
    alloc: Global,
    names: &Names,
    text: &str,
    held: &mut Vec<Held>,
) -> Result<(), Fault> {
    let (port, rest) = read_port(text)?;
    let bytes = read_bytes(alloc, names, rest)?;
    held.push(Held { port, bytes })?;
    Ok(())
}

/// Appends a port other than `guest`, and how many bytes it can accept.
fn append_room(text: &str, rooms: &mut Vec<Room>) -> Result<(), Fault> {
    let (port, rest) = read_port(text)?;
    if port == Port::Guest {
        return Err(Fault::Form("a guest has its room in its own line"));
    }
    let bytes = number(rest)?;
    rooms.push(Room { port, bytes })?;
    Ok(())
}

/// The room of a guest, and its bytes, as `room N BYTES` or `BYTES`.
fn split_guest(text: &str) -> Result<(usize, &str), Fault> {
    let (word, rest) = split_word(text);
    if word != "room" {
        return Ok((10_000, text));
    }
    let (room, rest) = split_word(rest);
    Ok((number(room)?, rest))
}

/// Appends a guest.
fn append_guest(
    alloc: Global,
    names: &Names,
    text: &str,
    guests: &mut Vec<Guest>,
) -> Result<(), Fault> {
    let (room, rest) = split_guest(text)?;
    let bytes = read_bytes(alloc, names, rest)?;
    guests.push(Guest { bytes, room })?;
    Ok(())
}

/// Reads the room for names, as so many words and so many bytes.
fn read_name_room(text: &str, setup: &mut Setup) -> Result<(), Fault> {
    let (words, bytes) = split_word(text);
    setup.names = number(words)?;
    setup.name_bytes = number(bytes)?;
    Ok(())
}

/// A call that fails, as `call N` or `PORT N`.
fn failing_in(text: &str) -> Result<Failing, Fault> {
    let (word, rest) = split_word(text);
    if word == "call" {
        return Ok(Failing::Call(number(rest)? as u64));
    }
    let (port, rest) = read_port(text)?;
    Ok(Failing::On(port, number(rest)? as u64))
}

/// Appends a call that fails.
fn append_failing(text: &str, fails: &mut Vec<Failing>) -> Result<(), Fault> {
    fails.push(failing_in(text)?)?;
    Ok(())
}

/// Appends the sizes of pieces.
fn append_pieces(text: &str, pieces: &mut Vec<usize>) -> Result<(), Fault> {
    for word in text.split_whitespace() {
        pieces.push(number(word)?)?;
    }
    Ok(())
}

/// Appends a text as one word.
fn append_text(alloc: Global, text: &str, words: &mut Vec<String>) -> Result<(), Fault> {
    words.push(String::from_str(alloc, text)?)?;
    Ok(())
}

/// Reads a line that says what the case is run on, or else one that says what is expected.
pub fn read_setup(
    alloc: Global,
    names: &Names,
    case: &mut Case,
    word: &str,
    rest: &str,
) -> Result<(), Fault> {
    let setup = &mut case.setup;
    match word {
        "words" => append_words(alloc, rest, &mut setup.words),
        "word" => append_text(alloc, rest, &mut setup.words),
        "port" => append_held(alloc, names, rest, &mut setup.held),
        "room" => append_room(rest, &mut setup.rooms),
        "guest" => append_guest(alloc, names, rest, &mut setup.guests),
        "names" => read_name_room(rest, setup),
        "fails" => append_failing(rest, &mut setup.fails),
        "pieces" => append_pieces(rest, &mut setup.pieces),
        _ => read_expected(alloc, names, case, word, rest),
    }
}
