//! Texts in quotes, as a line of a case spells bytes.

use crate::bytes::{digit, join};
use crate::fault::Fault;

/// Where a text in quotes stands.
#[derive(Clone, Copy)]
enum Place {
    /// Before its first quote.
    Before,
    /// At a character of its own.
    Within,
    /// Behind a backslash.
    Escaped,
    /// Before the two digits of a byte.
    Digits,
    /// Behind the first of them.
    Digit(u8),
    /// Behind its last quote.
    Behind,
}

/// Appends a byte of the text.
fn append(byte: u8, bytes: &mut Vec<u8>) -> Result<Place, Fault> {
    bytes.push(byte)?;
    Ok(Place::Within)
}

/// Goes over the character behind a backslash.
fn pass_escaped(byte: u8, bytes: &mut Vec<u8>) -> Result<Place, Fault> {
    match byte {
        b'x' => Ok(Place::Digits),
        b'n' => append(b'\n', bytes),
        b'0' => append(0, bytes),
        b'\\' | b'"' => append(byte, bytes),
        _ => Err(Fault::Form("a backslash stands before `n`, `0`, `x`, `\\` or `\"`")),
    }
}

/// Goes over a character of the text's own.
fn pass_plain(byte: u8, bytes: &mut Vec<u8>) -> Result<Place, Fault> {
    match byte {
        b'\\' => Ok(Place::Escaped),
        b'"' => Ok(Place::Behind),
        _ => append(byte, bytes),
    }
}

/// Goes over one byte of the text.
fn pass(place: Place, byte: u8, bytes: &mut Vec<u8>) -> Result<Place, Fault> {
    match place {
        Place::Before => Ok(Place::Within),
        Place::Within => pass_plain(byte, bytes),
        Place::Escaped => pass_escaped(byte, bytes),
        Place::Digits => Ok(Place::Digit(digit(byte)?)),
        Place::Digit(high) => append(join(high, digit(byte)?), bytes),
        Place::Behind => Err(Fault::Form("a text ends with a quote")),
    }
}

/// Appends the bytes of a text with its quotes.
pub fn append_text(text: &str, bytes: &mut Vec<u8>) -> Result<(), Fault> {
    let mut place = Place::Before;
    for byte in text.bytes() {
        place = pass(place, byte, bytes)?;
    }
    match place {
        Place::Behind => Ok(()),
        _ => Err(Fault::Form("a text ends with a quote")),
    }
}
