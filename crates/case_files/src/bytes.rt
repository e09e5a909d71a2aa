//! Bytes, as a line of a case spells them.

use crate::fault::Fault;
use crate::lines::number;
use crate::session::append_session;
use crate::texts::append_text;
use std::alloc::Global;
use std::collections::BTreeMap;

/// Bytes by their names.
pub type Names = BTreeMap<String, Vec<u8>>;

/// Whether a text is in quotes, behind a backslash there, or in parentheses.
#[derive(Clone, Copy)]
struct Nesting {
    quoted: bool,
    escaped: bool,
    inside: bool,
}

impl Nesting {
    /// The nesting behind one character more.
    fn past(self, c: char) -> Nesting {
        let mut next = self;
        next.escaped = self.quoted && !self.escaped && c == '\\';
        if c == '"' && !self.escaped {
            next.quoted = !self.quoted;
        }
        if !self.quoted && (c == '(' || c == ')') {
            next.inside = c == '(';
        }
        next
    }
}

/// Appends the bytes that a text spells: those of its items, which stand apart by blanks.
fn append_bytes(names: &Names, text: &str, bytes: &mut Vec<u8>) -> Result<(), Fault> {
    let mut nesting = Nesting {
        quoted: false,
        escaped: false,
        inside: false,
    };
    let mut start = 0usize;
    for (i, c) in text.char_indices() {
        if c == ' ' && !nesting.quoted && !nesting.inside {
            append_item(names, text.get(start..i).unwrap_or(""), bytes)?;
            start = i.saturating_add(1);
        }
        nesting = nesting.past(c);
    }
    append_item(names, text.get(start..).unwrap_or(""), bytes)
}

/// The bytes that a text spells.
pub fn read_bytes(alloc: Global, names: &Names, text: &str) -> Result<Vec<u8>, Fault> {
    let mut bytes = Vec::new(alloc);
    append_bytes(names, text, &mut bytes)?;
    Ok(bytes)
}

/// Appends the bytes of one item.
fn append_item(names: &Names, item: &str, bytes: &mut Vec<u8>) -> Result<(), Fault> {
    match item.as_bytes() {
        [b'"', ..] => append_text(item, bytes),
        [b'(', .., b')'] => {
            let inside = 1..item.len().saturating_sub(1);
            append_session(item.get(inside).unwrap_or(""), bytes)
        }
        _ if is_plain(item) => append_plain(item, bytes),
        _ => append_named(names, item, bytes),
    }
}

/// The value of a hexadecimal digit.
pub fn digit(byte: u8) -> Result<u8, Fault> {
    match byte {
        b'0'..=b'9' => Ok(byte - b'0'),
        b'a'..=b'f' => Ok(byte - b'a' + 10),
        b'A'..=b'F' => Ok(byte - b'A' + 10),
        _ => Err(Fault::Form("this is no hexadecimal digit")),
    }
}

/// Whether an item is an even number of hexadecimal digits, or has a `*`.
pub fn is_plain(item: &str) -> bool {
    let mut digits = 0usize;
    for byte in item.bytes() {
        if byte == b'*' {
            return true;
        }
        if !byte.is_ascii_hexdigit() {
            return false;
        }
        digits = digits.saturating_add(1);
    }
    digits % 2 == 0
}

/// Appends the bytes of hexadecimal digits, or of such that stand there many times, as `00*100`.
pub fn append_plain(item: &str, bytes: &mut Vec<u8>) -> Result<(), Fault> {
    match item.split_once('*') {
        Some((digits, times)) => {
            for _ in 0..number(times)? {
                append_digits(digits, bytes)?;
            }
            Ok(())
        }
        None => append_digits(item, bytes),
    }
}

/// Appends the bytes of hexadecimal digits.
fn append_digits(digits: &str, bytes: &mut Vec<u8>) -> Result<(), Fault> {
    let mut high = None;
    for byte in digits.bytes() {
        let value = digit(byte)?;
        high = match high {
            None => Some(value),
            Some(high) => {
                bytes.push(join(high, value))?;
                None
            }
        };
    }
    match high {
        None => Ok(()),
        Some(_) => Err(Fault::Form("there is a digit too many")),
    }
}

/// The byte of two digits.
pub fn join(high: u8, low: u8) -> u8 {
    high.wrapping_mul(16) | low
}

/// A part of bytes that have a name, or some bytes of it that are set.
#[derive(Clone, Copy)]
enum Part<'a> {
    /// From one place to before another.
    Range(&'a str, &'a str),
    /// From a place on, to these digits.
    Set(usize, &'a str),
}

/// The part that stands in brackets, the first of which is past.
fn part_in(text: &str) -> Result<Part<'_>, Fault> {
    let Some(text) = text.strip_suffix(']') else {
        return Err(Fault::Form("a bracket is missing"));
    };
    if let Some((from, to)) = text.split_once("..") {
        return Ok(Part::Range(from, to));
    }
    match text.split_once('=') {
        Some((at, digits)) => Ok(Part::Set(number(at)?, digits)),
        None => Err(Fault::Form("this is no part of bytes")),
    }
}

/// The bytes of a range; with no number, from the first, or to the last.
fn range_of<'a>(bytes: &'a [u8], from: &str, to: &str) -> Result<&'a [u8], Fault> {
    let from = if from.is_empty() { 0 } else { number(from)? };
    let to = if to.is_empty() {
        bytes.len()
    } else {
        number(to)?
    };
    match bytes.get(from..to) {
        Some(range) => Ok(range),
        None => Err(Fault::Form("there are fewer bytes")),
    }
}

/// Sets the bytes from this place on to those of the digits.
fn set_digits(mut at: usize, digits: &str, bytes: &mut [u8]) -> Result<(), Fault> {
    let mut high = None;
    for byte in digits.bytes() {
        let value = digit(byte)?;
        let Some(first) = high else {
            high = Some(value);
            continue;
        };
        match bytes.get_mut(at) {
            Some(place) => *place = join(first, value),
            None => return Err(Fault::Form("there are fewer bytes")),
        }
        high = None;
        at = at.saturating_add(1);
    }
    Ok(())
}

/// Appends bytes of which parts are taken, and then some are set.
fn append_parts(named: &[u8], parts: &str, bytes: &mut Vec<u8>) -> Result<(), Fault> {
    let mut found = named;
    for part in parts.split('[') {
        if let Part::Range(from, to) = part_in(part)? {
            found = range_of(found, from, to)?;
        }
    }
    let start = bytes.len();
    bytes.extend_from_slice(found)?;
    for part in parts.split('[') {
        if let Part::Set(at, digits) = part_in(part)? {
            set_digits(start.saturating_add(at), digits, bytes)?;
        }
    }
    Ok(())
}

/// Appends bytes that have a name, as `s1`, or a part of them, as `s1[34..60]`, of which some may be set, as `s1[34..60][7=03]`.
fn append_named(names: &Names, item: &str, bytes: &mut Vec<u8>) -> Result<(), Fault> {
    let (name, parts) = item.split_once('[').unwrap_or((item, ""));
    match names.get(name) {
        Some(named) if parts.is_empty() => Ok(bytes.extend_from_slice(named)?),
        Some(named) => append_parts(named, parts, bytes),
        None => Err(Fault::Form("no bytes have this name")),
    }
}
