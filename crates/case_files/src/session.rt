//! Recorded sessions, as a line of a case spells them.

use crate::bytes::append_plain;
use crate::fault::Fault;
use crate::lines::{number, small_number, split_word};

/// What the header of a session says besides the number 7 and two rows.
#[derive(Clone, Copy)]
struct Shape {
    scheme: u8,
    degree: u8,
    agreement: u8,
    servers: u8,
    width: [u8; 4],
}

/// The width that a word is.
fn width_of(word: &str) -> Result<[u8; 4], Fault> {
    match u32::try_from(number(word)?) {
        Ok(width) => Ok(width.to_be_bytes()),
        Err(_) => Err(Fault::Form("this is no width")),
    }
}

/// A payload, and how many servers in a row answer it: `43^9` stands for nine.
fn payload_in(word: &str) -> Result<(&str, u8), Fault> {
    match word.split_once('^') {
        Some((payload, times)) => Ok((payload, small_number(times)?)),
        None => Ok((word, 1)),
    }
}

/// How many servers these payloads are of.
fn servers_in(payloads: &str) -> Result<u8, Fault> {
    let mut servers = 0u8;
    for word in payloads.split_whitespace() {
        servers = servers.saturating_add(payload_in(word)?.1);
    }
    Ok(servers)
}

/// Appends the record of one server: the answer of status 0 with its payload, or none.
fn append_record(shape: Shape, index: u8, payload: &str, bytes: &mut Vec<u8>) -> Result<(), Fault> {
    if payload == "-" {
        return Ok(bytes.extend_from_slice(&[index, 0, 0, 0, 0, 0])?);
    }
    let [a, b, c, d] = shape.width;
    let start = bytes.len();
    #[rattlefmt::skip]
    bytes.extend_from_slice(&[
        index, 1, 0, 0, 0, 0,
        b'P', b'I', b'R', b'A', 1, shape.scheme, index, 0,
        0, 0, 0, 0, 0, 0, 0, 7, 0, 0, 0, 2, a, b, c, d,
    ])?;
    append_plain(payload, bytes)?;
    let len = bytes.len().saturating_sub(start).saturating_sub(6);
    let mut at = start.saturating_add(2);
    for byte in u32::try_from(len).unwrap_or(0).to_be_bytes() {
        if let Some(place) = bytes.get_mut(at) {
            *place = byte;
        }
        at = at.saturating_add(1);
    }
    Ok(())
}

/// Appends a session of this shape with these payloads.
fn append_records(shape: Shape, payloads: &str, bytes: &mut Vec<u8>) -> Result<(), Fault> {
    let [a, b, c, d] = shape.width;
    #[rattlefmt::skip]
    bytes.extend_from_slice(&[
        b'P', b'I', b'R', b'S', 1, shape.scheme, shape.degree, shape.agreement, shape.servers, 0, 0, 0,
        0, 0, 0, 0, 0, 0, 0, 7, 0, 0, 0, 2, a, b, c, d,
    ])?;
    let mut index = 0u8;
    for word in payloads.split_whitespace() {
        let (payload, times) = payload_in(word)?;
        for _ in 0..times {
            index = index.wrapping_add(1);
            append_record(shape, index, payload, bytes)?;
        }
    }
    Ok(())
}

/// Appends the session that a text spells: `session T H S P1 P2 ..`, or `xor-session S P1 P2 ..`, in which all have to agree.
pub fn append_session(text: &str, bytes: &mut Vec<u8>) -> Result<(), Fault> {
    let (name, rest) = split_word(text);
    match name {
        "session" => append_shamir(rest, bytes),
        "xor-session" => append_xor(rest, bytes),
        _ => Err(Fault::Form("in parentheses stands a session")),
    }
}

/// Appends a session of Shamir's scheme, as `T H S P1 P2 ..`.
fn append_shamir(text: &str, bytes: &mut Vec<u8>) -> Result<(), Fault> {
    let (degree, rest) = split_word(text);
    let (agreement, rest) = split_word(rest);
    let (width, payloads) = split_word(rest);
    let shape = Shape {
        scheme: 1,
        degree: small_number(degree)?,
        agreement: small_number(agreement)?,
        servers: servers_in(payloads)?,
        width: width_of(width)?,
    };
    append_records(shape, payloads, bytes)
}

/// Appends a session of the XOR scheme, as `S P1 P2 ..`.
fn append_xor(text: &str, bytes: &mut Vec<u8>) -> Result<(), Fault> {
    let (width, payloads) = split_word(text);
    let servers = servers_in(payloads)?;
    let shape = Shape {
        scheme: 2,
        degree: servers.saturating_sub(1),
        agreement: servers,
        servers,
        width: width_of(width)?,
    };
    append_records(shape, payloads, bytes)
}
