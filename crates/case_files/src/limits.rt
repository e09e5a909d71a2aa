//! The limits of the program, by their names.

use pir_words::{LEAST_PORT, MOST_PORT, MOST_SHARDS};
use std::alloc::{AllocError, Global};
use std::fmt::Write;
use wire_frames::{
    LEAST_SERVERS, MOST_CELLS, MOST_DEGREE, MOST_GUESTS, MOST_ROWS, MOST_SERVERS, MOST_WIDTH,
    MOST_WORKERS,
};

/// The limit of this name.
fn limit(name: &str) -> Option<u64> {
    match name {
        "LEAST_SERVERS" => Some(u64::from(LEAST_SERVERS)),
        "MOST_SERVERS" => Some(u64::from(MOST_SERVERS)),
        "MOST_DEGREE" => Some(u64::from(MOST_DEGREE)),
        "MOST_ROWS" => Some(u64::from(MOST_ROWS)),
        "MOST_WIDTH" => Some(u64::from(MOST_WIDTH)),
        "MOST_CELLS" => Some(MOST_CELLS),
        "MOST_WORKERS" => Some(u64::from(MOST_WORKERS)),
        "MOST_GUESTS" => Some(u64::from(MOST_GUESTS)),
        "LEAST_PORT" => Some(u64::from(LEAST_PORT)),
        "MOST_PORT" => Some(u64::from(MOST_PORT)),
        "MOST_SHARDS" => Some(u64::from(MOST_SHARDS)),
        _ => None,
    }
}

/// The number that a name or digits stand for.
fn number(text: &str) -> Option<u64> {
    match limit(text) {
        Some(number) => Some(number),
        None => text.parse::<u64>().ok(),
    }
}

/// A number, or the quotient of two, `N/M`.
fn quotient(text: &str) -> Option<u64> {
    match text.split_once('/') {
        Some((all, parts)) => number(all)?.checked_div(number(parts)?),
        None => number(text),
    }
}

/// The number that stands between braces: `N`, `N+M` or `N-M`, where N is the name of a limit, a number or a quotient.
fn value(text: &str) -> Option<u64> {
    if let Some((least, more)) = text.split_once('+') {
        return quotient(least)?.checked_add(number(more)?);
    }
    match text.split_once('-') {
        Some((most, less)) => quotient(most)?.checked_sub(number(less)?),
        None => quotient(text),
    }
}

/// Appends what stands for the text between braces: a number, for `0xNUMBER` the two hexadecimal digits of a byte, or for
/// `TEXT*NUMBER` the text so many times. What can't be read stays as it is.
fn append_limit(text: &str, line: &mut String) -> Result<(), AllocError> {
    if let Some((repeated, times)) = text.split_once('*')
        && let Some(times) = value(times)
    {
        for _ in 0..times {
            line.push_str(repeated)?;
        }
        return Ok(());
    }
    if let Some(text) = text.strip_prefix("0x")
        && let Some(number) = value(text)
    {
        return write!(line, "{number:02x}");
    }
    match value(text) {
        Some(number) => write!(line, "{number}"),
        None => write!(line, "{{{text}}}"),
    }
}

/// Appends the text, with the numbers of the limits that it names between braces.
pub fn append_limits(text: &str, line: &mut String) -> Result<(), AllocError> {
    for (i, part) in text.split('{').enumerate() {
        match part.split_once('}') {
            Some((named, rest)) if i > 0 => {
                append_limit(named, line)?;
                line.push_str(rest)?;
            }
            _ => line.push_str(part)?,
        }
    }
    Ok(())
}
