//! The lines of a file.

use crate::fault::Fault;
use crate::limits::append_limits;
use std::alloc::{AllocError, Global};

/// A line that says something, and its number, counted from 1.
#[derive(Drop)]
pub struct Line {
    pub number: usize,
    pub text: String,
}

/// The first word of a text, and what follows it.
pub fn split_word(text: &str) -> (&str, &str) {
    match text.split_once(' ') {
        Some((word, rest)) => (word, rest.trim_start()),
        None => (text, ""),
    }
}

/// The number that a word is.
pub fn number(word: &str) -> Result<usize, Fault> {
    match word.parse::<usize>() {
        Ok(number) => Ok(number),
        Err(_) => Err(Fault::Form("this is no number")),
    }
}

/// The number below 256 that a word is.
pub fn small_number(word: &str) -> Result<u8, Fault> {
    match word.parse::<u8>() {
        Ok(number) => Ok(number),
        Err(_) => Err(Fault::Form("this is no number below 256")),
    }
}

/// Goes on with the last line, if there is one.
fn go_on(lines: &mut [Line], more: &str) -> Result<(), AllocError> {
    let Some(line) = lines.last_mut() else {
        return Ok(());
    };
    line.text.push(' ')?;
    append_limits(more, &mut line.text)
}

/// Adds a line, or goes on with the one before where this one begins with `+ `.
fn add_line(
    alloc: Global,
    number: usize,
    text: &str,
    lines: &mut Vec<Line>,
) -> Result<(), AllocError> {
    if text.is_empty() || text.starts_with('#') {
        return Ok(());
    }
    if let Some(more) = text.strip_prefix("+ ") {
        return go_on(lines, more);
    }
    let mut line = String::new(alloc);
    append_limits(text, &mut line)?;
    lines.push(Line { number, text: line })?;
    Ok(())
}

/// The lines of a text that say something, with the numbers of the limits that they name between braces. A line that begins
/// with `+ ` goes on with the one before.
pub fn lines_of(alloc: Global, text: &str) -> Result<Vec<Line>, AllocError> {
    let mut lines = Vec::new(alloc);
    let mut number = 0usize;
    for line in text.lines() {
        number = number.saturating_add(1);
        add_line(alloc, number, line.trim(), &mut lines)?;
    }
    Ok(lines)
}
