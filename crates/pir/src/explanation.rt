//! Why a run ended as it did, in lines for whoever asks.

use commands::{Bad, Status};
use link_notes::{Notes, say_links, say_next_look};
use std::alloc::{AllocError, Global};
use std::fmt::Write;
use word_reasons::reason_for;

/// Adds a line on words that have no form. No words are those that are no UTF-8.
fn explain_words(
    alloc: Global,
    words: Option<&[String]>,
    text: &mut String,
) -> Result<(), AllocError> {
    let Some(words) = words else {
        return text.push_str("pir: words: one of them is no UTF-8\n");
    };
    if let Some(reason) = reason_for(alloc, words)? {
        write!(text, "pir: words: {reason}\n")?;
    }
    Ok(())
}

/// Adds a line on a bad input.
fn explain_input(bad: Bad, text: &mut String) -> Result<(), AllocError> {
    match bad {
        Bad::EmptyFile => text.push_str("pir: database: empty\n"),
        Bad::TooBig { limit } => write!(text, "pir: database: more than {limit} bytes\n"),
        Bad::Session { place } => write!(text, "pir: session: no session from byte {place} on\n"),
        Bad::CoinsEnded { taken } => write!(text, "pir: coins: ended after {taken} bytes\n"),
    }
}

/// Why a run of these words ended so, a line each; empty where nothing is to be said. Want of memory is the only error.
pub fn explanation(
    alloc: Global,
    words: Option<&[String]>,
    status: &Status,
    notes: &Notes,
) -> Result<String, AllocError> {
    let mut text = String::new(alloc);
    say_links(notes, &mut text)?;
    match status {
        Status::Usage => explain_words(alloc, words, &mut text)?,
        Status::BadInput(bad) => explain_input(*bad, &mut text)?,
        Status::TooFew { .. } => say_next_look(notes, &mut text)?,
        _ => {}
    }
    Ok(text)
}
