//! What is said of the links of a run, a line each.

use crate::noted::Notes;
use std::alloc::AllocError;
use std::fmt::Write;

/// Adds a line for an address without a port that couldn't be opened, and one for each link that gave no usable answer.
///
/// # Errors
///
/// `AllocError` where there is no memory for a longer text.
pub fn say_links(notes: &Notes, text: &mut String) -> Result<(), AllocError> {
    if let Some(address) = notes.portless() {
        write!(text, "pir: words: {address} has no port\n")?;
    }
    for exchange in notes.exchanges() {
        if let Some(fault) = exchange.fault() {
            let link = exchange.link();
            write!(text, "pir: link {link}: {fault}\n")?;
        }
    }
    Ok(())
}

/// Adds a line on what to look at next where too few answers are usable: the session that was read or recorded.
///
/// # Errors
///
/// `AllocError` where there is no memory for a longer text.
pub fn say_next_look(notes: &Notes, text: &mut String) -> Result<(), AllocError> {
    match notes.session_file() {
        Some("-") => text.push_str("pir: too few: see pir_show on the session\n"),
        Some(file) => write!(text, "pir: too few: see pir_show {file}\n"),
        None => text.push_str("pir: too few: see pir_show on a record, by fetch --record\n"),
    }
}
