//! Tables of words.

use crate::shown_words::Shown;
use case_files::fault::Fault;
use case_files::setup_lines::{append_word, append_words};
use pir_words::{Asked, WordsFault, read_words};
use std::alloc::{AllocError, Global};

/// Appends a word in which `_` stands for a blank.
fn append_blanks(alloc: Global, word: &str, words: &mut Vec<String>) -> Result<(), Fault> {
    let mut text = String::new(alloc);
    for c in word.chars() {
        text.push(if c == '_' { ' ' } else { c })?;
    }
    words.push(text)?;
    Ok(())
}

/// Appends the words of a row: `''` is the empty word, `_` stands for a blank in a word, and `$` for the words of the mark.
fn append_row(alloc: Global, mark: &str, row: &str, words: &mut Vec<String>) -> Result<(), Fault> {
    for word in row.split_whitespace() {
        match word {
            "$" => append_words(alloc, mark, words)?,
            "''" => append_word(alloc, word, words)?,
            _ => append_blanks(alloc, word, words)?,
        }
    }
    Ok(())
}

/// What the words ask for. It is looked at, and nothing of what its reading promises is needed.
fn asked_by(alloc: Global, words: &[String]) -> Result<Asked, WordsFault> {
    read_words(alloc, words)
}

/// What the words ask for, as a table writes it.
fn answer_of(alloc: Global, words: &[String]) -> Result<String, AllocError> {
    match asked_by(alloc, words) {
        Ok(asked) => Shown(&asked).to_string(alloc),
        Err(WordsFault::Usage) => String::from_str(alloc, "usage"),
        Err(WordsFault::Memory) => String::from_str(alloc, "memory"),
    }
}

/// What the words of a row ask for.
pub fn answer(alloc: Global, mark: &str, row: &str) -> Result<String, Fault> {
    let mut words = Vec::new(alloc);
    append_row(alloc, mark, row, &mut words)?;
    Ok(answer_of(alloc, &words)?)
}
