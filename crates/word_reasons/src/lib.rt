//! Why words of the command line have no form, in a line for whoever asks.
//!
//! Promised: there is a reason exactly where the words have no form, want of memory aside, and no
//! value of `--key`, `--block` or `--more` stands in it.
//!
//! Not promised: which reason it is. It is the first in the order in which `pir_words` reads, by the
//! table of commands and by the calls that it reads values with; checks of the program compare it.
#![tactic(auto)]

ghost use Rattle.std.specs.Prelude.{◌≡◌, IfOk, IfSome, is_none, is_some, map, string_bytes};
ghost use Rattle.pir_words.specs.Form.{asked_of};
ghost use Rattle.word_reasons.specs.Reason.{Hides};

mod reason;
mod value_faults;
mod word_faults;

use clap::error::ErrorKind;
use pir_words::{WordsFault, pir_command, read_words};
pub use reason::{Amount, Named, OptionFault, Reason, Relation, Wanted};
use std::alloc::{AllocError, Global};
use value_faults::value_reason;
use word_faults::word_fault;

/// Why words that have no form have none.
fn refusal<'a>(alloc: Global, words: &'a [String]) -> Result<Reason<'a>, AllocError>
    ensures { IfOk result Hides }
{
    match pir_command(alloc)?.try_get_matches_from(words) {
        Ok(matches) => Ok(value_reason(&matches)),
        Err(error) => match error.kind() {
            ErrorKind::OutOfMemory => Err(AllocError),
            kind => match word_fault(words) {
                Some(reason) => Ok(reason),
                None => Ok(Reason::Refused(kind)),
            },
        },
    }
}

/// Why the words have no form, where they have none: a fault of their options first, and then the first value that isn't in its
/// range. No value of `--key`, `--block` or `--more` stands in it.
///
/// # Errors
///
/// `AllocError` if memory is short.
///
/// ```
/// // The words are `serve --database rows --width 82000 --conns 1 --listen localhost:7001`.
/// if let Some(reason) = reason_for(alloc, &words)? {
///     eprintln!(rt; "words: {reason}")?; // words: --width 82000 is above 65536
/// }
/// ```
pub fn reason_for<'a>(alloc: Global, words: &'a [String]) -> Result<Option<Reason<'a>>, AllocError>
    ensures given { IfOk result (λ r. is_none r ≡ is_some (asked_of (map string_bytes words.now))) }
    ensures hides { IfOk result (λ reason. IfSome reason Hides) }
{
    match read_words(alloc, words) {
        Ok(_) => Ok(None),
        Err(WordsFault::Memory) => Err(AllocError),
        Err(WordsFault::Usage) => Ok(Some(refusal(alloc, words)?)),
    }
}
