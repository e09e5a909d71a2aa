//! What the words give to an argument: texts, numbers and flags.

ghost use Rattle.std.specs.Prelude.{◌≡◌, ◌≤◌, IfOk, IfSome, map, option_map};
ghost use Rattle.std.specs.List.{list_all};
ghost use Rattle.clap.specs.Words.{all_of, first_of};
ghost use Rattle.pir_words.specs.Numbers.{flag_in, given, is_digit, limited, number, number_in};
ghost use Rattle.pir_words.specs.Form.{IsReadAs};

use crate::asked::WordsFault;
use crate::text::Text;
use clap::ArgMatches;
use std::alloc::{AllocError, Global};

/// The word of an argument.
pub fn text_at<'a>(matches: &ArgMatches<'a>, id: &str) -> Option<&'a str>
    ensures { option_map (λ s. s.now) result ≡ first_of id.now (given matches.now) }
{
    matches.get_str(id)
}

/// The words of an argument.
pub fn texts_at<'a, 'b>(matches: &'b ArgMatches<'a>, id: &str) -> Option<&'b [&'a str]>
    ensures { option_map (λ s. map (λ v. v.now) s.now) result ≡ all_of id.now (given matches.now) }
{
    matches.get_raw(id)
}

/// Whether there are decimal digits alone: no sign, and no blank.
fn are_digits(text: &[u8]) -> bool
    ensures { result ≡ list_all is_digit text.now }
{
    for c in text {
        if !c.is_ascii_digit() {
            return false;
        }
    }
    true
}

/// The number that decimal digits write, below `2^64`.
#[tactic(auto, unfolding(crate::specs::Numbers::number))]
pub fn number_of(text: &str) -> Option<u64>
    ensures { result ≡ number text.now }
{
    if !are_digits(text.as_bytes()) {
        return None;
    }
    text.parse().ok()
}

/// The number of an option.
#[tactic(auto, unfolding(crate::specs::Numbers::number_in))]
pub fn number_at(matches: &ArgMatches, id: &str) -> Option<u64>
    ensures { result ≡ number_in id.now (given matches.now) }
{
    number_of(text_at(matches, id)?)
}

/// The number of an option, where it is from `least` to `most`.
#[tactic(auto, unfolding(crate::specs::Numbers::limited))]
pub fn limited_at(matches: &ArgMatches, id: &str, least: u32, most: u32) -> Option<u32>
    ensures value { result ≡ limited id.now least most (given matches.now) }
    ensures bounds { IfSome result (λ n. (least ≤ n) × (n ≤ most)) }
{
    match number_at(matches, id) {
        Some(n) if least as u64 <= n && n <= most as u64 => Some(n as u32),
        _ => None,
    }
}

/// Whether an option without a value is given.
#[tactic(auto, unfolding(crate::specs::Numbers::flag_in))]
pub fn flag_at(matches: &ArgMatches, id: &str) -> bool
    ensures { result ≡ flag_in id.now (given matches.now) }
{
    matches!(text_at(matches, id), Some("true"))
}

/// A copy of the word of an argument.
pub fn owned_at(alloc: Global, matches: &ArgMatches, id: &str) -> Result<Text, WordsFault>
    ensures { IsReadAs (first_of id.now (given matches.now)) result }
{
    match text_at(matches, id) {
        Some(text) => Ok(Text::new(alloc, text)?),
        None => Err(WordsFault::Usage),
    }
}

/// A copy of a word that may be left out.
pub fn owned_if_given(alloc: Global, text: Option<&str>) -> Result<Option<Text>, AllocError>
    ensures { IfOk result (λ t. t ≡ option_map (λ s. s.now) text.entry) }
{
    match text {
        Some(text) => Ok(Some(Text::new(alloc, text)?)),
        None => Ok(None),
    }
}
