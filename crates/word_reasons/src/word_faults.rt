//! What is wrong with words that `clap` refuses.

ghost use Rattle.std.specs.Prelude.{◌<◌, length, IfSome};
ghost use Rattle.word_reasons.specs.Reason.{Hides};

use crate::reason::{OptionFault, Reason};
use pir_words::{Form, Kind, form_named};

/// Whether a word is an option where it stands: it begins with `-`, and goes on.
fn is_option(word: &str) -> bool {
    word.len() > 1 && word.starts_with('-')
}

/// The word up to a `=`, and whether there is one.
fn up_to_value(word: &str) -> (&str, bool) {
    match word.split_once('=') {
        Some((option, _)) => (option, true),
        None => (word, false),
    }
}

/// The option of the command that a word gives, and how it is given.
fn option_of(form: Form<'static>, word: &str) -> Option<(&'static str, Kind)> {
    let (option, _) = up_to_value(word);
    let written = option.strip_prefix("--")?;
    for (name, kind) in form.arguments {
        if *name == written && kind.is_long() {
            return Some((*name, *kind));
        }
    }
    None
}

/// Whether a word is an option whose value is the next word.
fn awaits_value(form: Form<'static>, word: &str) -> bool {
    let (_, has_value) = up_to_value(word);
    match option_of(form, word) {
        None | Some((_, Kind::Flag)) => false,
        Some(_) => !has_value,
    }
}

/// Whether the option of this name is among the words.
fn is_given(form: Form<'static>, words: &[String], name: &str) -> bool {
    for word in words {
        if let Some((given, _)) = option_of(form, word.as_str()) {
            if given == name {
                return true;
            }
        }
    }
    false
}

/// The words before the word `--`, behind which none is an option.
fn before_end(words: &[String]) -> &[String] {
    for i in 0..words.len() {
        if words[i].as_str() == "--" {
            return &words[..i];
        }
    }
    words
}

/// Whether a word follows that can be a value.
fn has_value_behind(words: &[String], place: usize) -> bool
    requires { place < length words.now }
{
    match words[place..].get(1) {
        Some(word) => !is_option(word.as_str()),
        None => false,
    }
}

/// What is wrong with an option, beside those before it.
fn option_fault<'a>(form: Form<'static>, words: &'a [String], place: usize) -> Option<Reason<'a>>
    requires { place < length words.now }
    ensures { IfSome result Hides }
{
    let word = words[place].as_str();
    if !is_option(word) {
        return None;
    }
    let (option, has_value) = up_to_value(word);
    let Some((name, kind)) = option_of(form, word) else {
        return Some(Reason::UnknownOption(option));
    };
    if is_given(form, &words[..place], name) {
        Some(Reason::Faulty(name, OptionFault::Repeated))
    } else if has_value && matches!(kind, Kind::Flag) {
        Some(Reason::Faulty(name, OptionFault::UnwantedValue))
    } else if awaits_value(form, word) && !has_value_behind(words, place) {
        Some(Reason::Faulty(name, OptionFault::NoValue))
    } else {
        None
    }
}

/// The first fault of an option that is given.
fn given_fault<'a>(form: Form<'static>, words: &'a [String]) -> Option<Reason<'a>>
    ensures { IfSome result Hides }
{
    for place in 0..words.len() {
        if let Some(reason) = option_fault(form, words, place) {
            return Some(reason);
        }
    }
    None
}

/// The first option that has to be given, and isn't.
fn missing_option<'a>(form: Form<'static>, words: &[String]) -> Option<Reason<'a>>
    ensures { IfSome result Hides }
{
    for (name, kind) in form.arguments {
        if kind.is_long() && kind.is_required() && !is_given(form, words, *name) {
            return Some(Reason::Faulty(*name, OptionFault::Missing));
        }
    }
    None
}

/// Whether the word at a place is neither an option nor the value of one. The first `end` words may be options.
fn is_operand(form: Form<'static>, words: &[String], end: usize, place: usize) -> bool
    requires { place < length words.now }
{
    if place >= end {
        return place > end;
    }
    let follows = place > 0 && awaits_value(form, words[place - 1].as_str());
    !follows && !is_option(words[place].as_str())
}

/// How many words the command takes that are no options, at most, and what the first of them is called.
fn operands_of(form: Form<'static>) -> (usize, &'static str) {
    for (name, kind) in form.arguments {
        match kind {
            Kind::Operand => return (1, *name),
            Kind::Operands => return (usize::MAX, *name),
            _ => {}
        }
    }
    (0, "")
}

/// What is wrong with the words that are no options.
fn operand_fault<'a>(form: Form<'static>, words: &[String], end: usize) -> Option<Reason<'a>>
    ensures { IfSome result Hides }
{
    let (most, name) = operands_of(form);
    let mut count = 0usize;
    for place in 0..words.len() {
        if is_operand(form, words, end, place) {
            if count >= most {
                // Counted from 1, with the word of the command before them.
                return Some(Reason::StrayWord((place as u64).saturating_add(2)));
            }
            count = count.saturating_add(1);
        }
    }
    if count == 0 && most > 0 {
        return Some(Reason::NoOperand(name));
    }
    None
}

/// What is wrong with the words, as far as the table of commands says it, and no value is read.
pub fn word_fault<'a>(words: &'a [String]) -> Option<Reason<'a>>
    ensures { IfSome result Hides }
{
    let Some((command, rest)) = words.split_first() else {
        return Some(Reason::NoCommand);
    };
    let Some(form) = form_named(command.as_str()) else {
        return Some(Reason::UnknownCommand(command.as_str()));
    };
    let options = before_end(rest);
    if let Some(reason) = given_fault(form, options) {
        return Some(reason);
    }
    if let Some(reason) = operand_fault(form, rest, options.len()) {
        return Some(reason);
    }
    missing_option(form, options)
}
