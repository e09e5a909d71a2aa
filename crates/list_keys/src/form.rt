//! What a line is, and what is wrong with one.

ghost use Rattle.std.specs.Prelude.{◌≡◌, length, take};
ghost use Rattle.list_keys.specs.Form.{fault_behind, fault_of, key_of, refusal_of, value_of};

use crate::MOST_KEY;
use crate::fault::LineFault;
use crate::place::tab_in;

/// What each line is.
#[derive(Clone, Copy, Debug, PartialEq, Eq)]
pub enum Form {
    /// A key. A tab belongs to it.
    Key,
    /// A key without a tab: one that a list with values may have.
    KeyWithoutTab,
    /// A key and its value, parted by the first tab.
    KeyAndValue {
        /// How many bytes a value has at most.
        most: usize,
    },
}

/// What lines have to be.
#[derive(Clone, Copy, Debug, PartialEq, Eq)]
pub struct Terms {
    /// What each of them is.
    pub form: Form,
    /// How many there are at most.
    pub most: u32,
}

/// The key of a line.
#[tactic(auto, unfolding(crate::specs::Form::key_of))]
pub(crate) fn key_of(form: Form, line: &[u8]) -> &[u8]
    ensures { result.now ≡ key_of form line.now }
{
    match form {
        Form::Key => line,
        Form::KeyWithoutTab => line,
        Form::KeyAndValue { .. } => &line[..tab_in(line)],
    }
}

/// The value of a line.
#[tactic(auto, unfolding(crate::specs::Form::value_of))]
pub(crate) fn value_of(form: Form, line: &[u8]) -> &[u8]
    ensures { result.now ≡ value_of form line.now }
{
    let behind = key_of(form, line).len() + 1;
    if behind > line.len() {
        return &line[..0];
    }
    &line[behind..]
}

/// What is wrong with a line whose key is neither empty nor too long.
#[tactic(auto, unfolding(crate::specs::Form::fault_behind))]
fn fault_behind(form: Form, line: &[u8]) -> Option<LineFault>
    ensures { result ≡ fault_behind form line.now }
{
    match form {
        Form::Key => None,
        Form::KeyWithoutTab => {
            if tab_in(line) == line.len() {
                None
            } else {
                Some(LineFault::HasTab)
            }
        }
        Form::KeyAndValue { most } => {
            if tab_in(line) == line.len() {
                Some(LineFault::NoTab)
            } else if value_of(form, line).len() > most {
                Some(LineFault::LongValue { most })
            } else {
                None
            }
        }
    }
}

/// What is wrong with a line.
#[tactic(auto, unfolding(crate::specs::Form::fault_of))]
fn fault_of(form: Form, line: &[u8]) -> Option<LineFault>
    ensures { result ≡ fault_of form line.now }
{
    let count = key_of(form, line).len();
    if count == 0 {
        Some(LineFault::EmptyKey)
    } else if count > MOST_KEY {
        Some(LineFault::LongKey)
    } else {
        fault_behind(form, line)
    }
}

/// Why the line of this number is refused.
#[tactic(auto, unfolding(crate::specs::Form::refusal_of))]
pub(crate) fn refusal_of(terms: Terms, number: u32, line: &[u8]) -> Option<LineFault>
    ensures { result ≡ refusal_of terms number line.now }
{
    if number > terms.most {
        Some(LineFault::TooMany { most: terms.most })
    } else {
        fault_of(terms.form, line)
    }
}
