//! What is shown of a session.
ghost use Rattle.std.specs.Prelude.{◌≡◌, ◌≤◌, ◌++◌, length, string_bytes, IfOk, OnOk};
ghost use Rattle.wire_frames.specs.Limits.{IsInRange};
ghost use Rattle.pir_show.specs.Text.{cause_words, field_words, number_line, number_lines, refusal_words, scheme_word};
ghost use Rattle.pir_show.specs.Text.{server_line, server_words, session_text, told_of};

use std::alloc::{AllocError, Global};
use std::fmt::Write;
use wire_frames::{AnswerField, Cause, Scheme, Session, SessionParams, why};

/// A scheme, as words of the command line name it.
fn scheme_word(scheme: Scheme) -> &'static str
    ensures { result.now ≡ scheme_word scheme }
{
    match scheme {
        Scheme::Shamir => "shamir",
        Scheme::Xor => "xor",
    }
}

/// Adds the line of a number, with its name before it.
#[tactic(auto, unfolding(crate::specs::Text::number_line))]
fn add_number(text: &mut String, name: &str, number: u32) -> Result<(), AllocError>
    ensures { OnOk result
        (string_bytes text.new ≡ string_bytes text.old ++ number_line name.now number) }
{
    write!(text, "{name} {number}\n")
}

/// The numbers of a session but its own, a line each.
#[tactic(auto, unfolding(crate::specs::Text::number_lines))]
fn number_lines(alloc: Global, params: &SessionParams) -> Result<String, AllocError>
    requires { IsInRange params.now }
    ensures { IfOk result (λ text. string_bytes text ≡ number_lines params.now) }
{
    let scheme = scheme_word(params.scheme());
    let mut text = format!(in alloc; "scheme {scheme}\n")?;
    add_number(&mut text, "degree", u32::from(params.t))?;
    add_number(&mut text, "agreement", u32::from(params.h))?;
    add_number(&mut text, "servers", u32::from(params.n))?;
    add_number(&mut text, "rows", params.r)?;
    add_number(&mut text, "width", params.s)?;
    add_number(&mut text, "blocks", u32::from(params.count))?;
    Ok(text)
}

/// What is said of an answer with this field another than it was asked.
fn field_words(field: AnswerField) -> &'static str
    ensures { result.now ≡ field_words field }
{
    match field {
        AnswerField::Magic => "unusable, it doesn't begin with PIRA",
        AnswerField::Version => "unusable, its version is another",
        AnswerField::Scheme => "unusable, its scheme is another",
        AnswerField::Index => "unusable, its index is another",
        AnswerField::Session => "unusable, its session number is another",
        AnswerField::Rows => "unusable, its number of rows is another",
        AnswerField::Width => "unusable, its width is another",
    }
}

/// What is said of a refusal with this status, which stands in it only where it is one that a server of this version, or
/// a front over shards, gives.
#[tactic(auto, unfolding(crate::specs::Text::refusal_words))]
fn refusal_words(status: u8) -> &'static str
    ensures { result.now ≡ refusal_words status }
{
    match status {
        1 => "refused, status 1: bad query",
        2 => "refused, status 2: other rows or width",
        3 => "refused, status 3: other scheme",
        4 => "refused, status 4: a shard is lost",
        _ => "refused, with an unknown status",
    }
}

/// What is said of an answer.
fn cause_words(cause: Cause) -> &'static str
    ensures { result.now ≡ cause_words cause }
{
    match cause {
        Cause::Usable => "usable",
        Cause::Cut => "unusable, it has fewer bytes than a header",
        Cause::Other(field) => field_words(field),
        Cause::Refused(status) => refusal_words(status),
        Cause::Length => "unusable, its payload has another length",
    }
}

/// What is said of a server, by its answer: it is silent where a call failed.
fn server_words(told: Option<Cause>) -> &'static str
    ensures { result.now ≡ server_words told }
{
    match told {
        Some(cause) => cause_words(cause),
        None => "silent",
    }
}

/// The line of a server, by its index.
#[tactic(auto, unfolding(crate::specs::Text::server_line))]
pub fn server_line(alloc: Global, index: u8, told: Option<Cause>) -> Result<String, AllocError>
    ensures { IfOk result (λ text. string_bytes text ≡ server_line index told) }
{
    let words = server_words(told);
    format!(in alloc; "server {index}: {words}\n")
}

/// Whether the answer of this server is usable, and if not, why; `None` where a call failed.
#[tactic(auto, unfolding(crate::specs::Text::told_of))]
fn told_of(session: &Session, index: u8) -> Option<Cause>
    requires first { 1 ≤ index }
    requires last { index ≤ length session.now.records }
    ensures { result ≡ told_of session.now index }
{
    let bytes = session.record_at(u32::from(index))?;
    Some(why(bytes, &session.params().asked(index)))
}

/// The numbers of a session but its own, and then a line for each server that has a record, in the order of their
/// indices. No byte that a server sent stands in it. Want of memory is the only error.
pub fn session_text(alloc: Global, session: &Session) -> Result<String, AllocError>
    ensures { IfOk result (λ text. string_bytes text ≡ session_text session.now) }
{
    let mut text = number_lines(alloc, &session.params())?;
    for i in 0..session.record_count() {
        let index = i as u8 + 1;
        let line = server_line(alloc, index, told_of(session, index))?;
        text.push_str(line.as_str())?;
    }
    Ok(text)
}
