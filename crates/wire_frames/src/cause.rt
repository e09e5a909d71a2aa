//! Why a client can't use an answer.
ghost use Rattle.std.specs.Prelude.{◌≡◌, ◌≤◌, length};
ghost use Rattle.wire_frames.specs.Cause.{Tells, cause, fault_of, header_fault, is_other, other_field};

use crate::answer::usable_answer;
use crate::header::{QueryHeader, answer_header};
use crate::places::{
    FRAME_INDEX_PLACE, FRAME_MAGIC_PLACE, FRAME_ROWS_PLACE, FRAME_SCHEME_PLACE,
    FRAME_SESSION_PLACE, FRAME_STATUS_PLACE, FRAME_VERSION_PLACE, FRAME_WIDTH_PLACE,
};
use crate::sizes::FRAME_HEADER_LEN;

/// A field of an answer's header that its query settles: each but the status.
#[derive(Clone, Copy, Debug, PartialEq, Eq)]
pub enum AnswerField {
    /// The four letters.
    Magic,
    /// The version.
    Version,
    /// The scheme's number.
    Scheme,
    /// The index of the server.
    Index,
    /// The number of the session.
    Session,
    /// The number of rows.
    Rows,
    /// The width of a row.
    Width,
}

/// Whether an answer is usable, and if not, why.
#[derive(Clone, Copy, Debug, PartialEq, Eq)]
pub enum Cause {
    /// It is usable.
    Usable,
    /// It has fewer bytes than a header.
    Cut,
    /// This field of its header is the first that isn't that of an answer to the query.
    Other(AnswerField),
    /// Its header is that of an answer to the query, of this status, which isn't 0: the server
    /// refused the query.
    Refused(u8),
    /// Its header is that of an answer of status 0 to the query, and fewer or more bytes stand
    /// behind it than the rows have that were asked for.
    Length,
}

/// Whether two headers are unlike from one place up to another.
#[tactic(auto, unfolding(crate::specs::Cause::is_other))]
fn is_other(
    start: &[u8; FRAME_HEADER_LEN],
    right: &[u8; FRAME_HEADER_LEN],
    from: usize,
    to: usize,
) -> bool
    requires order { from ≤ to }
    requires within { to ≤ FRAME_HEADER_LEN }
    ensures { result ≡ is_other start.now right.now from to }
{
    start[from..to] != right[from..to]
}

/// The first field in which a header isn't the right one, whatever its status.
#[tactic(auto, unfolding(crate::specs::Cause::other_field))]
fn other_field(
    start: &[u8; FRAME_HEADER_LEN],
    right: &[u8; FRAME_HEADER_LEN],
) -> Option<AnswerField>
    ensures { result ≡ other_field start.now right.now }
{
    if is_other(start, right, FRAME_MAGIC_PLACE, FRAME_VERSION_PLACE) {
        Some(AnswerField::Magic)
    } else if is_other(start, right, FRAME_VERSION_PLACE, FRAME_SCHEME_PLACE) {
        Some(AnswerField::Version)
    } else if is_other(start, right, FRAME_SCHEME_PLACE, FRAME_INDEX_PLACE) {
        Some(AnswerField::Scheme)
    } else if is_other(start, right, FRAME_INDEX_PLACE, FRAME_STATUS_PLACE) {
        Some(AnswerField::Index)
    } else if is_other(start, right, FRAME_SESSION_PLACE, FRAME_ROWS_PLACE) {
        Some(AnswerField::Session)
    } else if is_other(start, right, FRAME_ROWS_PLACE, FRAME_WIDTH_PLACE) {
        Some(AnswerField::Rows)
    } else if is_other(start, right, FRAME_WIDTH_PLACE, FRAME_HEADER_LEN) {
        Some(AnswerField::Width)
    } else {
        None
    }
}

/// Why an answer with this header isn't usable.
#[tactic(auto, unfolding(crate::specs::Cause::header_fault))]
fn header_fault(start: &[u8; FRAME_HEADER_LEN], header: &QueryHeader) -> Cause
    ensures { result ≡ header_fault start.now header.now }
{
    match other_field(start, &answer_header(header, 0)) {
        Some(field) => Cause::Other(field),
        None => match start[FRAME_STATUS_PLACE] {
            0 => Cause::Length,
            status => Cause::Refused(status),
        },
    }
}

/// Why bytes that are no usable answer to the query with this header are none.
#[tactic(auto, unfolding(crate::specs::Cause::fault_of))]
fn fault_of(bytes: &[u8], header: &QueryHeader) -> Cause
    ensures { result ≡ fault_of bytes.now header.now }
{
    match bytes.split_first_chunk::<FRAME_HEADER_LEN>() {
        Some((start, _)) => header_fault(start, header),
        None => Cause::Cut,
    }
}

/// Whether the bytes are a usable answer to the query with this header, and if not, why. `Usable`
/// comes exactly where [`usable_answer`] has a payload. Else `Cut` comes where the bytes are fewer
/// than a header; then `Other`, with the first field that isn't the query's; then `Refused`, where
/// the status isn't 0; and else `Length`. It takes no memory.
#[tactic(auto, unfolding(crate::specs::Cause::cause))]
pub fn why(bytes: &[u8], header: &QueryHeader) -> Cause
    ensures is { result ≡ cause bytes.now header.now }
    ensures tells { Tells result bytes.now header.now }
{
    if usable_answer(bytes, header).is_some() {
        Cause::Usable
    } else {
        fault_of(bytes, header)
    }
}
