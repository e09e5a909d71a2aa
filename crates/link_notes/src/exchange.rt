//! What went over a link, and why that is no usable answer.
ghost use Rattle.std.specs.Prelude.{◌≡◌, None, false, true};

use std::fmt::{self, Display, Formatter, Write};
use wire_frames::{AnswerField, Cause, FRAME_HEADER_LEN, answer_len, read_query_header, why};

/// The bytes that went one way over a link: how many, and the first of them.
#[derive(Clone, Copy)]
struct Flow {
    start: [u8; FRAME_HEADER_LEN],
    len: usize,
}

impl Flow {
    /// Nothing went so far.
    fn new() -> Self
        ensures { result.len ≡ 0 }
    {
        Flow {
            start: [0; FRAME_HEADER_LEN],
            len: 0,
        }
    }

    /// These bytes went too.
    fn add(&mut self, bytes: &[u8]) {
        let mut place = self.len;
        for byte in bytes {
            if place >= FRAME_HEADER_LEN {
                break;
            }
            self.start[place] = *byte;
            place += 1;
        }
        self.len = self.len.saturating_add(bytes.len());
    }

    /// The first bytes, no more than a header has.
    fn start(&self) -> &[u8] {
        &self.start[..self.len.min(FRAME_HEADER_LEN)]
    }
}

/// What went over a link since it was opened.
#[derive(Clone, Copy)]
pub(crate) struct Exchange {
    link: u8,
    query: Flow,
    answer: Flow,
    has_failed: bool,
}

/// Why what a link gave is no usable answer.
#[derive(Clone, Copy, Debug, PartialEq, Eq)]
pub(crate) enum AnswerFault {
    /// It ended too early.
    Ended { came: usize, whole: usize },
    /// The server refused the query, with this status.
    Refused(u8),
    /// It is no answer to the query: this field is another.
    Other(AnswerField),
}

impl Exchange {
    /// Nothing went over the link so far.
    pub(crate) fn new(link: u8) -> Self
        ensures link { result.link ≡ link }
        ensures nothing { (result.query.len ≡ 0) × (result.answer.len ≡ 0) × (result.has_failed ≡ false) }
    {
        Exchange {
            link,
            query: Flow::new(),
            answer: Flow::new(),
            has_failed: false,
        }
    }

    /// The number of the link.
    pub(crate) fn link(&self) -> u8
        ensures { result ≡ self.now.link }
    {
        self.link
    }

    /// The link took these bytes.
    pub(crate) fn add_query(&mut self, bytes: &[u8])
        ensures { self.new ≡ record self.old { query = self.new.query } }
    {
        self.query.add(bytes);
    }

    /// The link gave these bytes.
    pub(crate) fn add_answer(&mut self, bytes: &[u8])
        ensures { self.new ≡ record self.old { answer = self.new.answer } }
    {
        self.answer.add(bytes);
    }

    /// A call on the link failed.
    pub(crate) fn fail(&mut self)
        ensures { self.new ≡ record self.old { has_failed = true } }
    {
        self.has_failed = true;
    }

    /// Why what the link gave is no usable answer to what it was asked; `None` where it is one, where it was asked for
    /// nothing, and where it gave nothing since a call failed, which the ports explain.
    pub(crate) fn fault(&self) -> Option<AnswerFault>
        ensures silent { self.now.has_failed ≡ true → self.now.answer.len ≡ 0 → result ≡ None }
    {
        let nothing_came = self.has_failed && self.answer.len == 0;
        if nothing_came || self.query.len < FRAME_HEADER_LEN {
            return None;
        }
        let Ok(header) = read_query_header(&self.query.start) else {
            return None;
        };
        match why(self.answer.start(), &header) {
            Cause::Usable => None,
            Cause::Refused(status) => Some(AnswerFault::Refused(status)),
            Cause::Other(field) => Some(AnswerFault::Other(field)),
            // More than the first bytes isn't kept, so the length is judged here.
            Cause::Cut | Cause::Length => {
                let (came, whole) = (self.answer.len, answer_len(header.count, header.s));
                if came < whole {
                    Some(AnswerFault::Ended { came, whole })
                } else {
                    None
                }
            }
        }
    }
}

/// What is said of a refusal with this status, as a server of this version or a front over shards gives it.
fn refusal_words(status: u8) -> &'static str {
    match status {
        1 => "refused, bad query",
        2 => "refused, other rows or width",
        3 => "refused, other scheme",
        4 => "refused, a shard is lost",
        _ => "refused, with an unknown status",
    }
}

/// What is said of an answer with this field another than it was asked.
fn field_words(field: AnswerField) -> &'static str {
    match field {
        AnswerField::Magic => "no answer, it doesn't begin with PIRA",
        AnswerField::Version => "another version's answer",
        AnswerField::Scheme => "another scheme's answer",
        AnswerField::Index => "another server's answer",
        AnswerField::Session => "another session's answer",
        AnswerField::Rows => "an answer for other rows",
        AnswerField::Width => "an answer for another width",
    }
}

impl Display for AnswerFault {
    fn fmt<W: Write>(&self, f: &mut Formatter<W>) -> fmt::Result {
        match self {
            AnswerFault::Ended { came, whole } => write!(f, "ended after {came} of {whole} bytes"),
            AnswerFault::Refused(status) => f.write_str(refusal_words(*status)),
            AnswerFault::Other(field) => f.write_str(field_words(*field)),
        }
    }
}
