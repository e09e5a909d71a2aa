//! The answers of servers, as [`decide`](crate::decide) takes them: the numbers of the servers, ascending, and the payloads in
//! the same order, one after another.

ghost use Rattle.std.specs.Prelude.{◌≡◌, ◌*◌, ◌<◌, length, IfOk};
ghost use Rattle.block_decoder.specs.Agreed.{answers_of, answer_at};

use crate::answer_set::AnswerSet;
use std::alloc::{AllocError, Global};
use std::marker::Model;

/// What servers answered.
#[derive(Drop)]
pub struct ServerAnswers {
    /// The numbers of the servers, ascending.
    pub indices: Vec<u8>,
    /// Their payloads in the same order, of one width, one after another.
    pub payloads: Vec<u8>,
}

/// What one server answered.
#[derive(Drop)]
pub struct Answer<'a> {
    index: u8,
    payload: &'a [u8],
}

impl<'a> Model for Answer<'a> {
    ghost use Rattle.wire_frames.specs.Answer.{Answer as ServerAnswer};

    ghost Value = { ServerAnswer };

    ghost view = { λ a. record { index = a.index; payload = a.payload.now } };
}

impl<'a> Answer<'a> {
    /// The number of a server, where the polynomials take the payload's bytes, and these, one for each column.
    pub fn new(index: u8, payload: &'a [u8]) -> Self
        ensures { result ≡ record { index = index; payload = payload.now } }
    {
        Answer { index, payload }
    }

    /// The number of the server.
    pub fn index(&self) -> u8
        ensures { result ≡ self.now.index }
    {
        self.index
    }

    /// The bytes, one for each column.
    pub fn payload(&self) -> &'a [u8]
        ensures { result.now ≡ self.now.payload }
    {
        self.payload
    }
}

/// The same in two slices that are borrowed, with their width, so that each answer can be looked up.
#[derive(Drop)]
pub struct PackedAnswers<'a> {
    indices: &'a [u8],
    bytes: &'a [u8],
    width: usize,
}

impl<'a> Model for PackedAnswers<'a> {
    ghost use Rattle.std.specs.Prelude.{◌≡◌, ◌*◌, List, length};
    ghost use Rattle.wire_frames.specs.Answer.{Answer as ServerAnswer};
    ghost use Rattle.block_decoder.specs.Agreed.{answers_of};

    ghost Value = { List ServerAnswer };

    ghost view = { λ a. answers_of a.width a.indices.now a.bytes.now };

    ghost invariant = { λ a. length a.bytes.now ≡ length a.indices.now * a.width };
}

impl<'a> PackedAnswers<'a> {
    /// The servers' indices, and their payloads of `width` bytes one after another.
    pub fn new(indices: &'a [u8], bytes: &'a [u8], width: usize) -> Self
        requires { length bytes.now ≡ length indices.now * width }
        ensures { result ≡ answers_of width indices.now bytes.now }
    {
        PackedAnswers {
            indices,
            bytes,
            width,
        }
    }

    /// How many there are.
    pub fn len(&self) -> usize
        ensures { result ≡ length self.now }
    {
        self.indices.len()
    }

    /// The answer at a place, counted from 0.
    pub fn at(&self, place: usize) -> Answer<'a>
        requires { place < length self.now }
        ensures { result ≡ answer_at self.now place }
    {
        let from = place * self.width;
        Answer::new(self.indices[place], &self.bytes[from..from + self.width])
    }

    /// All of them as a set.
    ///
    /// # Errors
    ///
    /// `AllocError` where there is no memory for their places.
    pub(crate) fn to_set(&self, alloc: Global) -> Result<AnswerSet<'a>, AllocError>
        ensures { IfOk result (λ set. set ≡ self.now) }
    {
        let mut all = AnswerSet::with_room(alloc, self.len())?;
        for place in 0..self.len() {
            all.push(self.at(place))?;
        }
        Ok(all)
    }
}
