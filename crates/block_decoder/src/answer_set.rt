//! Sets of answers, which lie where their payloads do.

ghost use Rattle.std.specs.Prelude.{◌≡◌, ◌<◌, [], ◌∷◌, ◌++◌, length, map, All, IfOk, OnOk};
ghost use Rattle.std.specs.List.{filter};
ghost use Rattle.block_decoder.specs.Narrowing.{holds_at, points_of};

use crate::answers::Answer;
use std::alloc::{AllocError, Global};
use std::marker::Model;
use uni_poly::eval;

/// A set of answers, in the order of their servers: all that are judged, or those of a candidate. It is the one type for a
/// set of places. A payload isn't copied into it, and it takes memory for as many answers as it has: how many that are at
/// most, [`MOST_SERVERS`](wire_frames::MOST_SERVERS), is said in the contracts of those who narrow it, and nowhere else.
#[derive(Drop)]
pub struct AnswerSet<'a> {
    answers: Vec<Answer<'a>>,
}

impl<'a> Model for AnswerSet<'a> {
    ghost use Rattle.std.specs.Prelude.{List};
    ghost use Rattle.wire_frames.specs.Answer.{Answer as ServerAnswer};

    ghost Value = { List ServerAnswer };

    ghost view = { λ a. a.answers.items };
}

impl<'a> AnswerSet<'a> {
    /// No answer yet, with room for so many.
    pub fn with_room(alloc: Global, count: usize) -> Result<Self, AllocError>
        ensures { IfOk result (λ set. set ≡ []) }
    {
        let answers = Vec::with_capacity(alloc, count)?;
        Ok(AnswerSet { answers })
    }

    /// Puts an answer behind the others.
    pub fn push(&mut self, answer: Answer<'a>) -> Result<(), AllocError>
        ensures { OnOk result (self.new ≡ self.old ++ answer.entry ∷ []) }
    {
        self.answers.push(answer)?;
        Ok(())
    }

    /// How many there are.
    pub fn len(&self) -> usize
        ensures { result ≡ length self.now }
    {
        self.answers.len()
    }

    /// The numbers of the servers.
    pub fn indices(&self, alloc: Global) -> Result<Vec<u8>, AllocError>
        ensures { IfOk result (λ v. v.items ≡ map (λ a. a.index) self.now) }
    {
        self.answers
            .iter()
            .map(|answer| answer.index())
            .collect(alloc)
    }

    /// The payloads, which are not copied.
    pub fn payloads(&self, alloc: Global) -> Result<Vec<&'a [u8]>, AllocError>
        ensures { IfOk result (λ v. map (λ payload. payload.now) v.items ≡ map (λ a. a.payload) self.now) }
    {
        let mut payloads = Vec::with_capacity(alloc, self.len())?;
        for answer in &self.answers {
            payloads.push(answer.payload())?;
        }
        Ok(payloads)
    }

    /// The points of a column: the number of each server with its byte there.
    pub fn points(&self, alloc: Global, column: usize) -> Result<Vec<(u8, u8)>, AllocError>
        requires { All (λ a. column < length a.payload) self.now }
        ensures { IfOk result (λ v. v.items ≡ points_of self.now column) }
    {
        let mut points = Vec::with_capacity(alloc, self.len())?;
        for answer in &self.answers {
            points.push((answer.index(), answer.payload()[column]))?;
        }
        Ok(points)
    }

    /// The answers at which the polynomial holds in the column: those whose byte it takes there.
    pub fn holding(
        &self,
        alloc: Global,
        polynomial: &[u8],
        column: usize,
    ) -> Result<Self, AllocError>
        requires { All (λ a. column < length a.payload) self.now }
        ensures { IfOk result (λ set. set ≡ filter (holds_at polynomial.now column) self.now) }
    {
        let mut kept = AnswerSet::with_room(alloc, self.len())?;
        for answer in &self.answers {
            if eval(polynomial, answer.index()) == answer.payload()[column] {
                kept.push(Answer::new(answer.index(), answer.payload()))?;
            }
        }
        Ok(kept)
    }
}
