//! The answers to keys, in memory that was taken once.

ghost use Rattle.std.specs.Prelude.{◌≡◌, ◌≤◌, ◌<◌, ◌+◌, ◌-◌, ◌++◌, ◌∷◌, [], length, slice_index_or, IfOk, IsTrue, MatchOption, ◌↔◌, vec_len, vec_capacity};
ghost use Rattle.key_table.specs.declared.TheConstants.{MOST_VALUE};
ghost use Rattle.list_finds.specs.Answers.{HasNoBroken, IsFirstBroken, ValueFits, answer_of, map_answer, value_of};
ghost use Rattle.list_finds.specs.Held.{LiesIn, no_answers, value_at, with_answer};
ghost use Rattle.list_finds.specs.declared.TheConstants.{MOST_KEYS};

use std::alloc::{AllocError, Global};
use std::marker::Model;

/// What is said of a key, with the value that the list has for it.
#[derive(Clone, Copy, Debug, PartialEq, Eq)]
pub enum Answer<V> {
    /// Nothing: the verdict on its query lists no block or several.
    Unknown,
    /// Nothing: what came for its row is no row of the list's table.
    Broken,
    /// The list doesn't have it.
    Absent,
    /// The list has it, with this value.
    Present(V),
}

/// Where the bytes of a value lie.
#[derive(Clone, Copy)]
struct Span {
    start: usize,
    end: usize,
}

/// The answers to keys, in their order, in memory that was taken once.
#[derive(Drop)]
pub struct Answers {
    kept: Vec<Answer<Span>>,
    // The values, one behind another.
    values: Vec<u8>,
    // How many more answers there is room for.
    room: usize,
    // How many bytes a value has at most.
    most: usize,
}

impl Model for Answers {
    ghost use Rattle.std.specs.Prelude.{◌+◌, ◌*◌, ◌≤◌, map, All, vec_len, vec_capacity};
    ghost use Rattle.list_finds.specs.Answers.{map_answer};
    ghost use Rattle.list_finds.specs.Held.{Held, LiesIn, value_at};

    ghost Value = { Held };

    ghost view = { λ a. record {
      answers = map (map_answer (value_at a.values.items)) a.kept.items;
      room = a.room;
      most = a.most;
    } };

    ghost invariant = { λ a. (vec_len a.kept + a.room ≤ vec_capacity a.kept)
        × (vec_len a.values + a.room * a.most ≤ vec_capacity a.values)
        × All (LiesIn a.values.items) a.kept.items };
}

/// Puts the value of an answer, if it has one, behind the others, for which there is room.
fn keep(values: &mut Vec<u8>, answer: Answer<&[u8]>) -> Answer<Span>
    requires { vec_len values.old + length (value_of (answer_of answer)) ≤ vec_capacity values.old }
    ensures values { values.new.items ≡ values.old.items ++ value_of (answer_of answer.entry) }
    ensures capacity { vec_capacity values.old ≤ vec_capacity values.new }
    ensures lies { LiesIn values.new.items result }
    ensures same { map_answer (value_at values.new.items) result ≡ answer_of answer.entry }
{
    let value = match answer {
        Answer::Unknown => return Answer::Unknown,
        Answer::Broken => return Answer::Broken,
        Answer::Absent => return Answer::Absent,
        Answer::Present(value) => value,
    };
    let start = values.len();
    match values.extend_from_slice(value) {
        Ok(()) => {}
        Err(_) => unreachable!(),
    }
    Answer::Present(Span {
        start,
        end: values.len(),
    })
}

impl Answers {
    /// No answer yet. The memory for the answers to so many keys is taken here, with values of at most so many bytes.
    pub(crate) fn with_room(alloc: Global, keys: usize, most: usize) -> Result<Answers, AllocError>
        requires keys { keys ≤ MOST_KEYS }
        requires most { most ≤ MOST_VALUE }
        ensures { IfOk result (λ a. a ≡ no_answers keys most) }
    {
        Ok(Answers {
            kept: Vec::with_capacity(alloc, keys)?,
            values: Vec::with_capacity(alloc, keys * most)?,
            room: keys,
            most,
        })
    }

    /// The answer to the next key. It takes no memory.
    pub(crate) fn push(&mut self, answer: Answer<&[u8]>)
        requires room { 0 < self.old.room }
        requires fits { ValueFits self.old.most (answer_of answer) }
        ensures { self.new ≡ with_answer self.old (answer_of answer.entry) }
    {
        let kept = keep(&mut self.values, answer);
        match self.kept.push(kept) {
            Ok(()) => {}
            Err(_) => unreachable!(),
        }
        self.room -= 1;
    }

    /// How many answers there are.
    pub(crate) fn len(&self) -> usize
        ensures { result ≡ length self.now.answers }
    {
        self.kept.len()
    }

    /// The answer to key `i`, counted from 0.
    pub(crate) fn at(&self, i: usize) -> Answer<&[u8]>
        requires { i < length self.now.answers }
        ensures { answer_of result ≡ slice_index_or self.now.answers i Answer.Unknown }
    {
        match self.kept[i] {
            Answer::Unknown => Answer::Unknown,
            Answer::Broken => Answer::Broken,
            Answer::Absent => Answer::Absent,
            Answer::Present(span) => Answer::Present(&self.values[span.start..span.end]),
        }
    }

    /// The first key, counted from 0, for whose row no row of the list came.
    pub(crate) fn first_broken(&self) -> Option<usize>
        ensures { MatchOption result (HasNoBroken self.now.answers) (IsFirstBroken self.now.answers) }
    {
        for i in 0..self.kept.len() {
            if self.is_broken(i) {
                return Some(i);
            }
        }
        None
    }

    /// Whether no row of the list came for the row of key `i`.
    fn is_broken(&self, i: usize) -> bool
        requires { i < length self.now.answers }
        ensures { IsTrue result ↔ (slice_index_or self.now.answers i Answer.Unknown ≡ Answer.Broken) }
    {
        matches!(self.kept[i], Answer::Broken)
    }
}
