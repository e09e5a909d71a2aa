//! What a search comes to.

ghost use Rattle.std.specs.Prelude.{◌≡◌, ◌<◌, length, slice_index_or};
ghost use Rattle.list_finds.specs.Answers.{answer_of};
ghost use Rattle.list_finds.specs.Ended.{EndsAs};

use crate::answers::{Answer, Answers};
use block_decoder::Verdict;
use std::marker::Model;
use wire_frames::Session;

/// A verdict that doesn't list exactly one block, and the session that it is on.
#[derive(Drop)]
pub struct Unlisted {
    /// The session, with the record of each server.
    pub session: Session,
    /// The verdict on it.
    pub verdict: Verdict,
}

/// What a search came to: an answer to each key, in the order of the keys, and the first verdict that didn't list
/// exactly one block, if there was one.
#[derive(Drop)]
pub struct Finds {
    pub(crate) answers: Answers,
    pub(crate) unlisted: Option<Unlisted>,
}

impl Model for Finds {
    ghost use Rattle.list_finds.specs.Found.{Come};

    ghost Value = { Come };

    ghost view = { λ f. record { answers = f.answers.answers; unlisted = f.unlisted } };
}

/// How a search ends.
#[derive(Clone, Copy)]
pub enum Ending<'a> {
    /// With the first verdict that didn't list exactly one block: nothing is known of the keys of its query.
    Unlisted(&'a Unlisted),
    /// Each verdict listed one block, and the row of this key, counted from 0, is the first that is none of the list.
    BrokenRow(usize),
    /// Of each key it is known whether the list has it.
    Settled,
}

impl Finds {
    /// How many keys were looked for.
    pub fn len(&self) -> usize
        ensures { result ≡ length self.now.answers }
    {
        self.answers.len()
    }

    /// The answer to key `i`, counted from 0.
    pub fn answer(&self, i: usize) -> Answer<&[u8]>
        requires { i < length self.now.answers }
        ensures { answer_of result ≡ slice_index_or self.now.answers i Answer.Unknown }
    {
        self.answers.at(i)
    }

    /// How it ends.
    pub fn end(&self) -> Ending<'_>
        ensures { EndsAs self.now result }
    {
        if let Some(unlisted) = &self.unlisted {
            return Ending::Unlisted(unlisted);
        }
        match self.answers.first_broken() {
            Some(i) => Ending::BrokenRow(i),
            None => Ending::Settled,
        }
    }
}
