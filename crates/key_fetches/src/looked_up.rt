//! What a look-up comes to.

ghost use Rattle.std.specs.Prelude.{◌≡◌, ◌<◌, length, map, Option, None, Some, IfSome};
ghost use Rattle.std.specs.Option.{option_copied, option_or};
ghost use Rattle.key_search.specs.Standing.{Standing, standing_after, turns_of};
ghost use Rattle.key_fetches.specs.Listed.{EndsAs, only_block};

use block_decoder::Verdict;
use key_search::{Outcome, Search};
use std::marker::Model;

/// What a look-up came to. Contracts see the first verdict that did not list exactly one block, if there was one, and
/// the first of the blocks listed that begins with the key.
#[derive(Drop)]
pub struct LookUp {
    /// The search, after all turns.
    pub(crate) search: Search,
    /// The first verdict that did not list exactly one block.
    pub(crate) unlisted: Option<Verdict>,
}

impl Model for LookUp {
    ghost use Rattle.std.specs.Prelude.{◌≡◌, is_some};
    ghost use Rattle.key_search.specs.Standing.{turns_of};
    ghost use Rattle.key_fetches.specs.Listed.{Ended};

    ghost Value = { Ended };

    ghost view = { λ l. record { unlisted = l.unlisted; found = l.search.found } };

    ghost invariant = { λ l. (l.search.turn ≡ turns_of l.search.rows) × (l.search.is_lost ≡ is_some l.unlisted) };
}

/// How a look-up ends.
pub enum Ending<'a> {
    /// With the first verdict that did not list exactly one block.
    Unlisted(&'a Verdict),
    /// With the first block listed that begins with the key.
    Found(&'a [u8]),
    /// With no block that begins with the key, of all that were listed.
    Absent,
}

impl LookUp {
    /// How it ends: with the first verdict that did not list exactly one block; else with the first block listed that
    /// begins with the key; else with none.
    pub fn end(&self) -> Ending<'_>
        ensures { EndsAs self.now result }
    {
        if let Some(verdict) = &self.unlisted {
            return Ending::Unlisted(verdict);
        }
        match self.search.end() {
            Outcome::Lost => unreachable!(),
            Outcome::Found(block) => Ending::Found(block),
            Outcome::Absent => Ending::Absent,
        }
    }
}

/// The block of a verdict that lists exactly one.
pub(crate) fn only_block(verdict: &Verdict) -> Option<&[u8]>
    ensures { option_copied result ≡ only_block verdict.now }
{
    match verdict {
        Verdict::Listed(listing) => match listing.len() {
            1 => listing.get(0),
            _ => None,
        },
        Verdict::TooFew { .. } | Verdict::TooWeak { .. } | Verdict::TooCostly { .. } => None,
    }
}
