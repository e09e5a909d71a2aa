//! What is looked for, and of whom.

ghost use Rattle.std.specs.Prelude.{◌≡◌, ◌≤◌, length, map, string_bytes, IfOk};
ghost use Rattle.wire_frames.specs.declared.scheme.TheConstants.{SHAMIR};
ghost use Rattle.query_rounds.specs.Plan.{IsPlan};
ghost use Rattle.list_finds.specs.Known.{IsKnown};
ghost use Rattle.list_finds.specs.Wanted.{queries_for};
ghost use Rattle.list_finds.specs.declared.TheConstants.{MOST_KEYS};

use crate::answers::Answers;
use crate::cuts::queries_for;
use crate::known_list::KnownList;
use fetch_client::FetchPlan;
use std::alloc::{AllocError, Global};
use std::marker::Model;

/// A search for keys in a list: the plan of each query, in Shamir's sharing (Goldberg 2007), the list, the keys, the
/// address of each server, in the order of their indices, and the memory for the answers.
#[derive(Drop)]
pub struct Search<'a> {
    pub(crate) plan: FetchPlan,
    pub(crate) list: KnownList,
    pub(crate) keys: &'a [&'a [u8]],
    pub(crate) addresses: &'a [String],
    pub(crate) answers: Answers,
}

impl<'a> Model for Search<'a> {
    ghost use Rattle.std.specs.Prelude.{◌≡◌, length, map, string_bytes};
    ghost use Rattle.list_finds.specs.Held.{no_answers};
    ghost use Rattle.list_finds.specs.Wanted.{IsWanted, Wanted};

    ghost Value = { Wanted };

    ghost view = { λ s. record {
      plan = s.plan;
      list = s.list;
      keys = map (λ k. k.now) s.keys.now;
      addresses = map string_bytes s.addresses.now;
    } };

    ghost invariant = { λ s. IsWanted (record {
      plan = s.plan;
      list = s.list;
      keys = map (λ k. k.now) s.keys.now;
      addresses = map string_bytes s.addresses.now;
    }) × (s.answers ≡ no_answers (length s.keys.now) s.list.most) };
}

impl<'a> Search<'a> {
    /// A search for these keys, at most [`MOST_KEYS`](crate::MOST_KEYS), in a list whose table has the rows and the
    /// width of the plan. All memory for the answers is taken here, and want of it is the only error.
    pub fn new(
        alloc: Global,
        plan: &FetchPlan,
        list: &KnownList,
        keys: &'a [&'a [u8]],
        addresses: &'a [String],
    ) -> Result<Search<'a>, AllocError>
        requires plan { IsPlan plan.now }
        requires shamir { plan.now.scheme ≡ SHAMIR }
        requires list { IsKnown list.now }
        requires keys { length keys.now ≤ MOST_KEYS }
        requires addresses { length addresses.now ≡ plan.now.n }
        ensures { IfOk result (λ w. w ≡ record {
          plan = plan.now;
          list = list.now;
          keys = map (λ k. k.now) keys.now;
          addresses = map string_bytes addresses.now;
        }) }
    {
        Ok(Search {
            plan: *plan,
            list: *list,
            keys,
            addresses,
            answers: Answers::with_room(alloc, keys.len(), list.most)?,
        })
    }

    /// How many queries it takes: 17 keys take two where a row has 40 bytes, of 16 keys and of one.
    pub fn queries(&self) -> usize
        ensures { result ≡ queries_for self.now }
    {
        queries_for(self.keys.len(), self.plan.s)
    }
}
