//! A database that is spread over shards.
ghost use Rattle.std.specs.Prelude.{◌≡◌, ◌+◌, ◌<◌, ◌≤◌};
ghost use Rattle.quantity_limits.specs.declared.TheConstants.{MOST_SHARDS};
ghost use Rattle.serve_core.specs.Terms.{most_blocks_for};
ghost use Rattle.shard_front.specs.Spread.{IsSpread, first_row, rows_in, shards, terms_of};

use std::marker::Model;
use wire_frames::{MOST_BLOCKS, MOST_WIDTH};

/// How many rows a database has, of how many bytes, and how many of them each shard has. The last
/// shard may have fewer. Each is one that may be served, over shards that a front may ask.
#[derive(Clone, Copy)]
pub(crate) struct Spread {
    rows: u32,
    width: u32,
    shard: u32,
}

impl Model for Spread {
    ghost use Rattle.shard_front.specs.Spread.{IsSpread, Spread};

    ghost Value = { Spread };

    ghost view = { λ s. record { rows = s.rows; width = s.width; shard = s.shard } };

    ghost invariant = { λ s. IsSpread (record { rows = s.rows; width = s.width; shard = s.shard }) };

    ghost inverse = { λ s. record { rows = s.rows; width = s.width; shard = s.shard } };
}

impl Spread {
    /// A database of so many rows of so many bytes, over shards of `shard` rows.
    pub(crate) fn new(rows: u32, width: u32, shard: u32) -> Spread
        requires { IsSpread (record { rows = rows; width = width; shard = shard }) }
        ensures { result ≡ record { rows = rows; width = width; shard = shard } }
    {
        Spread { rows, width, shard }
    }

    /// The rows of the database. They may be served over its shards.
    pub(crate) fn rows(self) -> u32
        ensures is { result ≡ self.rows }
        ensures spread { IsSpread self }
    {
        self.rows
    }

    /// How many bytes a row has.
    pub(crate) fn width(self) -> u32
        ensures { result ≡ self.width }
    {
        self.width
    }

    /// The rows of a shard.
    pub(crate) fn shard(self) -> u32
        ensures { result ≡ self.shard }
    {
        self.shard
    }

    /// How many shards there are.
    pub(crate) fn shards(self) -> u8
        ensures is { result ≡ shards self }
        ensures few { result ≤ MOST_SHARDS }
    {
        self.rows.div_ceil(self.shard) as u8
    }

    /// The most blocks that a query asks for.
    #[tactic(auto, unfolding(serve_core::specs::Terms::most_blocks_for))]
    pub(crate) fn most_blocks(self) -> u8
        ensures { result ≡ most_blocks_for (terms_of self) }
    {
        u32::from(MOST_BLOCKS).min(MOST_WIDTH / self.width) as u8
    }

    /// The first row of the shard at this place, counted from 0.
    pub(crate) fn first_row(self, place: u8) -> u32
        requires { place < shards self }
        ensures { result ≡ first_row self place }
    {
        u32::from(place) * self.shard
    }

    /// How many rows it has.
    pub(crate) fn rows_in(self, place: u8) -> u32
        requires { place < shards self }
        ensures is { result ≡ rows_in self place }
        ensures some { 1 ≤ result }
        ensures within { first_row self place + result ≤ self.rows }
    {
        self.shard.min(self.rows - self.first_row(place))
    }
}
