//! A query that is relayed to shards.
ghost use Rattle.std.specs.Prelude.{◌≡◌, ◌<◌, ◌≤◌, length};
ghost use Rattle.quantity_limits.specs.declared.TheConstants.{MOST_SHARDS};
ghost use Rattle.wire_frames.specs.Limits.{IsQuery};
ghost use Rattle.serve_core.specs.Terms.{most_blocks_for};
ghost use Rattle.shard_front.specs.Spread.{shards, terms_of};
ghost use Rattle.shard_front.specs.Parts.{part_at, part_frame, part_header, part_len};

use crate::parts::write_slices;
use crate::spread::Spread;
use std::marker::Model;
use wire_frames::{QueryHeader, write_query_header};

/// A good query that is relayed: over which shards, at which addresses, in their order, its header,
/// and its vectors, one behind another.
#[derive(Drop)]
pub(crate) struct RelayedQuery<'a> {
    pub(crate) spread: Spread,
    pub(crate) addresses: &'a [String],
    pub(crate) header: QueryHeader,
    pub(crate) vectors: &'a [u8],
}

impl<'a> Model for RelayedQuery<'a> {
    ghost use Rattle.std.specs.Prelude.{length, map, string_bytes};
    ghost use Rattle.shard_front.specs.RelayedQuery.{IsRelayable, RelayedQuery};

    ghost Value = { RelayedQuery };

    ghost view = { λ q. record {
      spread = q.spread;
      addresses = map string_bytes q.addresses.now;
      header = q.header;
      vectors = q.vectors.now;
    } };

    ghost invariant = { λ q. IsRelayable q.spread (length q.addresses.now) q.header q.vectors.now };
}

impl<'a> RelayedQuery<'a> {
    /// How many shards there are.
    pub(crate) fn shards(&self) -> u8
        ensures is { result ≡ shards self.now.spread }
        ensures few { result ≤ MOST_SHARDS }
    {
        self.spread.shards()
    }

    /// Its header.
    pub(crate) fn header(&self) -> &QueryHeader
        ensures is { result.now ≡ self.now.header }
        ensures width { result.now.s ≡ self.now.spread.width }
        ensures few { result.now.count ≤ most_blocks_for (terms_of self.now.spread) }
        ensures range { IsQuery result.now }
    {
        &self.header
    }

    /// The address of the shard at a place, counted from 0.
    pub(crate) fn address(&self, place: u8) -> &str
        requires { place < shards self.now.spread }
        ensures is { result.now ≡ (part_at self.now place).address }
        ensures few { place < MOST_SHARDS }
    {
        &self.addresses[usize::from(place)]
    }

    /// The header of the part of it for that shard.
    pub(crate) fn header_to(&self, place: u8) -> QueryHeader
        requires { place < shards self.now.spread }
        ensures is { result ≡ part_header (part_at self.now place) }
        ensures width { result.s ≡ self.now.spread.width }
        ensures few { result.count ≤ most_blocks_for (terms_of self.now.spread) }
        ensures range { IsQuery result }
    {
        QueryHeader {
            r: self.spread.rows_in(place),
            ..self.header
        }
    }

    /// Writes the part of it for that shard.
    pub(crate) fn write_part(&self, place: u8, part: &mut [u8])
        requires there { place < shards self.now.spread }
        requires room { length part.old ≡ part_len self.now.spread self.now.header.count place }
        ensures { part.new ≡ part_frame (part_at self.now place) }
    {
        let Some((header, slices)) = part.split_first_chunk_mut() else {
            unreachable!()
        };
        write_query_header(&self.header_to(place), header);
        write_slices(self.spread, place, self.header.count, self.vectors, slices);
    }
}
