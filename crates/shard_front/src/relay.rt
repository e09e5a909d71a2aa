//! Asks the shards for a query, in their order.
ghost use Rattle.std.specs.Prelude.{◌≡◌, ◌*◌, length};
ghost use Rattle.shard_front.specs.Room.{FitsShard};
ghost use Rattle.shard_front.specs.Asked.{AsksShards};

use crate::query::RelayedQuery;
use crate::room::ShardRoom;
use crate::shard::add_shard;
use gf256::rows::clear;
use port_trait::Ports;

/// Asks each shard for its part of a query, in their order, and sums the payloads of their answers. It
/// stops at the first that is lost, and says its number.
pub(crate) fn ask_shards<P: Ports>(
    relay: &RelayedQuery,
    room: &mut ShardRoom,
    sum: &mut [u8],
    ports: &mut P,
) -> Option<u8>
    requires fits { FitsShard relay.now.spread room.old }
    requires sum { length sum.old ≡ relay.now.header.count * relay.now.spread.width }
    ensures fits { FitsShard relay.now.spread room.new }
    ensures asks { AsksShards relay.now result sum.new (P.world ports.old) (P.world ports.new) }
    ensures size { length sum.new ≡ relay.now.header.count * relay.now.spread.width }
{
    clear(sum);
    'places: for place in 0..relay.shards() {
        if !add_shard(relay, place, room, sum, ports) {
            return Some(place + 1);
        }
    }
    None
}
