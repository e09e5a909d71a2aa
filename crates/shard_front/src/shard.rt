//! Asks one shard, and adds its answer to the sum.
ghost use Rattle.std.specs.Prelude.{◌≡◌, ◌+◌, ◌*◌, ◌<◌, length};
ghost use Rattle.port_trait.specs.Number.{link};
ghost use Rattle.port_trait.specs.Moves.{Touches};
ghost use Rattle.shard_front.specs.Spread.{shards};
ghost use Rattle.shard_front.specs.Parts.{part_at};
ghost use Rattle.shard_front.specs.Room.{FitsShard, most_answer_for, most_part_for};
ghost use Rattle.shard_front.specs.Shard.{AddsUsable, AsksShard};

use crate::links::ask;
use crate::query::RelayedQuery;
use crate::room::ShardRoom;
use chor_xor::combine_into;
use port_trait::Ports;
use wire_frames::{QueryHeader, Scheme, answer_len, query_len, usable_answer};

/// Adds the payload to the sum, where the bytes are a usable answer to the query with this header, and says
/// whether they are.
fn add_payload(bytes: &[u8], header: &QueryHeader, sum: &mut [u8]) -> bool
    requires { length sum.old ≡ header.now.count * header.now.s }
    ensures { AddsUsable bytes.now header.now result sum.old sum.new }
{
    match usable_answer(bytes, header) {
        Some(payload) => {
            combine_into(sum, payload);
            true
        }
        None => false,
    }
}

/// Asks the shard at a place, counted from 0, for its part of a query, and adds the payload of its answer to
/// the sum. It says whether it answered. There is room for the part and for the answer.
fn ask_part<P: Ports>(
    relay: &RelayedQuery,
    place: u8,
    part: &mut [u8],
    answer: &mut [u8],
    sum: &mut [u8],
    ports: &mut P,
) -> bool
    requires there { place < shards relay.now.spread }
    requires part { length part.old ≡ most_part_for relay.now.spread }
    requires answer { length answer.old ≡ most_answer_for relay.now.spread }
    requires sum { length sum.old ≡ relay.now.header.count * relay.now.spread.width }
    ensures asks { AsksShard (part_at relay.now place) result sum.old sum.new
        ((P.world ports.old).at (link 1 + place)) ((P.world ports.new).at (link 1 + place)) }
    ensures others { Touches (link 1 + place) (P.world ports.old) (P.world ports.new) }
{
    let header = relay.header_to(place);
    let part = &mut part[..query_len(Scheme::Shamir, header.count, header.r)];
    relay.write_part(place, part);
    let answer = &mut answer[..answer_len(header.count, header.s)];
    let address = relay.address(place);
    match ask(ports, place + 1, address, part, answer) {
        Some(came) => add_payload(&answer[..came], &header, sum),
        None => false,
    }
}

/// The same with the room for one shard.
pub(crate) fn add_shard<P: Ports>(
    relay: &RelayedQuery,
    place: u8,
    room: &mut ShardRoom,
    sum: &mut [u8],
    ports: &mut P,
) -> bool
    requires there { place < shards relay.now.spread }
    requires fits { FitsShard relay.now.spread room.old }
    requires sum { length sum.old ≡ relay.now.header.count * relay.now.spread.width }
    ensures fits { FitsShard relay.now.spread room.new }
    ensures asks { AsksShard (part_at relay.now place) result sum.old sum.new
        ((P.world ports.old).at (link 1 + place)) ((P.world ports.new).at (link 1 + place)) }
    ensures others { Touches (link 1 + place) (P.world ports.old) (P.world ports.new) }
{
    let part = room.part.as_mut_slice();
    let answer = room.answer.as_mut_slice();
    ask_part(relay, place, part, answer, sum, ports)
}
