//! Serves the guest that is in, by asking the shards.
ghost use Rattle.std.specs.Prelude.{◌≡◌, ◌<◌, length, map, string_bytes};
ghost use Rattle.port_trait.specs.Number.{GUEST};
ghost use Rattle.port_trait.specs.Moves.{Touches};
ghost use Rattle.wire_frames.specs.Header.{answer_header};
ghost use Rattle.wire_frames.specs.Limits.{IsQuery};
ghost use Rattle.serve_core.specs.Taking.{IsGood};
ghost use Rattle.shard_front.specs.Spread.{IsSpread, shards, terms_of};
ghost use Rattle.shard_front.specs.Room.{Fits, FitsShard, most_answer_for};
ghost use Rattle.shard_front.specs.RelayedQuery.{taken_from};
ghost use Rattle.shard_front.specs.Asked.{lost_frame};
ghost use Rattle.shard_front.specs.Stages.{Gives, RelaysQuery};
ghost use Rattle.shard_front.specs.declared.relayed.Relayed.TheVariants.{ShardLost};
ghost use Rattle.shard_front.specs.Fronted.{Fronts};
ghost use Rattle.shard_front.specs.Relay.{FrontsTold};
ghost use Rattle.shard_front.specs.Honest.{HonestTold};

use crate::LOST;
use crate::front::Front;
use crate::query::RelayedQuery;
use crate::relay::ask_shards;
use crate::relayed::Relayed;
use crate::room::{Room, ShardRoom};
use crate::spread::Spread;
use port_trait::{Failed, Port, Ports, write_all};
use serve_core::{Taken, take_query};
use wire_frames::{
    FRAME_HEADER_LEN, QueryHeader, SHAMIR, answer_len, write_answer_header, write_query_header,
};

/// Writes the header of the answer with this status to a query.
fn write_header(asked: &QueryHeader, status: u8, out: &mut [u8; FRAME_HEADER_LEN])
    requires { IsQuery asked.now }
    ensures { out.new ≡ answer_header asked.now status }
{
    let mut query = [0; FRAME_HEADER_LEN];
    write_query_header(asked, &mut query);
    write_answer_header(&query, status, out);
}

/// Gives the guest a frame, and says that it is met so, or that a call on it failed.
fn give<P: Ports>(ports: &mut P, frame: &[u8], met: Relayed) -> Relayed
    requires { 0 < length frame.now }
    ensures gives { Gives met frame.now result (P.world ports.old) (P.world ports.new) }
    ensures others { Touches GUEST (P.world ports.old) (P.world ports.new) }
{
    match write_all(ports, Port::Guest, frame) {
        Ok(()) => met,
        Err(Failed) => Relayed::GuestFault,
    }
}

/// Gives the guest the frame that names a lost shard.
fn give_lost<P: Ports>(ports: &mut P, asked: &QueryHeader, number: u8) -> Relayed
    requires { IsQuery asked.now }
    ensures gives { Gives (ShardLost number) (lost_frame asked.now number) result
        (P.world ports.old) (P.world ports.new) }
    ensures others { Touches GUEST (P.world ports.old) (P.world ports.new) }
{
    let mut header = [0; FRAME_HEADER_LEN];
    write_header(asked, LOST, &mut header);
    let mut frame = [number; FRAME_HEADER_LEN + 1];
    frame[..FRAME_HEADER_LEN].copy_from_slice(&header);
    give(ports, &frame, Relayed::ShardLost(number))
}

/// Asks the shards for a query, and gives the guest their sum, or the frame that names a lost shard. There is
/// room for the frame.
fn relay_in<P: Ports>(
    relay: &RelayedQuery,
    room: &mut ShardRoom,
    frame: &mut [u8],
    ports: &mut P,
) -> Relayed
    requires fits { FitsShard relay.now.spread room.old }
    requires frame { length frame.old ≡ most_answer_for relay.now.spread }
    ensures fits { FitsShard relay.now.spread room.new }
    ensures relays { RelaysQuery relay.now result (P.world ports.old) (P.world ports.new) }
{
    let asked = relay.header();
    let frame = &mut frame[..answer_len(asked.count, asked.s)];
    let Some((header, sum)) = frame.split_first_chunk_mut() else {
        unreachable!()
    };
    write_header(asked, 0, header);
    match ask_shards(relay, room, sum, ports) {
        None => give(ports, frame, Relayed::Served),
        Some(number) => give_lost(ports, asked, number),
    }
}

/// Relays a query that was taken, whose payload stands at the start of the room for one.
fn relay_query<P: Ports>(
    spread: Spread,
    addresses: &[String],
    asked: &QueryHeader,
    room: &mut Room,
    ports: &mut P,
) -> Relayed
    requires addresses { length addresses.now ≡ shards spread }
    requires good { IsGood (terms_of spread) asked.now }
    requires fits { Fits spread room.old }
    ensures fits { Fits spread room.new }
    ensures relays { RelaysQuery (taken_from spread (map string_bytes addresses.now) asked.now room.old.query.items)
        result (P.world ports.old) (P.world ports.new) }
{
    let query = room.query.as_slice();
    let frame = room.frame.as_mut_slice();
    let relay = RelayedQuery {
        spread,
        addresses,
        header: *asked,
        vectors: &query[..usize::from(asked.count) * spread.rows() as usize],
    };
    relay_in(&relay, &mut room.shard, frame, ports)
}

/// Takes the query of the guest that is in, and asks the shards for it, or refuses it.
pub(crate) fn serve_within<P: Ports>(
    spread: Spread,
    room: &mut Room,
    addresses: &[String],
    ports: &mut P,
) -> Relayed
    requires fits { Fits spread room.old }
    requires addresses { length addresses.now ≡ shards spread }
    ensures spread { IsSpread spread }
    ensures fits { Fits spread room.new }
    ensures fronts { Fronts spread (map string_bytes addresses.now) result
        (P.world ports.old) (P.world ports.new) }
{
    let query = room.query.as_mut_slice();
    match take_query(SHAMIR, spread.rows(), spread.width(), query, ports) {
        Taken::Query(asked) => relay_query(spread, addresses, &asked, room, ports),
        Taken::Refused(status) => Relayed::Refused(status),
        Taken::Gone => Relayed::Gone,
        Taken::GuestFault => Relayed::GuestFault,
    }
}

/// Serves the guest that is in, by asking the shards, of which there is one address each, in their order,
/// and says how the guest was met.
///
/// Its query is taken, refused or found cut as [`serve_one`](serve_core::serve_one) does it at a server
/// of all rows in Shamir's scheme, and no shard is asked before it is whole and good. Then the shards are
/// asked one after the other: the link with the shard's number is opened by its address and given the
/// query for its rows, and as many bytes as a whole answer has are taken of it.
///
/// The first shard whose link fails, or whose bytes are no usable answer, is lost: no link behind it is
/// touched, and the guest is given the frame of status 4, with that number behind the header. Where none is,
/// it is given the frame of status 0 with the sum of the answers. Where each link gives what an honest server
/// of its shard's rows replies, and no call fails, that is the reply of one server of all rows. Where a call on
/// the guest fails, it was given nothing unless all that the reply takes was taken, and then a proper prefix of
/// its frame. The front is the same after every guest, over shards that it may ask. No memory is taken.
pub fn front_one<P: Ports>(front: &mut Front, addresses: &[String], ports: &mut P) -> Relayed
    requires { length addresses.now ≡ shards front.old }
    ensures spread { IsSpread front.old }
    ensures fronts { Fronts front.old (map string_bytes addresses.now) result
        (P.world ports.old) (P.world ports.new) }
    ensures told { FrontsTold front.old result (P.world ports.old) (P.world ports.new) }
    ensures honest { HonestTold front.old result (P.world ports.old) (P.world ports.new) }
    ensures kept { front.new ≡ front.old }
{
    front.serve(addresses, ports)
}
