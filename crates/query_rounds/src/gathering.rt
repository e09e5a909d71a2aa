//! All servers are asked, and what they answer is kept.

ghost use Rattle.std.specs.Prelude.{◌≡◌, length, map, string_bytes, IfOk, vec_len};
ghost use Rattle.query_rounds.specs.Plan.{AreBlocks, IsPlan};
ghost use Rattle.query_rounds.specs.Queries.{request_of};
ghost use Rattle.query_rounds.specs.Request.{request};
ghost use Rattle.query_rounds.specs.Sent.{empty_session, frame_len, reply_len};
ghost use Rattle.query_rounds.specs.Gathered.{AsksServers, GathersTo, TouchesLinks};

use crate::plan::{FetchFault, FetchPlan};
use crate::queries::Queries;
use crate::rounds::{ask_all, take_all};
use port_trait::Ports;
use std::alloc::{AllocError, Global};
use wire_frames::Session;

/// The memory that a fetch takes, beside the coins, before anything is touched: room for one query and for one answer,
/// for each server a mark, whether it was reached, and a session with no record yet.
#[derive(Drop)]
struct Room {
    frame: Vec<u8>,
    answer: Vec<u8>,
    reached: Vec<bool>,
    session: Session,
}

/// Takes that memory.
fn room_for(alloc: Global, queries: &Queries) -> Result<Room, AllocError>
    ensures session { IfOk result (λ room. room.session ≡ empty_session (request_of queries.now) 0) }
    ensures frame { IfOk result (λ room. vec_len room.frame ≡ frame_len (request_of queries.now)) }
    ensures answer { IfOk result (λ room. vec_len room.answer ≡ reply_len (request_of queries.now)) }
    ensures reached { IfOk result (λ room. vec_len room.reached ≡ queries.now.plan.n) }
{
    Ok(Room {
        frame: vec![in alloc; 0; queries.frame_len()]?,
        answer: vec![in alloc; 0; queries.answer_len()]?,
        reached: vec![in alloc; false; usize::from(queries.servers())]?,
        session: Session::new(alloc, queries.params())?,
    })
}

/// Takes the coins, gives the session its number, asks every server, and then takes the answer of each. No server is
/// left out of either round, whatever the others answer.
///
/// # Errors
///
/// `CoinsFault` and `CoinsEnded`, as [`gather`].
fn ask_servers<P: Ports>(
    queries: &mut Queries,
    ports: &mut P,
    room: &mut Room,
) -> Result<(), FetchFault>
    requires session { room.old.session ≡ empty_session (request_of queries.old) 0 }
    requires frame { vec_len room.old.frame ≡ frame_len (request_of queries.old) }
    requires answer { vec_len room.old.answer ≡ reply_len (request_of queries.old) }
    requires reached { vec_len room.old.reached ≡ queries.old.plan.n }
    ensures request { request_of queries.new ≡ request_of queries.old }
    ensures asked { AsksServers queries.new result room.new.session (P.world ports.old) (P.world ports.new) }
    ensures others { TouchesLinks queries.old.plan.n (P.world ports.old) (P.world ports.new) }
{
    queries.take_coins(ports)?;
    room.session.set_session(queries.session_number());
    ask_all(queries, ports, &mut room.frame, &mut room.reached);
    take_all(&room.reached, ports, &mut room.answer, &mut room.session);
    Ok(())
}

/// What a fetch has when every server was asked.
#[derive(Drop)]
pub struct Gathered<'a> {
    /// What the servers were asked.
    pub queries: Queries<'a>,
    /// What each of them answered, or that a call on its link failed.
    pub session: Session,
}

/// Takes the memory and the coins, asks every server for these blocks, and takes the answer of each. Coins is open
/// already; there is one address for each server, in the order of their indices. The memory is taken first. No server is left
/// out, and no byte that is sent depends on an answer.
///
/// # Errors
///
/// `CoinsFault` only where the count of Coins rose, and then fewer coins were taken than are needed; `CoinsEnded`
/// exactly where there are fewer coins, with their number; at both no server was asked. `Memory` for want of memory,
/// before anything was touched or when all were asked.
pub fn gather<'a, P: Ports>(
    alloc: Global,
    plan: &FetchPlan,
    blocks: &'a [u32],
    addresses: &'a [String],
    ports: &mut P,
) -> Result<Gathered<'a>, FetchFault>
    requires plan { IsPlan plan.now }
    requires blocks { AreBlocks plan.now blocks.now }
    requires addresses { length addresses.now ≡ plan.now.n }
    ensures gathered { GathersTo (request plan.now blocks.now (map string_bytes addresses.now)) result
        (P.world ports.old) (P.world ports.new) }
    ensures others { TouchesLinks plan.now.n (P.world ports.old) (P.world ports.new) }
{
    let mut queries = Queries::with_room(alloc, plan, blocks, addresses)?;
    let mut room = room_for(alloc, &queries)?;
    ask_servers(&mut queries, ports, &mut room)?;
    let Room {
        mut frame,
        answer: _,
        reached: _,
        session,
    } = room;
    // The query of the last server isn't left in memory.
    frame.fill(0);
    Ok(Gathered { queries, session })
}
