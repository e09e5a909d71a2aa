//! The answer to a query that was taken.
ghost use Rattle.std.specs.Prelude.{◌≡◌, ◌*◌, ◌≤◌, ◌++◌, length, drop, take};
ghost use Rattle.port_trait.specs.Number.{GUEST};
ghost use Rattle.port_trait.specs.Moves.{Touches};
ghost use Rattle.wire_frames.specs.declared.sizes.TheConstants.{FRAME_HEADER_LEN};
ghost use Rattle.quantity_limits.specs.declared.TheConstants.{MOST_BLOCKS};
ghost use Rattle.wire_frames.specs.Header.{answer_to, query_header};
ghost use Rattle.wire_frames.specs.Limits.{IsQuery};
ghost use Rattle.serve_core.specs.Service.{
  HasVectors,
  frame_len_for,
  most_frame_for,
  most_sums_for,
  sums_len_for,
  terms_of,
};
ghost use Rattle.serve_core.specs.Reply.{answer_frame, answers};
ghost use Rattle.serve_core.specs.Room.{Fits};
ghost use Rattle.serve_core.specs.Taking.{IsGood};
ghost use Rattle.serve_core.specs.Stages.{GivesAnswer};

use crate::give::give;
use crate::met::Met;
use crate::room::Room;
use crate::service::Service;
use port_trait::Ports;
use server_product::{Gate, products_into};
use std::thread::Threads;
use wire_frames::{FRAME_HEADER_LEN, QueryHeader, Scheme, write_answer_header, write_query_header};
use xor_answers::answers_into;

/// A query that was taken: its header, and its vectors, one behind another.
#[derive(Drop)]
struct Query<'a> {
    asked: QueryHeader,
    vectors: &'a [u8],
}

/// Writes the answers to the vectors of a query, one behind another. The database is read once for
/// a group of vectors, and the workers share its rows.
fn write_rows<R: Threads + Sync, G: Gate + Sync>(
    rt: &R,
    service: &Service,
    query: &Query,
    scratch: &mut [u8],
    gate: &G,
    out: &mut [u8],
)
    requires few { query.now.asked.count ≤ MOST_BLOCKS }
    requires query { HasVectors service.now query.now.asked.count query.now.vectors.now }
    requires scratch { length scratch.old ≡ sums_len_for service.now query.now.asked.count }
    requires room { length out.old ≡ query.now.asked.count * service.now.database.width }
    ensures answers { out.new ≡ answers service.now query.now.asked.count query.now.vectors.now }
    ensures scratch { length scratch.new ≡ length scratch.old }
{
    let matrix = service.matrix();
    let workers = service.workers();
    let vectors = query.vectors;
    let count = query.asked.count;
    match service.scheme() {
        Scheme::Shamir => products_into(rt, matrix, vectors, count, workers, scratch, gate, out),
        Scheme::Xor => answers_into(rt, matrix, vectors, count, workers, scratch, gate, out),
    }
}

/// Writes the header of the answer to a query at the start of its frame.
fn write_header(asked: &QueryHeader, frame: &mut [u8])
    requires query { IsQuery asked.now }
    requires room { FRAME_HEADER_LEN ≤ length frame.old }
    ensures { frame.new ≡ answer_to (query_header asked.now) 0 ++ drop FRAME_HEADER_LEN frame.old }
{
    let mut header = [0; FRAME_HEADER_LEN];
    write_query_header(asked, &mut header);
    let head = frame.first_chunk_mut().unwrap();
    write_answer_header(&header, 0, head);
}

/// Writes the frame of the answer to a query.
fn write_frame<R: Threads + Sync, G: Gate + Sync>(
    rt: &R,
    service: &Service,
    query: &Query,
    scratch: &mut [u8],
    gate: &G,
    frame: &mut [u8],
)
    requires good { IsGood (terms_of service.now) query.now.asked }
    requires query { HasVectors service.now query.now.asked.count query.now.vectors.now }
    requires scratch { length scratch.old ≡ sums_len_for service.now query.now.asked.count }
    requires room { length frame.old ≡ frame_len_for service.now query.now.asked.count }
    ensures frame { frame.new ≡ answer_frame service.now (query_header query.now.asked) query.now.vectors.now }
    ensures scratch { length scratch.new ≡ length scratch.old }
{
    write_header(&query.asked, frame);
    let rows = &mut frame[FRAME_HEADER_LEN..];
    write_rows(rt, service, query, scratch, gate, rows);
}

/// Writes the frame of the answer to a query at the start of the room for one.
fn write_within<R: Threads + Sync, G: Gate + Sync>(
    rt: &R,
    service: &Service,
    query: &Query,
    scratch: &mut [u8],
    gate: &G,
    frame: &mut [u8],
)
    requires good { IsGood (terms_of service.now) query.now.asked }
    requires query { HasVectors service.now query.now.asked.count query.now.vectors.now }
    requires scratch { length scratch.old ≡ most_sums_for service.now }
    requires room { length frame.old ≡ most_frame_for service.now }
    ensures frame { take (frame_len_for service.now query.now.asked.count) frame.new
        ≡ answer_frame service.now (query_header query.now.asked) query.now.vectors.now }
    ensures size { frame_len_for service.now query.now.asked.count ≤ length frame.new }
    ensures scratch { length scratch.new ≡ length scratch.old }
{
    let count = query.asked.count;
    let scratch = &mut scratch[..service.sums_len(count)];
    let frame = &mut frame[..service.frame_len(count)];
    write_frame(rt, service, query, scratch, gate, frame);
}

/// Gives the guest the answer to its query, whose payload stands at the start of the room for one.
pub(crate) fn answer_query<R: Threads + Sync, G: Gate + Sync, P: Ports>(
    rt: &R,
    service: &Service,
    asked: &QueryHeader,
    room: &mut Room,
    ports: &mut P,
    gate: &G,
) -> Met
    requires good { IsGood (terms_of service.now) asked.now }
    requires fits { Fits service.now room.old }
    ensures fits { Fits service.now room.new }
    ensures gives { GivesAnswer service.now asked.now room.old.query.items result
        (P.world ports.old) (P.world ports.new) }
    ensures others { Touches GUEST (P.world ports.old) (P.world ports.new) }
{
    let payload = room.query.as_slice();
    let scratch = room.scratch.as_mut_slice();
    let frame = room.frame.as_mut_slice();
    let query = Query {
        asked: *asked,
        vectors: &payload[..service.payload_len(asked.count)],
    };
    write_within(rt, service, &query, scratch, gate, frame);
    let written = room.frame.as_slice();
    give(
        ports,
        &written[..service.frame_len(asked.count)],
        Met::Served,
    )
}
