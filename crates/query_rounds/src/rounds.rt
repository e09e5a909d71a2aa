//! The two rounds in which the servers are asked: each is sent its query before the answer of any is awaited.

ghost use Rattle.std.specs.Prelude.{ℕ, ◌≡◌, ◌<◌, ◌≤◌, ◌+◌, [], length};
ghost use Rattle.port_trait.specs.Number.{link};
ghost use Rattle.port_trait.specs.Moves.{Touches};
ghost use Rattle.port_trait.specs.Each.{TouchesRange};
ghost use Rattle.quantity_limits.specs.declared.TheConstants.{MOST_SERVERS};
ghost use Rattle.wire_frames.specs.Sizes.{answer_len};
ghost use Rattle.query_rounds.specs.Queries.{request_of};
ghost use Rattle.query_rounds.specs.Sent.{frame_len};
ghost use Rattle.query_rounds.specs.Rounds.{SentEach, SentTo, TakenEach, TakesNext};

use crate::links::{ask, take_answer};
use crate::queries::Queries;
use port_trait::Ports;
use wire_frames::Session;

/// Asks the server at a place, counted from 0, and says whether it was reached.
fn ask_at<P: Ports>(queries: &Queries, place: u8, ports: &mut P, frame: &mut [u8]) -> bool
    requires place { place < queries.now.plan.n }
    requires few { place < MOST_SERVERS }
    requires frame { length frame.old ≡ frame_len (request_of queries.now) }
    ensures sent { SentTo queries.now place result (P.world ports.old) (P.world ports.new) }
    ensures others { Touches (link 1 + place) (P.world ports.old) (P.world ports.new) }
{
    queries.write_frame(place + 1, frame);
    let address = queries.address(place);
    ask(ports, place + 1, address, frame)
}

/// The first round: opens the link of each server, in the order of their indices, and gives it its query. `reached`
/// says of each whether its link took the whole of it.
pub(crate) fn ask_all<P: Ports>(
    queries: &Queries,
    ports: &mut P,
    frame: &mut [u8],
    reached: &mut [bool],
)
    requires frame { length frame.old ≡ frame_len (request_of queries.now) }
    requires reached { length reached.old ≡ queries.now.plan.n }
    ensures sent { SentEach queries.now queries.now.plan.n reached.new (P.world ports.old) (P.world ports.new) }
    ensures others { TouchesRange (link 1) queries.now.plan.n (P.world ports.old) (P.world ports.new) }
    ensures few { queries.now.plan.n ≤ MOST_SERVERS }
{
    'places: for place in 0..queries.servers() {
        reached[usize::from(place)] = ask_at(queries, place, ports, frame);
    }
}

/// Takes the answer of the server after those that the session has records of, if it was reached, and adds its record.
fn take_next<P: Ports>(
    reached: bool,
    ports: &mut P,
    index: u8,
    answer: &mut [u8],
    session: &mut Session,
)
    requires next { index ≡ length session.old.records + 1 }
    requires last { index ≤ session.old.params.n }
    requires answer { length answer.old ≡ answer_len session.old.params.count session.old.params.s }
    ensures taken { TakesNext (length answer.old) reached session.old session.new (P.world ports.old) (P.world ports.new) }
    ensures others { Touches (link index) (P.world ports.old) (P.world ports.new) }
{
    match take_answer(reached, ports, index, answer) {
        Some(came) => session.push_record(Some(&answer[..came])),
        None => session.push_record(None),
    }
}

/// The second round: takes the answer of each server that was reached, in the order of their indices, and adds the
/// record of each server.
pub(crate) fn take_all<P: Ports>(
    reached: &[bool],
    ports: &mut P,
    answer: &mut [u8],
    session: &mut Session,
)
    requires reached { length reached.now ≡ session.old.params.n }
    requires answer { length answer.old ≡ answer_len session.old.params.count session.old.params.s }
    requires fresh { session.old.records ≡ [] }
    ensures params { session.new.params ≡ session.old.params }
    ensures whole { length session.new.records ≡ session.old.params.n }
    ensures taken { TakenEach (length answer.old) session.old.params.n reached.now session.new
        (P.world ports.old) (P.world ports.new) }
    ensures others { TouchesRange (link 1) session.old.params.n (P.world ports.old) (P.world ports.new) }
{
    'places: for place in 0..session.n() {
        let is_reached = reached[usize::from(place)];
        take_next(is_reached, ports, place + 1, answer, session);
    }
}
