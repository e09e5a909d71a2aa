//! Attends to the guest that is in, with the room of a desk.
ghost use Rattle.port_trait.specs.Number.{GUEST};
ghost use Rattle.port_trait.specs.Moves.{Touches};
ghost use Rattle.serve_core.specs.Attended.{Attends};
ghost use Rattle.serve_core.specs.Room.{Fits};

use crate::answer::answer_query;
use crate::met::Met;
use crate::room::Room;
use crate::service::Service;
use crate::take::take_query;
use crate::taken::Taken;
use port_trait::Ports;
use server_product::Gate;
use std::thread::Threads;

/// Takes the query of the guest that is in, and gives the guest the answer, or refuses the query.
pub(crate) fn attend<R: Threads + Sync, G: Gate + Sync, P: Ports>(
    rt: &R,
    service: &Service,
    room: &mut Room,
    ports: &mut P,
    gate: &G,
) -> Met
    requires fits { Fits service.now room.old }
    ensures fits { Fits service.now room.new }
    ensures attends { Attends service.now result (P.world ports.old) (P.world ports.new) }
    ensures others { Touches GUEST (P.world ports.old) (P.world ports.new) }
{
    let terms = service.terms();
    let query = room.query.as_mut_slice();
    match take_query(terms.scheme, terms.rows, terms.width, query, ports) {
        Taken::Query(asked) => answer_query(rt, service, &asked, room, ports, gate),
        Taken::Refused(status) => Met::Refused(status),
        Taken::Gone => Met::Gone,
        Taken::GuestFault => Met::GuestFault,
    }
}
