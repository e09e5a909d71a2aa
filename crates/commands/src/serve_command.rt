//! The command `serve`.

ghost use Rattle.std.specs.Prelude.{◌≡◌, IfErr, OnOk, OnErr};
ghost use Rattle.port_trait.specs.Number.{DATABASE, DOOR, GUEST};
ghost use Rattle.port_trait.specs.Moves.{Touches};
ghost use Rattle.commands.specs.ServeSteps.{OpensDesk, Listens, TouchesDoor, TouchesAtDesk};
ghost use Rattle.commands.specs.ServeSteps.{AttendsInTurn, ServesGuests, RepliesUnlessCut, RunsDry, TouchesGuests};
ghost use Rattle.commands.specs.ServeOutcome.{EndsFromDesk, ServeEnds, ServedAll, ServesAt, TouchesServer};

use crate::orders::ServeOrder;
use crate::status::Status;
use block_matrix::load;
use port_trait::{Failed, Port, Ports, write_all};
use serve_core::{Desk, serve_one};
use server_product::OpenGate;
use std::alloc::Global;
use std::thread::Threads;

/// Loads the database, and opens the desk at which it is served.
///
/// # Errors
///
/// The status that the run ends with.
fn open_desk<P: Ports>(alloc: Global, order: &ServeOrder, ports: &mut P) -> Result<Desk, Status>
    ensures opens { OpensDesk order.now result (P.world ports.old) (P.world ports.new) }
    ensures others { Touches DATABASE (P.world ports.old) (P.world ports.new) }
{
    let Ok(()) = ports.open(Port::Database, order.database) else {
        return Err(Status::ReadFault);
    };
    let matrix = load(alloc, ports, order.width)?;
    Ok(Desk::open(alloc, matrix, order.scheme, order.workers)?)
}

/// Lets guests come in at this address, and says so.
///
/// # Errors
///
/// The status that the run ends with.
pub(crate) fn listen<P: Ports>(address: &str, ports: &mut P) -> Result<(), Status>
    ensures listens { Listens address.now result (P.world ports.old) (P.world ports.new) }
    ensures others { TouchesDoor (P.world ports.old) (P.world ports.new) }
{
    let Ok(()) = ports.open(Port::Door, address) else {
        return Err(Status::DoorFault);
    };
    write_all(ports, Port::Output, b"ready\n").or(Err(Status::WriteFault))
}

/// Serves so many guests, one after the other. A guest that is refused, that goes away or whose calls fail counts as
/// one.
///
/// # Errors
///
/// `Failed` if there was no further guest.
fn serve_guests<R: Threads + Sync, P: Ports>(
    rt: &R,
    desk: &mut Desk,
    conns: u32,
    ports: &mut P,
) -> Result<(), Failed>
    ensures ok { OnOk result (ServesGuests desk.old conns (P.world ports.old) (P.world ports.new)) }
    ensures replied { OnOk result (RepliesUnlessCut desk.old conns (P.world ports.old) (P.world ports.new)) }
    ensures turns { OnOk result (AttendsInTurn desk.old conns (P.world ports.old) (P.world ports.new)) }
    ensures unnamed { ((P.world ports.new).at GUEST).opened ≡ ((P.world ports.old).at GUEST).opened }
    ensures door { OnOk result ((P.world ports.new).at DOOR ≡ (P.world ports.old).at DOOR) }
    ensures failed { OnErr result (RunsDry desk.old conns (P.world ports.old) (P.world ports.new)) }
    ensures others { TouchesGuests (P.world ports.old) (P.world ports.new) }
{
    'guests: for _ in 0..conns {
        let Ok(()) = ports.next_guest() else {
            return Err(Failed);
        };
        serve_one(rt, desk, ports, &OpenGate);
    }
    Ok(())
}

/// Lets guests come in and says so, and answers the query of each at the desk.
///
/// # Errors
///
/// The status that the run ends with.
fn serve_at_desk<R: Threads + Sync, P: Ports>(
    rt: &R,
    desk: &mut Desk,
    order: &ServeOrder,
    ports: &mut P,
) -> Result<(), Status>
    ensures served { OnOk result (ServesAt order.now desk.old (P.world ports.old) (P.world ports.new)) }
    ensures ends { IfErr result (λ status.
        EndsFromDesk order.now desk.old status (P.world ports.old) (P.world ports.new)) }
    ensures others { TouchesAtDesk (P.world ports.old) (P.world ports.new) }
    ensures unnamed { ((P.world ports.new).at GUEST).opened ≡ ((P.world ports.old).at GUEST).opened }
{
    listen(order.listen, ports)?;
    let Ok(()) = serve_guests(rt, desk, order.conns, ports) else {
        return Err(Status::DoorFault);
    };
    Ok(())
}

/// Loads the database, lets guests come in and says so, and answers the query of each.
///
/// # Errors
///
/// The status that the run ends with.
fn serve_database<R: Threads + Sync, P: Ports>(
    rt: &R,
    alloc: Global,
    order: &ServeOrder,
    ports: &mut P,
) -> Result<(), Status>
    ensures served { OnOk result (ServedAll order.now (P.world ports.old) (P.world ports.new)) }
    ensures ends { IfErr result (λ s. ServeEnds order.now s (P.world ports.old) (P.world ports.new)) }
    ensures others { TouchesServer (P.world ports.old) (P.world ports.new) }
    ensures unnamed { ((P.world ports.new).at GUEST).opened ≡ ((P.world ports.old).at GUEST).opened }
{
    let mut desk = open_desk(alloc, order, ports)?;
    serve_at_desk(rt, &mut desk, order, ports)
}

/// Serves a database, and says how that ends.
pub(crate) fn serve_file<R: Threads + Sync, P: Ports>(
    rt: &R,
    alloc: Global,
    order: &ServeOrder,
    ports: &mut P,
) -> Status
    ensures ends { ServeEnds order.now result (P.world ports.old) (P.world ports.new) }
    ensures others { TouchesServer (P.world ports.old) (P.world ports.new) }
    ensures unnamed { ((P.world ports.new).at GUEST).opened ≡ ((P.world ports.old).at GUEST).opened }
{
    match serve_database(rt, alloc, order, ports) {
        Ok(()) => Status::One,
        Err(status) => status,
    }
}
