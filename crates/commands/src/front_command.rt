//! The command `front`.

ghost use Rattle.std.specs.Prelude.{◌≡◌, IfErr, OnOk, OnErr, length, map, string_bytes};
ghost use Rattle.port_trait.specs.Number.{DOOR, GUEST};
ghost use Rattle.shard_front.specs.Spread.{shards};
ghost use Rattle.commands.specs.FrontAnswers.{FrontsAll};
ghost use Rattle.commands.specs.FrontSteps.{FrontRunsDry, FrontsInTurn, TouchesRelaying};
ghost use Rattle.commands.specs.FrontOutcome.{FrontEnds, FrontedAll, TouchesFront};

use crate::orders::FrontOrder;
use crate::serve_command::listen;
use crate::status::Status;
use port_trait::{Failed, Ports};
use shard_front::{Front, front_one};
use std::alloc::Global;

/// Meets so many guests, one after the other. A guest that is refused, that goes away or whose calls fail counts as one, and
/// so does one whose query a shard did not answer.
///
/// # Errors
///
/// `Failed` if there was no further guest.
fn relay_guests<P: Ports>(
    front: &mut Front,
    addresses: &[String],
    conns: u32,
    ports: &mut P,
) -> Result<(), Failed>
    requires { length addresses.now ≡ shards front.old }
    ensures turns { OnOk result (FrontsInTurn front.old (map string_bytes addresses.now) conns
        (P.world ports.old) (P.world ports.new)) }
    ensures guests { OnOk result (FrontsAll front.old conns (P.world ports.old) (P.world ports.new)) }
    ensures door { OnOk result ((P.world ports.new).at DOOR ≡ (P.world ports.old).at DOOR) }
    ensures failed { OnErr result (FrontRunsDry front.old (map string_bytes addresses.now) conns
        (P.world ports.old) (P.world ports.new)) }
    ensures unnamed { ((P.world ports.new).at GUEST).opened ≡ ((P.world ports.old).at GUEST).opened }
    ensures others { TouchesRelaying (shards front.old) (P.world ports.old) (P.world ports.new) }
{
    'guests: for _ in 0..conns {
        let Ok(()) = ports.next_guest() else {
            return Err(Failed);
        };
        front_one(front, addresses, ports);
    }
    Ok(())
}

/// Lets guests come in and says so, and meets each by asking the shards, from a front that is open.
///
/// # Errors
///
/// The status that the run ends with.
fn relay_from<P: Ports>(front: &mut Front, order: &FrontOrder, ports: &mut P) -> Result<(), Status>
    requires { front.old ≡ order.now.spread }
    ensures relayed { OnOk result (FrontedAll order.now (P.world ports.old) (P.world ports.new)) }
    ensures ends { IfErr result (λ s. FrontEnds order.now s (P.world ports.old) (P.world ports.new)) }
    ensures others { TouchesFront (shards order.now.spread) (P.world ports.old) (P.world ports.new) }
    ensures unnamed { ((P.world ports.new).at GUEST).opened ≡ ((P.world ports.old).at GUEST).opened }
{
    listen(order.listen, ports)?;
    let Ok(()) = relay_guests(front, order.addresses, order.conns, ports) else {
        return Err(Status::DoorFault);
    };
    Ok(())
}

/// Opens a front, lets guests come in and says so, and meets each by asking the shards.
///
/// # Errors
///
/// The status that the run ends with.
fn relay_database<P: Ports>(alloc: Global, order: &FrontOrder, ports: &mut P) -> Result<(), Status>
    ensures relayed { OnOk result (FrontedAll order.now (P.world ports.old) (P.world ports.new)) }
    ensures ends { IfErr result (λ s. FrontEnds order.now s (P.world ports.old) (P.world ports.new)) }
    ensures others { TouchesFront (shards order.now.spread) (P.world ports.old) (P.world ports.new) }
    ensures unnamed { ((P.world ports.new).at GUEST).opened ≡ ((P.world ports.old).at GUEST).opened }
{
    let mut front = Front::open(alloc, order.rows, order.width, order.shard)?;
    relay_from(&mut front, order, ports)
}

/// Meets guests by asking shards, and says how that ends.
pub(crate) fn relay_shards<P: Ports>(alloc: Global, order: &FrontOrder, ports: &mut P) -> Status
    ensures ends { FrontEnds order.now result (P.world ports.old) (P.world ports.new) }
    ensures others { TouchesFront (shards order.now.spread) (P.world ports.old) (P.world ports.new) }
    ensures unnamed { ((P.world ports.new).at GUEST).opened ≡ ((P.world ports.old).at GUEST).opened }
{
    match relay_database(alloc, order, ports) {
        Ok(()) => Status::One,
        Err(status) => status,
    }
}
