//! The command `lookup`.

ghost use Rattle.std.specs.Prelude.{◌≡◌};
ghost use Rattle.port_trait.specs.Number.{OUTPUT};
ghost use Rattle.port_trait.specs.Moves.{Touches};
ghost use Rattle.query_rounds.specs.Gathered.{TouchesLinks};
ghost use Rattle.drawn_workload.specs.Counters.{IsOwn};
ghost use Rattle.commands.specs.LookUpOutcome.{EndTold, LookUpEnds, LooksUpBy, TouchesLookUp};
ghost use Rattle.commands.specs.Table.{status_of_end};

use crate::orders::LookUpOrder;
use crate::report::status_by;
use crate::status::Status;
use fetch_client::FetchFault;
use gs_interpolate::Koetter;
use key_fetches::{Ending, KeyRequest, LookUp, look_up, write_end};
use port_trait::{Failed, Port, Ports};
use std::alloc::Global;
use std::marker::Brand;
use std::sync::ledger::{Blank, Ledger};
use uni_poly::steps::Steps;

/// Makes the fetches of a look-up, with counters of columns and of nodes that nobody reads, made of the blanks.
fn look_up_uncounted<C: Ledger, N: Ledger, P: Ports>(
    alloc: Global,
    cols: Blank,
    nodes: Blank,
    order: &LookUpOrder,
    ports: &mut P,
) -> Result<LookUp, FetchFault>
    requires cols { IsOwn cols C.name C.parts }
    requires nodes { IsOwn nodes N.name N.parts }
    ensures looked { LooksUpBy order.now result (P.world ports.old) (P.world ports.new) }
    ensures others { TouchesLinks order.now.plan.n (P.world ports.old) (P.world ports.new) }
{
    let mut cols: Steps<C> = Steps::new(cols);
    let mut nodes: Steps<N> = Steps::new(nodes);
    let request = KeyRequest::new(&order.plan, order.key, order.addresses);
    look_up(alloc, &Koetter, &request, ports, &mut cols, &mut nodes)
}

/// The status that a look-up ends with: that of the first verdict that did not list exactly one block, or else whether a
/// row begins with the key.
fn status_of(look_up: &LookUp) -> Status
    ensures { result ≡ status_of_end look_up.now }
{
    match look_up.end() {
        Ending::Unlisted(verdict) => status_by(verdict),
        Ending::Found(_row) => Status::One,
        Ending::Absent => Status::Absent,
    }
}

/// Writes the text of what a look-up came to.
fn report_end<P: Ports>(ports: &mut P, look_up: &LookUp) -> Status
    ensures told { EndTold look_up.now result (P.world ports.old) (P.world ports.new) }
    ensures others { Touches OUTPUT (P.world ports.old) (P.world ports.new) }
{
    match write_end(ports, look_up) {
        Ok(()) => status_of(look_up),
        Err(Failed) => Status::WriteFault,
    }
}

/// Looks up a row by its key: reads the coins from their file, makes a fetch in each turn, and then writes what they
/// came to.
pub(crate) fn look_up_row<P: Ports>(alloc: Global, order: &LookUpOrder, ports: &mut P) -> Status
    ensures ends { LookUpEnds order.now result (P.world ports.old) (P.world ports.new) }
    ensures others { TouchesLookUp order.now.plan.n (P.world ports.old) (P.world ports.new) }
{
    let Ok(()) = ports.open(Port::Coins, order.coins) else {
        return Status::ReadFault;
    };
    let (cols, nodes) = (Blank::new(1), Blank::new(1));
    match look_up_uncounted::<Brand, Brand, P>(alloc, cols, nodes, order, ports) {
        Ok(look_up) => report_end(ports, &look_up),
        Err(fault) => fault.into(),
    }
}
