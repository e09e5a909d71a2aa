//! The servers are asked for the rows of keys.

ghost use Rattle.std.specs.Prelude.{◌≡◌, ◌≤◌, ◌<◌, length, map};
ghost use Rattle.port_trait.specs.Number.{COINS};
ghost use Rattle.query_rounds.specs.Gathered.{TouchesLinks};
ghost use Rattle.list_finds.specs.Found.{FindsKeys};
ghost use Rattle.list_finds.specs.Wanted.{held_keys};
ghost use Rattle.list_finds.specs.declared.TheConstants.{MOST_KEYS};
ghost use Rattle.list_tool.specs.Asking.{Asks, IsListTable, wanted_for};

use crate::fault::FindFault;
use crate::table::{ListTable, plan_of};
use gs_interpolate::Koetter;
use list_catalog::Servers;
use list_finds::{Finds, Search, find_keys};
use port_trait::{Port, Ports};
use query_rounds::FetchFault;
use std::alloc::Global;
use std::marker::Brand;
use std::sync::ledger::{Blank, Ledger};
use uni_poly::steps::Steps;

/// Makes the fetches of a search, with counters of columns and of nodes that nobody reads, made of the blanks.
fn find_uncounted<C: Ledger, N: Ledger, P: Ports>(
    alloc: Global,
    cols: Blank,
    nodes: Blank,
    search: Search,
    ports: &mut P,
) -> Result<Finds, FetchFault>
    requires cols { (cols.name ≡ C.name) × (cols.parts ≡ C.parts) × (0 < cols.parts) }
    requires nodes { (nodes.name ≡ N.name) × (nodes.parts ≡ N.parts) × (0 < nodes.parts) }
    ensures found { FindsKeys search.entry result ((P.world ports.old).at COINS)
        (P.world ports.old) (P.world ports.new) }
    ensures others { TouchesLinks search.entry.plan.n (P.world ports.old) (P.world ports.new) }
{
    let mut cols: Steps<C> = Steps::new(cols);
    let mut nodes: Steps<N> = Steps::new(nodes);
    find_keys(alloc, &Koetter, search, ports, &mut cols, &mut nodes)
}

/// Opens Coins by this name, and finds keys in the list of a table that servers have. All memory for the answers is taken
/// before Coins is opened.
///
/// # Errors
///
/// `Fetch` with the fault of [`find_keys`], or with `CoinsFault` where Coins can't be opened; `Memory` for want of memory.
pub(crate) fn ask<P: Ports>(
    alloc: Global,
    ports: &mut P,
    table: &ListTable,
    servers: &Servers,
    keys: &[&[u8]],
    coins: &str,
) -> Result<Finds, FindFault>
    requires table { IsListTable table.now }
    requires keys { length keys.now ≤ MOST_KEYS }
    ensures { Asks (wanted_for table.now servers.now (held_keys keys.now)) coins.now result
        (P.world ports.old) (P.world ports.new) }
{
    let plan = plan_of(table, servers);
    let search = Search::new(alloc, &plan, &table.list, keys, servers.addresses())?;
    let Ok(()) = ports.open(Port::Coins, coins) else {
        return Err(FindFault::Fetch(FetchFault::CoinsFault));
    };
    let (cols, nodes) = (Blank::new(1), Blank::new(1));
    match find_uncounted::<Brand, Brand, P>(alloc, cols, nodes, search, ports) {
        Ok(finds) => Ok(finds),
        Err(fault) => Err(FindFault::Fetch(fault)),
    }
}
