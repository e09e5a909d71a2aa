//! The command `find`.

ghost use Rattle.std.specs.Prelude.{◌≡◌, length, map};
ghost use Rattle.list_finds.specs.Wanted.{held_keys};
ghost use Rattle.list_tool.specs.Asking.{IsListTable};
ghost use Rattle.list_tool.specs.Finding.{AnswersTo, FindsInList};
ghost use Rattle.list_tool.specs.Looked.{NamesRow};

use crate::asking::ask;
use crate::catalog_file::load_catalog;
use crate::fault::FindFault;
use crate::keys_file::{form_for, read_keys, slices_of};
use crate::looked::Looked;
use crate::options::addresses_by;
use crate::table::{ListTable, table_of};
use crate::text::{value_text, write_answers};
use list_catalog::{Servers, with_options};
use list_finds::{Ending, Finds};
use list_words::Find;
use port_trait::{Failed, Port, Ports};
use std::alloc::Global;

/// The row of the first key whose row is broken, where each verdict listed one block.
fn broken_row(table: &ListTable, keys: &[&[u8]], finds: &Finds) -> Option<u32>
    requires table { IsListTable table.now }
    requires each { length keys.now ≡ length finds.now.answers }
    ensures { NamesRow table.now (held_keys keys.now) finds.now result }
{
    match finds.end() {
        Ending::BrokenRow(place) => Some(table.list.row_of_key(table.rows, keys[place])),
        Ending::Unlisted(_) | Ending::Settled => None,
    }
}

/// Finds keys in the list of a table that servers have, and writes what is known of each.
fn answer_keys<P: Ports>(
    alloc: Global,
    ports: &mut P,
    order: &Find,
    table: &ListTable,
    servers: &Servers,
) -> Result<Looked, FindFault>
    requires { IsListTable table.now }
    ensures { AnswersTo order.now table.now servers.now result (P.world ports.old) (P.world ports.new) }
{
    let most = table.list.most;
    let keys = match read_keys(alloc, ports, order.keys, form_for(most)) {
        Ok(keys) => keys,
        Err(fault) => return Err(FindFault::Keys(fault)),
    };
    let slices = slices_of(alloc, &keys)?;
    let finds = ask(alloc, ports, table, servers, &slices, order.coins)?;
    let row = broken_row(table, &slices, &finds);
    match write_answers(ports, value_text(most, order.hex), &keys, &finds) {
        Ok(()) => Ok(Looked {
            finds,
            broken_row: row,
        }),
        Err(Failed) => Err(FindFault::WriteFault),
    }
}

/// Looks up keys in a list: reads the catalog as Database, takes what options say in place of what it says of the servers,
/// reads the keys as Input, opens Coins, asks every server in each query, and when all queries are done writes a line for
/// each key to Output, in their order.
///
/// # Errors
///
/// The first of these: `Catalog`, `Servers`, `Keys`, `Fetch`, `WriteFault`, each exactly where its cause is; `Memory` for want
/// of memory.
pub fn find_in_list<P: Ports>(
    alloc: Global,
    order: &Find,
    ports: &mut P,
) -> Result<Looked, FindFault>
    ensures { FindsInList order.now result (P.world ports.old) (P.world ports.new) }
{
    let catalog = match load_catalog(alloc, ports, Port::Database, order.catalog) {
        Ok(catalog) => catalog,
        Err(fault) => return Err(FindFault::Catalog(fault)),
    };
    let table = table_of(&catalog);
    let addresses = addresses_by(alloc, order.servers)?;
    match with_options(catalog.servers, addresses, order.degree, order.agree) {
        Ok(servers) => answer_keys(alloc, ports, order, &table, &servers),
        Err(fault) => Err(FindFault::Servers(fault)),
    }
}
