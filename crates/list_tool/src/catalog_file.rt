//! The catalog in a file.

ghost use Rattle.std.specs.Prelude.{◌≡◌, ◌≢◌, ◌+◌, ◌<◌, ◌≤◌, length, IfOk};
ghost use Rattle.port_trait.specs.Number.{GUEST, number};
ghost use Rattle.port_trait.specs.Moves.{Touches};
ghost use Rattle.list_catalog.specs.declared.TheConstants.{MOST_CATALOG};
ghost use Rattle.list_tool.specs.Loading.{FillsText, LoadsCatalog, LoadsOpened, ReadsText};

use crate::fault::LoadFault;
use list_catalog::{Catalog, CatalogFault, MOST_CATALOG, read_catalog};
use port_trait::{Failed, Filled, Port, Ports, read_exactly};
use std::alloc::Global;

/// Reads a port, already open, to its end, or as many bytes of it as there is room for, and returns how many came.
fn fill<P: Ports>(ports: &mut P, port: Port, room: &mut [u8]) -> Result<usize, Failed>
    requires { 0 < length room.old }
    ensures fills { FillsText (number port) result room.old room.new (P.world ports.old) (P.world ports.new) }
    ensures within { IfOk result (λ count. count ≤ length room.old) }
    ensures others { Touches (number port) (P.world ports.old) (P.world ports.new) }
{
    match read_exactly(ports, port, room) {
        Filled::Full => Ok(room.len()),
        Filled::Ended(count) => Ok(count),
        Filled::Failed => Err(Failed),
    }
}

/// The catalog that a text is.
fn read_text(alloc: Global, text: &[u8]) -> Result<Catalog, LoadFault>
    ensures { ReadsText text.now result }
{
    match read_catalog(alloc, text) {
        Ok(catalog) => Ok(catalog),
        Err(CatalogFault::Memory) => Err(LoadFault::Memory),
        Err(fault) => Err(LoadFault::Refused(fault)),
    }
}

/// Reads the catalog in the file of a port that is open, into the room.
fn load_opened<P: Ports>(
    alloc: Global,
    ports: &mut P,
    port: Port,
    room: &mut [u8],
) -> Result<Catalog, LoadFault>
    requires { length room.old ≡ MOST_CATALOG + 1 }
    ensures loads { LoadsOpened (number port) result (P.world ports.old) (P.world ports.new) }
    ensures others { Touches (number port) (P.world ports.old) (P.world ports.new) }
{
    match fill(ports, port, room) {
        Ok(count) => read_text(alloc, &room[..count]),
        Err(Failed) => Err(LoadFault::ReadFault),
    }
}

/// Opens a port by this name, and reads the catalog in its file. Of a file that is too long one byte more is read than a
/// catalog may have.
///
/// # Errors
///
/// `ReadFault` only where a call on the port failed, whose count rose; `Refused` exactly where the file has no catalog, with
/// the fault; `Memory` for want of memory.
pub fn load_catalog<P: Ports>(
    alloc: Global,
    ports: &mut P,
    port: Port,
    name: &str,
) -> Result<Catalog, LoadFault>
    requires { number port ≢ GUEST }
    ensures loads { LoadsCatalog (number port) name.now result (P.world ports.old) (P.world ports.new) }
    ensures others { Touches (number port) (P.world ports.old) (P.world ports.new) }
{
    let mut room = vec![in alloc; 0; MOST_CATALOG + 1]?;
    let Ok(()) = ports.open(port, name) else {
        return Err(LoadFault::ReadFault);
    };
    load_opened(alloc, ports, port, &mut room)
}
