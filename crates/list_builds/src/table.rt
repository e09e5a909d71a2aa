//! The table of a list, which is written row after row.

ghost use Rattle.std.specs.Prelude.{◌≡◌, ◌<◌, length};
ghost use Rattle.port_trait.specs.Number.{RECORD};
ghost use Rattle.port_trait.specs.Moves.{Touches};
ghost use Rattle.list_builds.specs.Laid.{table_in};
ghost use Rattle.list_builds.specs.TableBytes.{WritesDatabase, WritesRows, table_of};

use crate::fault::BuildFault;
use crate::layout::Laid;
use key_table::TableRows;
use port_trait::{Failed, Port, Ports, write_all};
use sha2::{Digest, Sha256};
use std::alloc::Global;

/// Gives Record, already open, the rows of a table from the first on, each made in `row` before it is written, and
/// returns the SHA-256 of all of them.
///
/// # Errors
///
/// `Failed` if a call on Record failed; it took a proper prefix of the rows.
fn write_rows<P: Ports>(
    ports: &mut P,
    table: &mut TableRows,
    rows: u32,
    row: &mut [u8],
) -> Result<[u8; 32], Failed>
    requires start { table.old.next ≡ 0 }
    requires rows { rows ≡ table.old.rows }
    requires some { 0 < table.old.width }
    requires room { length row.old ≡ table.old.width }
    ensures writes { WritesRows (table_of table.old) result (P.world ports.old) (P.world ports.new) }
    ensures others { Touches RECORD (P.world ports.old) (P.world ports.new) }
{
    let mut hasher = Sha256::new();
    'rows: for _row in 0..rows {
        table.next_row(row);
        write_all(ports, Port::Record, row)?;
        hasher.update(&*row);
    }
    Ok(hasher.finalize())
}

/// Writes the table of a list to the file of this name, in the memory of one row, and returns the SHA-256 of the file.
///
/// # Errors
///
/// `Memory` for want of memory, and then nothing was touched; `DatabaseFault` only where a call on Record failed, whose
/// count rose: it took a proper prefix of the table.
pub(crate) fn write_database<P: Ports>(
    alloc: Global,
    ports: &mut P,
    name: &str,
    laid: &Laid,
) -> Result<[u8; 32], BuildFault>
    ensures writes { WritesDatabase name.now (table_in laid.now) result (P.world ports.old) (P.world ports.new) }
    ensures others { Touches RECORD (P.world ports.old) (P.world ports.new) }
{
    let shape = laid.shape;
    let mut row = vec![in alloc; 0; shape.width as usize]?;
    let mut table = TableRows::new(&laid.sorted, shape.rows, shape.width, laid.tag);
    let Ok(()) = ports.open(Port::Record, name) else {
        return Err(BuildFault::DatabaseFault);
    };
    match write_rows(ports, &mut table, shape.rows, &mut row) {
        Ok(hash) => Ok(hash),
        Err(Failed) => Err(BuildFault::DatabaseFault),
    }
}
