//! A list of keys becomes a database and its catalog.

ghost use Rattle.list_builds.specs.Builds.{Builds, TouchesBuilt};
ghost use Rattle.list_builds.specs.Promise.{BuildPromise};

use crate::fault::{BuildFault, Built};
use crate::layout::lay_out;
use crate::order::BuildOrder;
use crate::read::read_list;
use crate::salt::take_salt;
use crate::writing::write_list;
use port_trait::Ports;
use std::alloc::Global;

/// The steps of [`build_list`]: the salt is taken, the list is read and laid out, and then it is written.
fn build_in_steps<P: Ports>(
    alloc: Global,
    ports: &mut P,
    order: &BuildOrder,
) -> Result<Built, BuildFault>
    ensures builds { Builds order.now result (P.world ports.old) (P.world ports.new) }
    ensures others { TouchesBuilt order.now (P.world ports.old) (P.world ports.new) }
{
    let salt = take_salt(ports, order.coins)?;
    let list = read_list(
        alloc,
        ports,
        order.keys,
        &salt,
        order.digest,
        order.values.terms(),
    )?;
    let all_end_with_return = list.all_end_with_return;
    let laid = lay_out(list, salt, order.values, order.rows)?;
    write_list(alloc, ports, &laid, order.database, order.catalog)?;
    Ok(Built {
        entries: laid.sorted.count(),
        rows: laid.shape.rows,
        width: laid.shape.width,
        all_end_with_return,
    })
}

/// Builds a database of a list of keys, and its catalog.
///
/// The first 16 bytes of Coins are the salt; Input is the list, which is read to its end; the table goes to Record, row
/// after row; and the catalog goes to its file, or to standard output, behind the whole table.
///
/// ```
/// // Input holds "alpha\nbeta\n", and the order has digests of 16 bytes and no values.
/// let built = build_list(alloc, ports, &order)?;
/// println!(rt; "{} entries in {} rows of {} bytes", built.entries, built.rows, built.width)?; // 2 entries ..
/// ```
///
/// # Errors
///
/// Those of [`BuildFault`], each exactly where its cause is. No file to write is opened before the shape of the table is
/// known, and the catalog's only behind the whole table.
pub fn build_list<P: Ports>(
    alloc: Global,
    ports: &mut P,
    order: &BuildOrder,
) -> Result<Built, BuildFault>
    // What was done, by what it answers.
    ensures builds { Builds order.now result (P.world ports.old) (P.world ports.new) }
    // What it answers where the list is good and no call failed.
    ensures promise { BuildPromise order.now result (P.world ports.old) (P.world ports.new) }
    ensures others { TouchesBuilt order.now (P.world ports.old) (P.world ports.new) }
{
    build_in_steps(alloc, ports, order)
}
