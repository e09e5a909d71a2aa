//! The command `check`.

ghost use Rattle.std.specs.Prelude.{◌≡◌};
ghost use Rattle.port_trait.specs.Number.{OUTPUT};
ghost use Rattle.port_trait.specs.Moves.{Touches};
ghost use Rattle.list_checks.specs.Claims.{IsClaim};
ghost use Rattle.list_tool.specs.Checking.{ChecksList, TellsText, claim_for};

use crate::catalog_file::load_catalog;
use crate::check_text::check_text;
use crate::fault::LoadFault;
use list_catalog::Catalog;
use list_checks::{CheckFault, Claim, Tally, check_database};
use list_words::Check;
use port_trait::{Failed, Port, Ports, write_all};
use std::alloc::Global;
use thiserror::Error;

/// Why a file isn't said to be the database of a catalog. Its text is a sentence.
#[derive(Debug, Drop, Error)]
pub enum CheckListFault {
    /// There is no catalog. Nothing else was opened.
    #[error("{0}")]
    Catalog(LoadFault),
    /// The file isn't the database that the catalog is of. Nothing was written.
    #[error("{0}")]
    Database(CheckFault),
    /// The file is the database, and a call on Output failed, which has taken a prefix of the text.
    #[error("a call on the output failed")]
    WriteFault,
    /// The file is the database, and there is no memory for the text. Nothing was written.
    #[error("no memory")]
    Memory,
}

/// What a catalog says of the database.
fn claim_of(catalog: &Catalog) -> Claim
    ensures is { result ≡ claim_for catalog.now }
    ensures claim { IsClaim result }
{
    Claim {
        tag: catalog.tag,
        size: catalog.digest,
        most: catalog.value,
        rows: catalog.rows,
        width: catalog.width,
        entries: catalog.entries,
        sha256: catalog.sha256,
    }
}

/// Writes the text of a database that is the catalog's.
fn write_check<P: Ports>(
    alloc: Global,
    ports: &mut P,
    catalog: &Catalog,
    fullest: u16,
    database: &str,
) -> Result<(), CheckListFault>
    ensures tells { TellsText catalog.now fullest database.now result (P.world ports.old) (P.world ports.new) }
    ensures others { Touches OUTPUT (P.world ports.old) (P.world ports.new) }
{
    let Ok(text) = check_text(alloc, catalog, fullest, database) else {
        return Err(CheckListFault::Memory);
    };
    match write_all(ports, Port::Output, text.as_bytes()) {
        Ok(()) => Ok(()),
        Err(Failed) => Err(CheckListFault::WriteFault),
    }
}

/// Checks whether a file is the database that a catalog is of: reads the catalog as Input, checks the file as Database, and
/// where all holds writes to Output how many entries there are, how many the fullest row has and one in the mean, the bytes
/// that one look-up sends to each server and takes from it, and the words that serve the file.
///
/// # Errors
///
/// The first of these: `Catalog`, `Database`, each exactly where its cause is, then `Memory` for want of memory, and
/// `WriteFault` exactly where a call on Output failed.
pub fn check_list<P: Ports>(
    alloc: Global,
    order: &Check,
    ports: &mut P,
) -> Result<Tally, CheckListFault>
    ensures { ChecksList order.now result (P.world ports.old) (P.world ports.new) }
{
    let catalog = match load_catalog(alloc, ports, Port::Input, order.catalog) {
        Ok(catalog) => catalog,
        Err(fault) => return Err(CheckListFault::Catalog(fault)),
    };
    let tally = match check_database(alloc, ports, order.database, &claim_of(&catalog)) {
        Ok(tally) => tally,
        Err(fault) => return Err(CheckListFault::Database(fault)),
    };
    match write_check(alloc, ports, &catalog, tally.fullest, order.database) {
        Ok(()) => Ok(tally),
        Err(fault) => Err(fault),
    }
}
