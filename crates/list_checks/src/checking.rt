//! Checks a database, row by row.

ghost use Rattle.std.specs.Prelude.{◌≡◌, length};
ghost use Rattle.port_trait.specs.Number.{DATABASE};
ghost use Rattle.port_trait.specs.Moves.{Touches};
ghost use Rattle.list_checks.specs.Claims.{IsClaim};
ghost use Rattle.list_checks.specs.Checks.{Checks, Finds};
ghost use Rattle.list_checks.specs.Steps.{ChecksRows, JudgesWhole};

use crate::claim::Claim;
use crate::fault::CheckFault;
use crate::row::{read_row, refuse_more};
use crate::tally::Tally;
use port_trait::{Port, Ports};
use sha2::{Digest, Sha256};
use std::alloc::Global;

/// What the rows of a database came to.
#[derive(Clone, Copy, Debug, PartialEq, Eq)]
struct Counted {
    tally: Tally,
    /// The SHA-256 of all rows.
    sha256: [u8; 32],
}

/// Reads the rows of Database, already open, one after the other into `room`, and counts their entries.
///
/// # Errors
///
/// Those of [`read_row`], for the first row that has one.
fn check_rows<P: Ports>(
    ports: &mut P,
    claim: &Claim,
    room: &mut [u8],
) -> Result<Counted, CheckFault>
    requires claim { IsClaim claim.now }
    requires room { length room.old ≡ claim.now.width }
    ensures checks { ChecksRows claim.now result (P.world ports.old) (P.world ports.new) }
    ensures others { Touches DATABASE (P.world ports.old) (P.world ports.new) }
{
    let mut hasher = Sha256::new();
    let mut tally = Tally {
        entries: 0,
        fullest: 0,
    };
    'rows: for row in 0..claim.rows {
        let count = read_row(ports, claim, row, room)?;
        hasher.update(&*room);
        tally = tally.with_row(count);
    }
    Ok(Counted {
        tally,
        sha256: hasher.finalize(),
    })
}

/// Compares what all rows came to with what is said of them.
///
/// # Errors
///
/// `OtherHash` exactly where the SHA-256 is another one; else `OtherEntries` exactly where there are more or fewer.
fn judge(claim: &Claim, counted: Counted) -> Result<Tally, CheckFault>
    ensures { JudgesWhole claim.now counted result }
{
    if counted.sha256 != claim.sha256 {
        return Err(CheckFault::OtherHash);
    }
    let entries = counted.tally.entries;
    if entries != u64::from(claim.entries) {
        return Err(CheckFault::OtherEntries { entries });
    }
    Ok(counted.tally)
}

/// Checks Database, already open, whose rows are read one after the other into `room`.
fn check_opened<P: Ports>(
    ports: &mut P,
    claim: &Claim,
    room: &mut [u8],
) -> Result<Tally, CheckFault>
    requires claim { IsClaim claim.now }
    requires room { length room.old ≡ claim.now.width }
    ensures finds { Finds claim.now result (P.world ports.old) (P.world ports.new) }
    ensures others { Touches DATABASE (P.world ports.old) (P.world ports.new) }
{
    let counted = check_rows(ports, claim, room)?;
    refuse_more(ports)?;
    judge(claim, counted)
}

/// Opens Database by this name, and checks whether its file is the database of a list that this is said of. It takes the
/// memory of one row, before Database is opened.
///
/// ```
/// let tally = check_database(alloc, ports, "list.db", &claim)?;
/// println!(rt; "{} entries, {} in the fullest row", tally.entries, tally.fullest)?;
/// ```
///
/// # Errors
///
/// The first of these, in the order of the bytes. `NoRow` exactly where a row is no row of the list's table, with the first
/// one; `TooShort` exactly where the file ends before its last row does; `TooLong` exactly where it goes on behind it, and
/// one byte more is read; then `OtherHash` exactly where the SHA-256 of the file is another one; `OtherEntries` exactly where
/// the rows have more or fewer entries. `ReadFault` exactly where a call on Database failed, whose count rose; `Memory` for
/// want of memory, and then nothing was touched.
pub fn check_database<P: Ports>(
    alloc: Global,
    ports: &mut P,
    name: &str,
    claim: &Claim,
) -> Result<Tally, CheckFault>
    requires { IsClaim claim.now }
    ensures checks { Checks claim.now name.now result (P.world ports.old) (P.world ports.new) }
    ensures others { Touches DATABASE (P.world ports.old) (P.world ports.new) }
{
    let mut room = vec![in alloc; 0; claim.width as usize]?;
    let Ok(()) = ports.open(Port::Database, name) else {
        return Err(CheckFault::ReadFault);
    };
    check_opened(ports, claim, &mut room)
}
