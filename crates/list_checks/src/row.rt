//! One row of a database.

ghost use Rattle.std.specs.Prelude.{◌≡◌, ◌<◌, ◌^◌, length, IfOk};
ghost use Rattle.port_trait.specs.Number.{DATABASE};
ghost use Rattle.port_trait.specs.Moves.{Touches};
ghost use Rattle.list_checks.specs.Claims.{IsClaim};
ghost use Rattle.list_checks.specs.Steps.{EndsHere, ReadsRow};

use crate::claim::Claim;
use crate::fault::CheckFault;
use key_table::entries_in_row;
use port_trait::{Filled, Port, Ports, read_exactly};

/// Reads row `row` of Database into `room`, and counts its entries.
///
/// # Errors
///
/// `NoRow` exactly where the bytes are not that row of the list's table; `TooShort` exactly where Database ends before
/// the row does; `ReadFault` exactly where a call on Database failed.
pub(crate) fn read_row<P: Ports>(
    ports: &mut P,
    claim: &Claim,
    row: u32,
    room: &mut [u8],
) -> Result<u16, CheckFault>
    requires claim { IsClaim claim.now }
    requires room { length room.old ≡ claim.now.width }
    ensures few { IfOk result (λ n. n < 2 ^ 16) }
    ensures reads { ReadsRow claim.now row result room.old room.new (P.world ports.old) (P.world ports.new) }
    ensures others { Touches DATABASE (P.world ports.old) (P.world ports.new) }
{
    match read_exactly(ports, Port::Database, room) {
        Filled::Full => {}
        Filled::Ended(filled) => {
            let before = u64::from(row) * u64::from(claim.width);
            return Err(CheckFault::TooShort {
                bytes: before + filled as u64,
            });
        }
        Filled::Failed => return Err(CheckFault::ReadFault),
    }
    match entries_in_row(room, &claim.tag, claim.size, claim.most, claim.rows, row) {
        Some(count) => Ok(count),
        None => Err(CheckFault::NoRow { row }),
    }
}

/// Refuses a file that isn't at its end.
///
/// # Errors
///
/// `TooLong` exactly where Database has one byte more; `ReadFault` exactly where a call on it failed.
pub(crate) fn refuse_more<P: Ports>(ports: &mut P) -> Result<(), CheckFault>
    ensures ends { EndsHere result (P.world ports.old) (P.world ports.new) }
    ensures others { Touches DATABASE (P.world ports.old) (P.world ports.new) }
{
    let mut more = [0];
    match read_exactly(ports, Port::Database, &mut more) {
        Filled::Full => Err(CheckFault::TooLong),
        Filled::Ended(_) => Ok(()),
        Filled::Failed => Err(CheckFault::ReadFault),
    }
}
