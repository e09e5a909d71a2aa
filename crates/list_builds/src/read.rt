//! The list in the file of keys.

ghost use Rattle.std.specs.Prelude.{◌≤◌};
ghost use Rattle.key_table.specs.declared.TheConstants.{LEAST_DIGEST, MOST_DIGEST};
ghost use Rattle.port_trait.specs.Number.{INPUT};
ghost use Rattle.port_trait.specs.Moves.{Touches};
ghost use Rattle.list_keys.specs.Form.{AreTerms};
ghost use Rattle.list_builds.specs.Listed.{ReadsList};

use crate::SALT_SIZE;
use crate::fault::BuildFault;
use crate::gather::{Gathered, gather_list};
use list_keys::{LinesFault, Terms};
use port_trait::{Port, Ports};
use std::alloc::Global;

/// Opens Input by this name, and gathers its list.
/// Of each line it keeps the digest of its key, of `size` bytes under the salt, and its value.
///
/// # Errors
///
/// `KeysFault` only where a call on Input failed, whose count rose; `NoLine` exactly where it has no line; `Refused`
/// exactly where a line has a fault, with the first that has one; `Memory` for want of memory.
pub(crate) fn read_list<P: Ports>(
    alloc: Global,
    ports: &mut P,
    name: &str,
    salt: &[u8; SALT_SIZE],
    size: usize,
    terms: Terms,
) -> Result<Gathered, BuildFault>
    requires least { LEAST_DIGEST ≤ size }
    requires most { size ≤ MOST_DIGEST }
    requires terms { AreTerms terms }
    ensures reads { ReadsList name.now salt.now size terms result (P.world ports.old) (P.world ports.new) }
    ensures others { Touches INPUT (P.world ports.old) (P.world ports.new) }
{
    let Ok(()) = ports.open(Port::Input, name) else {
        return Err(BuildFault::KeysFault);
    };
    match gather_list(alloc, ports, salt, size, terms) {
        Ok(list) => Ok(list),
        Err(LinesFault::ReadFault) => Err(BuildFault::KeysFault),
        Err(LinesFault::NoLine) => Err(BuildFault::NoLine),
        Err(LinesFault::Refused { number, fault }) => Err(BuildFault::Refused { number, fault }),
        Err(LinesFault::Memory) => Err(BuildFault::Memory),
    }
}
