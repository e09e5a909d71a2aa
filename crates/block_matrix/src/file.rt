//! Reads a database from its file.
ghost use Rattle.std.specs.Prelude.{◌≡◌, ◌+◌, ◌<◌, ◌≤◌, length, take, vec_len};
ghost use Rattle.port_trait.specs.Number.{DATABASE};
ghost use Rattle.port_trait.specs.Moves.{Touches};
ghost use Rattle.quantity_limits.specs.declared.TheConstants.{MOST_WIDTH};
ghost use Rattle.block_matrix.specs.Loading.{FillsFrom, Lengthens, ReadsOr, Loads};

use crate::matrix::{LoadFault, Matrix, most_bytes};
use port_trait::{Filled, Port, Ports, read_exactly};
use std::alloc::Global;

/// How many bytes are asked for at once, at most.
const PIECE: usize = 1 << 20;

/// The room for bytes to come, when there is none left, is this part of the bytes so far.
const GROWTH: usize = 16;

/// Makes the bytes longer by zeros, at most 1 MB of them and no more than `most` bytes in all.
///
/// A block this long is moved by the system without a copy, and room that no byte was written to costs no memory.
fn lengthen(bytes: &mut Vec<u8>, most: usize) -> Result<(), LoadFault>
    requires { vec_len bytes.old < most }
    ensures { Lengthens most bytes.old.items bytes.new.items result }
{
    let len = bytes.len();
    let left = most - len;
    if bytes.capacity() == len {
        let Ok(()) = bytes.try_reserve_exact(left.min(PIECE.max(len / GROWTH))) else {
            return Err(LoadFault::Memory);
        };
    }
    let more = left.min(PIECE).min(bytes.capacity() - len);
    match bytes.resize(len + more, 0) {
        Ok(()) => Ok(()),
        Err(_) => Err(LoadFault::Memory),
    }
}

/// Fills what follows the first `filled` bytes from Database.
fn fill_rest<P: Ports>(ports: &mut P, bytes: &mut [u8], filled: usize) -> Filled
    requires { filled < length bytes.old }
    ensures kept { take filled bytes.new ≡ take filled bytes.old }
    ensures rest { FillsFrom filled result bytes.old bytes.new (P.world ports.old) (P.world ports.new) }
    ensures others { Touches DATABASE (P.world ports.old) (P.world ports.new) }
{
    read_exactly(ports, Port::Database, &mut bytes[filled..])
}

/// The first so many bytes.
fn prefix(mut bytes: Vec<u8>, filled: usize) -> Vec<u8>
    ensures { result.items ≡ take filled bytes.items }
{
    bytes.truncate(filled);
    bytes
}

/// Reads Database to its end, but at most so many bytes.
fn read_up_to<P: Ports>(alloc: Global, ports: &mut P, most: usize) -> Result<Vec<u8>, LoadFault>
    ensures read { ReadsOr most result (P.world ports.old) (P.world ports.new) }
    ensures others { Touches DATABASE (P.world ports.old) (P.world ports.new) }
{
    let mut bytes = Vec::new(alloc);
    'pieces: while bytes.len() < most {
        let filled = bytes.len();
        lengthen(&mut bytes, most)?;
        match fill_rest(ports, &mut bytes, filled) {
            Filled::Full => {}
            Filled::Ended(n) => return Ok(prefix(bytes, filled + n)),
            Filled::Failed => return Err(LoadFault::ReadFault),
        }
    }
    Ok(bytes)
}

/// The rows of the database in the file of Database, already open, which is read to its end. Of a file that is too big
/// one byte more is read than it may have, and no other. Memory is taken for the file and a sixteenth of it at most, or
/// for 1 MB more where the file is small.
///
/// # Errors
///
/// `EmptyFile` exactly where the file has no bytes, `TooBig` exactly where it has more than a database of that width may
/// have, as [`Matrix::from_bytes`] says; `ReadFault` exactly where a call on Database failed, whose count rose, and then no
/// more bytes were taken than such a database may have; `Memory` for want of memory.
pub fn load<P: Ports>(alloc: Global, ports: &mut P, width: u32) -> Result<Matrix, LoadFault>
    requires some { 1 ≤ width }
    requires few { width ≤ MOST_WIDTH }
    ensures loads { Loads width result (P.world ports.old) (P.world ports.new) }
    ensures others { Touches DATABASE (P.world ports.old) (P.world ports.new) }
{
    let most = most_bytes(width) + 1;
    let bytes = read_up_to(alloc, ports, most as usize)?;
    Matrix::from_bytes(alloc, bytes, width)
}
