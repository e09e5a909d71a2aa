//! Reads a recorded session.
ghost use Rattle.pir_show.specs.Reading.{ReadsAs};

use crate::fault::Fault;
use std::alloc::Global;
use std::io::Read;
use wire_frames::{Session, SessionReader};

/// How many bytes are read at once, at most.
const PIECE_LEN: usize = 4096;

/// The session that the source holds to its end. The first piece with a wrong byte ends the reading, so no source is
/// read on that holds no session, however long it is.
///
/// # Errors
///
/// `BadInput` exactly where the source holds no session, with the place; `ReadFault` where it can't be read; `Memory`
/// for want of memory.
pub fn read_session<R: Read>(alloc: Global, source: &mut R) -> Result<Session, Fault>
    ensures { ReadsAs (R.remaining source.old) result }
{
    let mut piece = [0; PIECE_LEN];
    let mut reader = SessionReader::new();
    for _ in 0..u64::MAX {
        match source.read(&mut piece) {
            Ok(0) => return Ok(reader.end()?),
            Ok(count) => reader.feed(alloc, &piece[..count])?,
            Err(_) => return Err(Fault::ReadFault),
        }
    }
    Err(Fault::ReadFault)
}
