//! What a server of a session is asked, and the answers that a client can use.
ghost use Rattle.std.specs.Prelude.{◌≡◌, ◌≤◌};
ghost use Rattle.std.specs.Option.{option_copied};
ghost use Rattle.wire_frames.specs.Answer.{asked, block_len, usable};
ghost use Rattle.wire_frames.specs.Limits.{IsInRange};
ghost use Rattle.quantity_limits.specs.declared.TheConstants.{MOST_WIDTH};

use crate::header::{QueryHeader, answer_header};
use crate::session::SessionParams;
use crate::sizes::FRAME_HEADER_LEN;

impl SessionParams {
    /// How many bytes the blocks that a session asks for have together.
    pub fn block_len(&self) -> u32
        requires { IsInRange self.now }
        ensures is { result ≡ block_len self.now }
        ensures some { 1 ≤ result }
        ensures few { result ≤ MOST_WIDTH }
    {
        u32::from(self.count) * self.s
    }

    /// The header of the query that server `index` of the session is asked.
    pub fn asked(&self, index: u8) -> QueryHeader
        ensures { result ≡ asked self.now index }
    {
        QueryHeader {
            version: self.version,
            scheme: self.scheme,
            index,
            count: self.count,
            session: self.session,
            r: self.r,
            s: self.s,
        }
    }
}

/// The payload, where the bytes are the answer of status 0 to the query with this header: the
/// header `PIRA`, the query's version, scheme and index, 0, the query's session, rows and width, and
/// then exactly `s` bytes for each block, which are the payload. `None` for all other bytes: what is wrong
/// with them isn't told apart. It takes no memory.
pub fn usable_answer<'a>(bytes: &'a [u8], header: &QueryHeader) -> Option<&'a [u8]>
    ensures { option_copied result ≡ usable bytes.now header.now }
{
    let (start, payload) = bytes.split_first_chunk::<FRAME_HEADER_LEN>()?;
    let len = usize::from(header.count) * header.s as usize;
    if *start == answer_header(header, 0) && payload.len() == len {
        Some(payload)
    } else {
        None
    }
}
