//! A recorded session is judged, and the text of its verdict written where the caller has room for it.

ghost use Rattle.std.specs.Prelude.{◌≡◌, length, IfOk};
ghost use Rattle.client_calls.specs.Replaying.{ReadsSession, ReplaysInto};

use crate::judging::verdict_on;
use crate::text::verdict_text;
use block_decoder::Verdict;
use std::alloc::{AllocError, Global};
use thiserror::Error;
use wire_frames::{BadSession, FeedFault, Session, SessionReader};

/// Why no text is written.
#[derive(Clone, Copy, Debug, PartialEq, Eq, Error)]
pub enum ReplayRefusal {
    /// The bytes are no session: `place` is the length of their longest prefix that begins some session.
    #[error("no session: wrong at byte {place}")]
    BadSession { place: u64 },
    /// There is less room than for the `wanted` bytes of the text.
    #[error("room for {wanted} bytes is wanted")]
    Room { wanted: usize },
    /// Want of memory.
    #[error("no memory")]
    Memory,
}

impl From<FeedFault> for ReplayRefusal {
    ghost use Rattle.std.specs.Prelude.{◌≡◌};
    ghost use Rattle.client_calls.specs.Replaying.{of_feed};

    ghost from_gives = { λ fault refusal. refusal ≡ of_feed fault };

    fn from(fault: FeedFault) -> ReplayRefusal {
        match fault {
            FeedFault::BadSession { place } => ReplayRefusal::BadSession { place },
            FeedFault::Memory => ReplayRefusal::Memory,
        }
    }
}

impl From<BadSession> for ReplayRefusal {
    ghost use Rattle.std.specs.Prelude.{◌≡◌};
    ghost use Rattle.client_calls.specs.Replaying.{of_end};

    ghost from_gives = { λ fault refusal. refusal ≡ of_end fault };

    fn from(fault: BadSession) -> ReplayRefusal {
        ReplayRefusal::BadSession { place: fault.place }
    }
}

impl From<AllocError> for ReplayRefusal {
    ghost use Rattle.std.specs.Prelude.{◌≡◌};
    ghost use Rattle.client_calls.specs.declared.replaying.ReplayRefusal.TheVariants.{Memory};

    ghost from_gives = { λ _ refusal. refusal ≡ Memory };

    fn from(_fault: AllocError) -> ReplayRefusal {
        ReplayRefusal::Memory
    }
}

/// The session that the bytes are.
fn session_of_bytes(alloc: Global, bytes: &[u8]) -> Result<Session, ReplayRefusal>
    ensures read { ReadsSession bytes.now result }
    ensures all { IfOk result (λ session. length session.records ≡ session.params.n) }
{
    let mut reader = SessionReader::new();
    reader.feed(alloc, bytes)?;
    Ok(reader.end()?)
}

/// Judges the recorded session that the bytes are, writes the text of its verdict at the front of `out`, and gives the
/// verdict and how many bytes the text has.
///
/// # Errors
///
/// `BadSession` exactly where the bytes are no session; `Room` exactly where they are one and `out` is shorter than the
/// text; `Memory` for want of memory, and never for fewer bytes than the header of a session has. Then `out` is as it
/// was.
pub fn replay_session(
    alloc: Global,
    bytes: &[u8],
    out: &mut [u8],
) -> Result<(Verdict, usize), ReplayRefusal>
    ensures { ReplaysInto bytes.now out.old out.new result }
{
    let session = session_of_bytes(alloc, bytes)?;
    let verdict = verdict_on(alloc, &session)?;
    let text = verdict_text(alloc, &verdict)?;
    let wanted = text.len();
    if out.len() < wanted {
        return Err(ReplayRefusal::Room { wanted });
    }
    out[..wanted].copy_from_slice(&text);
    Ok((verdict, wanted))
}
