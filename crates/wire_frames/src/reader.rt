//! Reads a session piece by piece.
ghost use Rattle.std.specs.Prelude.{◌≡◌, ◌<◌, [], length};
ghost use Rattle.wire_frames.specs.Form.{Starts};
ghost use Rattle.wire_frames.specs.Layout.{IsHeader};
ghost use Rattle.wire_frames.specs.Reading.{SoFar, Feeds, Ends};
ghost use Rattle.wire_frames.specs.SessionReader.{IsRight, FeedsState, FeedsHeader};

use crate::head::Head;
use crate::layout::read_header;
use crate::records_reader::RecordsReader;
use crate::session::Session;
use crate::sizes::SESSION_HEADER_LEN;
use std::alloc::Global;
use std::marker::Model;
use thiserror::Error;

/// The bytes are no session: `place` is the length of their longest prefix that begins some
/// session.
#[derive(Clone, Copy, Debug, PartialEq, Eq, Error)]
#[error("no session: wrong at byte {place}")]
pub struct BadSession {
    /// Counted in bytes from the first of the session.
    pub place: u64,
}

/// Why a piece is not taken.
#[derive(Clone, Copy, Debug, PartialEq, Eq, Error)]
pub enum FeedFault {
    /// The bytes so far begin no session: `place` is the length of their longest prefix that does.
    #[error("no session: wrong at byte {place}")]
    BadSession {
        /// Counted in bytes from the first of the session.
        place: u64,
    },
    /// Want of memory.
    #[error("no memory")]
    Memory,
}

/// Reads a session that comes in pieces, cut anywhere. Beside the copy of the records' bytes a
/// piece costs constant work, and one for each record that it ends.
///
/// ```text
/// let mut reader = SessionReader::new();
/// reader.feed(alloc, b"PIRS\x01")?;
/// reader.feed(alloc, rest)?;
/// let session = reader.end()?;
/// ```
#[derive(Drop)]
pub struct SessionReader {
    // How many bytes were right so far.
    taken: u64,
    state: State,
}

#[derive(Drop)]
enum State {
    /// What has come of the session's header, which is not all of it.
    Header(Head),
    /// The header has come.
    Records(RecordsReader),
    /// The bytes are refused for good.
    Stopped,
}

/// Why a state does not take a piece.
#[derive(Clone, Copy)]
enum Stop {
    /// So many bytes of the piece are right, and no more.
    Wrong(usize),
    Memory,
}

impl Model for SessionReader {
    ghost use Rattle.wire_frames.specs.Reading.{Reading};
    ghost use Rattle.wire_frames.specs.SessionReader.{reading_of, IsSound};

    ghost Value = { Reading };

    ghost view = { λ r. reading_of r.taken r.state };

    ghost invariant = { λ r. IsSound r.taken r.state };
}

impl SessionReader {
    /// A reader that has seen no byte. It takes no memory.
    pub fn new() -> SessionReader
        ensures { result ≡ SoFar [] }
    {
        SessionReader {
            taken: 0,
            state: State::Header(Head::new()),
        }
    }

    /// Takes the next piece of the session, however it is cut: `Ok` exactly where the bytes so far
    /// begin some session. The memory for all records is taken at once, in the call that brings the
    /// last byte of the header.
    ///
    /// # Errors
    ///
    /// `BadSession` comes in the first call after which the bytes so far begin no session, with the
    /// length of their longest prefix that does, and again in each call from then on. `Memory`
    /// comes only in the call that brings the last byte of the header, and leaves the reader as it
    /// was before that call.
    pub fn feed(&mut self, alloc: Global, piece: &[u8]) -> Result<(), FeedFault>
        ensures { Feeds self.old piece.now result self.new }
    {
        match self.state.feed(alloc, piece) {
            Ok(()) => {
                self.taken += piece.len() as u64;
                Ok(())
            }
            Err(Stop::Wrong(right)) => {
                self.taken += right as u64;
                self.state = State::Stopped;
                Err(FeedFault::BadSession { place: self.taken })
            }
            Err(Stop::Memory) => Err(FeedFault::Memory),
        }
    }

    /// The session, where the bytes are one. It takes no memory.
    ///
    /// # Errors
    ///
    /// Exactly where the bytes are no session: the place that `feed` said, or else their length.
    pub fn end(self) -> Result<Session, BadSession>
        ensures { Ends self result }
    {
        let place = self.taken;
        match self.state {
            State::Records(records) => records.end().ok_or(BadSession { place }),
            State::Header(_) | State::Stopped => Err(BadSession { place }),
        }
    }
}

impl State {
    /// Takes a piece, all of it, or says how many of its bytes are right.
    fn feed(&mut self, alloc: Global, piece: &[u8]) -> Result<(), Stop>
        requires { IsRight self.old }
        ensures { FeedsState self.old piece.now result self.new }
    {
        match self {
            State::Header(head) => {
                if let Some(records) = feed_header(alloc, head, piece)? {
                    *self = State::Records(records);
                }
                Ok(())
            }
            State::Records(records) => match records.feed(piece) {
                Ok(()) => Ok(()),
                Err(right) => Err(Stop::Wrong(right)),
            },
            State::Stopped => Err(Stop::Wrong(0)),
        }
    }
}

/// Takes a piece while the header of the session comes. The memory for all records is taken with
/// its last byte.
fn feed_header(alloc: Global, head: &mut Head, piece: &[u8]) -> Result<Option<RecordsReader>, Stop>
    requires short { length head.old < SESSION_HEADER_LEN }
    requires right { Starts IsHeader head.old }
    ensures { FeedsHeader head.old piece.now result head.new }
{
    let before = head.len();
    let count = head.fill(piece, SESSION_HEADER_LEN);
    match read_header(head.as_slice()) {
        Ok(params) => {
            let Ok(mut records) = RecordsReader::new(alloc, params) else {
                head.truncate(before);
                return Err(Stop::Memory);
            };
            match records.feed(&piece[count..]) {
                Ok(()) => Ok(Some(records)),
                Err(right) => Err(Stop::Wrong(count + right)),
            }
        }
        Err(place) => {
            if place < head.len() {
                return Err(Stop::Wrong(place - before));
            }
            Ok(None)
        }
    }
}
