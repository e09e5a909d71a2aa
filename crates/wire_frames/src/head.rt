//! The first bytes of something that comes in pieces.
ghost use Rattle.std.specs.Prelude.{◌≡◌, ◌≤◌, ◌-◌, ◌++◌, [], length, take, min};

use crate::sizes::SESSION_HEADER_LEN;
use std::marker::Model;

/// The bytes so far of a header, which is read once they are enough.
#[derive(Drop)]
pub(crate) struct Head {
    bytes: [u8; SESSION_HEADER_LEN],
    len: usize,
}

impl Model for Head {
    ghost use Rattle.std.specs.Prelude.{List, ℕ, ◌≤◌, take};
    ghost use Rattle.wire_frames.specs.declared.sizes.TheConstants.{SESSION_HEADER_LEN};

    ghost Value = { List ℕ };

    ghost view = { λ h. take h.len h.bytes };

    ghost invariant = { λ h. h.len ≤ SESSION_HEADER_LEN };
}

impl Head {
    /// No byte yet.
    pub(crate) fn new() -> Head
        ensures { result ≡ [] }
    {
        Head {
            bytes: [0; SESSION_HEADER_LEN],
            len: 0,
        }
    }

    /// How many bytes there are.
    pub(crate) fn len(&self) -> usize
        ensures { result ≡ length self.now }
    {
        self.len
    }

    /// The bytes.
    pub(crate) fn as_slice(&self) -> &[u8]
        ensures { result.now ≡ self.now }
    {
        &self.bytes[..self.len]
    }

    /// Takes bytes from the start of the piece until there are `size`, and says how many it took.
    pub(crate) fn fill(&mut self, piece: &[u8], size: usize) -> usize
        requires { size ≤ SESSION_HEADER_LEN }
        ensures count { result ≡ min (size - length self.old) (length piece.now) }
        ensures bytes { self.new ≡ self.old ++ take result piece.now }
    {
        let count = size.saturating_sub(self.len).min(piece.len());
        let end = self.len + count;
        self.bytes[self.len..end].copy_from_slice(&piece[..count]);
        self.len = end;
        count
    }

    /// Keeps the first `len` bytes alone.
    pub(crate) fn truncate(&mut self, len: usize)
        requires { len ≤ length self.old }
        ensures { self.new ≡ take len self.old }
    {
        self.len = len;
    }
}
