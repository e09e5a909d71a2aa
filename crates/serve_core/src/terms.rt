//! Which queries are taken.
ghost use Rattle.std.specs.Prelude.{◌≡◌, ◌≤◌, ◌*◌};
ghost use Rattle.quantity_limits.specs.declared.TheConstants.{MOST_BLOCKS};
ghost use Rattle.wire_frames.specs.Scheme.{scheme_of};
ghost use Rattle.serve_core.specs.Terms.{most_blocks_for, payload_len_for, vector_len_for};

use wire_frames::{MOST_BLOCKS, MOST_WIDTH, Scheme};

/// Which queries are taken: those of a scheme, for a database of a shape.
#[derive(Clone, Copy, Debug, PartialEq, Eq)]
pub struct Terms {
    /// The number of the scheme. No query is of one with another number than 1 or 2.
    pub scheme: u8,
    /// How many rows the database has.
    pub rows: u32,
    /// How many bytes a row has.
    pub width: u32,
}

impl Terms {
    /// How many bytes a query has for each block, in their scheme.
    pub(crate) fn vector_len(self, scheme: Scheme) -> usize
        requires told { scheme ≡ scheme_of self.scheme }
        ensures is { result ≡ vector_len_for self }
        ensures some { 1 ≤ self.rows → 1 ≤ result }
        ensures few { result ≤ self.rows }
    {
        scheme.payload_len(self.rows)
    }

    /// How many bytes the payload of a query for so many blocks has, in their scheme.
    pub(crate) fn payload_len(self, scheme: Scheme, count: u8) -> usize
        requires told { scheme ≡ scheme_of self.scheme }
        ensures is { result ≡ payload_len_for self count }
        ensures some { 1 ≤ count → 1 ≤ self.rows → 1 ≤ result }
    {
        usize::from(count) * self.vector_len(scheme)
    }

    /// The most blocks that a query asks for.
    #[tactic(auto, unfolding(crate::specs::Terms::most_blocks_for))]
    pub(crate) fn most_blocks(self) -> u8
        requires { 1 ≤ self.width }
        ensures is { result ≡ most_blocks_for self }
        ensures few { result ≤ MOST_BLOCKS }
    {
        let fit = MOST_WIDTH / self.width;
        u32::from(MOST_BLOCKS).min(fit) as u8
    }
}
