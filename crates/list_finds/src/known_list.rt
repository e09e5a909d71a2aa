//! A list as a client knows it.

ghost use Rattle.std.specs.Prelude.{◌≡◌, ◌≤◌, ◌<◌, length};
ghost use Rattle.quantity_limits.specs.declared.TheConstants.{MOST_WIDTH};
ghost use Rattle.list_finds.specs.Known.{IsKnown, row_in};
ghost use Rattle.list_finds.specs.Answers.{AnswersInRow, answer_of};

use crate::answers::Answer;
use key_table::{Finding, MOST_DIGEST, find_in_row, row_of, write_digest};

/// What a client knows of a list, beside the rows and the width of its table.
#[derive(Clone, Copy, Debug, PartialEq, Eq)]
pub struct KnownList {
    /// The salt of the digests.
    pub salt: [u8; 16],
    /// The tag, with which each row begins.
    pub tag: [u8; 8],
    /// How many bytes a digest has, from [`LEAST_DIGEST`](key_table::LEAST_DIGEST) to [`MOST_DIGEST`].
    pub size: usize,
    /// How many bytes a value has at most, no more than [`MOST_VALUE`](key_table::MOST_VALUE).
    pub most: usize,
}

impl KnownList {
    /// The row that a key belongs to, in a table of so many rows. With the salt of the bytes 0 to 15 and digests of 8
    /// bytes `alpha` belongs to row 1 of 2, and to row 651 of 1000.
    pub fn row_of_key(&self, rows: u32, key: &[u8]) -> u32
        requires known { IsKnown self.now }
        ensures row { result ≡ row_in self.now rows key.now }
        ensures within { 1 ≤ rows → result < rows }
    {
        let mut room = [0u8; MOST_DIGEST];
        let digest = &mut room[..self.size];
        write_digest(&self.salt, key, digest);
        row_of(rows, digest)
    }

    /// Looks for a key in its row of a table of so many rows.
    pub(crate) fn look_for<'a>(&self, rows: u32, row: &'a [u8], key: &[u8]) -> Answer<&'a [u8]>
        requires known { IsKnown self.now }
        requires width { length row.now ≤ MOST_WIDTH }
        ensures { AnswersInRow self.now rows row.now key.now (answer_of result) }
    {
        let mut room = [0u8; MOST_DIGEST];
        let digest = &mut room[..self.size];
        write_digest(&self.salt, key, digest);
        match find_in_row(row, &self.tag, self.size, self.most, rows, digest) {
            Finding::Broken => Answer::Broken,
            Finding::Absent => Answer::Absent,
            Finding::Found(value) => Answer::Present(value),
        }
    }
}
