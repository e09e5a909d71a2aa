//! The numbers of a list, as its catalog has them.

ghost use Rattle.std.specs.Prelude.{IsTrue, ◌↔◌};
ghost use Rattle.list_calls.specs.Numbers.{IsList};

use key_table::{LEAST_DIGEST, MOST_DIGEST, MOST_VALUE};
use quantity_limits::MOST_ROWS;

/// The numbers of a list that say where a key stands, and what is said of it there.
#[repr(C)]
#[derive(Clone, Copy, Debug, PartialEq, Eq)]
pub struct ListNumbers {
    /// How many bytes a digest has.
    pub digest_bytes: u32,
    /// How many bytes a value has at most: 0 where keys have no values.
    pub value_bytes: u32,
    /// The number of rows of the table.
    pub rows: u32,
}

impl ListNumbers {
    /// Whether they are those of a list.
    pub(crate) fn are_of_list(&self) -> bool
        ensures { IsTrue result ↔ IsList self.now }
    {
        LEAST_DIGEST <= self.digest_bytes as usize
            && self.digest_bytes as usize <= MOST_DIGEST
            && self.value_bytes as usize <= MOST_VALUE
            && 1 <= self.rows
            && self.rows <= MOST_ROWS
    }
}
