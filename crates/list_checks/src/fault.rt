//! Why a file isn't the database that something is said of.

use std::alloc::AllocError;
use thiserror::Error;

/// Why a file isn't the database of a list that something is said of. Its text is a sentence.
#[derive(Clone, Copy, Debug, PartialEq, Eq, Error)]
pub enum CheckFault {
    /// The row with this number, counted from 0, is no row of the list's table. Those before it are.
    #[error("row {row} is not a row of this list")]
    NoRow { row: u32 },
    /// The file has so many bytes, fewer than its rows have. Those rows that it has whole are rows of the list's table.
    #[error("the file has {bytes} bytes, fewer than its rows")]
    TooShort { bytes: u64 },
    /// The file has more bytes than its rows have, which are rows of the list's table.
    #[error("the file has more bytes than its rows")]
    TooLong,
    /// The SHA-256 of the file is another one. All rows are rows of the list's table.
    #[error("the SHA-256 of the file is not the one that the catalog says")]
    OtherHash,
    /// The rows have so many entries, and it is said that there are more or fewer. All else holds.
    #[error("the rows have {entries} entries, and not as many as the catalog says")]
    OtherEntries { entries: u64 },
    /// A call on the file failed.
    #[error("a call on the database failed")]
    ReadFault,
    /// Want of memory; nothing was touched.
    #[error("no memory")]
    Memory,
}

impl From<AllocError> for CheckFault {
    ghost use Rattle.std.specs.Prelude.{◌≡◌};
    ghost use Rattle.list_checks.specs.declared.fault.CheckFault.TheVariants.{Memory};

    ghost from_gives = { λ _ fault. fault ≡ Memory };

    fn from(_fault: AllocError) -> CheckFault {
        CheckFault::Memory
    }
}
