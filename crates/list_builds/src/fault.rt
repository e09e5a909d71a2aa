//! What a building comes to.

use crate::no_shape::no_shape;
use key_table::ShapeFault;
use list_keys::LineFault;
use std::alloc::AllocError;
use thiserror::Error;

/// A database and its catalog, both written whole.
#[derive(Clone, Copy, Debug, PartialEq, Eq)]
pub struct Built {
    /// How many entries the list has.
    pub entries: usize,
    /// How many rows the database has.
    pub rows: u32,
    /// How many bytes a row has.
    pub width: u32,
    /// Whether each line ended with a carriage return, as those of some systems do: it belongs to the key or the value.
    pub all_end_with_return: bool,
}

/// Why a list doesn't become a database with its catalog. Its text is a sentence.
#[derive(Clone, Copy, Debug, PartialEq, Eq, Error)]
pub enum BuildFault {
    /// A call on Coins failed. Nothing else was opened.
    #[error("a call on the coins failed")]
    CoinsFault,
    /// There are so few coins that they make no salt. Nothing else was opened.
    #[error("the coins ended after {taken} bytes, and the salt has 16")]
    CoinsEnded {
        taken: usize,
    },
    /// A call on the file of the keys failed. No file to write was opened.
    #[error("a call on the keys failed")]
    KeysFault,
    /// There is no line. No file to write was opened.
    #[error("there is no line")]
    NoLine,
    /// Of the lines that are refused this is the first. No file to write was opened.
    #[error("line {number}: {fault}")]
    Refused {
        /// The number of the line, counted from 1.
        number: u32,
        /// What is wrong with it.
        fault: LineFault,
    },
    /// Two lines have one digest and two values. No file to write was opened.
    #[error("lines {first} and {second}: one digest, two values")]
    Clash {
        /// The number of the first line with the digest, counted from 1.
        first: u32,
        /// The number of the first line of the list whose digest stands with another value on an earlier one.
        second: u32,
    },
    /// So many rows make no database of the list. No file to write was opened.
    #[error("{}", no_shape(.0))]
    Unshaped(ShapeFault),
    /// A call on the file of the database failed. The file of the catalog was not opened.
    #[error("a call on the database failed")]
    DatabaseFault,
    /// A call on the catalog's file, or on standard output, failed. The database is whole.
    #[error("a call on the catalog failed")]
    CatalogFault,
    /// Want of memory. The catalog was left alone.
    #[error("no memory")]
    Memory,
}

impl From<AllocError> for BuildFault {
    ghost use Rattle.std.specs.Prelude.{◌≡◌};
    ghost use Rattle.list_builds.specs.declared.fault.BuildFault.TheVariants.{Memory};

    ghost from_gives = { λ _ fault. fault ≡ Memory };

    fn from(_fault: AllocError) -> BuildFault {
        BuildFault::Memory
    }
}
