//! Why words give no command.

use crate::amount::Amount;
use std::fmt::{self, Display, Formatter, Write};
use thiserror::Error;

/// What is wrong with a value.
#[derive(Clone, Copy, Debug, PartialEq, Eq)]
pub enum ValueFault {
    /// A text has to be a number, and isn't.
    NoNumber {
        /// Which number it is.
        amount: Amount,
    },
    /// A number is out of its range.
    OutOfRange {
        /// Which number it is.
        amount: Amount,
        /// The number.
        number: u64,
    },
    /// The longest value is given where lines have no values.
    WithoutValues,
    /// One of the addresses is empty.
    EmptyAddress,
    /// A file that `build` writes has the name of another of these, which would be lost.
    OneFile {
        /// The file that is written.
        written: BuildFile,
        /// The other.
        other: BuildFile,
    },
}

/// A file that `build` reads or writes, but for that of the coins.
#[derive(Clone, Copy, Debug, PartialEq, Eq)]
pub enum BuildFile {
    /// That of the keys.
    Keys,
    /// That of the table.
    Database,
    /// That of the catalog.
    Catalog,
}

impl Display for BuildFile {
    fn fmt<W: Write>(&self, f: &mut Formatter<W>) -> fmt::Result {
        f.write_str(match self {
            BuildFile::Keys => "the file of the keys",
            BuildFile::Database => "--database",
            BuildFile::Catalog => "--catalog",
        })
    }
}

impl Display for ValueFault {
    fn fmt<W: Write>(&self, f: &mut Formatter<W>) -> fmt::Result {
        match self {
            ValueFault::NoNumber { amount } => {
                write!(f, "{amount} is no decimal number below 2^64")
            }
            ValueFault::OutOfRange { amount, number } => {
                let least = amount.least();
                let most = amount.most();
                write!(f, "{amount} {number} is not among {least} to {most}")
            }
            ValueFault::WithoutValues => f.write_str("--value-bytes needs --values"),
            ValueFault::EmptyAddress => f.write_str("--servers has an empty address"),
            ValueFault::OneFile { written, other } => {
                write!(
                    f,
                    "{written} would be written over {other}, which has the same name"
                )
            }
        }
    }
}

/// Why words give no command.
#[derive(Debug, Drop, Error)]
pub enum WordsFault {
    /// `clap` doesn't take the words: its sentence, and how it goes.
    #[error("{0}")]
    Refused(String),
    /// There is no command among them.
    #[error("no command; try --help")]
    NoCommand,
    /// A value is wrong.
    #[error("{0}")]
    Value(ValueFault),
    /// Want of memory.
    #[error("no memory")]
    Memory,
}
