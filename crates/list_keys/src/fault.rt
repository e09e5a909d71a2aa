//! What may be wrong with lines.

use std::alloc::AllocError;
use thiserror::Error;

/// What is wrong with a line.
#[derive(Clone, Copy, Debug, PartialEq, Eq, Error)]
pub enum LineFault {
    /// The key has no byte.
    #[error("the key is empty")]
    EmptyKey,
    /// The key has more bytes than [`MOST_KEY`](crate::MOST_KEY).
    #[error("the key is too long: at most 65535 bytes are allowed")]
    LongKey,
    /// No tab parts a key and a value.
    #[error("there is no tab between a key and a value")]
    NoTab,
    /// A key of a list with values has a tab, so the list has no such key.
    #[error("the key has a tab")]
    HasTab,
    /// The value has more bytes than are allowed.
    #[error("the value is too long: at most {most} bytes are allowed")]
    LongValue {
        /// So many bytes a value may have.
        most: usize,
    },
    /// The line is one too many.
    #[error("there are too many lines: at most {most} are allowed")]
    TooMany {
        /// So many lines there may be.
        most: u32,
    },
}

/// Why not all lines are given.
#[derive(Clone, Copy, Debug, PartialEq, Eq, Error)]
pub enum LinesFault {
    /// A call on Input failed.
    #[error("a call on the input failed")]
    ReadFault,
    /// There is no line.
    #[error("there is no line")]
    NoLine,
    /// Of the lines that are refused this is the first.
    #[error("line {number}: {fault}")]
    Refused {
        /// The number of the line, counted from 1.
        number: u32,
        /// What is wrong with it.
        fault: LineFault,
    },
    /// Want of memory.
    #[error("no memory")]
    Memory,
}

impl From<AllocError> for LinesFault {
    ghost use Rattle.std.specs.Prelude.{◌≡◌};
    ghost use Rattle.list_keys.specs.declared.fault.LinesFault.TheVariants.{Memory};

    ghost from_gives = { λ _ fault. fault ≡ Memory };

    fn from(_fault: AllocError) -> LinesFault {
        LinesFault::Memory
    }
}
