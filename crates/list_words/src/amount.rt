//! The numbers among the words.

ghost use Rattle.std.specs.Prelude.{◌≡◌};
ghost use Rattle.list_words.specs.Amounts.{least_of, most_of, name_of};

use key_table::{LEAST_DIGEST, MOST_DIGEST, MOST_VALUE};
use quantity_limits::{MOST_DEGREE, MOST_ROWS, MOST_SERVERS};
use std::fmt::{self, Display, Formatter, Write};

/// A number among the words.
#[derive(Clone, Copy, Debug, PartialEq, Eq)]
pub enum Amount {
    /// How many bytes a digest has.
    DigestBytes,
    /// How many bytes a value has at most.
    ValueBytes,
    /// How many rows the table has.
    Rows,
    /// How many servers together learn nothing.
    Degree,
    /// How many servers have to agree.
    Agree,
}

impl Amount {
    /// The name of its option, without the dashes.
    pub fn name(self) -> &'static str
        ensures { result.now ≡ name_of self }
    {
        match self {
            Amount::DigestBytes => "digest-bytes",
            Amount::ValueBytes => "value-bytes",
            Amount::Rows => "rows",
            Amount::Degree => "degree",
            Amount::Agree => "agree",
        }
    }

    /// The least number that it may have.
    pub fn least(self) -> u32
        ensures { result ≡ least_of self }
    {
        match self {
            Amount::DigestBytes => LEAST_DIGEST as u32,
            Amount::ValueBytes => 0,
            Amount::Rows | Amount::Degree | Amount::Agree => 1,
        }
    }

    /// The greatest number that it may have.
    pub fn most(self) -> u32
        ensures { result ≡ most_of self }
    {
        match self {
            Amount::DigestBytes => MOST_DIGEST as u32,
            Amount::ValueBytes => MOST_VALUE as u32,
            Amount::Rows => MOST_ROWS,
            Amount::Degree => u32::from(MOST_DEGREE),
            Amount::Agree => u32::from(MOST_SERVERS),
        }
    }
}

impl Display for Amount {
    fn fmt<W: Write>(&self, f: &mut Formatter<W>) -> fmt::Result {
        write!(f, "--{}", self.name())
    }
}
