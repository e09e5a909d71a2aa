//! Why a text is no catalog, why servers can't be asked, and why a catalog isn't written.

use crate::MOST_CATALOG;
use crate::member::Member;
use crate::range::Range;
use quantity_limits::{LEAST_SERVERS, MOST_CELLS, MOST_SERVERS};
use std::alloc::{AllocError, AllocFailed, Global};
use std::fmt;
use std::marker::Model;
use thiserror::Error;

/// The name of a member that no catalog has. Contracts see its bytes.
#[derive(Debug, Drop)]
pub struct Name {
    text: String,
}

impl Model for Name {
    ghost use Rattle.std.specs.Prelude.{ℕ, List};
    ghost use Rattle.std.specs.String.{string_bytes};

    ghost Value = { List ℕ };

    ghost view = { λ n. string_bytes n.text };
}

impl Name {
    ghost use Rattle.std.specs.Prelude.{◌≡◌, IfOk};

    /// A copy of the text.
    pub(crate) fn new(alloc: Global, text: &str) -> Result<Name, AllocError>
        ensures { IfOk result (λ n. n ≡ text.now) }
    {
        Ok(Name {
            text: String::from_str(alloc, text)?,
        })
    }

    /// The name itself.
    pub fn as_str(&self) -> &str
        ensures { result.now ≡ self.now }
    {
        self.text.as_str()
    }
}

impl fmt::Display for Name {
    fn fmt<W: fmt::Write>(&self, f: &mut fmt::Formatter<W>) -> fmt::Result {
        f.write_str(self.as_str())
    }
}

/// Why servers can't be asked as they are given.
#[derive(Clone, Copy, Debug, PartialEq, Eq, Error)]
pub enum ServersFault {
    /// One of the three is not given.
    #[error("{0} is missing")]
    Missing(Member),
    /// There are so many addresses, which are too few or too many.
    #[error("addresses: {count} of them, and not among {LEAST_SERVERS} to {MOST_SERVERS}")]
    Count { count: usize },
    /// The address at this place, counted from 1, is empty.
    #[error("address {place} is empty")]
    Empty { place: usize },
    /// The degree is 0, so that a server alone would learn the row.
    #[error("degree 0 is not above 0")]
    NoDegree,
    /// So few answers always agree.
    #[error("agree {agree} is not above degree {degree}")]
    TooWeak { agree: u8, degree: u8 },
    /// There are fewer addresses than answers that have to agree.
    #[error("agree {agree} is above {count}, the number of addresses")]
    TooStrong { agree: u8, count: usize },
}

/// Why a document is no catalog.
#[derive(Debug, Drop, Error)]
pub enum MemberFault {
    /// No catalog has a member of that name there.
    #[error("an unknown member {0}")]
    Unknown(Name),
    /// The member isn't there.
    #[error("{0} is missing")]
    Missing(Member),
    /// The member is no whole number.
    #[error("{0} is not a whole number")]
    NotNumber(Member),
    /// The number of the member is out of its range.
    #[error("{member} {number} is not {range}")]
    OutOfRange {
        member: Member,
        number: i64,
        range: Range,
    },
    /// The member is no text of so many hexadecimal digits.
    #[error("{member} is not {count} hexadecimal digits")]
    NotDigits {
        member: Member,
        count: usize,
    },
    /// A row with one entry has more bytes than the width.
    #[error("width {width} is below {least}, the bytes of a row with one entry")]
    TooNarrow {
        width: u32,
        least: u32,
    },
    /// The rows have more bytes than a database may have.
    #[error("rows {rows} of width {width} have more than {MOST_CELLS} bytes")]
    TooLarge {
        rows: u32,
        width: u32,
    },
    /// The rows have no room for so many entries.
    #[error("entries {entries} are more than the rows have room for, {room}")]
    TooMany {
        entries: u32,
        room: u64,
    },
    /// `servers` is no table.
    #[error("servers is not a table")]
    NotTable,
    /// `addresses` is no list of texts.
    #[error("addresses is not a list of texts")]
    NotTexts,
    /// The servers can't be asked as they are given.
    #[error("{0}")]
    Servers(ServersFault),
}

/// Why a text is not read as a catalog. Its text is a sentence.
#[derive(Debug, Drop, Error)]
pub enum CatalogFault {
    /// There are more bytes than a catalog may have.
    #[error("catalog: more than {MOST_CATALOG} bytes")]
    TooLong,
    /// The bytes are no text.
    #[error("catalog: not UTF-8")]
    NotText,
    /// The text is no document in TOML: what is wrong, and in which line, counted from 1.
    #[error("catalog: not TOML (line {line}: {})", .why.message())]
    NotToml { line: usize, why: toml::de::Error },
    /// The document is no catalog.
    #[error("catalog: {0}")]
    Unfit(MemberFault),
    /// Want of memory.
    #[error("no memory")]
    Memory,
}

/// Why a catalog isn't written.
#[derive(Clone, Copy, Debug, PartialEq, Eq, Error)]
pub enum WriteFault {
    /// Its text has more bytes than a catalog may have: the addresses are too long.
    #[error("the catalog has more than {MOST_CATALOG} bytes")]
    TooLong,
    /// Want of memory.
    #[error("no memory")]
    Memory,
}

impl From<AllocError> for CatalogFault {
    ghost use Rattle.std.specs.Prelude.{◌≡◌};
    ghost use Rattle.list_catalog.specs.declared.fault.CatalogFault.TheVariants.{Memory};

    ghost from_gives = { λ _ fault. fault ≡ Memory };

    fn from(_fault: AllocError) -> CatalogFault {
        CatalogFault::Memory
    }
}

impl<T: Drop> From<AllocFailed<T>> for CatalogFault {
    ghost use Rattle.std.specs.Prelude.{◌≡◌};
    ghost use Rattle.list_catalog.specs.declared.fault.CatalogFault.TheVariants.{Memory};

    ghost from_gives = { λ _ fault. fault ≡ Memory };

    fn from(_fault: AllocFailed<T>) -> CatalogFault {
        CatalogFault::Memory
    }
}

impl From<MemberFault> for CatalogFault {
    ghost use Rattle.std.specs.Prelude.{◌≡◌};
    ghost use Rattle.list_catalog.specs.declared.fault.CatalogFault.TheVariants.{Unfit};

    ghost from_gives = { λ why fault. fault ≡ Unfit why };

    fn from(why: MemberFault) -> CatalogFault {
        CatalogFault::Unfit(why)
    }
}

impl From<AllocError> for WriteFault {
    ghost use Rattle.std.specs.Prelude.{◌≡◌};
    ghost use Rattle.list_catalog.specs.declared.fault.WriteFault.TheVariants.{Memory};

    ghost from_gives = { λ _ fault. fault ≡ Memory };

    fn from(_fault: AllocError) -> WriteFault {
        WriteFault::Memory
    }
}
