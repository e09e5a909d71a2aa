//! The members of a catalog, and their names.

ghost use Rattle.std.specs.Prelude.{◌≡◌};
ghost use Rattle.list_catalog.specs.Member.{name_of};

use std::fmt;

/// A member of a catalog.
#[derive(Clone, Copy, Debug, PartialEq, Eq)]
pub enum Member {
    /// How many bytes a digest has.
    Digest,
    /// How many entries the list has.
    Entries,
    /// The number of the format.
    Format,
    /// The tag of the list.
    List,
    /// How many rows the table has.
    Rows,
    /// What each key is hashed with.
    Salt,
    /// The table of the servers.
    Servers,
    /// The SHA-256 of the database's file.
    Sha256,
    /// The most bytes that a value has.
    Value,
    /// How many bytes a row has.
    Width,
    /// Of the servers: where each is.
    Addresses,
    /// Of the servers: how many answers have to agree.
    Agree,
    /// Of the servers: how many together learn nothing.
    Degree,
}

/// The members at the root, ascending by their names.
pub(crate) const ROOT: [Member; 10] = [
    Member::Digest,
    Member::Entries,
    Member::Format,
    Member::List,
    Member::Rows,
    Member::Salt,
    Member::Servers,
    Member::Sha256,
    Member::Value,
    Member::Width,
];

/// The members of the table of the servers, ascending by their names.
pub(crate) const OF_SERVERS: [Member; 3] = [Member::Addresses, Member::Agree, Member::Degree];

impl Member {
    /// The name that it has in a catalog.
    pub fn name(self) -> &'static str
        ensures { result.now ≡ name_of self }
    {
        match self {
            Member::Digest => "digest",
            Member::Entries => "entries",
            Member::Format => "format",
            Member::List => "list",
            Member::Rows => "rows",
            Member::Salt => "salt",
            Member::Servers => "servers",
            Member::Sha256 => "sha256",
            Member::Value => "value",
            Member::Width => "width",
            Member::Addresses => "addresses",
            Member::Agree => "agree",
            Member::Degree => "degree",
        }
    }
}

impl fmt::Display for Member {
    fn fmt<W: fmt::Write>(&self, f: &mut fmt::Formatter<W>) -> fmt::Result {
        f.write_str(self.name())
    }
}
