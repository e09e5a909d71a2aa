//! What a client has to know of a list.

use crate::servers::Servers;
use std::marker::Model;

/// What a client has to know of a list, and perhaps the servers that have it. Contracts see what it says.
///
/// Its numbers keep the rules of a catalog: they are in their ranges, a row has room for an entry, all rows have no
/// more bytes than a database may have, and they have room for all entries.
#[derive(Drop)]
pub struct Catalog {
    /// How many bytes a digest has: 8 to 32.
    pub digest: usize,
    /// How many entries the list has: 1 to 2^26.
    pub entries: u32,
    /// The tag of the list, which each row begins with.
    pub tag: [u8; 8],
    /// How many rows its table has: 1 to 2^20.
    pub rows: u32,
    /// What each key is hashed with.
    pub salt: [u8; 16],
    /// The SHA-256 of the database's file.
    pub sha256: [u8; 32],
    /// The most bytes that a value has: 0 to 16384.
    pub value: usize,
    /// How many bytes a row has: at most 2^16.
    pub width: u32,
    /// Who serves the database, where the catalog says so.
    pub servers: Option<Servers>,
}

impl Model for Catalog {
    ghost use Rattle.list_catalog.specs.Facts.{AreSizes, Facts};

    ghost Value = { Facts };

    ghost view = { λ c. record {
      digest = c.digest;
      entries = c.entries;
      tag = c.tag;
      rows = c.rows;
      salt = c.salt;
      sha256 = c.sha256;
      value = c.value;
      width = c.width;
      servers = c.servers;
    } };

    ghost invariant = { λ c. AreSizes c.digest c.entries c.rows c.value c.width };
}
