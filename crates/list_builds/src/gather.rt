//! The list that Input holds.

ghost use Rattle.std.specs.Prelude.{◌≡◌, ◌≤◌, ◌<◌, [], true, length, OnOk};
ghost use Rattle.key_table.specs.declared.TheConstants.{LEAST_DIGEST, MOST_DIGEST, MOST_PAIRS, MOST_VALUE};
ghost use Rattle.port_trait.specs.Number.{INPUT};
ghost use Rattle.port_trait.specs.Moves.{Touches};
ghost use Rattle.list_keys.specs.Form.{AreTerms};
ghost use Rattle.list_builds.specs.Gathering.{GathersList, with_pair};

use crate::SALT_SIZE;
use key_table::{AddFault, Entries, MOST_DIGEST, write_digest};
use list_keys::{LineReader, LinesFault, Terms};
use port_trait::Ports;
use std::alloc::{AllocError, Global};
use std::marker::Model;

/// A list as it was gathered.
#[derive(Drop)]
pub(crate) struct Gathered {
    /// How many bytes a digest has.
    size: usize,
    /// The pair of each line, in the order of the lines.
    pub(crate) entries: Entries,
    /// How many bytes the longest value has.
    pub(crate) longest: usize,
    /// Whether each line ended with a carriage return.
    pub(crate) all_end_with_return: bool,
}

impl Model for Gathered {
    ghost use Rattle.std.specs.Prelude.{◌≡◌, ◌≤◌};
    ghost use Rattle.key_table.specs.declared.TheConstants.{LEAST_DIGEST, MOST_DIGEST};
    ghost use Rattle.list_builds.specs.Gathering.{Gathered};

    ghost Value = { Gathered };

    ghost view = { λ g. record { held = g.entries; longest = g.longest; returns = g.all_end_with_return } };

    ghost invariant = { λ g. (g.size ≡ g.entries.size) × (LEAST_DIGEST ≤ g.size) × (g.size ≤ MOST_DIGEST) };
}

impl Gathered {
    /// No pair yet, and digests of `size` bytes.
    fn new(alloc: Global, size: usize) -> Gathered
        requires least { LEAST_DIGEST ≤ size }
        requires most { size ≤ MOST_DIGEST }
        ensures { result ≡ record { held = record { size = size; pairs = [] }; longest = 0; returns = true } }
    {
        Gathered {
            size,
            entries: Entries::new(alloc, size),
            longest: 0,
            all_end_with_return: true,
        }
    }

    /// Adds the pair of a key and a value: the digest of the key, and the value.
    fn add(&mut self, salt: &[u8; SALT_SIZE], key: &[u8], value: &[u8]) -> Result<(), AllocError>
        requires few { length self.old.held.pairs < MOST_PAIRS }
        requires value { length value.now ≤ MOST_VALUE }
        ensures { OnOk result (self.new ≡ with_pair salt.now key.now value.now self.old) }
    {
        let mut room = [0; MOST_DIGEST];
        let digest = &mut room[..self.size];
        write_digest(salt, key, digest);
        match self.entries.add(digest, value) {
            Ok(()) => {}
            Err(AddFault::TooMany) => unreachable!(),
            Err(AddFault::Memory) => return Err(AllocError),
        }
        self.longest = self.longest.max(value.len());
        Ok(())
    }
}

/// Gathers the list of Input, already open, which is read to its end.
/// Of each line it keeps the digest of its key, of `size` bytes under the salt, and its value.
///
/// # Errors
///
/// Those of [`LineReader::read_line`], and `Memory` for want of memory.
pub(crate) fn gather_list<P: Ports>(
    alloc: Global,
    ports: &mut P,
    salt: &[u8; SALT_SIZE],
    size: usize,
    terms: Terms,
) -> Result<Gathered, LinesFault>
    requires least { LEAST_DIGEST ≤ size }
    requires most { size ≤ MOST_DIGEST }
    requires terms { AreTerms terms }
    ensures gathers { GathersList salt.now size terms result (P.world ports.old) (P.world ports.new) }
    ensures others { Touches INPUT (P.world ports.old) (P.world ports.new) }
{
    let mut lines = LineReader::new(alloc, terms)?;
    let mut list = Gathered::new(alloc, size);
    'lines: while lines.read_line(ports)? {
        list.add(salt, lines.key(), lines.value())?;
    }
    list.all_end_with_return = lines.all_end_with_return();
    Ok(list)
}
