//! The keys of all lines, in memory.

ghost use Rattle.std.specs.Prelude.{◌≡◌, ◌<◌, ◌++◌, ◌∷◌, [], length, slice_index_or, IfOk};
ghost use Rattle.port_trait.specs.Number.{INPUT};
ghost use Rattle.port_trait.specs.Moves.{Touches};
ghost use Rattle.list_keys.specs.Form.{IsForm};
ghost use Rattle.list_keys.specs.Keys.{ReadsKeys};

use crate::MOST_KEYS;
use crate::fault::LinesFault;
use crate::form::{Form, Terms};
use crate::reader::LineReader;
use port_trait::Ports;
use std::alloc::{AllocError, Global};
use std::marker::Model;

/// Keys in the order in which they were given. Contracts see the bytes of each.
#[derive(Drop)]
pub struct Keys {
    list: Vec<Vec<u8>>,
}

impl Model for Keys {
    ghost use Rattle.std.specs.Prelude.{ℕ, List, map};

    ghost Value = { List (List ℕ) };

    ghost view = { λ k. map (λ key. key.items) k.list.items };
}

impl Keys {
    /// The keys of all lines of Input, already open, which is read to its end: [`MOST_KEYS`] at most.
    /// Values, where lines have some, have at most [`MOST_VALUE`](key_table::MOST_VALUE) bytes.
    ///
    /// # Errors
    ///
    /// Those of [`LineReader::read_line`], and `Memory` for want of memory.
    pub fn read<P: Ports>(alloc: Global, ports: &mut P, form: Form) -> Result<Keys, LinesFault>
        requires { IsForm form }
        ensures reads { ReadsKeys form result (P.world ports.old) (P.world ports.new) }
        ensures others { Touches INPUT (P.world ports.old) (P.world ports.new) }
    {
        let terms = Terms {
            form,
            most: MOST_KEYS,
        };
        let mut reader = LineReader::new(alloc, terms)?;
        let mut keys = Keys {
            list: Vec::new(alloc),
        };
        'lines: while reader.read_line(ports)? {
            keys.push(alloc, reader.key())?;
        }
        Ok(keys)
    }

    /// One more key.
    fn push(&mut self, alloc: Global, key: &[u8]) -> Result<(), AllocError>
        ensures { IfOk result (λ _. self.new ≡ self.old ++ key.now ∷ []) }
    {
        self.list.push(key.to_vec(alloc)?)?;
        Ok(())
    }

    /// How many keys there are.
    pub fn len(&self) -> usize
        ensures { result ≡ length self.now }
    {
        self.list.len()
    }

    /// The key at a place, counted from 0.
    pub fn key(&self, place: usize) -> &[u8]
        requires { place < length self.now }
        ensures { result.now ≡ slice_index_or self.now place [] }
    {
        self.list[place].as_slice()
    }
}
