//! A key, as a text spells it.

ghost use Rattle.std.specs.Prelude.{◌≡◌, IfOk};
ghost use Rattle.std.specs.Char.{is_ascii_hexdigit};
ghost use Rattle.std.specs.List.{list_all};
ghost use Rattle.key_search.specs.Spelled.{IsReadAs, spells_bytes};

use std::alloc::{AllocError, Global};
use std::marker::Model;
use thiserror::Error;

/// Why a text is not read as a key.
#[derive(Clone, Copy, Debug, PartialEq, Eq, Error)]
pub enum KeyFault {
    /// The text is empty, or is not an even number of hexadecimal digits.
    #[error("the key is not a number of bytes in hexadecimal digits")]
    NotHex,
    /// The key has more bytes than a row: `max`.
    #[error("the key has more than {max} bytes")]
    TooLong { max: u32 },
    /// Want of memory.
    #[error("no memory")]
    Memory,
}

/// The first bytes of the row that is looked for. Contracts see the bytes.
#[derive(Drop)]
pub struct Key {
    bytes: Vec<u8>,
}

impl Model for Key {
    ghost use Rattle.std.specs.Prelude.{ℕ, List};

    ghost Value = { List ℕ };

    ghost view = { λ k. k.bytes.items };
}

impl Key {
    /// The bytes of the key.
    pub fn as_slice(&self) -> &[u8]
        ensures { result.now ≡ self.now }
    {
        self.bytes.as_slice()
    }

    /// A key of the same bytes.
    ///
    /// # Errors
    ///
    /// `AllocError` for want of memory.
    pub fn copied(&self, alloc: Global) -> Result<Key, AllocError>
        ensures { IfOk result (λ key. key ≡ self.now) }
    {
        let bytes = Vec::from_slice(alloc, self.as_slice())?;
        Ok(Key { bytes })
    }
}

/// Whether there are hexadecimal digits alone, of either case.
fn are_hex_digits(text: &[u8]) -> bool
    ensures { result ≡ list_all is_ascii_hexdigit text.now }
{
    for c in text {
        if !c.is_ascii_hexdigit() {
            return false;
        }
    }
    true
}

/// Whether the text is an even number of hexadecimal digits, and not empty.
fn spells(text: &[u8]) -> bool
    ensures { result ≡ spells_bytes text.now }
{
    !text.is_empty() && text.len() % 2 == 0 && are_hex_digits(text)
}

/// The key that the text spells, two hexadecimal digits of either case a byte, for rows of `width` bytes. `10aa` is the
/// key of the bytes `0x10` and `0xaa`.
///
/// # Errors
///
/// `NotHex` exactly where the text is empty, has an odd number of characters, or has one that is no hexadecimal digit.
/// `TooLong` with the width exactly where the key, of hexadecimal digits, has more than `width` bytes. `Memory` for want
/// of memory, where the text spells a key that isn't too long.
pub fn read_key(alloc: Global, text: &str, width: u32) -> Result<Key, KeyFault>
    ensures { IsReadAs text.now width result }
{
    if !spells(text.as_bytes()) {
        return Err(KeyFault::NotHex);
    }
    if text.len() / 2 > width as usize {
        return Err(KeyFault::TooLong { max: width });
    }
    match hex::decode(alloc, text) {
        Ok(bytes) => Ok(Key { bytes }),
        Err(_) => Err(KeyFault::Memory),
    }
}
