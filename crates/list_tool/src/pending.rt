//! What is to be written to Output, and wasn't given yet.

ghost use Rattle.std.specs.Prelude.{◌≡◌, ◌≤◌, ◌+◌, ◌++◌, [], length, take, flat_map, OnOk};
ghost use Rattle.hex.specs.Hex.{encode_lower};
ghost use Rattle.port_trait.specs.Number.{OUTPUT};
ghost use Rattle.port_trait.specs.Moves.{Touches};
ghost use Rattle.port_trait.specs.Written.{Written};
ghost use Rattle.list_tool.specs.Pending.{Puts};
ghost use Rattle.list_tool.specs.declared.pending.TheConstants.{PIECE, ROOM};

use port_trait::{Failed, Port, Ports, write_all};
use std::marker::Model;

/// How many bytes may be pending.
const ROOM: usize = 4096;

/// How many bytes are made hexadecimal at once.
const PIECE: usize = 128;

/// Bytes that are to be written to Output, which are given to it together, once there is no room for more.
///
/// Contracts see those that are pending.
#[derive(Drop)]
pub(crate) struct Pending {
    bytes: [u8; ROOM],
    count: usize,
}

impl Model for Pending {
    ghost use Rattle.std.specs.Prelude.{ℕ, ◌≤◌, List, take};
    ghost use Rattle.list_tool.specs.declared.pending.TheConstants.{ROOM};

    ghost Value = { List ℕ };

    ghost view = { λ p. take p.count p.bytes };

    ghost invariant = { λ p. p.count ≤ ROOM };
}

/// Copies a text behind the first so many bytes.
fn copy_behind(bytes: &mut [u8], count: usize, text: &[u8])
    requires { count + length text.now ≤ length bytes.old }
    ensures { take (count + length text.now) bytes.new ≡ take count bytes.old ++ text.now }
{
    let (_, behind) = bytes.split_at_mut(count);
    let (front, _) = behind.split_at_mut(text.len());
    front.copy_from_slice(text);
}

impl Pending {
    /// Nothing is pending.
    pub(crate) fn new() -> Pending
        ensures { result ≡ [] }
    {
        Pending {
            bytes: [0; ROOM],
            count: 0,
        }
    }

    /// How many more bytes there is room for.
    fn room(&self) -> usize
        ensures { result + length self.now ≡ ROOM }
    {
        ROOM - self.count
    }

    /// Keeps a text behind what is pending.
    fn keep(&mut self, text: &[u8])
        requires { length self.old + length text.now ≤ ROOM }
        ensures { self.new ≡ self.old ++ text.now }
    {
        copy_behind(&mut self.bytes, self.count, text);
        self.count += text.len();
    }

    /// Gives what is pending.
    pub(crate) fn flush<P: Ports>(&mut self, ports: &mut P) -> Result<(), Failed>
        ensures written { Written OUTPUT self.old result (P.world ports.old) (P.world ports.new) }
        ensures none { OnOk result (self.new ≡ []) }
        ensures others { Touches OUTPUT (P.world ports.old) (P.world ports.new) }
    {
        if self.count > 0 {
            write_all(ports, Port::Output, &self.bytes[..self.count])?;
            self.count = 0;
        }
        Ok(())
    }

    /// Puts a text, which may be empty, behind what is pending. What there is no room for is given.
    pub(crate) fn put<P: Ports>(&mut self, ports: &mut P, text: &[u8]) -> Result<(), Failed>
        ensures puts { Puts text.now result self.old self.new (P.world ports.old) (P.world ports.new) }
        ensures others { Touches OUTPUT (P.world ports.old) (P.world ports.new) }
    {
        if text.len() <= self.room() {
            self.keep(text);
            return Ok(());
        }
        self.flush(ports)?;
        if text.len() > self.room() {
            return write_all(ports, Port::Output, text);
        }
        self.keep(text);
        Ok(())
    }

    /// Puts texts, one behind another.
    pub(crate) fn put_all<P: Ports>(&mut self, ports: &mut P, texts: &[&[u8]]) -> Result<(), Failed>
        ensures puts { Puts (flat_map (λ t. t.now) texts.now) result self.old self.new
            (P.world ports.old) (P.world ports.new) }
        ensures others { Touches OUTPUT (P.world ports.old) (P.world ports.new) }
    {
        for text in texts {
            self.put(ports, *text)?;
        }
        Ok(())
    }

    /// Puts at most so many bytes as are made hexadecimal at once.
    fn put_piece<P: Ports>(&mut self, ports: &mut P, bytes: &[u8]) -> Result<(), Failed>
        requires { length bytes.now ≤ PIECE }
        ensures puts { Puts (encode_lower bytes.now) result self.old self.new
            (P.world ports.old) (P.world ports.new) }
        ensures others { Touches OUTPUT (P.world ports.old) (P.world ports.new) }
    {
        let mut room = [0u8; 2 * PIECE];
        let digits: &mut [u8] = &mut room[..2 * bytes.len()];
        let _ = hex::encode_to_slice(bytes, digits);
        self.put(ports, digits)
    }

    /// Puts bytes in lower-case hexadecimal.
    pub(crate) fn put_hexadecimal<P: Ports>(
        &mut self,
        ports: &mut P,
        bytes: &[u8],
    ) -> Result<(), Failed>
        ensures puts { Puts (encode_lower bytes.now) result self.old self.new
            (P.world ports.old) (P.world ports.new) }
        ensures others { Touches OUTPUT (P.world ports.old) (P.world ports.new) }
    {
        let mut at = 0;
        'pieces: while at < bytes.len() {
            let end = bytes.len().min(at + PIECE);
            self.put_piece(ports, &bytes[at..end])?;
            at = end;
        }
        Ok(())
    }
}
