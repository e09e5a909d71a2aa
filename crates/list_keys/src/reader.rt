//! Gives the lines of Input, one after another.

ghost use Rattle.std.specs.Prelude.{◌≡◌, ◌≤◌, ◌<◌, ◌+◌, ◌&&◌, ℕ, true, [], length, take, IfOk, Result};
ghost use Rattle.port_trait.specs.Number.{INPUT};
ghost use Rattle.port_trait.specs.Moves.{Touches};
ghost use Rattle.port_trait.specs.World.{World};
ghost use Rattle.list_keys.specs.Lines.{ends_with_return};
ghost use Rattle.list_keys.specs.Form.{AreTerms, IsWhole, key_of, value_of};
ghost use Rattle.list_keys.specs.Reading.{GivesNext, HasRead};
ghost use Rattle.list_keys.specs.Taking.{GivesLine};

use crate::fault::LinesFault;
use crate::form::{Terms, key_of, refusal_of, value_of};
use crate::window::Unread;
use port_trait::Ports;
use std::alloc::{AllocError, Global};
use std::marker::Model;

/// Reads lines from Input, in whatever pieces its bytes come. A line that lies within a piece isn't copied.
///
/// ```
/// // Input holds "alpha\tone\nbeta\ttwo".
/// let terms = Terms { form: Form::KeyAndValue { most: 3 }, most: 1000 };
/// let mut lines = LineReader::new(alloc, terms)?;
/// while lines.read_line(ports)? {
///     store(lines.number(), lines.key(), lines.value()); // 1, "alpha", "one"; 2, "beta", "two"
/// }
/// ```
#[derive(Drop)]
pub struct LineReader {
    terms: Terms,
    number: u32,
    returns: bool,
    unread: Unread,
}

impl Model for LineReader {
    ghost use Rattle.std.specs.Prelude.{◌≤◌};
    ghost use Rattle.list_keys.specs.Form.{AreTerms};
    ghost use Rattle.list_keys.specs.Reading.{Reading};

    ghost Value = { Reading };

    ghost view = { λ r. record { terms = r.terms; number = r.number; returns = r.returns; window = r.unread } };

    ghost invariant = { λ r. AreTerms r.terms × (r.number ≤ r.terms.most) };
}

/// Whether the last byte of a line is a carriage return.
fn ends_with_return(line: &[u8]) -> bool
    ensures { result ≡ ends_with_return line.now }
{
    !line.is_empty() && line[line.len() - 1] == b'\r'
}

/// Whether each line ended with a carriage return, and one more does.
fn still_return(returns: bool, line: &[u8]) -> bool
    ensures { result ≡ (returns && ends_with_return line.now) }
{
    returns && ends_with_return(line)
}

impl LineReader {
    /// A reader of Input, already open, that has given no line. It takes a quarter of a megabyte.
    /// Values have at most [`MOST_VALUE`](key_table::MOST_VALUE) bytes, and there are at most
    /// [`MOST_PAIRS`](key_table::MOST_PAIRS) lines.
    ///
    /// # Errors
    ///
    /// `AllocError` for want of memory.
    pub fn new(alloc: Global, terms: Terms) -> Result<LineReader, AllocError>
        requires { AreTerms terms }
        ensures { IfOk result (λ r. (r.terms ≡ terms) × ((start : World) → HasRead r [] start start)) }
    {
        Ok(LineReader {
            terms,
            number: 0,
            returns: true,
            unread: Unread::new(alloc)?,
        })
    }

    /// How many lines were given: the number of the last one, counted from 1.
    pub fn number(&self) -> u32
        ensures { result ≡ self.now.number }
    {
        self.number
    }

    /// The key of the line that [`read_line`](LineReader::read_line) just gave.
    pub fn key(&self) -> &[u8]
        ensures { result.now ≡ key_of self.now.terms.form self.now.window.line }
    {
        key_of(self.terms.form, self.unread.line())
    }

    /// The value of the line that [`read_line`](LineReader::read_line) just gave: no byte where lines have none.
    pub fn value(&self) -> &[u8]
        ensures { result.now ≡ value_of self.now.terms.form self.now.window.line }
    {
        value_of(self.terms.form, self.unread.line())
    }

    /// Whether each line so far ended with a carriage return, as those of some systems do.
    /// It belongs to the key or the value.
    pub fn all_end_with_return(&self) -> bool
        ensures { result ≡ self.now.returns }
    {
        self.returns
    }

    /// Gives the next line, or says that all were given. The key of a line that is given has 1 to
    /// [`MOST_KEY`](crate::MOST_KEY) bytes, and its value at most as many as the terms allow, none of which ends a line.
    ///
    /// # Errors
    ///
    /// `ReadFault` exactly where a call on Input failed, whose count rose; `NoLine` exactly where Input is at its end
    /// and there was no line; `Refused` exactly where the next line has a fault, with its number. A fault ends the
    /// reading: nothing is promised of calls behind one. `Memory` never comes.
    pub fn read_line<P: Ports>(&mut self, ports: &mut P) -> Result<bool, LinesFault>
        ensures gives { GivesNext self.old result self.new (P.world ports.old) (P.world ports.new) }
        ensures whole { IfOk result (λ m. m ≡ true → IsWhole self.new.terms.form self.new.window.line) }
        ensures terms { self.new.terms ≡ self.old.terms }
        ensures others { Touches INPUT (P.world ports.old) (P.world ports.new) }
    {
        let Ok(at) = self.unread.find_end(ports) else {
            return Err(LinesFault::ReadFault);
        };
        if self.unread.rest().is_empty() {
            if self.number == 0 {
                return Err(LinesFault::NoLine);
            }
            return Ok(false);
        }
        self.give(at)
    }

    /// Gives the first bytes that are unread, so many, as the next line.
    fn give(&mut self, at: usize) -> Result<bool, LinesFault>
        requires { at ≤ length self.old.window.rest }
        ensures { GivesLine at self.old result self.new }
    {
        let line = &self.unread.rest()[..at];
        let number = self.number + 1;
        if let Some(fault) = refusal_of(self.terms, number, line) {
            return Err(LinesFault::Refused { number, fault });
        }
        self.returns = still_return(self.returns, line);
        self.number = number;
        self.unread.give(at);
        Ok(true)
    }
}
