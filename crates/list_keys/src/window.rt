//! The bytes of Input that were taken, and are not yet given as lines.

ghost use Rattle.std.specs.Prelude.{◌≡◌, ◌<◌, ◌≤◌, ◌+◌, ◌-◌, ℕ, List, length, take, drop, false, [], IfOk, OnOk};
ghost use Rattle.port_trait.specs.Number.{INPUT};
ghost use Rattle.port_trait.specs.Moves.{Touches};
ghost use Rattle.list_keys.specs.Window.{EndsAt, Grows, TakesMore, TakesPiece, part};
ghost use Rattle.list_keys.specs.declared.window.TheConstants.{ROOM};

use crate::LONGEST_LINE;
use crate::place::newline_in;
use port_trait::{Failed, Port, Ports};
use std::alloc::{AllocError, Global};
use std::marker::Model;

/// How many bytes there is room for: the longest line, and three pieces as long.
const ROOM: usize = 1 << 18;

/// The bytes that are unread, and the line that was given last, which stands before them.
#[derive(Drop)]
pub(crate) struct Unread {
    bytes: Vec<u8>,
    /// Where the line starts, and where it ends.
    line_start: usize,
    line_end: usize,
    /// Where the unread bytes start, and where they end.
    start: usize,
    end: usize,
    /// Whether no more come.
    ended: bool,
}

impl Model for Unread {
    ghost use Rattle.std.specs.Prelude.{◌≡◌, ◌≤◌, length};
    ghost use Rattle.list_keys.specs.Window.{Window, part};
    ghost use Rattle.list_keys.specs.declared.window.TheConstants.{ROOM};

    ghost Value = { Window };

    ghost view = { λ u. record { line = part u.bytes.items u.line_start u.line_end; rest = part u.bytes.items u.start u.end; ended = u.ended } };

    ghost invariant = { λ u. (length u.bytes.items ≡ ROOM) × (u.start ≤ u.end) × (u.end ≤ ROOM)
        × (u.line_start ≤ u.line_end) × (u.line_end ≤ ROOM) };
}

/// Moves what is unread to the front, where there is no room behind it, and returns where it starts now.
fn with_room(bytes: &mut [u8], start: usize, end: usize) -> usize
    requires order { start ≤ end }
    requires within { end ≤ length bytes.old }
    requires room { end - start < length bytes.old }
    ensures kept { take (end - start) (drop result bytes.new) ≡ part bytes.old start end }
    ensures room { result + (end - start) < length bytes.old }
{
    if end < bytes.len() {
        return start;
    }
    bytes.copy_within(start..end, 0);
    0
}

/// Takes more of Input, behind the bytes before `end`.
fn take_behind<P: Ports>(ports: &mut P, bytes: &mut [u8], end: usize) -> Result<usize, Failed>
    requires { end < length bytes.old }
    ensures kept { take end bytes.new ≡ take end bytes.old }
    ensures piece { TakesPiece end result bytes.old bytes.new (P.world ports.old) (P.world ports.new) }
    ensures others { Touches INPUT (P.world ports.old) (P.world ports.new) }
{
    ports.take(Port::Input, &mut bytes[end..])
}

impl Unread {
    /// No byte yet. It takes all memory that it is to have.
    pub(crate) fn new(alloc: Global) -> Result<Unread, AllocError>
        ensures { IfOk result (λ u. u ≡ record { line = []; rest = []; ended = false }) }
    {
        Ok(Unread {
            bytes: vec![in alloc; 0; ROOM]?,
            line_start: 0,
            line_end: 0,
            start: 0,
            end: 0,
            ended: false,
        })
    }

    /// The line that was given last, until more is taken.
    pub(crate) fn line(&self) -> &[u8]
        ensures { result.now ≡ self.now.line }
    {
        &self.bytes.as_slice()[self.line_start..self.line_end]
    }

    /// What is unread.
    pub(crate) fn rest(&self) -> &[u8]
        ensures { result.now ≡ self.now.rest }
    {
        &self.bytes.as_slice()[self.start..self.end]
    }

    /// Whether no more bytes come.
    fn has_ended(&self) -> bool
        ensures { result ≡ self.now.ended }
    {
        self.ended
    }

    /// Takes more of Input.
    fn fill<P: Ports>(&mut self, ports: &mut P) -> Result<(), Failed>
        requires room { length self.old.rest < ROOM }
        requires more { self.old.ended ≡ false }
        ensures takes { TakesMore self.old result self.new (P.world ports.old) (P.world ports.new) }
        ensures kept { OnOk result (take (length self.old.rest) self.new.rest ≡ self.old.rest) }
        ensures grows { OnOk result (Grows self.old self.new) }
        ensures others { Touches INPUT (P.world ports.old) (P.world ports.new) }
    {
        let count = self.end - self.start;
        self.start = with_room(self.bytes.as_mut_slice(), self.start, self.end);
        self.end = self.start + count;
        self.line_start = 0;
        self.line_end = 0;
        let more = take_behind(ports, self.bytes.as_mut_slice(), self.end)?;
        self.end += more;
        self.ended = more == 0;
        Ok(())
    }

    /// Takes more of Input until it is known where the first line of what is unread ends.
    /// A line that is longer than any that is good ends where what is unread does.
    pub(crate) fn find_end<P: Ports>(&mut self, ports: &mut P) -> Result<usize, Failed>
        ensures takes { TakesMore self.old result self.new (P.world ports.old) (P.world ports.new) }
        ensures ends { IfOk result (EndsAt self.new) }
        ensures others { Touches INPUT (P.world ports.old) (P.world ports.new) }
    {
        let mut looked = 0;
        'looking: loop {
            let at = looked + newline_in(&self.rest()[looked..]);
            if at < self.rest().len() || self.has_ended() || at > LONGEST_LINE {
                return Ok(at);
            }
            looked = at;
            self.fill(ports)?;
        }
    }

    /// Gives the first bytes that are unread, so many, as a line.
    /// The byte behind them, if there is one, is passed over.
    pub(crate) fn give(&mut self, at: usize)
        requires { at ≤ length self.old.rest }
        ensures { self.new ≡ record { line = take at self.old.rest; rest = drop (at + 1) self.old.rest; ended = self.old.ended } }
    {
        self.line_start = self.start;
        self.line_end = self.start + at;
        self.start = self.end.min(self.line_end + 1);
    }
}
