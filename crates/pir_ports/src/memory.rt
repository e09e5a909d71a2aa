// Ports in memory.
ghost use Rattle.std.specs.Prelude.{◌≡◌, ◌≢◌, ◌<◌, ◌≤◌, ◌+◌, ◌-◌, ◌^◌, ◌↔◌, ℕ, [], Some, length, map, string_bytes, take, slice_get, Contains, IfOk, IfSome, OnOk, OnErr, IsErr, IsTrue, ◌⊎◌};
ghost use Rattle.std.specs.Option.{option_copied};
ghost use Rattle.port_trait.specs.World.{answered};
ghost use Rattle.port_trait.specs.Number.{number, DOOR, GUEST, child};
ghost use Rattle.port_trait.specs.Moves.{Touches, Hands, Fails, gave, named};
ghost use Rattle.port_trait.specs.Guests.{Meets};
ghost use Rattle.port_trait.specs.Children.{Starts};
ghost use Rattle.pir_ports.specs.MemoryCell.{empty_cell, put, with_room, hand, accept, fault, moved};
ghost use Rattle.pir_ports.specs.NameLog.{CanKeep, CanKeepStart};
ghost use Rattle.pir_ports.specs.Memory.{Memory, world_of, cell_at, told, told_at, filled, joined_by, fresh, changed, opened, begun, word_at, invited, met, next_call, called, IsDue};

use crate::cell::MemCell;
use crate::cell_list::Cells;
use crate::names::Names;
use crate::{Failed, Port, Ports};
use std::alloc::{AllocError, Global};
use std::marker::Model;

/// Ports in memory, which tell everything and fail only where they are asked to.
///
/// A call of [`Ports`] moves as many bytes as it can, but at most `cut`. It fails exactly if its
/// number stands in `fail`, if it is an `open` or a `start_child` whose words there is no room to
/// keep, if it is a `give` on a port with no room left, or if it is a `next_guest` and no guest is left. Before the
/// first guest `Guest` holds nothing and has no room. Numbers count the calls over all ports from 1, and stop at
/// `2^64 - 1`. No call of [`Ports`] takes memory.
///
/// ```
/// // Takes of 3 bytes at most; the second call fails; room for one word of 8 bytes.
/// let mut ports = MemPorts::new(alloc, 3, &[2], 1, 8)?;
/// ports.put(alloc, Port::Input, b"abcd")?;
/// assert_eq!(ports.open(Port::Input, "letters"), Ok(()));
/// let mut text = [0; 4];
/// assert_eq!(ports.take(Port::Input, &mut text), Err(Failed));
/// assert_eq!(ports.take(Port::Input, &mut text), Ok(3));
/// assert_eq!(ports.opened_as(Port::Input, 0), Some(b"letters".as_slice()));
/// ```
#[derive(Drop)]
pub struct MemPorts {
    cut: usize,
    fail: Vec<u64>,
    calls: u64,
    cells: Cells,
    guests: Vec<MemCell>,
    met: usize,
    since: Vec<u64>,
    names: Names,
}

impl Model for MemPorts {
    ghost use Rattle.pir_ports.specs.Memory.{Memory};

    ghost Value = { Memory };

    ghost use Rattle.pir_ports.specs.PortsInside.{memory_of, IsSound};

    ghost view = { memory_of };

    ghost invariant = { IsSound };
}

// Counts one call more, and tells whether it is due to fail.
fn is_due(calls: &mut u64, fail: &[u64]) -> bool
    ensures calls { calls.new ≡ next_call calls.old }
    ensures due { IsTrue result ↔ Contains fail.now calls.new }
{
    *calls = calls.saturating_add(1);
    fail.contains(calls)
}

impl MemPorts {
    /// Ports that hold nothing and have no room, with no guests, and with room for `names` words of `open` and
    /// `start_child` that have `bytes` bytes in all. An `open` has one word, its name, and a `start_child`
    /// counts one word more than it has. `cut` and `fail` stand above.
    ///
    /// # Errors
    ///
    /// `AllocError` if memory is short.
    pub fn new(
        alloc: Global,
        cut: usize,
        fail: &[u64],
        names: usize,
        bytes: usize,
    ) -> Result<MemPorts, AllocError>
        requires cuts { 0 < cut }
        requires last { ¬ Contains fail.now (2 ^ 64 - 1) }
        ensures fresh { IfOk result (λ m. m ≡ fresh cut fail.now names bytes) }
        ensures told { IfOk result (λ m. (p : ℕ) → (world_of m).at p ≡ told [] empty_cell) }
    {
        let fail = fail.to_vec(alloc)?;
        let names = Names::new(alloc, names, bytes)?;
        let cells = Cells::new(alloc)?;
        Ok(MemPorts {
            cut,
            fail,
            calls: 0,
            cells,
            guests: Vec::new(alloc),
            met: 0,
            since: Vec::new(alloc),
            names,
        })
    }

    /// Puts bytes behind those that the port has still to hand out. They lie in memory of the
    /// allocator that `new` was given. Bytes that are put to `Guest` are lost once the next guest comes in;
    /// guests bring their own: see `guest`.
    ///
    /// # Errors
    ///
    /// `AllocError` if memory is short; nothing is changed then.
    pub fn put(&mut self, _alloc: Global, p: Port, bytes: &[u8]) -> Result<(), AllocError>
        ensures ok { OnOk result (self.new ≡ changed (number p) (put bytes.now) self.old) }
        ensures told { OnOk result (told_at self.new p
            ≡ filled bytes.now (told_at self.old p)) }
        ensures others { Touches (number p) (world_of self.old) (world_of self.new) }
        ensures err { OnErr result (self.new ≡ self.old) }
    {
        self.cells.put(p.number(), bytes)
    }

    /// Sets how many bytes more the port can take, and takes memory for them from the allocator that
    /// `new` was given. For guests `guest` does so.
    ///
    /// # Errors
    ///
    /// `AllocError` if memory is short; nothing is changed then.
    pub fn room(&mut self, _alloc: Global, p: Port, n: usize) -> Result<(), AllocError>
        requires guests { number p ≢ GUEST }
        ensures ok { OnOk result (self.new ≡ changed (number p) (with_room n) self.old) }
        ensures told { told_at self.new p ≡ told_at self.old p }
        ensures others { Touches (number p) (world_of self.old) (world_of self.new) }
        ensures err { OnErr result (self.new ≡ self.old) }
    {
        self.cells.set_room(p.number(), n)
    }

    /// Adds one guest to those still to come, who has these bytes, and room for `n` bytes.
    ///
    /// # Errors
    ///
    /// `AllocError` if memory is short; nothing is changed then.
    pub fn guest(&mut self, alloc: Global, bytes: &[u8], n: usize) -> Result<(), AllocError>
        ensures ok { OnOk result (self.new ≡ invited bytes.now n self.old) }
        ensures told { OnOk result ((world_of self.new).crowd
            ≡ joined_by bytes.now (world_of self.old).crowd) }
        ensures ports { (p : ℕ) → (world_of self.new).at p ≡ (world_of self.old).at p }
        ensures started { (world_of self.new).started ≡ (world_of self.old).started }
        ensures err { OnErr result (self.new ≡ self.old) }
    {
        let mut cell = MemCell::new(alloc);
        cell.put(bytes)?;
        cell.set_room(n)?;
        let waiting = self.guests.len() + 1 - self.met;
        self.since.reserve(waiting)?;
        self.cells.set_link_room(waiting)?;
        self.guests.push(cell)?;
        Ok(())
    }

    /// What guest `i` was given, counted from 0 in the order in which they came in; `None` exactly
    /// where no such guest came in yet.
    pub fn answered_to(&self, i: usize) -> Option<&[u8]>
        ensures { IfSome (answered (world_of self.now))
            (λ answers. option_copied result ≡ slice_get answers i) }
    {
        if i >= self.met {
            return None;
        }
        if i + 1 == self.met {
            Some(self.cells.at(6).accepted())
        } else {
            Some(self.guests[i + 1].accepted())
        }
    }

    /// The bytes that the port has taken so far.
    pub fn seen(&self, p: Port) -> &[u8]
        ensures { (told_at self.now p).accepted ≡ Some result.now }
    {
        self.cells.at(p.number()).accepted()
    }

    /// Name `i`, counted from 0, that the port was opened with; `None` exactly where there is none.
    pub fn opened_as(&self, p: Port, i: usize) -> Option<&[u8]>
        ensures { IfSome (told_at self.now p).opened
            (λ names. option_copied result ≡ slice_get names i) }
    {
        self.names.name(p.number(), i)
    }

    /// Word `j` of the words with which child `i` was started, in the order of the starts that
    /// succeeded; both count from 0. `None` exactly where there is no such start or word.
    pub fn started_word(&self, i: usize, j: usize) -> Option<&[u8]>
        ensures { IfSome (world_of self.now).started
            (λ starts. option_copied result ≡ word_at starts i j) }
    {
        self.names.started(i, j)
    }
}

impl Ports for MemPorts {
    ghost world = { world_of };

    fn open(&mut self, p: Port, name: &str) -> Result<(), Failed>
        requires named { number p ≢ GUEST }
        ensures ok { OnOk result (told_at self.new p
            ≡ named name.now (told_at self.old p)) }
        ensures failed { OnErr result (Fails (number p) (world_of self.old) (world_of self.new)) }
        ensures others { Touches (number p) (world_of self.old) (world_of self.new) }

        // It fails exactly where it is due to fail or there is no room for the name.
        ensures exactly { IsErr result ↔ (IsDue self.old ⊎ ¬ CanKeep name.now self.old.log) }
        ensures kept { OnOk result (CanKeep name.now self.old.log) }
        ensures opens { OnOk result (self.new ≡ opened (number p) name.now (called self.old)) }
        ensures counts { OnErr result (self.new ≡ changed (number p) fault (called self.old)) }
    {
        if is_due(&mut self.calls, &self.fail) || !self.names.can_keep(name) {
            return Err(self.cells.fault(p.number()));
        }
        self.names.push(p.number(), name);
        Ok(())
    }

    fn take(&mut self, p: Port, into: &mut [u8]) -> Result<usize, Failed>
        requires { 0 < length into.old }
        ensures ok { IfOk result (λ n.
            Hands (number p) n into.old into.new (world_of self.old) (world_of self.new)) }
        ensures end { IfOk result (λ n.
            n ≡ 0 → IfSome (told_at self.old p).holds (λ h. h ≡ [])) }
        ensures failed { OnErr result (Fails (number p) (world_of self.old) (world_of self.new)) }
        ensures others { Touches (number p) (world_of self.old) (world_of self.new) }

        // It fails exactly where it is due to fail, and hands out as much as it may.
        ensures exactly { IsErr result ↔ IsDue self.old }
        ensures most { IfOk result (λ n.
            n ≡ moved self.old.cut (length into.old) (length (cell_at self.old (number p)).holds)) }
        ensures hands { IfOk result (λ n. self.new ≡ changed (number p) (hand n) (called self.old)) }
        ensures counts { OnErr result (self.new ≡ changed (number p) fault (called self.old)) }
    {
        if is_due(&mut self.calls, &self.fail) {
            return Err(self.cells.fault(p.number()));
        }
        Ok(self.cells.hand(p.number(), self.cut, into))
    }

    fn give(&mut self, p: Port, piece: &[u8]) -> Result<usize, Failed>
        requires { 0 < length piece.now }
        ensures some { IfOk result (λ n. 0 < n) }
        ensures fits { IfOk result (λ n. n ≤ length piece.now) }
        ensures ok { IfOk result (λ n. told_at self.new p
            ≡ gave (take n piece.now) (told_at self.old p)) }
        ensures failed { OnErr result (Fails (number p) (world_of self.old) (world_of self.new)) }
        ensures others { Touches (number p) (world_of self.old) (world_of self.new) }

        // It fails exactly where it is due to fail or has no room, and takes as much as it may.
        ensures exactly { IsErr result ↔ (IsDue self.old ⊎ ((cell_at self.old (number p)).room ≡ 0)) }
        ensures most { IfOk result (λ n.
            n ≡ moved self.old.cut (length piece.now) (cell_at self.old (number p)).room) }
        ensures accepts { IfOk result (λ n.
            self.new ≡ changed (number p) (accept (take n piece.now)) (called self.old)) }
        ensures counts { OnErr result (self.new ≡ changed (number p) fault (called self.old)) }
    {
        if is_due(&mut self.calls, &self.fail) || self.cells.at(p.number()).room() == 0 {
            return Err(self.cells.fault(p.number()));
        }
        Ok(self.cells.accept(p.number(), self.cut, piece))
    }

    fn next_guest(&mut self) -> Result<(), Failed>
        ensures ok { OnOk result (Meets (world_of self.old) (world_of self.new)) }
        ensures failed { OnErr result (Fails DOOR (world_of self.old) (world_of self.new)) }
        ensures others { OnErr result (Touches DOOR (world_of self.old) (world_of self.new)) }

        // It fails exactly where it is due to fail or no guest is left.
        ensures exactly { IsErr result ↔ (IsDue self.old ⊎ (self.old.waiting ≡ [])) }
        ensures meets { OnOk result (self.new ≡ met (called self.old)) }
        ensures counts { OnErr result (self.new ≡ changed 5 fault (called self.old)) }
    {
        if is_due(&mut self.calls, &self.fail) || self.met == self.guests.len() {
            return Err(self.cells.fault(5));
        }
        match self.since.push(self.cells.at(6).faults()) {
            Ok(()) => {}
            Err(_) => unreachable!(),
        }
        self.cells.keep_links();
        self.cells.let_in(&mut self.guests[self.met]);
        self.met += 1;
        Ok(())
    }

    fn start_child(&mut self, i: u8, words: &[String]) -> Result<(), Failed>
        ensures ok { OnOk result
            (Starts (map string_bytes words.now) (world_of self.old) (world_of self.new)) }
        ensures failed { OnErr result (Fails (child i) (world_of self.old) (world_of self.new)) }
        ensures others { OnErr result (Touches (child i) (world_of self.old) (world_of self.new)) }

        // It fails exactly where it is due to fail or there is no room for the words.
        ensures exactly { IsErr result
            ↔ (IsDue self.old ⊎ ¬ CanKeepStart (map string_bytes words.now) self.old.log) }
        ensures kept { OnOk result (CanKeepStart (map string_bytes words.now) self.old.log) }
        ensures starts { OnOk result (self.new ≡ begun (map string_bytes words.now) (called self.old)) }
        ensures counts { OnErr result (self.new ≡ changed (child i) fault (called self.old)) }
    {
        if is_due(&mut self.calls, &self.fail) || !self.names.can_keep_start(words) {
            return Err(self.cells.fault(Port::Child(i).number()));
        }
        self.names.push_start(words);
        Ok(())
    }
}
