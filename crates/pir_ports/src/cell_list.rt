// The ports in memory side by side, and what the links held before.
ghost use Rattle.std.specs.Prelude.{◌≡◌, ◌<◌, length, take, drop, get_or, IfOk, OnOk, OnErr};
ghost use Rattle.pir_ports.specs.MemoryCell.{empty_cell, put, with_room, hand, accept, fault, came_in, moved};
ghost use Rattle.pir_ports.specs.CellList.{no_cells, with_cell, with_link_room, with_links};
ghost use Rattle.pir_ports.specs.Marks.{MarksEach};

use crate::cell::{Mark, MemCell};
use crate::{Failed, LINK_COUNT, PORT_COUNT};
use std::alloc::{AllocError, Global};
use std::marker::Model;

/// The ports by their numbers, and what each link held and its count each time that this was kept.
///
/// A row of `rows` has the marks of the links at one time, in their order. The rows have capacity for
/// `room` more, so that keeping one needs no memory.
#[derive(Drop)]
pub struct Cells {
    cells: Vec<MemCell>,
    rows: Vec<[Mark; LINK_COUNT]>,
    room: usize,
}

impl Model for Cells {
    ghost use Rattle.pir_ports.specs.CellList.{CellList};

    ghost Value = { CellList };

    ghost use Rattle.pir_ports.specs.CellsInside.{list_of, IsSound};

    ghost view = { list_of };

    ghost invariant = { IsSound };
}

// The marks of the links.
fn marks(cells: &[MemCell]) -> [Mark; LINK_COUNT]
    requires ports { length cells.now ≡ PORT_COUNT }
    ensures { MarksEach cells.now result }
{
    let mut row = [Mark {
        from: 0,
        to: 0,
        faults: 0,
    }; LINK_COUNT];
    for i in 0..LINK_COUNT {
        row[i] = cells[256 + i].mark();
    }
    row
}

impl Cells {
    /// Ports that hold nothing and have no room.
    pub fn new(alloc: Global) -> Result<Self, AllocError>
        ensures { IfOk result (λ c. c ≡ no_cells) }
    {
        let mut cells = Vec::new(alloc);
        for _i in 0..PORT_COUNT {
            cells.push(MemCell::new(alloc))?;
        }
        Ok(Cells {
            cells,
            rows: Vec::new(alloc),
            room: 0,
        })
    }

    /// Puts bytes behind those that the port has still to hand out. An `Err` changes nothing.
    pub fn put(&mut self, p: usize, bytes: &[u8]) -> Result<(), AllocError>
        requires { p < length self.old.cells }
        ensures ok { OnOk result (self.new ≡ with_cell p (put bytes.now) self.old) }
        ensures err { OnErr result (self.new ≡ self.old) }
    {
        let cell = &mut self.cells[p];
        cell.put(bytes)?;
        Ok(())
    }

    /// Makes room at the port for `n` bytes more, and no others. An `Err` changes nothing.
    pub fn set_room(&mut self, p: usize, n: usize) -> Result<(), AllocError>
        requires { p < length self.old.cells }
        ensures ok { OnOk result (self.new ≡ with_cell p (with_room n) self.old) }
        ensures err { OnErr result (self.new ≡ self.old) }
    {
        let cell = &mut self.cells[p];
        cell.set_room(n)?;
        Ok(())
    }

    /// Makes room to keep what the links hold `n` times. An `Err` changes nothing.
    pub fn set_link_room(&mut self, n: usize) -> Result<(), AllocError>
        ensures ok { OnOk result (self.new ≡ with_link_room n self.old) }
        ensures err { OnErr result (self.new ≡ self.old) }
    {
        self.rows.reserve(n)?;
        self.room = n;
        Ok(())
    }

    /// Hands out as many bytes of the port as there are, but at most `cut`, into the front of the slice.
    pub fn hand(&mut self, p: usize, cut: usize, into: &mut [u8]) -> usize
        requires { p < length self.old.cells }
        ensures count { result
            ≡ moved cut (length into.old) (length (get_or self.old.cells p empty_cell).holds) }
        ensures cells { self.new ≡ with_cell p (hand result) self.old }
        ensures bytes { take result into.new
            ≡ take result (get_or self.old.cells p empty_cell).holds }
        ensures rest { drop result into.new ≡ drop result into.old }
    {
        let cell = &mut self.cells[p];
        cell.hand(cut, into)
    }

    /// Has the port take as many bytes of the piece as there is room for, but at most `cut`.
    pub fn accept(&mut self, p: usize, cut: usize, piece: &[u8]) -> usize
        requires { p < length self.old.cells }
        ensures count { result ≡ moved cut (length piece.now) (get_or self.old.cells p empty_cell).room }
        ensures cells { self.new ≡ with_cell p (accept (take result piece.now)) self.old }
    {
        let cell = &mut self.cells[p];
        cell.accept(cut, piece)
    }

    /// Counts a failed call of the port, up to `2^64 - 1`.
    pub fn fault(&mut self, p: usize) -> Failed
        requires { p < length self.old.cells }
        ensures { self.new ≡ with_cell p fault self.old }
    {
        let cell = &mut self.cells[p];
        cell.fault()
    }

    /// Keeps what each link holds, and its count.
    pub fn keep_links(&mut self)
        requires { 0 < self.old.room }
        ensures { self.new ≡ with_links self.old }
    {
        let row = marks(&self.cells);
        match self.rows.push(row) {
            Ok(()) => {}
            Err(_) => unreachable!(),
        }
        self.room -= 1;
    }

    /// The guest whose cell is `next` comes in at `Guest`, and the cell that was there goes to `next`.
    ///
    /// The guest was given nothing yet, and the count of failed calls goes on.
    pub fn let_in(&mut self, next: &mut MemCell)
        requires { 6 < length self.old.cells }
        ensures present { self.new ≡ with_cell 6 (came_in next.old) self.old }
        ensures before { next.new ≡ get_or self.old.cells 6 empty_cell }
    {
        let present = &mut self.cells[6];
        present.let_in(next);
    }

    /// The port.
    pub fn at(&self, p: usize) -> &MemCell
        requires { p < length self.now.cells }
        ensures { result.now ≡ get_or self.now.cells p empty_cell }
    {
        &self.cells[p]
    }
}
