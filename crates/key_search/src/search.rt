//! A search by key among rows that ascend, with a fixed number of turns.

ghost use Rattle.std.specs.Prelude.{◌≡◌, ◌-◌, ◌^◌, ◌<◌, ◌≤◌, [], length, IfOk, IfSome, option_copied};
ghost use Rattle.key_search.specs.Standing.{IsNextTurn, asked_row, key_order, left_above, left_below, middle_row, standing_after, standing_at_start, standing_by, turns_of, with_found};
ghost use Rattle.key_search.specs.Answers.{BeginsLookUp, EndsAs, EndsByAnswers, FindsAmongRows, IsToldMore, LooksUpMore, WasTold};

use crate::key::Key;
use std::alloc::{AllocError, Global};
use std::cmp::Ordering;
use std::marker::Model;

/// What a search comes to.
#[derive(Clone, Copy, Debug, PartialEq, Eq)]
pub enum Outcome<'a> {
    /// A row was lost: once, no row was told.
    Lost,
    /// The first row told that begins with the key.
    Found(&'a [u8]),
    /// No row told begins with the key.
    Absent,
}

/// A search for the row that begins with a key. Contracts see how it stands: what it looks for, how many rows were told, and
/// what they leave.
///
/// ```
/// let mut search = Search::new(alloc, 3, 2, key)?; // three rows of two bytes; the key is `0x30`
/// search.turns(); // 2
/// search.ask(); // row 1
/// search.tell(Some(&[0x20, 0xbb]));
/// search.ask(); // row 2
/// search.tell(Some(&[0x30, 0xcc]));
/// search.end(); // Outcome::Found(&[0x30, 0xcc])
/// ```
#[derive(Drop)]
pub struct Search {
    key: Key,
    rows: u32,
    width: u32,
    /// How many rows were told, lost ones too.
    turn: u32,
    /// The rows that may still have the key are those from `from` up to `to`, without `to`.
    from: u32,
    to: u32,
    is_lost: bool,
    is_found: bool,
    /// The row that was found, once one is; until then, room for it.
    row: Vec<u8>,
}

impl Model for Search {
    ghost use Rattle.std.specs.Prelude.{if◌then◌else◌, Some, None};
    ghost use Rattle.key_search.specs.Standing.{Standing, IsInBounds};

    ghost Value = { Standing };

    ghost view = { λ s. record {
      rows = s.rows;
      width = s.width;
      key = s.key;
      turn = s.turn;
      from = s.from;
      to = s.to;
      found = if s.is_found then Some s.row.items else None;
      is_lost = s.is_lost;
    } };

    ghost invariant = { λ s. IsInBounds s.rows s.width s.key s.from s.to s.row.items };
}

impl Search {
    /// A search for the row that begins with the key, among `rows` rows of `width` bytes. All memory that the search takes
    /// is taken here.
    ///
    /// There is a row, and the key is at most as long as one.
    ///
    /// # Errors
    ///
    /// `AllocError` for want of memory.
    pub fn new(alloc: Global, rows: u32, width: u32, key: Key) -> Result<Search, AllocError>
        requires some { 1 ≤ rows }
        requires fits { length key ≤ width }
        ensures standing { IfOk result (λ s. s ≡ standing_at_start rows width key) }
        ensures answers { IfOk result (λ s. WasTold s []) }
        // Among rows that ascend by their keys, a look-up begins.
        ensures row { IfOk result (BeginsLookUp rows key) }
    {
        let row = vec![in alloc; 0; width as usize]?;
        Ok(Search {
            key,
            rows,
            width,
            turn: 0,
            from: 0,
            to: rows,
            is_lost: false,
            is_found: false,
            row,
        })
    }

    /// How many rows are asked for, one a turn: the number of binary digits of the number of rows, whatever is looked for.
    pub fn turns(&self) -> u32
        ensures turns { result ≡ turns_of self.now.rows }
        ensures digits { (2 ^ (result - 1) ≤ self.now.rows) × (self.now.rows < 2 ^ result) }
    {
        u32::BITS - self.rows.leading_zeros()
    }

    /// The row to ask for in this turn: the middle one of those that may still have the key. It is row 0 once a row was
    /// found or lost, or none is left.
    pub fn ask(&self) -> u32
        ensures asked { result ≡ asked_row self.now }
        ensures row { result < self.now.rows }
    {
        if self.is_lost || self.is_found || self.to <= self.from {
            0
        } else {
            self.middle()
        }
    }

    /// Takes the row that was asked for, or `None` where it was lost. There are no more of them than turns, and a row has
    /// the width that the search was made with.
    pub fn tell(&mut self, answer: Option<&[u8]>)
        requires turn { self.old.turn < turns_of self.old.rows }
        requires width { IfSome answer (λ row. length row.now ≡ self.old.width) }
        ensures standing { self.new ≡ standing_after self.old (option_copied answer.entry) }
        ensures turn { IsNextTurn self.old self.new }
        // What was told so far has the answer at its end.
        ensures answers { IsToldMore self.old (option_copied answer.entry) self.new }
        // The same of rows that ascend, where the answer is the one that was asked for.
        ensures row { LooksUpMore self.old (option_copied answer.entry) self.new }
    {
        self.turn += 1;
        match answer {
            Some(row) => self.compare(row),
            None => self.is_lost = true,
        }
    }

    /// What the search came to, after all turns: `Lost` where a row was lost; else the first row told that begins with the
    /// key; else `Absent`.
    pub fn end(&self) -> Outcome<'_>
        requires { self.now.turn ≡ turns_of self.now.rows }
        ensures standing { EndsAs self.now result }
        // By what was told alone, whatever it was.
        ensures answers { EndsByAnswers self.now result }
        // The row with the key, or none, where each row told is the one that was asked for, of rows that ascend.
        ensures row { FindsAmongRows self.now result }
    {
        if self.is_lost {
            Outcome::Lost
        } else if self.is_found {
            Outcome::Found(self.row.as_slice())
        } else {
            Outcome::Absent
        }
    }

    /// The middle one of the rows that may still have the key, or the last.
    fn middle(&self) -> u32
        ensures { result ≡ middle_row self.now }
    {
        self.from + (self.to - self.from) / 2
    }

    /// Leaves the rows after the middle one or before it, as the row told begins with less or more than the key.
    fn compare(&mut self, row: &[u8])
        requires { length row.now ≡ self.old.width }
        ensures { self.new ≡ standing_by (key_order self.old.key row.now) row.now self.old }
    {
        let key = self.key.as_slice();
        match row[..key.len()].cmp(key) {
            Ordering::Less => self.leave_above(),
            Ordering::Equal => self.keep(row),
            Ordering::Greater => self.leave_below(),
        }
    }

    /// Leaves the rows after the middle one, where there are any.
    fn leave_above(&mut self)
        ensures { self.new ≡ left_above self.old }
    {
        if self.from < self.to {
            self.from = self.middle() + 1;
        }
    }

    /// Leaves the rows before the middle one, where there are any.
    fn leave_below(&mut self)
        ensures { self.new ≡ left_below self.old }
    {
        if self.from < self.to {
            self.to = self.middle();
        }
    }

    /// Keeps the row, where none was found before.
    fn keep(&mut self, row: &[u8])
        requires { length row.now ≡ self.old.width }
        ensures { self.new ≡ with_found row.now self.old }
    {
        if !self.is_found {
            self.row.copy_from_slice(row);
            self.is_found = true;
        }
    }
}
