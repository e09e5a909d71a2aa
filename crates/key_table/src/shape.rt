//! How many rows the table of a list has, and how many bytes each of them.

ghost use Rattle.std.specs.Prelude.{◌≡◌, ◌==◌, ◌≤◌, ◌<◌, ◌+◌, ◌*◌, ◌^◌, if◌then◌else◌};
ghost use Rattle.key_table.specs.Counting.{CountsOne};
ghost use Rattle.key_table.specs.Entry.{entry_size};
ghost use Rattle.key_table.specs.Shapes.{BestOf, Judges, ShapesBest, ShapesOf, lesser};
ghost use Rattle.key_table.specs.Table.{head_size};
ghost use Rattle.key_table.specs.Width.{fullest, width_of};

use crate::MOST_PAIRS;
use crate::entries::SortedEntries;
use crate::row::HEAD_SIZE;
use quantity_limits::{MOST_CELLS, MOST_ROWS, MOST_WIDTH};

/// How many rows a table has, and how many bytes each of them.
#[derive(Clone, Copy, Debug, PartialEq, Eq)]
pub struct Shape {
    /// The number of rows.
    pub rows: u32,
    /// The bytes of a row.
    pub width: u32,
}

/// Which limit of a database the rows of a table pass.
#[derive(Clone, Copy, Debug, PartialEq, Eq)]
pub enum ShapeLimit {
    /// A row would have more bytes than a row may have: [`MOST_WIDTH`].
    TooWide,
    /// A row would not, but all together would have more than a database may have: [`MOST_CELLS`].
    TooLarge,
}

/// Why so many rows make no database of a list.
#[derive(Clone, Copy, Debug, PartialEq, Eq)]
pub struct ShapeFault {
    /// The limit that they pass.
    pub limit: ShapeLimit,
    /// The number of rows.
    pub rows: u32,
    /// How many entries the fullest row has, at least 1.
    pub entries: u32,
    /// How many bytes a row would have, for that many entries.
    pub width: u64,
}

/// What is known of the entries that were counted.
#[derive(Clone, Copy)]
struct Counted {
    /// The row of the last of them.
    row: u32,
    /// How many of them have that row.
    run: u32,
    /// How many the fullest row has, at least 1.
    fullest: u32,
}

/// How many entries have the row of one more.
fn run_with(counted: Counted, row: u32) -> u32
    requires { counted.run < MOST_PAIRS }
    ensures { result ≡ (if row == counted.row then counted.run + 1 else 1) }
{
    if row == counted.row {
        counted.run + 1
    } else {
        1
    }
}

/// One more entry is counted. As the rows of entries never fall, those of one row stand side by side.
fn count_entry(counted: Counted, row: u32) -> Counted
    requires { counted.run < MOST_PAIRS }
    ensures { CountsOne counted row result }
{
    let run = run_with(counted, row);
    Counted {
        row,
        run,
        fullest: counted.fullest.max(run),
    }
}

/// The shape of so many rows of so many bytes, or the limit that they pass.
fn judge_shape(rows: u32, entries: u32, width: u64) -> Result<Shape, ShapeFault>
    requires some { 1 ≤ rows }
    requires few { rows ≤ MOST_ROWS }
    requires wide { 1 ≤ width }
    ensures { Judges rows entries width result }
{
    if width > u64::from(MOST_WIDTH) {
        return Err(ShapeFault {
            limit: ShapeLimit::TooWide,
            rows,
            entries,
            width,
        });
    }
    if u64::from(rows) * width > MOST_CELLS {
        return Err(ShapeFault {
            limit: ShapeLimit::TooLarge,
            rows,
            entries,
            width,
        });
    }
    Ok(Shape {
        rows,
        width: width as u32,
    })
}

/// The lesser of two shapes, the first where both are the same.
fn lesser_of(one: Shape, other: Shape) -> Shape
    ensures { result ≡ lesser one other }
{
    let cost = u64::from(one.rows) + u64::from(one.width);
    let other_cost = u64::from(other.rows) + u64::from(other.width);
    if other_cost < cost { other } else { one }
}

impl SortedEntries {
    /// How many entries the fullest of so many rows has, at least 1.
    fn fullest(&self, rows: u32) -> u32
        requires { 1 ≤ rows }
        ensures fullest { result ≡ fullest rows self.now.pairs }
        ensures few { result ≤ MOST_PAIRS + 1 }
    {
        let mut counted = Counted {
            row: 0,
            run: 0,
            fullest: 1,
        };
        let entries = self.count();
        for entry in 0..entries {
            counted = count_entry(counted, self.row(rows, entry));
        }
        counted.fullest
    }

    /// How many bytes a row has that has room for so many entries.
    fn width_with(&self, entries: u32) -> u64
        requires { entries ≤ MOST_PAIRS + 1 }
        ensures { result ≡ head_size + entry_size self.now.size self.now.most * entries }
    {
        HEAD_SIZE as u64 + self.entry_size() as u64 * u64::from(entries)
    }

    /// How many bytes each row of a table with so many rows has: its head, and room for as many entries as the fullest
    /// row has.
    pub fn width_of(&self, rows: u32) -> u64
        requires { 1 ≤ rows }
        ensures { result ≡ width_of self.now.size self.now.most rows self.now.pairs }
    {
        self.width_with(self.fullest(rows))
    }

    /// The shape of a table with so many rows, of which the fullest has so many entries.
    fn shape_with(&self, rows: u32, entries: u32) -> Result<Shape, ShapeFault>
        requires some { 1 ≤ rows }
        requires few { rows ≤ MOST_ROWS }
        requires fullest { entries ≡ fullest rows self.now.pairs }
        requires short { entries ≤ MOST_PAIRS + 1 }
        ensures { ShapesOf self.now rows result }
    {
        judge_shape(rows, entries, self.width_with(entries))
    }

    /// The shape of a table with so many rows.
    ///
    /// # Errors
    ///
    /// What the rows would come to, exactly where they are no database.
    pub fn shape_of(&self, rows: u32) -> Result<Shape, ShapeFault>
        requires some { 1 ≤ rows }
        requires few { rows ≤ MOST_ROWS }
        ensures { ShapesOf self.now rows result }
    {
        self.shape_with(rows, self.fullest(rows))
    }

    /// The best shape of those powers of two that came before this one, and of this one, whose fullest row has so many
    /// entries.
    fn better(&self, best: Option<Shape>, power: u32, entries: u32) -> Option<Shape>
        requires power { power ≤ 20 }
        requires fullest { entries ≡ fullest (2 ^ power) self.now.pairs }
        requires short { entries ≤ MOST_PAIRS + 1 }
        ensures { BestOf self.now power best → BestOf self.now (power + 1) result }
    {
        match self.shape_with(1 << power, entries) {
            Ok(shape) => match best {
                Some(other) => Some(lesser_of(other, shape)),
                None => Some(shape),
            },
            Err(_) => best,
        }
    }

    /// The best shape: of the powers of two whose table is a database, the one for which rows and width together are
    /// least, and of equal ones the one with the fewest rows.
    ///
    /// # Errors
    ///
    /// What as many rows as a database may have would come to, exactly where no power of two makes a database.
    pub fn shape(&self) -> Result<Shape, ShapeFault>
        ensures { ShapesBest self.now result }
    {
        let runs = self.runs();
        let count = self.count() as u32;
        let mut best = None;
        for power in 0..21 {
            best = self.better(best, power, runs[power as usize].fullest_of(count));
        }
        match best {
            Some(shape) => Ok(shape),
            None => self.shape_of(MOST_ROWS),
        }
    }
}
