//! What is said where rows make no database of a list: the limit that they pass, and what may help. No clause speaks of it.

use key_table::{LEAST_DIGEST, MOST_DIGEST, ShapeFault, ShapeLimit};
use quantity_limits::{MOST_CELLS, MOST_ROWS, MOST_WIDTH};
use std::fmt::{self, Display, Formatter, Write};

/// How many bytes a row has before its entries: the tag of its list, and their number.
const HEAD_SIZE: u64 = 10;

/// Why rows make no database of a list, as a sentence.
#[derive(Clone, Copy)]
pub(crate) struct NoShape(ShapeFault);

/// The sentence of a fault.
pub(crate) fn no_shape(fault: &ShapeFault) -> NoShape {
    NoShape(*fault)
}

impl NoShape {
    /// How many bytes an entry has.
    fn entry_size(&self) -> u64 {
        self.0.width.saturating_sub(HEAD_SIZE) / u64::from(self.0.entries.max(1))
    }

    /// How many bytes all rows have together.
    fn size(&self) -> u64 {
        u64::from(self.0.rows).saturating_mul(self.0.width)
    }

    /// Whether the rows would keep their limit, if the fullest had so many entries of so many bytes.
    fn keeps(&self, entries: u32, entry_size: u64) -> bool {
        let width = entry_size
            .saturating_mul(u64::from(entries))
            .saturating_add(HEAD_SIZE);
        match self.0.limit {
            ShapeLimit::TooWide => width <= u64::from(MOST_WIDTH),
            ShapeLimit::TooLarge => u64::from(self.0.rows).saturating_mul(width) <= MOST_CELLS,
        }
    }

    /// Rows that are narrower, or fewer of them.
    fn other_rows(&self) -> Option<&'static str> {
        match self.0.limit {
            ShapeLimit::TooWide if self.0.rows < MOST_ROWS => Some("more rows"),
            ShapeLimit::TooWide => None,
            ShapeLimit::TooLarge => Some("fewer rows"),
        }
    }

    /// Shorter values, where there are values: an entry without one has no more bytes than a digest.
    fn shorter_values(&self) -> Option<&'static str> {
        if self.entry_size() > MOST_DIGEST as u64 {
            Some("shorter values")
        } else {
            None
        }
    }

    /// Shorter digests, where the shortest one in place of the longest would do.
    fn shorter_digests(&self) -> Option<&'static str> {
        let saved = (MOST_DIGEST - LEAST_DIGEST) as u64;
        let entry_size = self.entry_size().saturating_sub(saved);
        if self.keeps(self.0.entries, entry_size.max(LEAST_DIGEST as u64)) {
            Some("fewer bytes a digest")
        } else {
            None
        }
    }

    /// Other rows for the keys, where there are several, and one entry fewer in the fullest would do.
    fn other_salt(&self) -> Option<&'static str> {
        let fewer = self.0.entries.saturating_sub(1).max(1);
        if self.0.rows > 1 && self.keeps(fewer, self.entry_size()) {
            Some("another salt")
        } else {
            None
        }
    }
}

/// Names one thing more that may help, if it is one.
fn write_help<W: Write>(f: &mut Formatter<W>, help: Option<&'static str>) -> fmt::Result {
    match help {
        Some(help) => write!(f, ", {help}"),
        None => Ok(()),
    }
}

impl Display for NoShape {
    fn fmt<W: Write>(&self, f: &mut Formatter<W>) -> fmt::Result {
        let (rows, width, entries) = (self.0.rows, self.0.width, self.0.entries);
        match self.0.limit {
            ShapeLimit::TooWide => write!(
                f,
                "a row of {entries} entries has {width} bytes, at most {MOST_WIDTH} are allowed"
            )?,
            ShapeLimit::TooLarge => {
                let size = self.size();
                write!(
                    f,
                    "{rows} rows of {width} bytes have {size} bytes, at most {MOST_CELLS} are allowed"
                )?;
            }
        }
        f.write_str("; fewer keys")?;
        write_help(f, self.other_rows())?;
        write_help(f, self.shorter_values())?;
        write_help(f, self.shorter_digests())?;
        write_help(f, self.other_salt())?;
        f.write_str(" may help")
    }
}
