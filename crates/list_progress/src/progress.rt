//! How far a run is, by what passes its ports.

ghost use Rattle.std.specs.Prelude.{◌≡◌, ◌<◌, ◌/◌};

use std::fmt::{self, Display, Formatter, Write};
use wire_frames::{FRAME_HEADER_LEN, read_query_header};

/// What a run is at.
#[derive(Clone, Copy, Debug, PartialEq, Eq)]
pub(crate) enum Stage {
    /// Nothing that is shown.
    Quiet,
    /// The lines of a list are read.
    Reading,
    /// They are sorted.
    Sorting,
    /// The rows of its table are written.
    Writing,
    /// Servers are asked for the rows of keys.
    Asking,
}

/// Lines that came: how many, and whether the last of them has no end so far.
#[derive(Clone, Copy)]
struct Lines {
    count: u64,
    is_cut: bool,
}

impl Lines {
    /// These bytes came too.
    fn add(&mut self, bytes: &[u8]) {
        for byte in bytes {
            if !self.is_cut {
                self.count = self.count.saturating_add(1);
            }
            self.is_cut = *byte != b'\n';
        }
    }
}

/// Rows that were written: how many bytes they have, and each of them, by the first piece, which is a whole row.
#[derive(Clone, Copy)]
struct Rows {
    bytes: u64,
    width: u64,
}

impl Rows {
    /// A prefix of a piece was written.
    fn add(&mut self, piece: &[u8], count: usize) {
        if self.width == 0 {
            self.width = piece.len() as u64;
        }
        self.bytes = self.bytes.saturating_add(count as u64);
    }

    /// How many rows are whole.
    fn count(&self) -> u64
        ensures { 0 < self.now.width → result ≡ self.now.bytes / self.now.width }
    {
        if self.width == 0 {
            return 0;
        }
        self.bytes / self.width
    }
}

/// Queries: how many were begun, and how many keys the first of them has; 0 where that isn't known.
#[derive(Clone, Copy)]
struct Queries {
    begun: u64,
    keys_each: u64,
}

impl Queries {
    /// A frame goes to the first server, which begins with these bytes.
    fn add(&mut self, frame: &[u8]) {
        if self.keys_each != 0 {
            return;
        }
        let Some(start) = frame.first_chunk::<FRAME_HEADER_LEN>() else {
            return;
        };
        if let Ok(header) = read_query_header(start) {
            self.keys_each = u64::from(header.count);
        }
    }

    /// How many queries so many keys take: as many keys as the first query has in each, and fewer in the last.
    fn needed_for(&self, keys: u64) -> Option<u64> {
        if self.keys_each == 0 {
            return None;
        }
        Some(keys.div_ceil(self.keys_each))
    }
}

/// How far a run is: what it is at, and how much of that is done.
#[derive(Clone, Copy)]
pub(crate) struct Progress {
    stage: Stage,
    lines: Lines,
    rows: Rows,
    queries: Queries,
}

impl Progress {
    /// Nothing is done so far.
    pub(crate) fn new() -> Self {
        Progress {
            stage: Stage::Quiet,
            lines: Lines {
                count: 0,
                is_cut: false,
            },
            rows: Rows { bytes: 0, width: 0 },
            queries: Queries {
                begun: 0,
                keys_each: 0,
            },
        }
    }

    /// What the run is at.
    pub(crate) fn stage(&self) -> Stage
        ensures { result ≡ self.now.stage }
    {
        self.stage
    }

    /// The run has come to this stage.
    pub(crate) fn enter(&mut self, stage: Stage)
        ensures { self.new ≡ record self.old { stage = stage } }
    {
        self.stage = stage;
    }

    /// One more query is begun: the link to the first server is opened.
    pub(crate) fn begin_query(&mut self) {
        self.stage = Stage::Asking;
        self.queries.begun = self.queries.begun.saturating_add(1);
    }

    /// These bytes of lines were read; none at their end.
    pub(crate) fn add_lines(&mut self, bytes: &[u8]) {
        self.lines.add(bytes);
        if bytes.is_empty() && self.stage == Stage::Reading {
            self.stage = Stage::Sorting;
        }
    }

    /// A prefix of a piece of the table was written.
    pub(crate) fn add_rows(&mut self, piece: &[u8], count: usize) {
        self.rows.add(piece, count);
    }

    /// This piece goes to the first server.
    pub(crate) fn add_frame(&mut self, piece: &[u8]) {
        self.queries.add(piece);
    }
}

impl Display for Progress {
    fn fmt<W: Write>(&self, f: &mut Formatter<W>) -> fmt::Result {
        let lines = self.lines.count;
        let rows = self.rows.count();
        let done = self.queries.begun.saturating_sub(1);
        match (self.stage, self.queries.needed_for(lines)) {
            (Stage::Quiet, _) => Ok(()),
            (Stage::Reading, _) => write!(f, "{lines} lines read"),
            (Stage::Sorting, _) => write!(f, "{lines} lines read, sorting"),
            (Stage::Writing, _) => write!(f, "{rows} rows written"),
            (Stage::Asking, Some(all)) => write!(f, "{done} of {all} queries done"),
            (Stage::Asking, None) => write!(f, "{done} queries done"),
        }
    }
}
