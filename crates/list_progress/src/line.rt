//! The line of a terminal that is written over.

use crate::progress::{Progress, Stage};
use std::alloc::AllocError;
use std::fmt::Write;
use std::io::Eprint;
use std::time::{Clock, Duration, Instant};

/// So many thousandths of a second a run takes without that a line is shown.
const SHORT_MILLIS: u64 = 1000;

/// So many pass between two lines of one stage: so there are eight of them in a second, and no more than ten with those of
/// new stages.
const BETWEEN_MILLIS: u64 = 125;

/// One line of a terminal at standard error, which is written over.
#[derive(Drop)]
pub(crate) struct Line<R: Drop> {
    rt: R,
    // What was shown last.
    stage: Stage,
    // When the work began, and when the line was written last.
    began: Option<Instant>,
    written: Option<Instant>,
    // How many columns it takes.
    columns: usize,
}

impl<R: Clock + Eprint + AllocGlobal + Drop> Line<R> {
    /// Nothing is shown so far.
    pub(crate) fn new(rt: R) -> Self {
        Line {
            rt,
            stage: Stage::Quiet,
            began: None,
            written: None,
            columns: 0,
        }
    }

    /// Whether it is time to write the line of a stage.
    fn is_due(&mut self, stage: Stage, now: Instant) -> bool {
        let Some(began) = self.began else {
            self.began = Some(now);
            return false;
        };
        if now.duration_since(began) <= Duration::from_millis(SHORT_MILLIS) {
            return false;
        }
        match self.written {
            Some(written) if stage == self.stage => {
                now.duration_since(written) >= Duration::from_millis(BETWEEN_MILLIS)
            }
            _ => true,
        }
    }

    /// Writes the line, over what stood there.
    fn write(&mut self, progress: &Progress) -> Result<(), AllocError> {
        let mut text = format!(in self.rt.alloc(); "\r{progress}")?;
        let columns = text.len();
        for _column in columns..self.columns {
            text.push_str(" ")?;
        }
        self.columns = columns;
        let _ = eprint!(self.rt; "{text}");
        Ok(())
    }

    /// Shows how far a run is, where it is time for that. The time counts from the first call. A line for which there is no
    /// memory, or no time can be had, is left out.
    pub(crate) fn show(&mut self, progress: &Progress) {
        let stage = progress.stage();
        if stage == Stage::Quiet {
            return;
        }
        let Ok(now) = Instant::now(&self.rt) else {
            return;
        };
        if self.is_due(stage, now) {
            self.stage = stage;
            self.written = Some(now);
            let _ = self.write(progress);
        }
    }

    /// Clears the line, where it was written.
    pub(crate) fn clear(&mut self) {
        if self.columns > 0 {
            let _ = self.write(&Progress::new());
            let _ = eprint!(self.rt; "\r");
            self.columns = 0;
        }
    }
}
