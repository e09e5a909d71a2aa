//! What is otherwise than expected.

use crate::running::Trial;
use pir_ports::Port;
use pir_tool::Status;
use std::alloc::{AllocError, Global};
use std::{fmt, str};

/// What of a run is otherwise than expected. Guests, children and their words count from 0.
#[derive(Clone, Copy, Debug)]
pub enum What {
    Status,
    Calls,
    OrderOfRounds,
    Took(Port),
    OpenedWith(Port),
    StillHolds(Port),
    GuestWasGiven(usize),
    ChildWasStartedWith(usize),
    StatusOfTheReplay,
    ReplayTook(Port),
}

/// Something that is otherwise than expected in a run.
#[derive(Drop)]
pub struct Difference {
    trial: Trial,
    what: What,
    seen: String,
    wanted: String,
}

impl fmt::Display for Difference {
    fn fmt<W: fmt::Write>(&self, f: &mut fmt::Formatter<W>) -> fmt::Result {
        write!(
            f,
            "pieces {}, {:?}: {:?} {} where {} is expected",
            self.trial.piece, self.trial.change, self.what, self.seen, self.wanted
        )
    }
}

/// Whether all bytes are characters that can be seen, blanks or newlines.
fn is_text(bytes: &[u8]) -> bool {
    for byte in bytes {
        if !byte.is_ascii_graphic() && *byte != b' ' && *byte != b'\n' {
            return false;
        }
    }
    true
}

/// Bytes in quotes where they are text, else in hexadecimal.
fn show(alloc: Global, bytes: &[u8]) -> Result<String, AllocError> {
    match str::from_utf8(bytes) {
        Ok(text) if is_text(bytes) => format!(in alloc; "{text:?}"),
        _ => hex::encode(alloc, bytes),
    }
}

/// What was found in the runs so far, the last of which is `trial`.
#[derive(Drop)]
pub struct Findings {
    pub trial: Trial,
    pub list: Vec<Difference>,
}

impl Findings {
    /// Notes a difference.
    fn note(&mut self, what: What, seen: String, wanted: String) -> Result<(), AllocError> {
        self.list.push(Difference {
            trial: self.trial,
            what,
            seen,
            wanted,
        })?;
        Ok(())
    }

    /// Compares bytes.
    pub fn bytes(
        &mut self,
        alloc: Global,
        what: What,
        seen: &[u8],
        wanted: &[u8],
    ) -> Result<(), AllocError> {
        if seen == wanted {
            return Ok(());
        }
        let seen = show(alloc, seen)?;
        let wanted = show(alloc, wanted)?;
        self.note(what, seen, wanted)
    }

    /// Compares what may be missing with bytes.
    pub fn some(
        &mut self,
        alloc: Global,
        what: What,
        seen: Option<&[u8]>,
        wanted: &[u8],
    ) -> Result<(), AllocError> {
        match seen {
            Some(seen) => self.bytes(alloc, what, seen, wanted),
            None => {
                let seen = String::from_str(alloc, "nothing")?;
                let wanted = show(alloc, wanted)?;
                self.note(what, seen, wanted)
            }
        }
    }

    /// Notes what there is, where nothing is expected.
    pub fn none(
        &mut self,
        alloc: Global,
        what: What,
        seen: Option<&[u8]>,
    ) -> Result<(), AllocError> {
        let Some(seen) = seen else {
            return Ok(());
        };
        let seen = show(alloc, seen)?;
        let wanted = String::from_str(alloc, "nothing")?;
        self.note(what, seen, wanted)
    }

    /// Compares statuses.
    pub fn status(
        &mut self,
        alloc: Global,
        what: What,
        seen: Status,
        wanted: Status,
    ) -> Result<(), AllocError> {
        if seen == wanted {
            return Ok(());
        }
        let seen = format!(in alloc; "{seen:?}")?;
        let wanted = format!(in alloc; "{wanted:?}")?;
        self.note(what, seen, wanted)
    }

    /// Notes a refusal that is not expected.
    pub fn refusal(&mut self, alloc: Global, seen: Status) -> Result<(), AllocError> {
        let Status::BadInput(bad) = seen else {
            return Ok(());
        };
        let seen = format!(in alloc; "{bad:?}")?;
        let wanted = String::from_str(alloc, "no refusal")?;
        self.note(What::Status, seen, wanted)
    }

    /// Notes that an answer was taken before all servers were asked, where one was.
    pub fn order(&mut self, alloc: Global, asks_before_it_takes: bool) -> Result<(), AllocError> {
        if asks_before_it_takes {
            return Ok(());
        }
        let seen = String::from_str(alloc, "an answer between the queries")?;
        let wanted = String::from_str(alloc, "all queries and then the answers")?;
        self.note(What::OrderOfRounds, seen, wanted)
    }

    /// Compares the number of calls, where one is expected.
    pub fn calls(
        &mut self,
        alloc: Global,
        seen: u64,
        wanted: Option<u64>,
    ) -> Result<(), AllocError> {
        match wanted {
            Some(wanted) if wanted != seen => {
                let seen = format!(in alloc; "{seen}")?;
                let wanted = format!(in alloc; "{wanted}")?;
                self.note(What::Calls, seen, wanted)
            }
            _ => Ok(()),
        }
    }
}
