// Standard error, on which nothing is waited for.
use mio::unix::SourceFd;
use mio::{Events, Interest, Poll, Token};
use std::io;
use std::net::Net;
use std::time::Duration;

// The number of standard error.
const ERROR: i32 = 2;

const WRITER: Token = Token(0);

// What says whether a write would wait.
#[derive(Drop)]
struct Watch {
    poll: Poll,
    events: Events,
}

/// Tells whether standard error takes a line at once. A pipe that nobody reads from is full one day, and whoever writes to
/// it then waits.
#[derive(Drop)]
pub struct StandardError {
    // None where it can't be watched, as a file, on which no write waits.
    watch: Option<Watch>,
}

impl Watch {
    fn new<R: Net + AllocGlobal>(rt: &R) -> io::Result<Self> {
        let poll = Poll::new(rt)?;
        poll.registry()
            .register(&mut SourceFd(&ERROR), WRITER, Interest::WRITABLE)?;
        Ok(Watch {
            poll,
            events: Events::with_capacity(rt.alloc(), 1)?,
        })
    }

    // Whether a write ends at once, well or not.
    fn is_ready(&mut self) -> io::Result<bool> {
        // Registered again, it is told of also where nothing changed.
        self.poll
            .registry()
            .reregister(&mut SourceFd(&ERROR), WRITER, Interest::WRITABLE)?;
        self.poll.poll(&mut self.events, Some(Duration::ZERO))?;
        Ok(self.events.iter().next().is_some())
    }
}

impl StandardError {
    /// Watches standard error, where that can be watched.
    pub fn watch<R: Net + AllocGlobal>(rt: &R) -> Self {
        StandardError {
            watch: Watch::new(rt).ok(),
        }
    }

    /// Whether a line is taken at once.
    pub fn has_room(&mut self) -> bool {
        match &mut self.watch {
            Some(watch) => watch.is_ready().unwrap_or(false),
            None => true,
        }
    }
}
