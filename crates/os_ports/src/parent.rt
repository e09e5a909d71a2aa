// The parent of a child, with which the child ends.
use mio::unix::SourceFd;
use mio::{Events, Interest, Poll, Registry, Token};
use std::io::{self, ErrorKind};
use std::net::{Net, OpenListener};
use std::os::fd::AsRawFd;

// The number of standard input, a pipe whose other end only the parent has.
const INPUT: i32 = 0;

const PARENT: Token = Token(0);

const DOOR: Token = Token(1);

/// Waits for guests at a listener and for the parent's end, at once.
#[derive(Drop)]
pub struct Parent {
    poll: Poll,
    events: Events,
    has_ended: bool,
}

// Watches standard input, and the door with this number.
fn register(registry: &Registry, door: i32) -> io::Result<()> {
    registry.register(&mut SourceFd(&INPUT), PARENT, Interest::READABLE)?;
    registry.register(&mut SourceFd(&door), DOOR, Interest::READABLE)
}

impl Parent {
    /// Watches standard input, and this listener, which doesn't wait for a guest from here on.
    pub fn watch<R, L>(rt: &R, door: &L) -> io::Result<Self>
    where
        R: Net + AllocGlobal,
        L: OpenListener + AsRawFd,
    {
        door.set_nonblocking(true)?;
        let poll = Poll::new(rt)?;
        register(poll.registry(), door.as_raw_fd())?;
        Ok(Parent {
            poll,
            events: Events::with_capacity(rt.alloc(), 2)?,
            has_ended: false,
        })
    }

    /// Waits until a guest is there, or the parent has ended; or there is nothing, and it is to be asked again.
    ///
    /// # Errors
    ///
    /// Where the call before saw that the parent has ended: so a guest who came before that is let in first. Else that of
    /// the system.
    pub fn await_guest(&mut self) -> io::Result<()> {
        if self.has_ended {
            return Err(io::Error::new(
                ErrorKind::BrokenPipe,
                "the program that started this one has ended",
            ));
        }
        self.poll.poll(&mut self.events, None)?;
        for event in self.events.iter() {
            self.has_ended = self.has_ended || event.token() == PARENT && event.is_read_closed();
        }
        Ok(())
    }
}
