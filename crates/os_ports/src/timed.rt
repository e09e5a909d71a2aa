// Streams to other programs, whose calls take a limited time.
ghost use Rattle.std.specs.Prelude.{◌≡◌, ◌≤◌, length, IfOk, Ok};

use crate::limits::Allowance;
use std::io::{self, ErrorKind, Read, Write};
use std::net::{Net, OpenStream, Shutdown, TcpStream, ToSocketAddrs};
use std::time::{Clock, Duration, Instant};

/// A stream on which each call fails that takes too long, or that comes once the time is up. The time is passed to each,
/// since several streams may share one.
#[derive(Drop)]
pub struct TimedStream<S> {
    stream: S,
    // When bytes last moved, or it was opened.
    quiet_since: Instant,
}

/// Connects to the address, at the first of its places that answers. To try them all is one call: each may take its part
/// of what is left of it, so that the last is tried too. To look a name up takes none of the time.
///
/// # Errors
///
/// That of the last place that was tried; of the kind `TimedOut` where the time was up before the first.
pub fn connect<R: Net + Clock>(
    rt: &R,
    address: &str,
    time: &mut Allowance,
) -> io::Result<TimedStream<R::Stream>> {
    let mut left = time.next_call()?;
    let mut fault = io::Error::from(ErrorKind::NotFound);
    let places = address.to_socket_addrs(rt)?;
    let mut untried = u32::try_from(places.len()).unwrap_or(1);
    for place in places {
        let most = if untried > 1 { left / untried } else { left };
        let start = Instant::now(rt)?;
        let connected = TcpStream::connect_timeout(rt, &place, most);
        let took = start.elapsed(rt).unwrap_or(most);
        time.count(took, 0);
        match connected {
            Ok(stream) => return Ok(TimedStream::new(stream, start)),
            Err(error) => fault = error,
        }
        left = left.saturating_sub(took);
        untried = untried.saturating_sub(1);
    }
    Err(fault)
}

// A call that waited too long by its name: the system says of it that it would block.
fn late(error: io::Error) -> io::Error {
    if error.kind() == ErrorKind::WouldBlock {
        io::Error::from(ErrorKind::TimedOut)
    } else {
        error
    }
}

impl<S> TimedStream<S> {
    /// A stream that was opened then.
    pub fn new(stream: S, opened: Instant) -> Self {
        TimedStream {
            stream,
            quiet_since: opened,
        }
    }

    // Counts a call that began then and might take `most`, and hands on what it moved.
    fn counted<C: Clock>(
        &mut self,
        clock: &C,
        time: &mut Allowance,
        start: Instant,
        most: Duration,
        moved: io::Result<usize>,
    ) -> io::Result<usize>
        ensures { IfOk result (λ n. moved ≡ Ok n) }
    {
        // What was moved isn't lost where the clock can't be read.
        let took = start.elapsed(clock).unwrap_or(most);
        match moved {
            Ok(n) => {
                time.count(took, n);
                self.quiet_since = start.checked_add(took).unwrap_or(start);
                Ok(n)
            }
            Err(error) => {
                time.count(took, 0);
                Err(late(error))
            }
        }
    }

    /// Reads from the stream.
    pub fn read<C: Clock>(
        &mut self,
        clock: &C,
        time: &mut Allowance,
        into: &mut [u8],
    ) -> io::Result<usize>
    where
        S: Read + OpenStream,
        ensures { IfOk result (λ n. n ≤ length into.new) }
    {
        let quiet = self.quiet_since.elapsed(clock)?;
        self.read_within(clock, time, time.next_read(quiet)?, into)
    }

    /// Reads from the stream what comes within this time.
    pub fn read_within<C: Clock>(
        &mut self,
        clock: &C,
        time: &mut Allowance,
        most: Duration,
        into: &mut [u8],
    ) -> io::Result<usize>
    where
        S: Read + OpenStream,
        ensures { IfOk result (λ n. n ≤ length into.new) }
    {
        self.stream.set_read_timeout(Some(most))?;
        let start = Instant::now(clock)?;
        let moved = self.stream.read(into);
        self.counted(clock, time, start, most, moved)
    }

    /// Writes to the stream.
    pub fn write<C: Clock>(
        &mut self,
        clock: &C,
        time: &mut Allowance,
        piece: &[u8],
    ) -> io::Result<usize>
    where
        S: Write + OpenStream,
        ensures { IfOk result (λ n. n ≤ length piece.now) }
    {
        let most = time.next_call()?;
        self.stream.set_write_timeout(Some(most))?;
        let start = Instant::now(clock)?;
        let moved = self.stream.write(piece);
        self.counted(clock, time, start, most, moved)
    }

    /// Fails with the error of the stream, where its other side reset it. One that was only ended there has none.
    pub fn check(&self) -> io::Result<()>
    where
        S: OpenStream,
    {
        match self.stream.take_error()? {
            Some(error) => Err(error),
            None => Ok(()),
        }
    }

    /// Tells the other side that nothing more is sent.
    pub fn end_sending(&self) -> io::Result<()>
    where
        S: OpenStream,
    {
        self.stream.shutdown(Shutdown::Write)
    }
}
