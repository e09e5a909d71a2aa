// The guest who is in.
ghost use Rattle.std.specs.Prelude.{◌≤◌, length, IfOk};

use crate::limits::{Allowance, GUEST, PARTING_BYTES, PARTING_MILLIS};
use crate::timed::TimedStream;
use std::io::{self, Read, Write};
use std::net::OpenStream;
use std::time::{Clock, Duration, Instant};

// The bytes of a frame's header. A refusal is a header alone.
const HEADER: u64 = 24;

/// The stream to the guest who is in.
#[derive(Drop)]
pub struct Guest<S> {
    stream: TimedStream<S>,
    time: Allowance,
    // How many bytes were taken of it and given to it.
    taken: u64,
    given: u64,
}

// How many bytes a call moved.
fn count_of(moved: &io::Result<usize>) -> u64 {
    match moved {
        Ok(count) => *count as u64,
        Err(_) => 0,
    }
}

impl<S: Read + Write + OpenStream + Drop> Guest<S> {
    /// One who came in then.
    pub fn new(stream: S, came: Instant) -> Self {
        Guest {
            stream: TimedStream::new(stream, came),
            time: Allowance::new(GUEST),
            taken: 0,
            given: 0,
        }
    }

    /// Fails with the error of the stream, where the guest reset it. One who only ended it has none.
    pub fn check(&self) -> io::Result<()> {
        self.stream.check()
    }

    /// Reads from the guest.
    pub fn read<C: Clock>(&mut self, clock: &C, into: &mut [u8]) -> io::Result<usize>
        ensures { IfOk result (λ n. n ≤ length into.new) }
    {
        let read = self.stream.read(clock, &mut self.time, into);
        self.taken = self.taken.saturating_add(count_of(&read));
        read
    }

    /// Writes to the guest.
    pub fn write<C: Clock>(&mut self, clock: &C, piece: &[u8]) -> io::Result<usize>
        ensures { IfOk result (λ n. n ≤ length piece.now) }
    {
        let written = self.stream.write(clock, &mut self.time, piece);
        self.given = self.given.saturating_add(count_of(&written));
        written
    }

    /// Lets the guest go. The system resets a stream that is closed before all was read that came, and drops what the guest
    /// hasn't read yet. So one who was refused for its header, and may be sending what belongs behind it, is told that
    /// nothing more comes, and what it sends is read, up to its end.
    pub fn let_go<C: Clock>(mut self, clock: &C) {
        if self.given == HEADER && self.taken <= HEADER {
            let _ = self.read_to_end(clock);
        }
    }

    // Reads what the guest still sends, for a while, and drops it.
    fn read_to_end<C: Clock>(&mut self, clock: &C) -> io::Result<()> {
        self.stream.end_sending()?;
        let parting = Duration::from_millis(PARTING_MILLIS);
        let start = Instant::now(clock)?;
        let mut room = [0; 4096];
        let mut left = PARTING_BYTES;
        for _ in 0..PARTING_BYTES {
            let most = parting.saturating_sub(start.elapsed(clock)?);
            let most = self.time.at_most(most)?;
            let read = self
                .stream
                .read_within(clock, &mut self.time, most, &mut room)?;
            left = left.saturating_sub(read as u64);
            if read == 0 || left == 0 {
                break;
            }
        }
        Ok(())
    }
}
