// How long a stream to another program may take.
ghost use Rattle.std.specs.Prelude.{◌≡◌, ◌+◌, ◌-◌, ◌^◌, ◌<◌, min, IfOk, OnErr};
ghost use Rattle.std.specs.Duration.{as_nanos, max_nanos};
ghost use Rattle.os_ports.specs.Limits.{call_nanos, nanos_left, read_nanos};

use std::io::{self, ErrorKind};
use std::time::Duration;

// So many seconds a call on a link may take, to open it too.
const LINK_CALL: u32 = 10;

// So many where the process serves: more than a stranger may hold the shard at its end.
const SERVER_LINK_CALL: u32 = 6;

// So many all calls on a link may take before it moved a byte.
const LINK_WHOLE: u32 = 20;

// So many where the process serves, all links of one guest together: less than a guest waits for its answer.
const SERVER_LINK_WHOLE: u32 = 9;

/// So many thousandths of a second it is waited for the end of what a guest sends who was refused.
pub const PARTING_MILLIS: u64 = 500;

/// So many bytes are taken of what a guest still sends who was refused.
pub const PARTING_BYTES: u64 = 1 << 24;

/// So many thousandths of a second all children together may take to end, once the links to them are closed: more than
/// their guests may take of them, and what they have begun.
pub const CHILDREN_MILLIS: u64 = 30000;

// So many thousandths of a second a read may take that comes late: what is there already is taken.
const LATE_READ: u64 = 1;

// So many a call on the stream to a guest may take.
const GUEST_CALL: u32 = 3;

// So many all calls on it may take before it moved a byte: a guest who says nothing, or a byte now and then, delays the
// next by less than a call on a link may take.
const GUEST_WHOLE: u32 = 5;

// All calls on a stream may take a second more for each of so many bytes that they moved.
const BYTES_A_SECOND: u64 = 65536;

/// How many seconds a stream may take in one call, and in all its calls before it has moved a byte.
#[derive(Clone, Copy)]
pub struct Limit {
    call: u32,
    whole: u32,
}

/// A link.
pub const LINK: Limit = Limit {
    call: LINK_CALL,
    whole: LINK_WHOLE,
};

/// All links that a process opens for one guest.
pub const SERVER_LINK: Limit = Limit {
    call: SERVER_LINK_CALL,
    whole: SERVER_LINK_WHOLE,
};

/// The stream to a guest.
pub const GUEST: Limit = Limit {
    call: GUEST_CALL,
    whole: GUEST_WHOLE,
};

/// The time that one stream may take, or several that share it, and what was taken so far.
#[derive(Clone, Copy)]
pub struct Allowance {
    limit: Limit,
    spent: Duration,
    moved: u64,
}

impl Allowance {
    /// Nothing was taken so far.
    pub fn new(limit: Limit) -> Self
        ensures limit { result.limit ≡ limit }
        ensures spent { as_nanos result.spent ≡ 0 }
        ensures moved { result.moved ≡ 0 }
    {
        Allowance {
            limit,
            spent: Duration::ZERO,
            moved: 0,
        }
    }

    // The time that is left in all.
    fn left(&self) -> Duration
        ensures { as_nanos result ≡ nanos_left self.now }
    {
        let seconds = u64::from(self.limit.whole) + self.moved / BYTES_A_SECOND;
        Duration::from_secs(seconds).saturating_sub(self.spent)
    }

    /// So long, or as long as is left in all, if that is less.
    ///
    /// # Errors
    ///
    /// Of the kind `TimedOut` where that is no time.
    pub fn at_most(&self, call: Duration) -> io::Result<Duration>
        ensures time { IfOk result (λ d. as_nanos d ≡ min (as_nanos call) (nanos_left self.now)) }
        ensures some { IfOk result (λ d. 0 < as_nanos d) }
        ensures none { OnErr result (min (as_nanos call) (nanos_left self.now) ≡ 0) }
    {
        let left = self.left();
        let time = if call < left { call } else { left };
        if time.is_zero() {
            Err(io::Error::from(ErrorKind::TimedOut))
        } else {
            Ok(time)
        }
    }

    /// How long the next call may take: as long as any one call, or as is left in all.
    ///
    /// # Errors
    ///
    /// Of the kind `TimedOut` where that is no time.
    pub fn next_call(&self) -> io::Result<Duration>
        ensures time { IfOk result (λ d. as_nanos d ≡ call_nanos self.now) }
        ensures some { IfOk result (λ d. 0 < as_nanos d) }
        ensures none { OnErr result (call_nanos self.now ≡ 0) }
    {
        self.at_most(Duration::from_secs(u64::from(self.limit.call)))
    }

    /// How long a read may take that comes so long after bytes last moved: until one call could have taken them; or a
    /// moment, where that is past; or as is left in all. So several streams that are silent at once are waited for
    /// together.
    ///
    /// # Errors
    ///
    /// Of the kind `TimedOut` where no time is left in all.
    pub fn next_read(&self, quiet: Duration) -> io::Result<Duration>
        ensures time { IfOk result (λ d. as_nanos d ≡ read_nanos self.now (as_nanos quiet)) }
        ensures some { IfOk result (λ d. 0 < as_nanos d) }
        ensures none { OnErr result (read_nanos self.now (as_nanos quiet) ≡ 0) }
    {
        let call = Duration::from_secs(u64::from(self.limit.call)).saturating_sub(quiet);
        let least = Duration::from_millis(LATE_READ);
        self.at_most(if call < least { least } else { call })
    }

    /// Counts a call that took so long and moved so many bytes.
    pub fn count(&mut self, took: Duration, bytes: usize)
        ensures limit { self.new.limit ≡ self.old.limit }
        ensures spent { as_nanos self.new.spent ≡ min (as_nanos self.old.spent + as_nanos took) max_nanos }
        ensures moved { self.new.moved ≡ min (self.old.moved + bytes) (2 ^ 64 - 1) }
    {
        self.spent = self.spent.saturating_add(took);
        self.moved = self.moved.saturating_add(bytes as u64);
    }
}
