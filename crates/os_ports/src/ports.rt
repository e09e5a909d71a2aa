// The ports of the system.
ghost use Rattle.std.specs.Prelude.{◌≡◌, ◌≢◌, ◌<◌, ◌+◌, ◌-◌, ◌^◌, ℕ, slice_index, min, IfOk, OnOk, OnErr, Ok};
ghost use Rattle.port_trait.specs.Number.{number};

use crate::children::Children;
use crate::counts::Counts;
use crate::explainer::Explainer;
use crate::standard::StandardStreams;
use crate::streams::Streams;
use crate::system::System;
use crate::variables::{EXPLAIN, is_one};
use port_trait::{Failed, Port, Ports};
use std::io::{self, ErrorKind};
use std::os::fd::AsRawFd;

/// Files, standard streams, TCP streams, a listener and child programs as ports. Each failed call is counted, also one
/// for want of memory. Where the variable `PIR_EXPLAIN` of the environment is `1`, it is also explained, by a line on
/// standard error with the port, the file or address, and the system's words; a line that standard error doesn't take at
/// once is dropped.
///
/// - `Input` is opened as standard input by the name `-`, and else as the file of that name.
/// - `Output` is standard output.
/// - `Database` and `Coins` are opened as files to read, `Record` and `Share(i)` as files to write, which are made
///   anew. Where there is no such file, it is made for its owner alone to read and write; the mode of one that is
///   there stays. The name `-` is that of a file here.
/// - Of shares one is open at a time. The next call that opens a port, or gives to Output, first waits until it is on the
///   disk, and closes it; where the system says that it may not be there, that call fails, and what is explained besides
///   is an error of that share. A share isn't opened by a name of the database, or of another share's file.
/// - `Door` is opened by the address to listen at, a text `host:port`.
/// - `Guest` is the TCP stream to the guest that `next_guest` let in. That call first closes all links, and the stream
///   to the guest before, also where no other comes in, and waits for as long as none comes. One who gave up before
///   being let in is passed over. Each call on the stream may take three seconds, and all of them five and one more for
///   each 65536 bytes that they moved; a call fails that takes longer, or comes later. Where the guest took 24 bytes and
///   no more than 24 were taken of it, as of one that is refused for its header, it is let go of by halves: the sending
///   side is shut, and what still comes is read and dropped, for at most half a second and 2^24 bytes. So it isn't reset
///   before it has read why.
/// - `Link(i)` is opened as a TCP stream to the address, a text `host:port`; the stream that it had before is closed
///   first. Each call on it may take ten seconds, and all of them twenty and one more for each 65536 bytes that they
///   moved. To open it is one call, at whichever of the places of one name; how long looking a name up takes is the
///   system's. A read's seconds count from when bytes last moved on the stream, so that several servers that say nothing
///   are waited for together; where they are over, what is there already is still read. Once a call was too late,
///   opening the same link fails at once.
/// - Where `Door` is open, a call on a link may take six seconds, and all calls on all links nine while one guest is in,
///   and one more for each 65536 bytes that they moved. A link that was too late is tried again for the next guest. To
///   open a link fails once the guest who is in has reset its stream.
/// - `Child(i)` is this same program, which `start_child` starts with its words. It succeeds once the child's
///   standard output begins with the line `ready`, for which it waits. A child that says something else, or ends
///   before, is killed. What it writes on standard error is lost, unless failed calls are explained; then it has this
///   program's. A child's standard input stays open for as long as this program runs, and a child that waits
///   for a guest fails once it ends: so it ends too.
///
/// A port that isn't open, or is opened or used in another way, fails. A second `open` that succeeds
/// closes what the port had open; of a link, also one that fails.
///
/// ```
/// let mut ports = OsPorts::new(&rt)?;
/// ports.open(Port::Link(1), "localhost:7001")?;
/// ```
#[derive(Drop)]
pub struct OsPorts<R: System> {
    rt: R,
    streams: Streams<R::Reader, R::File, R::Listener, R::Stream>,
    children: Children<R::Started>,
    explainer: Explainer,
    counts: Counts,
    // It is dropped last, so that the numbers are held for as long as anything is open.
    standard: StandardStreams<R::File>,
}

impl<R: System> OsPorts<R> {
    /// Ports over this runtime, none but `Output` open. It has to come before anything else is opened: where the
    /// program was started with a standard stream closed, its number is held from here on, for as long as there
    /// are the ports, so that no file, link, guest, listener or child's pipe is given it, and a use of the stream
    /// fails.
    ///
    /// # Errors
    ///
    /// Of the kind `OutOfMemory` where there is no memory for the counts, and else that of the system where a number
    /// can't be held.
    pub fn new(rt: R) -> io::Result<Self>
    where
        R::File: AsRawFd,
        ensures { IfOk result (λ ports. (q : ℕ) → slice_index ports.counts q ≡ 0) }
    {
        let counts = Counts::new(rt.alloc())?;
        let standard = StandardStreams::hold(&rt)?;
        let alloc = rt.alloc();
        let is_asked = is_one(&rt, EXPLAIN);
        let explainer = Explainer::new(&rt, is_asked);
        Ok(OsPorts {
            rt,
            streams: Streams::new(alloc),
            children: Children::new(alloc, is_asked),
            explainer,
            counts,
            standard,
        })
    }

    /// Ends all children, and returns once none is left. It is the last call: it closes the links and the stream to the
    /// guest too.
    ///
    /// A child is taken to be a server of one guest, whose address is the last of its words. It ends once
    /// it has met its guest: this program, where it opened a link to that address. To each other child it
    /// connects here once. A child to which it can't connect is killed, and one that hasn't ended after half a minute.
    pub fn end_children(&mut self)
        ensures { self.new.counts ≡ self.old.counts }
    {
        self.streams.let_go(&self.rt);
        self.children.end(&self.rt);
    }

    /// Ends all children, as [`end_children`](OsPorts::end_children) does, and closes all that is open.
    pub fn end(mut self) {
        self.end_children();
    }

    // Tells how a call on the port ended: one that failed is counted, and explained where that is asked for. A name is
    // that of a call which has one of its own.
    fn told<T>(&mut self, p: Port, name: Option<&str>, ended: io::Result<T>) -> Result<T, Failed>
        ensures ok { IfOk result (λ x. ended ≡ Ok x) }
        ensures same { OnOk result (self.new.counts ≡ self.old.counts) }
        ensures rose { OnErr result (slice_index self.new.counts (number p)
            ≡ min (slice_index self.old.counts (number p) + 1) (2 ^ 64 - 1)) }
        ensures others { OnErr result ((q : ℕ) → q ≢ number p
            → slice_index self.new.counts q ≡ slice_index self.old.counts q) }
    {
        match ended {
            Ok(x) => Ok(x),
            Err(error) => {
                self.explainer.explain(&self.rt, p, name, &error);
                Err(self.counts.raise(p))
            }
        }
    }
}

// The last of the words, where there is one.
fn last_of(words: &[String]) -> Option<&str> {
    Some(words.last()?.as_str())
}

// A write that took nothing has failed.
fn some_taken(written: io::Result<usize>) -> io::Result<usize>
    ensures same { IfOk result (λ n. written ≡ Ok n) }
    ensures some { IfOk result (λ n. 0 < n) }
{
    match written {
        Ok(0) => Err(io::Error::from(ErrorKind::WriteZero)),
        written => written,
    }
}

impl<R: System> Ports for OsPorts<R> {
    ghost use Rattle.os_ports.specs.Counted.{counts_alone};

    ghost world = { λ s. counts_alone s.counts };

    fn open(&mut self, p: Port, name: &str) -> Result<(), Failed> {
        let opened = self
            .streams
            .open(&self.rt, p, name, &mut self.children, &mut self.explainer);
        self.explainer.note_opened(p, name, &opened);
        self.told(p, Some(name), opened)
    }

    fn take(&mut self, p: Port, into: &mut [u8]) -> Result<usize, Failed> {
        let taken = self.streams.read(&self.rt, p, into);
        self.told(p, None, taken)
    }

    fn give(&mut self, p: Port, piece: &[u8]) -> Result<usize, Failed> {
        let given = some_taken(self.streams.write(&self.rt, p, piece, &mut self.explainer));
        self.told(p, None, given)
    }

    fn next_guest(&mut self) -> Result<(), Failed> {
        let met = self.streams.meet(&self.rt, &mut self.explainer);
        self.told(Port::Door, None, met)
    }

    fn start_child(&mut self, i: u8, words: &[String]) -> Result<(), Failed> {
        let started = self.children.start(&self.rt, words);
        let address = last_of(words);
        self.told(Port::Child(i), address, started)
    }
}
