// The child programs.
use crate::limits::{Allowance, CHILDREN_MILLIS, LINK};
use crate::timed::connect;
use crate::variables::CHILD;
use std::alloc::{AllocError, Global};
use std::io::{ErrorKind, Read};
use std::net::Net;
use std::process::{Child, Command, OpenProcess, Processes, Stdio};
use std::rt::Env;
use std::time::{Clock, Duration};
use std::{env, io, thread};

// So many thousandths of a second lie between two looks at whether a child has ended, at most.
const LONGEST_PAUSE: u64 = 50;

// A program that was started and said that it is ready.
#[derive(Drop)]
struct Started<P: OpenProcess> {
    // Where it lets its guest in: the last of its words.
    address: String,
    // A link to it was opened, so that it has met its guest, or will.
    has_guest: bool,
    process: Child<P>,
    // Its standard input, to which nothing is written: it ends with this program, and the child with it.
    _input: Option<P::Stdin>,
}

/// The children that were started, none of which was waited for.
#[derive(Drop)]
pub struct Children<P: OpenProcess> {
    started: Vec<Started<P>>,
    // Whether they write on standard error. Else the fault of a child would stand there before this program's own.
    are_heard: bool,
}

impl<P: OpenProcess> Started<P> {
    // Starts the command, and waits until the child says that it is ready. One that doesn't say so is killed, and
    // waited for.
    fn spawn<R: Processes<Started = P>>(
        rt: &R,
        command: &mut Command,
        address: String,
    ) -> io::Result<Self> {
        let mut process = command.spawn(rt)?;
        // Kept open for as long as the child is there: a wait for it would close it before.
        let input = process.stdin.take();
        await_or_kill(&mut process)?;
        Ok(Started {
            address,
            has_guest: false,
            process,
            _input: input,
        })
    }

    // A link to this address was opened.
    fn note_link(&mut self, address: &str) {
        self.has_guest = self.has_guest || self.address.as_str() == address;
    }

    // Whether it ends before so many thousandths of a second are over, which are counted down.
    fn ends_within<C: Clock>(&mut self, clock: &C, left: &mut u64) -> bool {
        let mut pause = 1;
        for _ in 0..u64::MAX {
            match self.process.try_wait() {
                Ok(None) => {}
                _ => return true,
            }
            if *left == 0 {
                return false;
            }
            thread::sleep(clock, Duration::from_millis(pause));
            *left = left.saturating_sub(pause);
            pause = if pause < LONGEST_PAUSE {
                pause * 2
            } else {
                pause
            };
        }
        false
    }

    // Lets it meet its guest and end, or kills it, and waits for it. It is killed too where that isn't done in time.
    fn end<R: Net + Clock>(&mut self, rt: &R, left: &mut u64) {
        let mut time = Allowance::new(LINK);
        let is_met = self.has_guest || connect(rt, &self.address, &mut time).is_ok();
        if !(is_met && self.ends_within(rt, left)) {
            let _ = self.process.kill();
        }
        let _ = self.process.wait();
    }
}

// The name by which this program was started.
fn own_name<R: Env + AllocGlobal>(rt: &R) -> io::Result<String> {
    // Not `current_exe`, which is the loader where a loader was told to run this program.
    match env::args(rt)?.next() {
        Some(name) => Ok(name),
        None => Err(io::Error::from(ErrorKind::NotFound)),
    }
}

// Gives the command its words, and what every child has.
fn set_up(command: &mut Command, words: &[String], is_heard: bool) -> Result<(), AllocError> {
    for word in words {
        command.arg(word.as_str())?;
    }
    command.env(CHILD, "1")?;
    command.stdin(Stdio::piped());
    command.stdout(Stdio::piped());
    if !is_heard {
        command.stderr(Stdio::null());
    }
    Ok(())
}

// Where a child with these words lets its guest in: the last of them.
fn address_of(alloc: Global, words: &[String]) -> Result<String, AllocError> {
    match words.last() {
        Some(word) => word.clone(),
        None => Ok(String::new(alloc)),
    }
}

// Waits until the child says that it is ready. Its output is closed then, so that it can't wait for a reader.
fn await_ready<P: OpenProcess>(child: &mut Child<P>) -> io::Result<()> {
    let mut line = [0; 6];
    let read = match child.stdout.take() {
        Some(mut output) => output.read_exact(&mut line),
        None => Ok(()),
    };
    if read.is_ok() && line == *b"ready\n" {
        Ok(())
    } else {
        Err(io::Error::new(ErrorKind::InvalidData, "it didn't say that it is ready"))
    }
}

// The same, where a child that doesn't say so is killed, and waited for.
fn await_or_kill<P: OpenProcess>(child: &mut Child<P>) -> io::Result<()> {
    let ready = await_ready(child);
    if ready.is_err() {
        let _ = child.kill();
        let _ = child.wait();
    }
    ready
}

impl<P: OpenProcess + Drop> Children<P> {
    /// No children. What is said is whether those to come write on standard error.
    pub fn new(alloc: Global, are_heard: bool) -> Self {
        Children {
            started: Vec::new(alloc),
            are_heard,
        }
    }

    /// Starts this same program with the words, and waits until it says that it is ready. A child that
    /// doesn't say so is killed, and waited for.
    pub fn start<R>(&mut self, rt: &R, words: &[String]) -> io::Result<()>
    where
        R: Processes<Started = P> + Env + AllocGlobal,
    {
        let program = own_name(rt)?;
        let mut command = Command::new(rt.alloc(), program.as_str())?;
        self.start_by(rt, &mut command, words)
    }

    // The same by the command with these words.
    fn start_by<R>(&mut self, rt: &R, command: &mut Command, words: &[String]) -> io::Result<()>
    where
        R: Processes<Started = P> + AllocGlobal,
    {
        set_up(command, words, self.are_heard)?;
        // No memory is needed once the child runs, so that none is left behind.
        self.started.reserve(1)?;
        let address = address_of(rt.alloc(), words)?;
        let child = Started::spawn(rt, command, address)?;
        self.started.push(child)?;
        Ok(())
    }

    /// A link to this address was opened.
    pub fn note_link(&mut self, address: &str) {
        for child in self.started.iter_mut() {
            child.note_link(address);
        }
    }

    /// Connects once to each child to which no link was opened, so that it meets its guest and ends, and
    /// waits for all children. One to which it can't connect would wait for its guest, and is killed; so is one
    /// that hasn't ended in time, as one that was stopped.
    pub fn end<R: Net + Clock>(&mut self, rt: &R) {
        let mut left = CHILDREN_MILLIS;
        for child in self.started.iter_mut() {
            child.end(rt, &mut left);
        }
        self.started.clear();
    }
}
