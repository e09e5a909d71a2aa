// What the ports stand for.
ghost use Rattle.std.specs.Prelude.{◌≤◌, length, IfOk};

use crate::children::Children;
use crate::connections::Connections;
use crate::explainer::Explainer;
use crate::files::OpenFiles;
use port_trait::Port;
use std::alloc::Global;
use std::fs::OpenFile;
use std::io::{self, Eprint, ErrorKind, Input, Print, Read, Write};
use std::net::{Net, OpenListener, OpenStream};
use std::os::fd::AsRawFd;
use std::process::OpenProcess;
use std::rt::{Env, Files};
use std::time::Clock;

/// The open files and streams. Each call is passed the runtime that it needs: so none of them is made for all that the
/// ports need of it.
#[derive(Drop)]
pub struct Streams<I, F, L, S> {
    files: OpenFiles<I, F>,
    connections: Connections<L, S>,
}

// Whether a signal interrupted a call.
fn is_interrupted(moved: &io::Result<usize>) -> bool {
    matches!(moved, Err(error) if error.kind() == ErrorKind::Interrupted)
}

impl<
    I: Drop,
    F: OpenFile + Drop,
    L: OpenListener + Drop,
    S: Read + Write + OpenStream + Drop,
> Streams<I, F, L, S> {
    /// Nothing but standard output is open.
    pub fn new(alloc: Global) -> Self {
        Streams {
            files: OpenFiles::new(alloc),
            connections: Connections::new(alloc),
        }
    }

    // Puts the share on the disk that is open, and closes it. Where that fails, it is explained as of that share, and fails
    // the call that comes next.
    fn settle<R: Eprint>(&mut self, rt: &R, explainer: &mut Explainer) -> io::Result<()> {
        match self.files.settle() {
            Ok(()) => Ok(()),
            Err(unsettled) => {
                explainer.explain(rt, Port::Share(unsettled.server), None, &unsettled.error);
                Err(io::Error::new(
                    ErrorKind::Other,
                    "the share before may not have reached the disk",
                ))
            }
        }
    }

    /// Opens the port by this name, once the share is on the disk that was written before. The children are told of the
    /// address of a link.
    pub fn open<R, P>(
        &mut self,
        rt: &R,
        p: Port,
        name: &str,
        children: &mut Children<P>,
        explainer: &mut Explainer,
    ) -> io::Result<()>
    where
        R: Files<File = F> + Input<Reader = I> + Net<Listener = L, Stream = S>,
        R: Env + Clock + Eprint + AllocGlobal,
        L: AsRawFd,
        P: OpenProcess + Drop,
    {
        self.settle(rt, explainer)?;
        match p {
            Port::Door => self.connections.listen(rt, name),
            Port::Link(i) => self.connections.open_link(rt, i, name, children),
            _ => self.files.open(rt, p, name),
        }
    }

    /// Closes the links and the stream to the guest before, waits for the next guest, opens the stream to it, and notes
    /// where it came from.
    pub fn meet<C: Clock>(&mut self, clock: &C, explainer: &mut Explainer) -> io::Result<()>
    where
        L: OpenListener<Stream = S>,
    {
        explainer.note_guest(self.connections.meet(clock)?);
        Ok(())
    }

    /// Closes all links, and lets the guest who is in go.
    pub fn let_go<C: Clock>(&mut self, clock: &C) {
        self.connections.let_go(clock);
    }

    /// Reads from the port. A read that a signal interrupts is tried again.
    pub fn read<C: Clock>(&mut self, clock: &C, p: Port, into: &mut [u8]) -> io::Result<usize>
    where
        I: Read,
        F: Read,
        ensures { IfOk result (λ n. n ≤ length into.new) }
    {
        for _ in 0..u64::MAX {
            let read = match p {
                Port::Guest | Port::Link(_) => self.connections.read(clock, p, into),
                _ => self.files.read(p, into),
            };
            if !is_interrupted(&read) {
                return read;
            }
        }
        Err(io::Error::from(ErrorKind::Interrupted))
    }

    /// Writes to the port; to Output once the share is on the disk that was written before. A write that a signal interrupts
    /// is tried again.
    pub fn write<R: Clock + Print + Eprint>(
        &mut self,
        rt: &R,
        p: Port,
        piece: &[u8],
        explainer: &mut Explainer,
    ) -> io::Result<usize>
    where
        F: Write,
        ensures { IfOk result (λ n. n ≤ length piece.now) }
    {
        if p == Port::Output {
            self.settle(rt, explainer)?;
        }
        for _ in 0..u64::MAX {
            let written = match p {
                Port::Guest | Port::Link(_) => self.connections.write(rt, p, piece),
                Port::Output => io::writer(rt).write(piece),
                _ => self.files.write(p, piece),
            };
            if !is_interrupted(&written) {
                return written;
            }
        }
        Err(io::Error::from(ErrorKind::Interrupted))
    }
}
