// The files, and standard input.
ghost use Rattle.std.specs.Prelude.{◌≤◌, length, IfOk};

use crate::closed::closed;
use port_trait::Port;
use std::alloc::Global;
use std::fs::{OpenFile, OpenOptions};
use std::io::{ErrorKind, Input, Read, Write};
use std::os::unix::fs::{MetadataExt, OpenOptionsExt};
use std::rt::Files;
use std::{fs, io};

// Where Input reads from.
#[derive(Drop)]
enum Source<I, F> {
    Closed,
    Standard(I),
    File(F),
}

// A file of the system, by whichever name.
#[derive(Clone, Copy)]
struct Identity {
    device: u64,
    number: u64,
}

// The file of a server's share.
#[derive(Drop)]
struct Share<F> {
    server: u8,
    file: F,
    // Whether there is a disk that it is to reach.
    is_kept: bool,
}

// A file that was made for a server's share.
#[derive(Clone, Copy)]
struct Made {
    server: u8,
    identity: Identity,
}

/// A share that may not have reached the disk.
#[derive(Drop)]
pub struct Unsettled {
    /// Whose it is.
    pub server: u8,
    /// Why.
    pub error: io::Error,
}

/// The open files, and what Input reads from.
#[derive(Drop)]
pub struct OpenFiles<I, F> {
    input: Source<I, F>,
    database: Option<F>,
    coins: Option<F>,
    record: Option<F>,
    // One share at a time, so that of many servers' shares no more than one file is held.
    share: Option<Share<F>>,
    // What was made for shares so far.
    made: Vec<Made>,
}

// Makes a file anew. A block can be read off a record, and a database off its shares, so a new file is its owner's
// alone.
fn make_file<R: Files>(rt: &R, name: &str) -> io::Result<R::File> {
    let mut options = OpenOptions::new();
    options.write(true).create(true).truncate(true).mode(0o600);
    options.open(rt, name)
}

// Opens what Input reads from.
fn open_source<R: Files + Input>(rt: &R, name: &str) -> io::Result<Source<R::Reader, R::File>> {
    if name == "-" {
        return Ok(Source::Standard(rt.reader()));
    }
    Ok(Source::File(fs::open(rt, name)?))
}

// Opens a file for a share, and makes it where it isn't there; what it holds stays for now.
fn open_share<R: Files>(rt: &R, name: &str) -> io::Result<R::File> {
    let mut options = OpenOptions::new();
    options.write(true).create(true).mode(0o600);
    options.open(rt, name)
}

// Which file it is, unless it is a pipe or a device.
fn identity_of<F: OpenFile>(file: &F) -> io::Result<Option<Identity>> {
    let about = file.metadata()?;
    if !about.is_file() {
        return Ok(None);
    }
    Ok(Some(Identity {
        device: about.dev(),
        number: about.ino(),
    }))
}

// Whether both are one file.
fn is_same(one: Identity, other: Identity) -> bool {
    one.device == other.device && one.number == other.number
}

// Puts what was opened in its place, and closes what was there before.
fn put<T: Drop>(place: &mut T, opened: io::Result<T>) -> io::Result<()> {
    *place = opened?;
    Ok(())
}

// The same for a place that may be empty.
fn fill<T: Drop>(place: &mut Option<T>, opened: io::Result<T>) -> io::Result<()> {
    *place = Some(opened?);
    Ok(())
}

// The file of the server's share, where that is open.
fn share_of<F>(share: &mut Option<Share<F>>, server: u8) -> Option<&mut F> {
    match share {
        Some(share) if share.server == server => Some(&mut share.file),
        _ => None,
    }
}

// Reads from what is open.
fn read_from<S: Read>(source: Option<&mut S>, into: &mut [u8]) -> io::Result<usize>
    ensures { IfOk result (λ n. n ≤ length into.new) }
{
    match source {
        Some(source) => source.read(into),
        None => Err(closed()),
    }
}

// Writes to what is open.
fn write_to<S: Write>(sink: Option<&mut S>, piece: &[u8]) -> io::Result<usize>
    ensures { IfOk result (λ n. n ≤ length piece.now) }
{
    match sink {
        Some(sink) => sink.write(piece),
        None => Err(closed()),
    }
}

impl<I: Read, F: Read> Source<I, F> {
    fn read(&mut self, into: &mut [u8]) -> io::Result<usize>
        ensures { IfOk result (λ n. n ≤ length into.new) }
    {
        match self {
            Source::Closed => Err(closed()),
            Source::Standard(reader) => reader.read(into),
            Source::File(file) => file.read(into),
        }
    }
}

impl<I: Drop, F: OpenFile + Drop> OpenFiles<I, F> {
    /// No file is open.
    pub fn new(alloc: Global) -> Self {
        OpenFiles {
            input: Source::Closed,
            database: None,
            coins: None,
            record: None,
            share: None,
            made: Vec::new(alloc),
        }
    }

    // Fails where the file is the database, or was made for the share of another server.
    fn check_for_share(&self, server: u8, identity: Identity) -> io::Result<()> {
        if let Some(database) = &self.database {
            if matches!(identity_of(database)?, Some(other) if is_same(identity, other)) {
                return Err(io::Error::new(ErrorKind::AlreadyExists, "it is the database"));
            }
        }
        for made in &self.made {
            if made.server != server && is_same(made.identity, identity) {
                return Err(io::Error::new(
                    ErrorKind::AlreadyExists,
                    "it is the file of another share",
                ));
            }
        }
        Ok(())
    }

    // Opens the file of the server's share, and makes it anew.
    fn open_share<R: Files<File = F>>(&mut self, rt: &R, server: u8, name: &str) -> io::Result<()> {
        let file = open_share(rt, name)?;
        let identity = identity_of(&file)?;
        if let Some(identity) = identity {
            self.check_for_share(server, identity)?;
            file.set_len(0)?;
            self.made.push(Made { server, identity })?;
        }
        self.share = Some(Share {
            server,
            file,
            is_kept: identity.is_some(),
        });
        Ok(())
    }

    /// Waits until the share that is open has reached the disk, and closes it.
    ///
    /// # Errors
    ///
    /// That of the system where it may not have.
    pub fn settle(&mut self) -> Result<(), Unsettled> {
        let Some(share) = self.share.take() else {
            return Ok(());
        };
        if share.is_kept {
            if let Err(error) = share.file.sync_all() {
                return Err(Unsettled {
                    server: share.server,
                    error,
                });
            }
        }
        Ok(())
    }

    /// Opens the port by this name. The share before is to be settled.
    pub fn open<R>(&mut self, rt: &R, p: Port, name: &str) -> io::Result<()>
    where
        R: Files<File = F> + Input<Reader = I>,
    {
        match p {
            Port::Input => put(&mut self.input, open_source(rt, name)),
            Port::Database => fill(&mut self.database, fs::open(rt, name)),
            Port::Coins => fill(&mut self.coins, fs::open(rt, name)),
            Port::Record => fill(&mut self.record, make_file(rt, name)),
            Port::Share(i) => self.open_share(rt, i, name),
            _ => Err(closed()),
        }
    }

    /// Reads from the port.
    pub fn read(&mut self, p: Port, into: &mut [u8]) -> io::Result<usize>
    where
        I: Read,
        F: Read,
        ensures { IfOk result (λ n. n ≤ length into.new) }
    {
        match p {
            Port::Input => self.input.read(into),
            Port::Database => read_from(self.database.as_mut(), into),
            Port::Coins => read_from(self.coins.as_mut(), into),
            _ => Err(closed()),
        }
    }

    /// Writes to the port.
    pub fn write(&mut self, p: Port, piece: &[u8]) -> io::Result<usize>
    where
        F: Write,
        ensures { IfOk result (λ n. n ≤ length piece.now) }
    {
        match p {
            Port::Record => write_to(self.record.as_mut(), piece),
            Port::Share(i) => write_to(share_of(&mut self.share, i), piece),
            _ => Err(closed()),
        }
    }
}
