// The numbers of the standard streams.
use std::os::fd::AsRawFd;
use std::rt::Files;
use std::{fs, io};

/// Keeps the numbers 0, 1 and 2 from every file and stream that is opened later, where the program was
/// started with a standard stream closed.
///
/// The system gives a new file the least number that is free. So a link could be given the number of standard
/// output, and would then be sent what is written there. In place of each closed stream the root folder is
/// opened, for reading: neither a read nor a write on it succeeds, so a use of the closed stream fails, and is
/// no end of input and no swallowed text.
#[derive(Drop)]
pub struct StandardStreams<F> {
    input: Option<F>,
    output: Option<F>,
    error: Option<F>,
}

impl<F: AsRawFd> StandardStreams<F> {
    /// Holds each number from 0 to 2 that is free. It has to come before anything else is opened.
    ///
    /// # Errors
    ///
    /// That of the system where it can't open the root folder.
    pub fn hold<R: Files<File = F>>(rt: &R) -> io::Result<Self> {
        let mut held = StandardStreams {
            input: None,
            output: None,
            error: None,
        };
        // Three numbers at most are free, and then one more file shows that none is left.
        for _ in 0..4 {
            let folder = fs::open(rt, "/")?;
            match folder.as_raw_fd() {
                0 => held.input = Some(folder),
                1 => held.output = Some(folder),
                2 => held.error = Some(folder),
                _ => return Ok(held),
            }
        }
        Ok(held)
    }
}
