// The answer of a port that isn't open.
use std::io::{self, ErrorKind};

/// The port isn't open, or not for that.
pub fn closed() -> io::Error {
    io::Error::new(ErrorKind::NotConnected, "the port isn't open for that")
}
