//! Why nothing is shown, or not all of it.
ghost use Rattle.std.specs.Prelude.{◌≡◌};
ghost use Rattle.pir_show.specs.Ending.{code_of};

use std::alloc::AllocError;
use thiserror::Error;
use wire_frames::{BadSession, FeedFault};

/// Why nothing is shown, or not all of it.
#[derive(Clone, Copy, Debug, PartialEq, Eq, Error)]
pub enum Fault {
    /// The words don't have a form; nothing was touched.
    #[error("usage")]
    Usage,
    /// The file couldn't be opened or read.
    #[error("read fault")]
    ReadFault,
    /// Standard output couldn't be written.
    #[error("write fault")]
    WriteFault,
    /// The file holds no session: `place` is the length of the longest prefix of its bytes that begins some session.
    #[error("bad input: no session, wrong at byte {place}")]
    BadInput { place: u64 },
    /// Want of memory.
    #[error("no memory")]
    Memory,
}

impl Fault {
    /// The exit code, which is that of `pir` for the same fault.
    pub fn code(self) -> u8
        ensures { result ≡ code_of self }
    {
        match self {
            Fault::Usage => 2,
            Fault::ReadFault => 8,
            Fault::WriteFault => 9,
            Fault::BadInput { .. } => 10,
            Fault::Memory => 12,
        }
    }
}

impl From<FeedFault> for Fault {
    ghost use Rattle.std.specs.Prelude.{◌≡◌};
    ghost use Rattle.pir_show.specs.Reading.{of_feed};

    ghost from_gives = { λ fault given. given ≡ of_feed fault };

    fn from(fault: FeedFault) -> Fault {
        match fault {
            FeedFault::BadSession { place } => Fault::BadInput { place },
            FeedFault::Memory => Fault::Memory,
        }
    }
}

impl From<BadSession> for Fault {
    ghost use Rattle.std.specs.Prelude.{◌≡◌};
    ghost use Rattle.pir_show.specs.Reading.{of_end};

    ghost from_gives = { λ fault given. given ≡ of_end fault };

    fn from(fault: BadSession) -> Fault {
        Fault::BadInput { place: fault.place }
    }
}

impl From<AllocError> for Fault {
    fn from(_fault: AllocError) -> Fault {
        Fault::Memory
    }
}
