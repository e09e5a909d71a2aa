//! How a run ends.

ghost use Rattle.std.specs.Prelude.{◌≡◌};
ghost use Rattle.std.specs.Process.{exit_status};
ghost use Rattle.commands.specs.Table.{code_of, line_of};

use std::process::ExitCode;

/// What is wrong with the input.
#[derive(Clone, Copy, Debug, PartialEq, Eq)]
pub enum Bad {
    /// Input holds no session: `place` is the length of the longest prefix of its bytes that begins some session.
    Session { place: u64 },
    /// The database has no bytes. Nobody was served.
    EmptyFile,
    /// The database has more bytes than one of its width may have: `limit`. Nobody was served.
    TooBig { limit: u64 },
    /// Coins holds only `taken` bytes, fewer than the fetch needs. No server was asked.
    CoinsEnded { taken: u64 },
}

/// How a run ends.
#[derive(Clone, Copy, Debug, PartialEq, Eq)]
pub enum Status {
    /// One block is listed; or the row with the key is found; or a server served all its guests.
    One,
    /// The words don't have the form of a command; nothing was touched.
    Usage,
    /// No block is listed.
    NoBlock,
    /// Two blocks or more are listed.
    Several,
    /// No row begins with the key that was looked up.
    Absent,
    /// Only `k` answers are usable, fewer than the `h` that have to agree.
    TooFew { k: u32, h: u32 },
    /// With `k` answers and degree `t` an agreement of `h` is too weak.
    TooWeak { k: u32, t: u32, h: u32 },
    /// The list decoding of a column takes `cost` equations, which is too many.
    TooCostly { cost: u64 },
    /// A call on Input, Coins or Database failed; nothing was written, no server was asked and nobody was served.
    ReadFault,
    /// A call on Output or Record failed. Output has a proper prefix of the text, and nothing of it where Record failed.
    WriteFault,
    /// The input is wrong; nothing was written.
    BadInput(Bad),
    /// A call on Door failed: a server can't listen, or has no further guest.
    DoorFault,
    /// Want of memory; nothing was written.
    Memory,
    /// A child could not be started; nothing was written, and no server was asked.
    ChildFault,
}

/// The exit code of the program for a status.
pub fn code(status: &Status) -> u8
    ensures { result ≡ code_of status.now }
{
    match status {
        Status::One => 0,
        Status::Usage => 2,
        Status::NoBlock => 3,
        Status::Several => 4,
        Status::TooFew { .. } => 5,
        Status::TooWeak { .. } => 6,
        Status::TooCostly { .. } => 7,
        Status::ReadFault => 8,
        Status::WriteFault => 9,
        Status::BadInput(_) => 10,
        Status::DoorFault => 11,
        Status::Memory => 12,
        Status::ChildFault => 13,
        Status::Absent => 14,
    }
}

/// The line that the program writes to standard error for a status, without its newline; empty where it writes none.
pub fn line(status: &Status) -> &'static str
    ensures { result.now ≡ line_of status.now }
{
    match status {
        Status::One
        | Status::NoBlock
        | Status::Several
        | Status::Absent
        | Status::TooFew { .. }
        | Status::TooWeak { .. }
        | Status::TooCostly { .. } => "",
        Status::Usage => "pir: usage",
        Status::ReadFault => "pir: read fault",
        Status::WriteFault => "pir: write fault",
        Status::BadInput(_) => "pir: bad input",
        Status::DoorFault => "pir: door fault",
        Status::Memory => "pir: no memory",
        Status::ChildFault => "pir: child fault",
    }
}

/// What a program ends with.
#[derive(Drop)]
pub struct Ending {
    /// Its exit code.
    pub code: ExitCode,
    /// The line that it writes to standard error, without its newline; empty where it writes none.
    pub line: &'static str,
}

/// What the program ends with for a status: the exit code and the line of the table.
pub fn ending_of(status: &Status) -> Ending
    ensures code { exit_status result.code ≡ code_of status.now }
    ensures line { result.line.now ≡ line_of status.now }
{
    Ending {
        code: ExitCode::from(code(status)),
        line: line(status),
    }
}
