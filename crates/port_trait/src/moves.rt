// Whole reads and whole writes.
ghost use Rattle.std.specs.Prelude.{◌≡◌, ◌<◌, length, OnOk, OnErr};
ghost use Rattle.port_trait.specs.Number.{number};
ghost use Rattle.port_trait.specs.Moves.{Touches, gave};
ghost use Rattle.port_trait.specs.Whole.{Fills, FailsWithin};

use crate::{Failed, Port, Ports};

/// How far [`read_exactly`] came.
#[derive(Clone, Copy, Debug, PartialEq, Eq)]
pub enum Filled {
    /// The slice is full.
    Full,
    /// The input ended after so many bytes, fewer than were asked for.
    Ended(usize),
    /// A call on the port failed.
    Failed,
}

/// Fills `into` with the next bytes of the port, or its start with as many as there are.
///
/// At `Full` and `Ended` the port handed out exactly the bytes that came, and the rest of `into`
/// stays. At `Failed` one call on the port failed, and its count rose by one; bytes may have been handed out before.
///
/// ```
/// // Input has still b"abc" to hand out.
/// let mut pair = [0; 2];
/// assert_eq!(read_exactly(ports, Port::Input, &mut pair), Filled::Full); // pair is b"ab"
/// assert_eq!(read_exactly(ports, Port::Input, &mut pair), Filled::Ended(1)); // pair is b"cb"
/// ```
pub fn read_exactly<P: Ports>(ports: &mut P, p: Port, into: &mut [u8]) -> Filled
    requires { 0 < length into.old }
    ensures filled { Fills (number p) result into.old into.new (P.world ports.old) (P.world ports.new) }
    ensures others { Touches (number p) (P.world ports.old) (P.world ports.new) }
{
    let mut filled = 0;
    while filled < into.len() {
        match ports.take(p, &mut into[filled..]) {
            Ok(n) => {
                if n == 0 {
                    return Filled::Ended(filled);
                }
                filled += n;
            }
            Err(Failed) => return Filled::Failed,
        }
    }
    Filled::Full
}

/// Gives the port all of `piece`.
///
/// # Errors
///
/// `Failed` if a call on the port failed, after which none came: its count of failed calls rose by one, and it took a
/// proper prefix of the piece, which may be empty.
pub fn write_all<P: Ports>(ports: &mut P, p: Port, piece: &[u8]) -> Result<(), Failed>
    requires { 0 < length piece.now }
    ensures ok { OnOk result ((P.world ports.new).at (number p)
        ≡ gave piece.now ((P.world ports.old).at (number p))) }
    ensures failed { OnErr result
        (FailsWithin (number p) piece.now (P.world ports.old) (P.world ports.new)) }
    ensures others { Touches (number p) (P.world ports.old) (P.world ports.new) }
{
    let mut done = 0;
    while done < piece.len() {
        done += ports.give(p, &piece[done..])?;
    }
    Ok(())
}
