//! The salt of a list.

ghost use Rattle.port_trait.specs.Number.{COINS};
ghost use Rattle.port_trait.specs.Moves.{Touches};
ghost use Rattle.list_builds.specs.Salt.{TakesSalt};

use crate::SALT_SIZE;
use crate::fault::BuildFault;
use port_trait::{Filled, Port, Ports, read_exactly};

/// Opens Coins by this name, and takes its first bytes as the salt.
///
/// # Errors
///
/// `CoinsFault` only where a call on Coins failed, whose count rose;
/// `CoinsEnded` exactly where there are fewer bytes, with their number.
pub(crate) fn take_salt<P: Ports>(ports: &mut P, name: &str) -> Result<[u8; SALT_SIZE], BuildFault>
    ensures takes { TakesSalt name.now result (P.world ports.old) (P.world ports.new) }
    ensures others { Touches COINS (P.world ports.old) (P.world ports.new) }
{
    let Ok(()) = ports.open(Port::Coins, name) else {
        return Err(BuildFault::CoinsFault);
    };
    let mut salt = [0; SALT_SIZE];
    match read_exactly(ports, Port::Coins, &mut salt) {
        Filled::Full => Ok(salt),
        Filled::Ended(taken) => Err(BuildFault::CoinsEnded { taken }),
        Filled::Failed => Err(BuildFault::CoinsFault),
    }
}
