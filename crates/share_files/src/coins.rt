//! The random bytes.

ghost use Rattle.std.specs.Prelude.{◌<◌, length};
ghost use Rattle.port_trait.specs.Number.{COINS};
ghost use Rattle.port_trait.specs.Moves.{Touches};
ghost use Rattle.share_files.specs.Splits.{TakesCoins};

use crate::fault::SplitFault;
use port_trait::{Filled, Port, Ports, read_exactly};

/// Opens Coins by this name, and fills `coins` from it.
///
/// # Errors
///
/// `CoinsFault` only where the count of Coins rose, and then fewer bytes were taken than are asked for; `CoinsEnded`
/// exactly where there are fewer bytes, with their number.
pub(crate) fn take_coins<P: Ports>(
    ports: &mut P,
    name: &str,
    coins: &mut [u8],
) -> Result<(), SplitFault>
    requires { 0 < length coins.old }
    ensures taken { TakesCoins name.now (length coins.old) result coins.new (P.world ports.old) (P.world ports.new) }
    ensures others { Touches COINS (P.world ports.old) (P.world ports.new) }
{
    let Ok(()) = ports.open(Port::Coins, name) else {
        return Err(SplitFault::CoinsFault);
    };
    match read_exactly(ports, Port::Coins, coins) {
        Filled::Full => Ok(()),
        Filled::Ended(taken) => Err(SplitFault::CoinsEnded {
            taken: taken as u64,
        }),
        Filled::Failed => Err(SplitFault::CoinsFault),
    }
}
