//! The random bytes.

ghost use Rattle.std.specs.Prelude.{◌≡◌, ◌<◌, ◌≤◌, length};
ghost use Rattle.port_trait.specs.Number.{COINS};
ghost use Rattle.port_trait.specs.Moves.{Touches};
ghost use Rattle.query_rounds.specs.declared.coins.TheConstants.{NUMBER_LEN};
ghost use Rattle.query_rounds.specs.Sent.{session_number};
ghost use Rattle.query_rounds.specs.Tossed.{TakesCoins};

use crate::plan::FetchFault;
use byteorder::{BigEndian, ByteOrder};
use port_trait::{Filled, Port, Ports, read_exactly};

/// How many coins the number of a session takes.
pub const NUMBER_LEN: usize = 8;

/// Fills `coins` from Coins, which is open.
///
/// # Errors
///
/// `CoinsFault` only where the count of Coins rose, and then fewer bytes were taken than are asked for; `CoinsEnded` exactly
/// where there are fewer bytes, with their number.
pub(crate) fn take_coins<P: Ports>(ports: &mut P, coins: &mut [u8]) -> Result<(), FetchFault>
    requires { 0 < length coins.old }
    ensures taken { TakesCoins (length coins.old) result coins.new (P.world ports.old) (P.world ports.new) }
    ensures others { Touches COINS (P.world ports.old) (P.world ports.new) }
{
    match read_exactly(ports, Port::Coins, coins) {
        Filled::Full => Ok(()),
        Filled::Ended(taken) => Err(FetchFault::CoinsEnded {
            taken: taken as u64,
        }),
        Filled::Failed => Err(FetchFault::CoinsFault),
    }
}

/// The number of the session: that in the first coins, highest first.
#[tactic(auto, unfolding(crate::specs::Sent::session_number))]
pub(crate) fn session_number_of(coins: &[u8]) -> u64
    requires { NUMBER_LEN ≤ length coins.now }
    ensures { result ≡ session_number coins.now }
{
    BigEndian::read_u64(coins)
}
