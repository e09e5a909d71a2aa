//! One splitting.

ghost use Rattle.std.specs.Prelude.{◌≡◌, ◌≢◌, ◌*◌, ◌<◌, ◌≤◌, length, map, string_bytes, OnOk, OnErr};
ghost use Rattle.std.specs.List.{concat};
ghost use Rattle.port_trait.specs.Number.{share_file};
ghost use Rattle.port_trait.specs.Moves.{Touches};
ghost use Rattle.quantity_limits.specs.declared.TheConstants.{MOST_SERVERS};
ghost use Rattle.share_files.specs.SplitPlan.{share_names};
ghost use Rattle.share_files.specs.Sharing.{CutsOff, GivesShare, LeavesShare, WritesShare};
ghost use Rattle.share_files.specs.Splits.{Splits, TouchesFiles, TouchesShares, WritesShares};

use crate::coins::take_coins;
use crate::fault::SplitFault;
use crate::names::names_of_shares;
use crate::plan::SplitPlan;
use crate::sharing::Sharing;
use block_matrix::Matrix;
use port_trait::{Failed, Port, Ports, write_all};
use share_bytes::share_into;
use std::alloc::Global;

/// How many positions of a share are made at once, at most: a piece still lies in the processor's nearest caches when it
/// is written. Of 16 KB to 1 MB these take the least time: longer writes take the system longer, and shorter are more.
const PIECE: usize = 1 << 16;

/// Gives a server's share to its open file piece by piece: each is made in `room`, fills it unless it is the last, and is
/// written before the next one is made.
///
/// # Errors
///
/// `Failed` if a call on the file failed; it took a proper prefix of the share.
fn give_share<P: Ports>(
    sharing: &Sharing,
    index: u8,
    room: &mut [u8],
    ports: &mut P,
) -> Result<(), Failed>
    requires index { index ≢ 0 }
    requires room { 0 < length room.old }
    ensures ok { OnOk result (GivesShare sharing.now index (P.world ports.old) (P.world ports.new)) }
    ensures failed { OnErr result (CutsOff sharing.now index (P.world ports.old) (P.world ports.new)) }
    ensures others { Touches (share_file index) (P.world ports.old) (P.world ports.new) }
{
    let bytes = sharing.bytes;
    let coins = sharing.coins;
    let tau = sharing.tau;
    let each = usize::from(tau);
    let mut at = 0;
    'pieces: while at < bytes.len() {
        let end = at + room.len().min(bytes.len() - at);
        let piece = &mut room[..end - at];
        share_into(
            &bytes[at..end],
            &coins[at * each..end * each],
            u32::from(tau),
            index,
            piece,
        );
        write_all(ports, Port::Share(index), piece)?;
        at = end;
    }
    Ok(())
}

/// Writes the share of one server to the file of this name.
///
/// # Errors
///
/// `Failed` if a call on the file failed.
fn write_share<P: Ports>(
    sharing: &Sharing,
    index: u8,
    name: &str,
    room: &mut [u8],
    ports: &mut P,
) -> Result<(), Failed>
    requires index { index ≢ 0 }
    requires room { 0 < length room.old }
    ensures ok { OnOk result (WritesShare sharing.now index name.now
        (P.world ports.old) (P.world ports.new)) }
    ensures failed { OnErr result (LeavesShare sharing.now index name.now
        (P.world ports.old) (P.world ports.new)) }
    ensures others { Touches (share_file index) (P.world ports.old) (P.world ports.new) }
{
    // A share has a byte at least, since what is shared has.
    let _ = &sharing.bytes;
    let Ok(()) = ports.open(Port::Share(index), name) else {
        return Err(Failed);
    };
    give_share(sharing, index, room, ports)
}

/// Writes the share of each server to its file, one after the other.
///
/// # Errors
///
/// `Failed` if a call on a file failed.
fn write_shares<P: Ports>(
    sharing: &Sharing,
    names: &[String],
    room: &mut [u8],
    ports: &mut P,
) -> Result<(), Failed>
    requires few { length names.now ≤ MOST_SERVERS }
    requires room { 0 < length room.old }
    ensures written { WritesShares (map string_bytes names.now) sharing.now result
        (P.world ports.old) (P.world ports.new) }
    ensures others { TouchesFiles (length names.now) (P.world ports.old) (P.world ports.new) }
{
    let mut index = 0u8;
    'shares: for name in names {
        index += 1;
        let Ok(()) = write_share(sharing, index, name, room, ports) else {
            return Err(Failed);
        };
    }
    Ok(())
}

/// Takes the coins, and writes the share of each server.
///
/// # Errors
///
/// As [`split`], but for want of memory.
fn split_bytes<P: Ports>(
    bytes: &[u8],
    plan: &SplitPlan,
    names: &[String],
    ports: &mut P,
    coins: &mut [u8],
    room: &mut [u8],
) -> Result<(), SplitFault>
    requires names { map string_bytes names.now ≡ share_names plan.now.into plan.now.servers }
    requires count { length names.now ≡ plan.now.servers }
    requires some { 0 < length bytes.now }
    requires coins { length coins.old ≡ length bytes.now * plan.now.tau }
    requires room { 0 < length room.old }
    ensures splits { Splits plan.now bytes.now result (P.world ports.old) (P.world ports.new) }
    ensures others { TouchesShares plan.now.servers (P.world ports.old) (P.world ports.new) }
{
    take_coins(ports, plan.coins, coins)?;
    let sharing = Sharing {
        bytes,
        coins,
        tau: plan.tau,
    };
    match write_shares(&sharing, names, room, ports) {
        Ok(()) => Ok(()),
        Err(Failed) => Err(SplitFault::ShareFault),
    }
}

/// Splits a database into a share for each server, each in a file of its own: takes the coins, `tau` for each byte of the
/// rows, and then writes the files one after the other. All memory is taken first: for the coins, for one piece of a
/// share and for the names.
///
/// # Errors
///
/// `Memory` for want of memory, and then nothing was touched; `CoinsFault` only where the count of Coins rose, and
/// `CoinsEnded` exactly where it has fewer coins, with their number, and then no file was opened; `ShareFault` only where
/// the count of a share's file rose: the files before it are whole, it has a prefix of its share, and later ones were left
/// alone.
pub fn split<P: Ports>(
    alloc: Global,
    matrix: &Matrix,
    plan: &SplitPlan,
    ports: &mut P,
) -> Result<(), SplitFault>
    ensures splits { Splits plan.now (concat matrix.now.rows) result (P.world ports.old) (P.world ports.new) }
    ensures others { TouchesShares plan.now.servers (P.world ports.old) (P.world ports.new) }
{
    let names = names_of_shares(alloc, plan.into, plan.servers)?;
    let bytes = matrix.bytes();
    let mut coins = vec![in alloc; 0; bytes.len() * usize::from(plan.tau)]?;
    let mut room = vec![in alloc; 0; bytes.len().min(PIECE)]?;
    let split = split_bytes(bytes, plan, &names, ports, &mut coins, &mut room);
    // Coins and shares aren't left in memory.
    coins.fill(0);
    room.fill(0);
    split
}
