//! A front over shards: what it serves, and room for a query and its answer.
ghost use Rattle.std.specs.Prelude.{◌≡◌, IfOk, length, map, string_bytes};
ghost use Rattle.shard_front.specs.Spread.{IsSpread, shards};
ghost use Rattle.shard_front.specs.Fronted.{Fronts};
ghost use Rattle.shard_front.specs.Relay.{FrontsTold};
ghost use Rattle.shard_front.specs.Honest.{HonestTold};

use crate::relayed::Relayed;
use crate::room::Room;
use crate::serve::serve_within;
use crate::spread::Spread;
use port_trait::Ports;
use std::alloc::{AllocError, Global};
use std::marker::Model;

/// A front over the shards of one database, with all that it takes to serve it. Contracts see how the
/// rows are spread.
///
/// ```
/// // 3 rows of 64 bytes, over shards of 2 rows and of 1
/// let mut front = Front::open(alloc, 3, 64, 2)?;
/// while let Ok(()) = ports.next_guest() {
///     front_one(&mut front, addresses, ports);
/// }
/// ```
#[derive(Drop)]
pub struct Front {
    spread: Spread,
    room: Room,
}

impl Model for Front {
    ghost use Rattle.shard_front.specs.Room.{Fits};
    ghost use Rattle.shard_front.specs.Spread.{Spread};

    ghost Value = { Spread };

    ghost view = { λ f. f.spread };

    ghost invariant = { λ f. Fits f.spread f.room };
}

impl Front {
    /// Opens a front for a database of so many rows of so many bytes, over shards of `shard` rows, of
    /// which the last may have fewer: from 1 to all rows, and at most [`MOST_SHARDS`](crate::MOST_SHARDS)
    /// shards. It takes all the memory that serving takes, for the most blocks that a query asks for, whatever
    /// the number of shards: a payload, the part of one shard, its answer, and the answer to the guest.
    ///
    /// # Errors
    ///
    /// `AllocError` for want of memory.
    pub fn open(alloc: Global, rows: u32, width: u32, shard: u32) -> Result<Front, AllocError>
        requires { IsSpread (record { rows = rows; width = width; shard = shard }) }
        ensures { IfOk result (λ front.
            front ≡ record { rows = rows; width = width; shard = shard }) }
    {
        let spread = Spread::new(rows, width, shard);
        let room = Room::new(alloc, spread)?;
        Ok(Front { spread, room })
    }

    /// Serves the guest that is in.
    pub(crate) fn serve<P: Ports>(&mut self, addresses: &[String], ports: &mut P) -> Relayed
        requires { length addresses.now ≡ shards self.old }
        ensures spread { IsSpread self.old }
        ensures fronts { Fronts self.old (map string_bytes addresses.now) result
            (P.world ports.old) (P.world ports.new) }
        ensures told { FrontsTold self.old result (P.world ports.old) (P.world ports.new) }
        ensures honest { HonestTold self.old result (P.world ports.old) (P.world ports.new) }
        ensures kept { self.new ≡ self.old }
    {
        serve_within(self.spread, &mut self.room, addresses, ports)
    }
}
