//! The room that a front takes.
ghost use Rattle.std.specs.Prelude.{IfOk};
ghost use Rattle.shard_front.specs.Room.{Fits};

use crate::spread::Spread;
use std::alloc::{AllocError, Global};
use wire_frames::{Scheme, answer_len, query_len};

/// Room for the part of a query for one shard, and for its answer.
#[derive(Drop)]
pub(crate) struct ShardRoom {
    pub(crate) part: Vec<u8>,
    pub(crate) answer: Vec<u8>,
}

/// Room for the payload of a query for the most blocks that one asks for, for what one shard is asked
/// and answers, and for the frame of the answer.
#[derive(Drop)]
pub(crate) struct Room {
    pub(crate) query: Vec<u8>,
    pub(crate) shard: ShardRoom,
    pub(crate) frame: Vec<u8>,
}

impl Room {
    /// As much room as the front takes.
    ///
    /// # Errors
    ///
    /// `AllocError` for want of memory.
    #[tactic(auto, unfolding(wire_frames::specs::Scheme::scheme_of))]
    pub(crate) fn new(alloc: Global, spread: Spread) -> Result<Room, AllocError>
        ensures { IfOk result (Fits spread) }
    {
        let most = spread.most_blocks();
        Ok(Room {
            query: vec![in alloc; 0; usize::from(most) * spread.rows() as usize]?,
            shard: ShardRoom {
                part: vec![in alloc; 0; query_len(Scheme::Shamir, most, spread.shard())]?,
                answer: vec![in alloc; 0; answer_len(most, spread.width())]?,
            },
            frame: vec![in alloc; 0; answer_len(most, spread.width())]?,
        })
    }
}
