//! The room that serving takes.
ghost use Rattle.std.specs.Prelude.{IfOk};
ghost use Rattle.serve_core.specs.Room.{Fits};

use crate::service::Service;
use std::alloc::{AllocError, Global};

/// Room for the payload of a query for the most blocks that one asks for, for the sums of each worker,
/// and for the frame of its answer.
#[derive(Drop)]
pub(crate) struct Room {
    pub(crate) query: Vec<u8>,
    pub(crate) scratch: Vec<u8>,
    pub(crate) frame: Vec<u8>,
}

impl Room {
    /// As much room as the service takes.
    ///
    /// # Errors
    ///
    /// `AllocError` for want of memory.
    pub(crate) fn new(alloc: Global, service: &Service) -> Result<Room, AllocError>
        ensures { IfOk result (Fits service.now) }
    {
        let most = service.most_blocks();
        Ok(Room {
            query: vec![in alloc; 0; service.payload_len(most)]?,
            scratch: vec![in alloc; 0; service.sums_len(most)]?,
            frame: vec![in alloc; 0; service.frame_len(most)]?,
        })
    }
}
