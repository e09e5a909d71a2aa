//! The desk at which guests are served: what is served, and room for a query and its answer.
ghost use Rattle.std.specs.Prelude.{◌≡◌, ◌⊎◌, ◌≤◌, IfOk};
ghost use Rattle.port_trait.specs.Number.{GUEST};
ghost use Rattle.port_trait.specs.Moves.{Touches};
ghost use Rattle.wire_frames.specs.declared.scheme.TheConstants.{SHAMIR, XOR};
ghost use Rattle.quantity_limits.specs.declared.TheConstants.{MOST_WORKERS};
ghost use Rattle.serve_core.specs.Attended.{Attends};

use crate::attend::attend;
use crate::met::Met;
use crate::room::Room;
use crate::service::Service;
use block_matrix::Matrix;
use port_trait::Ports;
use server_product::Gate;
use std::alloc::{AllocError, Global};
use std::marker::Model;
use std::thread::Threads;
use wire_frames::Scheme;

/// A database with all that it takes to serve it: room for the payload of a query, for the sums of
/// each worker and for the frame of an answer. Contracts see the database, the scheme and the
/// number of workers.
///
/// ```
/// let matrix = Matrix::from_bytes(alloc, bytes, 64)?;
/// let mut desk = Desk::open(alloc, matrix, 1, 4)?;
/// while let Ok(()) = ports.next_guest() {
///     serve_one(&rt, &mut desk, ports, &OpenGate);
/// }
/// ```
#[derive(Drop)]
pub struct Desk {
    service: Service,
    room: Room,
}

impl Model for Desk {
    ghost use Rattle.serve_core.specs.Service.{Service};
    ghost use Rattle.serve_core.specs.Room.{Fits};

    ghost Value = { Service };

    ghost view = { λ d. d.service };

    ghost invariant = { λ d. Fits d.service d.room };
}

impl Desk {
    /// Opens a desk for a database and a scheme, 1 for Shamir's sharing and 2 for the XOR scheme,
    /// with from 1 to [`MOST_WORKERS`](wire_frames::MOST_WORKERS) workers to sum the rows. It takes all
    /// the memory that serving takes, for the most blocks that a query asks for: at most
    /// [`MOST_BLOCKS`](wire_frames::MOST_BLOCKS), whose rows have at most
    /// [`MOST_WIDTH`](wire_frames::MOST_WIDTH) bytes together. That is the payload of the query, which
    /// has for each block a byte for each row or, in the XOR scheme, for each eight rows; a row for
    /// each block and worker; and a whole answer. The database is dropped where that isn't found.
    ///
    /// # Errors
    ///
    /// `AllocError` for want of memory.
    pub fn open(alloc: Global, matrix: Matrix, scheme: u8, workers: u8) -> Result<Desk, AllocError>
        requires scheme { (scheme ≡ SHAMIR) ⊎ (scheme ≡ XOR) }
        requires some { 1 ≤ workers }
        requires few { workers ≤ MOST_WORKERS }
        ensures { IfOk result (λ d.
            d ≡ record { database = matrix; scheme = scheme; workers = workers }) }
    {
        let service = Service::new(matrix, Scheme::of(scheme), workers);
        let room = Room::new(alloc, &service)?;
        Ok(Desk { service, room })
    }

    /// Takes the query of the guest that is in, and gives the guest the answer, or refuses the query.
    pub(crate) fn attend<R: Threads + Sync, G: Gate + Sync, P: Ports>(
        &mut self,
        rt: &R,
        ports: &mut P,
        gate: &G,
    ) -> Met
        ensures attends { Attends self.old result (P.world ports.old) (P.world ports.new) }
        ensures others { Touches GUEST (P.world ports.old) (P.world ports.new) }
        ensures kept { self.new ≡ self.old }
    {
        attend(rt, &self.service, &mut self.room, ports, gate)
    }
}
