//! Serves the guest that is in.
ghost use Rattle.std.specs.Prelude.{◌≡◌};
ghost use Rattle.port_trait.specs.Number.{GUEST};
ghost use Rattle.port_trait.specs.Moves.{Touches};
ghost use Rattle.serve_core.specs.Attended.{Attends};

use crate::desk::Desk;
use crate::met::Met;
use port_trait::Ports;
use server_product::Gate;
use std::thread::Threads;

/// Serves the guest that is in, and says how it was met.
///
/// The bytes of a header are taken. They are refused where they are no header of a query (status
/// 1), one of another scheme (3), or one for a database of another shape (2), and nothing more is
/// taken then. Else the payload is taken, and the answer is given, in one piece as far as the guest
/// takes it: the header of status 0, and the answer to the payload.
///
/// The payload has a vector for each block that the query asks for, and the answer one row for each.
/// In Shamir's scheme a vector has a byte for each row, and its answer is the product of the vector
/// and the database. In the XOR scheme a vector is a bitmap of a bit for each row, and its answer
/// the XOR of the rows whose bit is set; the payload is refused (1) where one sets a bit past those.
/// The desk's workers share the rows. Each of them passes `gate` once, and reads its rows once for
/// all vectors or for a group of them.
///
/// A guest that ends before that is gone, and is given nothing. Where a call on the guest fails, it
/// was given nothing unless all that the reply takes was taken, and then a proper prefix of the
/// reply. The desk is the same after every guest. No memory is taken.
pub fn serve_one<R: Threads + Sync, G: Gate + Sync, P: Ports>(
    rt: &R,
    desk: &mut Desk,
    ports: &mut P,
    gate: &G,
) -> Met
    ensures attends { Attends desk.old result (P.world ports.old) (P.world ports.new) }
    ensures others { Touches GUEST (P.world ports.old) (P.world ports.new) }
    ensures kept { desk.new ≡ desk.old }
{
    desk.attend(rt, ports, gate)
}
