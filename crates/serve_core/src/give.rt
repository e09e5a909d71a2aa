//! Gives the guest a frame.
ghost use Rattle.std.specs.Prelude.{◌<◌, length};
ghost use Rattle.port_trait.specs.Number.{GUEST};
ghost use Rattle.port_trait.specs.Moves.{Touches};
ghost use Rattle.serve_core.specs.Stages.{Gives, GivesRefusal};

use crate::met::Met;
use crate::refusal::Refusal;
use crate::taken::Taken;
use port_trait::{Failed, Port, Ports, write_all};
use wire_frames::{FRAME_HEADER_LEN, write_answer_header};

/// Gives the guest a frame, and says that it is met so, or that a call on it failed.
pub(crate) fn give<P: Ports>(ports: &mut P, frame: &[u8], met: Met) -> Met
    requires { 0 < length frame.now }
    ensures gives { Gives met frame.now result (P.world ports.old) (P.world ports.new) }
    ensures others { Touches GUEST (P.world ports.old) (P.world ports.new) }
{
    match write_all(ports, Port::Guest, frame) {
        Ok(()) => met,
        Err(Failed) => Met::GuestFault,
    }
}

/// Gives the guest the frame of a refusal: the header of its status, and nothing behind it.
pub(crate) fn refuse<P: Ports>(
    ports: &mut P,
    header: &[u8; FRAME_HEADER_LEN],
    refusal: Refusal,
) -> Taken
    ensures gives { GivesRefusal header.now refusal result (P.world ports.old) (P.world ports.new) }
    ensures others { Touches GUEST (P.world ports.old) (P.world ports.new) }
{
    let status = refusal.status();
    let mut frame = [0; FRAME_HEADER_LEN];
    write_answer_header(header, status, &mut frame);
    match write_all(ports, Port::Guest, &frame) {
        Ok(()) => Taken::Refused(status),
        Err(Failed) => Taken::GuestFault,
    }
}
