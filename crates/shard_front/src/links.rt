//! The link to one shard.
ghost use Rattle.std.specs.Prelude.{◌<◌, ◌≤◌, length, take, IfSome};
ghost use Rattle.std.specs.Option.{option_map};
ghost use Rattle.port_trait.specs.Number.{link};
ghost use Rattle.port_trait.specs.Moves.{Touches};
ghost use Rattle.shard_front.specs.Link.{LinkAsked};

use port_trait::{Filled, Port, Ports, read_exactly, write_all};

/// Asks over one link: opens it, sends it the frame, and fills `answer` with what comes, up to its end. It says
/// how many bytes came, and `None` where a call on the link failed.
pub(crate) fn ask<P: Ports>(
    ports: &mut P,
    index: u8,
    address: &str,
    frame: &[u8],
    answer: &mut [u8],
) -> Option<usize>
    requires frame { 0 < length frame.now }
    requires answer { 0 < length answer.old }
    ensures fits { IfSome result (λ n. n ≤ length answer.new) }
    ensures asked { LinkAsked address.now frame.now (length answer.old) (option_map (λ n. take n answer.new) result)
        ((P.world ports.old).at (link index)) ((P.world ports.new).at (link index)) }
    ensures others { Touches (link index) (P.world ports.old) (P.world ports.new) }
{
    let link = Port::Link(index);
    let Ok(()) = ports.open(link, address) else {
        return None;
    };
    let Ok(()) = write_all(ports, link, frame) else {
        return None;
    };
    match read_exactly(ports, link, answer) {
        Filled::Full => Some(answer.len()),
        Filled::Ended(came) => Some(came),
        Filled::Failed => None,
    }
}
