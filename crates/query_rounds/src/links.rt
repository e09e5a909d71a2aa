//! The link to one server.

ghost use Rattle.std.specs.Prelude.{◌≡◌, ◌<◌, ◌≤◌, length, take, IfSome};
ghost use Rattle.std.specs.Option.{option_map};
ghost use Rattle.port_trait.specs.Number.{link};
ghost use Rattle.port_trait.specs.Moves.{Touches};
ghost use Rattle.query_rounds.specs.Link.{LinkSent, LinkTaken};

use port_trait::{Filled, Port, Ports, read_exactly, write_all};

/// Asks one server: opens its link, and gives it the frame. It says whether the server was reached: whether its link
/// took the whole frame, and no call on it failed.
pub(crate) fn ask<P: Ports>(ports: &mut P, index: u8, address: &str, frame: &[u8]) -> bool
    requires { 0 < length frame.now }
    ensures sent { LinkSent address.now frame.now result
        ((P.world ports.old).at (link index)) ((P.world ports.new).at (link index)) }
    ensures others { Touches (link index) (P.world ports.old) (P.world ports.new) }
{
    let link = Port::Link(index);
    let Ok(()) = ports.open(link, address) else {
        return false;
    };
    write_all(ports, link, frame).is_ok()
}

/// Takes the answer of one server, if it was reached: fills `answer` with what comes, up to its end. It says how many
/// bytes came, and `None` where the server wasn't reached, whose link isn't touched again, or where a call on the link
/// failed.
pub(crate) fn take_answer<P: Ports>(
    reached: bool,
    ports: &mut P,
    index: u8,
    answer: &mut [u8],
) -> Option<usize>
    requires { 0 < length answer.old }
    ensures fits { IfSome result (λ n. n ≤ length answer.new) }
    ensures taken { LinkTaken (length answer.old) reached (option_map (λ n. take n answer.new) result)
        ((P.world ports.old).at (link index)) ((P.world ports.new).at (link index)) }
    ensures others { Touches (link index) (P.world ports.old) (P.world ports.new) }
{
    if !reached {
        return None;
    }
    match read_exactly(ports, Port::Link(index), answer) {
        Filled::Full => Some(answer.len()),
        Filled::Ended(came) => Some(came),
        Filled::Failed => None,
    }
}
