//! Takes the query of the guest that is in.
ghost use Rattle.std.specs.Prelude.{◌≤◌, length};
ghost use Rattle.port_trait.specs.Number.{GUEST};
ghost use Rattle.port_trait.specs.Moves.{Touches};
ghost use Rattle.serve_core.specs.Terms.{most_payload_for, terms_for};
ghost use Rattle.serve_core.specs.Taking.{Takes};

use crate::give::refuse;
use crate::header::judge_header;
use crate::payload::take_payload;
use crate::taken::Taken;
use crate::terms::Terms;
use port_trait::{Filled, Port, Ports, read_exactly};
use wire_frames::FRAME_HEADER_LEN;

/// Takes the query of the guest that is in, on these terms.
fn take_on<P: Ports>(terms: Terms, query: &mut [u8], ports: &mut P) -> Taken
    requires room { most_payload_for terms ≤ length query.old }
    ensures takes { Takes terms result query.new (P.world ports.old) (P.world ports.new) }
    ensures others { Touches GUEST (P.world ports.old) (P.world ports.new) }
{
    let mut header = [0; FRAME_HEADER_LEN];
    match read_exactly(ports, Port::Guest, &mut header) {
        Filled::Full => {}
        Filled::Ended(_) => return Taken::Gone,
        Filled::Failed => return Taken::GuestFault,
    }
    match judge_header(terms, &header) {
        Ok(asked) => take_payload(terms, &header, &asked, query, ports),
        Err(refusal) => refuse(ports, &header, refusal),
    }
}

/// Takes the query of the guest that is in, for a database of so many rows of so many bytes, in a
/// scheme, 1 for Shamir's sharing and 2 for the XOR scheme. It is what [`serve_one`](crate::serve_one)
/// does before it answers: a query that it would answer is the result, its header, with its payload
/// at the start of `query`. Where it would refuse the query, the guest is given the frame that says so.
///
/// `query` has room for the most blocks that a query asks for: at most
/// [`MOST_BLOCKS`](wire_frames::MOST_BLOCKS), whose rows have at most
/// [`MOST_WIDTH`](wire_frames::MOST_WIDTH) bytes together. No memory is taken.
pub fn take_query<P: Ports>(
    scheme: u8,
    rows: u32,
    width: u32,
    query: &mut [u8],
    ports: &mut P,
) -> Taken
    requires room { most_payload_for (terms_for scheme rows width) ≤ length query.old }
    ensures takes { Takes (terms_for scheme rows width) result query.new (P.world ports.old) (P.world ports.new) }
    ensures others { Touches GUEST (P.world ports.old) (P.world ports.new) }
{
    let terms = Terms {
        scheme,
        rows,
        width,
    };
    take_on(terms, query, ports)
}
