//! Takes the payload of a query whose header suits.
ghost use Rattle.std.specs.Prelude.{◌≡◌, ◌+◌, ◌*◌, ◌<◌, ◌≤◌, length};
ghost use Rattle.port_trait.specs.Number.{GUEST};
ghost use Rattle.port_trait.specs.Moves.{Touches};
ghost use Rattle.quantity_limits.specs.declared.TheConstants.{MOST_BLOCKS};
ghost use Rattle.wire_frames.specs.Turns.{piece};
ghost use Rattle.wire_frames.specs.Scheme.{scheme_of};
ghost use Rattle.serve_core.specs.Terms.{most_payload_for, payload_len_for, vector_len_for};
ghost use Rattle.serve_core.specs.Case.{sets_unused, some_sets_unused};
ghost use Rattle.serve_core.specs.Taking.{payload_in};
ghost use Rattle.serve_core.specs.Stages.{HandlesPayload, IsSuited};

use crate::give::refuse;
use crate::refusal::Refusal;
use crate::taken::Taken;
use crate::terms::Terms;
use chor_xor::has_unused_bits;
use port_trait::{Filled, Port, Ports, read_exactly};
use wire_frames::{FRAME_HEADER_LEN, QueryHeader, Scheme};

/// The i-th vector of the payload of a query for so many blocks, counted from 0.
fn vector_at<'a>(terms: Terms, scheme: Scheme, count: u8, query: &'a [u8], i: usize) -> &'a [u8]
    requires told { scheme ≡ scheme_of terms.scheme }
    requires few { count ≤ MOST_BLOCKS }
    requires there { i < count }
    requires size { length query.now ≡ payload_len_for terms count }
    ensures is { result.now ≡ piece (vector_len_for terms) i query.now }
    ensures size { length (piece (vector_len_for terms) i query.now) ≡ vector_len_for terms }
{
    let size = terms.vector_len(scheme);
    &query[i * size..(i + 1) * size]
}

/// Whether a vector of a query sets a bit past those of the rows.
fn is_overfull(terms: Terms, scheme: Scheme, vector: &[u8]) -> bool
    requires told { scheme ≡ scheme_of terms.scheme }
    requires some { 1 ≤ terms.rows }
    requires size { length vector.now ≡ vector_len_for terms }
    ensures { result ≡ sets_unused (scheme_of terms.scheme) terms.rows vector.now }
{
    match scheme {
        Scheme::Shamir => false,
        Scheme::Xor => has_unused_bits(vector, terms.rows),
    }
}

/// Whether one of so many vectors of a query does.
#[tactic(auto, unfolding(crate::specs::Case::some_sets_unused))]
fn some_is_overfull(terms: Terms, scheme: Scheme, count: u8, query: &[u8]) -> bool
    requires told { scheme ≡ scheme_of terms.scheme }
    requires some { 1 ≤ terms.rows }
    requires few { count ≤ MOST_BLOCKS }
    requires size { length query.now ≡ payload_len_for terms count }
    ensures { result ≡ some_sets_unused terms count query.now }
{
    let mut overfull = false;
    for i in 0..usize::from(count) {
        overfull = overfull
            || is_overfull(terms, scheme, vector_at(terms, scheme, count, query, i));
    }
    overfull
}

/// Takes the payload of a query with this header, which suits, or refuses it. The room is as long as
/// the payload.
fn take_into<P: Ports>(
    terms: Terms,
    scheme: Scheme,
    header: &[u8; FRAME_HEADER_LEN],
    asked: &QueryHeader,
    query: &mut [u8],
    ports: &mut P,
) -> Taken
    requires told { scheme ≡ scheme_of terms.scheme }
    requires suited { IsSuited terms header.now asked.now }
    requires room { length query.old ≡ payload_len_for terms asked.now.count }
    ensures handles { HandlesPayload terms asked.now result query.new
        (P.world ports.old) (P.world ports.new) }
    ensures others { Touches GUEST (P.world ports.old) (P.world ports.new) }
{
    let count = asked.count;
    // A query has a byte at least, since a database has a row.
    let some = terms.payload_len(scheme, count) >= 1;
    prove!(some);
    match read_exactly(ports, Port::Guest, query) {
        Filled::Full => {}
        Filled::Ended(_) => return Taken::Gone,
        Filled::Failed => return Taken::GuestFault,
    }
    if some_is_overfull(terms, scheme, count, query) {
        return refuse(ports, header, Refusal::Malformed);
    }
    Taken::Query(*asked)
}

/// The same at the start of room for the most blocks that a query asks for.
pub(crate) fn take_payload<P: Ports>(
    terms: Terms,
    header: &[u8; FRAME_HEADER_LEN],
    asked: &QueryHeader,
    query: &mut [u8],
    ports: &mut P,
) -> Taken
    requires suited { IsSuited terms header.now asked.now }
    requires room { most_payload_for terms ≤ length query.old }
    ensures handles { HandlesPayload terms asked.now result (payload_in terms asked.now query.new)
        (P.world ports.old) (P.world ports.new) }
    ensures fits { payload_len_for terms asked.now.count ≤ length query.old }
    ensures others { Touches GUEST (P.world ports.old) (P.world ports.new) }
{
    let scheme = Scheme::of(asked.scheme);
    let payload = &mut query[..terms.payload_len(scheme, asked.count)];
    take_into(terms, scheme, header, asked, payload, ports)
}
