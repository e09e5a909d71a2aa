//! What a guest's bytes ask for.

ghost use Rattle.std.specs.Prelude.{◌≡◌, ◌*◌, ◌<◌, ◌≤◌, length};
ghost use Rattle.quantity_limits.specs.declared.TheConstants.{MOST_BLOCKS};
ghost use Rattle.wire_frames.specs.Scheme.{number_of, payload_len};
ghost use Rattle.wire_frames.specs.Turns.{piece};
ghost use Rattle.serve_core.specs.Case.{sets_unused, some_sets_unused};
ghost use Rattle.serve_core.specs.Terms.{terms_for};
ghost use Rattle.server_calls.specs.Judging.{JudgesGuest, JudgesHeader};

use chor_xor::has_unused_bits;
use wire_frames::{FRAME_HEADER_LEN, QueryHeader, Scheme, read_query_header};

/// The status of a query that is malformed.
const MALFORMED: u8 = 1;

/// The status of a query for a database of another shape.
const OTHER_SHAPE: u8 = 2;

/// The status of a query of another scheme.
const OTHER_SCHEME: u8 = 3;

/// What a guest's bytes come to.
pub(crate) enum Judged<'a> {
    /// A query: the bytes of its header, what they say, and its payload.
    Query(&'a [u8; FRAME_HEADER_LEN], QueryHeader, &'a [u8]),
    /// A query that is refused with this status: the bytes of its header.
    Refused(&'a [u8; FRAME_HEADER_LEN], u8),
    /// A proper prefix of a query.
    Cut,
}

/// What the query with this header asks for, where it suits; else the status by which it is refused.
fn judge_header(
    scheme: Scheme,
    rows: u32,
    width: u32,
    header: &[u8; FRAME_HEADER_LEN],
) -> Result<QueryHeader, u8>
    ensures { JudgesHeader (terms_for (number_of scheme) rows width) header.now result }
{
    let Ok(query) = read_query_header(header) else {
        return Err(MALFORMED);
    };
    if query.scheme != scheme.number() {
        return Err(OTHER_SCHEME);
    }
    if query.r != rows || query.s != width {
        return Err(OTHER_SHAPE);
    }
    Ok(query)
}

/// The i-th of so many vectors, counted from 0.
fn vector_at<'a>(scheme: Scheme, rows: u32, count: u8, query: &'a [u8], i: usize) -> &'a [u8]
    requires few { count ≤ MOST_BLOCKS }
    requires there { i < count }
    requires size { length query.now ≡ count * payload_len scheme rows }
    ensures is { result.now ≡ piece (payload_len scheme rows) i query.now }
    ensures size { length (piece (payload_len scheme rows) i query.now) ≡ payload_len scheme rows }
{
    let size = scheme.payload_len(rows);
    &query[i * size..(i + 1) * size]
}

/// Whether a vector sets a bit past those of the rows.
fn is_overfull(scheme: Scheme, rows: u32, vector: &[u8]) -> bool
    requires some { 1 ≤ rows }
    requires size { length vector.now ≡ payload_len scheme rows }
    ensures { result ≡ sets_unused scheme rows vector.now }
{
    match scheme {
        Scheme::Shamir => false,
        Scheme::Xor => has_unused_bits(vector, rows),
    }
}

/// Whether one of so many vectors does.
#[tactic(auto, unfolding(serve_core::specs::Case::some_sets_unused))]
fn some_is_overfull(scheme: Scheme, rows: u32, width: u32, count: u8, query: &[u8]) -> bool
    requires some { 1 ≤ rows }
    requires few { count ≤ MOST_BLOCKS }
    requires size { length query.now ≡ count * payload_len scheme rows }
    ensures { result ≡ some_sets_unused (terms_for (number_of scheme) rows width) count query.now }
{
    let mut overfull = false;
    for i in 0..usize::from(count) {
        overfull = overfull || is_overfull(scheme, rows, vector_at(scheme, rows, count, query, i));
    }
    overfull
}

/// What a guest's bytes come to at a server of so many rows, in a scheme.
pub(crate) fn judge_guest<'a>(scheme: Scheme, rows: u32, width: u32, guest: &'a [u8]) -> Judged<'a>
    requires { 1 ≤ rows }
    ensures { JudgesGuest (terms_for (number_of scheme) rows width) guest.now result }
{
    let Some((header, rest)) = guest.split_first_chunk::<FRAME_HEADER_LEN>() else {
        return Judged::Cut;
    };
    let query = match judge_header(scheme, rows, width, header) {
        Ok(query) => query,
        Err(status) => return Judged::Refused(header, status),
    };
    let size = usize::from(query.count) * scheme.payload_len(rows);
    if rest.len() < size {
        return Judged::Cut;
    }
    let payload = &rest[..size];
    if some_is_overfull(scheme, rows, width, query.count, payload) {
        return Judged::Refused(header, MALFORMED);
    }
    Judged::Query(header, query, payload)
}
