//! Judges the header of a query.
ghost use Rattle.serve_core.specs.Stages.{Judges};

use crate::refusal::Refusal;
use crate::terms::Terms;
use wire_frames::{FRAME_HEADER_LEN, QueryHeader, read_query_header};

/// What the query with this header asks for, where it suits. That it is malformed goes before its scheme,
/// and its scheme before its shape.
///
/// # Errors
///
/// Why it is refused.
pub(crate) fn judge_header(
    terms: Terms,
    header: &[u8; FRAME_HEADER_LEN],
) -> Result<QueryHeader, Refusal>
    ensures { Judges terms header.now result }
{
    let Ok(query) = read_query_header(header) else {
        return Err(Refusal::Malformed);
    };
    if query.scheme != terms.scheme {
        return Err(Refusal::OtherScheme);
    }
    if query.r != terms.rows || query.s != terms.width {
        return Err(Refusal::OtherShape);
    }
    Ok(query)
}
