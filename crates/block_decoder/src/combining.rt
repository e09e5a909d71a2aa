//! The verdict in the XOR scheme.

ghost use Rattle.std.specs.Prelude.{◌≡◌, length, IfOk};
ghost use Rattle.block_decoder.specs.Verdict.{IsCombinedSession};

use crate::listing::Listing;
use crate::usable::usable_payload;
use crate::verdict::Verdict;
use chor_xor::combine_into;
use std::alloc::{AllocError, Global};
use wire_frames::Session;

/// What the usable answers say in the XOR scheme (Chor, Goldreich, Kushilevitz and Sudan 1995): the sum of all payloads
/// is the block, and without one of them nothing is known of it. Memory is taken for the block and its listing.
pub(crate) fn combine_all(alloc: Global, session: &Session) -> Result<Verdict, AllocError>
    requires { length session.now.records ≡ session.now.params.n }
    ensures { IfOk result (IsCombinedSession session.now) }
{
    let params = session.params();
    let mut sum = vec![in alloc; 0; params.block_len() as usize]?;
    let mut k = 0;
    for place in 0..params.n {
        let index = place + 1;
        if let Some(payload) = usable_payload(session, index) {
            combine_into(&mut sum, payload);
            k += 1;
        }
    }
    if k < params.n {
        return Ok(Verdict::TooFew {
            k: u32::from(k),
            h: u32::from(params.h),
        });
    }
    Ok(Verdict::Listed(Listing::of_one(alloc, sum)?))
}
