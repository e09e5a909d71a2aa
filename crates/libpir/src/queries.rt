//! What each server is sent.

ghost use Rattle.client_calls.specs.Query.{order};
ghost use Rattle.libpir.specs.Queries.{AnswersQuery};

use crate::code::Code;
use client_calls::{PlanNumbers, Refusal, write_query};

/// Writes the frame that the server with this index is sent for these blocks, at the front of `out`, and its length
/// into `used`, also where `out` is too short for it.
#[unsafe(no_mangle)]
pub extern "C" fn pir_query(
    plan: &PlanNumbers,
    blocks: &[u32],
    coins: &[u8],
    index: u32,
    out: &mut [u8],
    used: &mut usize,
) -> i32
    ensures { AnswersQuery (order plan.now blocks.now coins.now index) out.old out.new used.old used.new result }
{
    match write_query(plan, blocks, coins, index, out) {
        Ok(size) => {
            *used = size;
            Code::Done.number()
        }
        Err(refusal) => {
            if let Refusal::Room { wanted } = refusal {
                *used = wanted;
            }
            Code::of_refusal(refusal).number()
        }
    }
}
