//! The query to one server, written where the caller has room for it.

ghost use Rattle.client_calls.specs.Query.{order, TakesOrder, WritesQuery};

use crate::asking::{Asking, asking_for};
use crate::blocks::are_below;
use crate::frame::write_frame;
use crate::numbers::PlanNumbers;
use crate::refusal::Refusal;

/// What is asked for by a plan with these numbers, for these blocks, with these coins, of the server with this index.
fn take_order(
    numbers: &PlanNumbers,
    blocks: &[u32],
    coins: &[u8],
    index: u32,
) -> Result<Asking, Refusal>
    ensures { TakesOrder (order numbers.now blocks.now coins.now index) result }
{
    let asking = asking_for(numbers, blocks.len())?;
    if !are_below(blocks, asking.plan.r) {
        return Err(Refusal::Blocks);
    }
    if index == 0 || u32::from(asking.plan.n) < index {
        return Err(Refusal::Index);
    }
    if coins.len() < asking.coins_len() {
        return Err(Refusal::Coins);
    }
    Ok(asking)
}

/// Writes the frame that the server with this index, counted from 1, is sent for these blocks, at the front of `out`,
/// and gives its length. Of the coins it takes the first, as many as [`coins_size`](crate::coins_size) says; all
/// servers of a fetch are sent queries of the same coins, and no coins are used twice. It takes no memory.
///
/// # Errors
///
/// Each exactly where its cause is and no earlier one, and then `out` is as it was: `Plan`, `Blocks`, `Index`, `Coins`,
/// and last `Room` with the length of the frame, where `out` is shorter.
pub fn write_query(
    numbers: &PlanNumbers,
    blocks: &[u32],
    coins: &[u8],
    index: u32,
    out: &mut [u8],
) -> Result<usize, Refusal>
    ensures { WritesQuery (order numbers.now blocks.now coins.now index) out.old out.new result }
{
    let asking = take_order(numbers, blocks, coins, index)?;
    let wanted = asking.query_len();
    if out.len() < wanted {
        return Err(Refusal::Room { wanted });
    }
    let coins = &coins[..asking.coins_len()];
    write_frame(&asking, blocks, coins, index as u8, &mut out[..wanted]);
    Ok(wanted)
}
