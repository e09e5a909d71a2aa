//! A look-up, turn by turn.

ghost use Rattle.std.specs.Prelude.{◌≡◌, ◌<◌, length, IfSome};
ghost use Rattle.std.specs.Option.{option_or};
ghost use Rattle.port_trait.specs.Number.{COINS};
ghost use Rattle.key_search.specs.Standing.{standing_after, turns_of};
ghost use Rattle.query_rounds.specs.Gathered.{TouchesLinks};
ghost use Rattle.key_fetches.specs.Listed.{only_block, unlisted_of};
ghost use Rattle.key_fetches.specs.LookedUp.{LooksUp};

use crate::key_request::KeyRequest;
use crate::looked_up::{LookUp, only_block};
use block_decoder::Verdict;
use fetch_client::{FetchFault, fetch};
use interpolation::Interpolate;
use key_search::Search;
use port_trait::Ports;
use std::alloc::Global;
use std::sync::ledger::Ledger;
use uni_poly::steps::Steps;

/// Tells the search the one block that the verdict lists, or that it lists none or several; and keeps the first verdict
/// of that kind.
fn tell(search: &mut Search, unlisted: &mut Option<Verdict>, verdict: Verdict)
    requires turn { search.old.turn < turns_of search.old.rows }
    requires width { IfSome (only_block verdict) (λ block. length block ≡ search.old.width) }
    ensures standing { search.new ≡ standing_after search.old (only_block verdict) }
    ensures unlisted { unlisted.new ≡ option_or unlisted.old (unlisted_of verdict) }
{
    let block = only_block(&verdict);
    let is_listed = block.is_some();
    search.tell(block);
    if !is_listed && unlisted.is_none() {
        *unlisted = Some(verdict);
    }
}

/// Looks up the row that is requested, in Shamir's sharing (Goldberg 2007), among the rows of the plan, which ascend by
/// their first bytes: in each of the turns of [`Search`] it fetches the row that the search asks for, and tells the search
/// the block that the verdict lists, where it lists exactly one. Coins is open already. `way`, `cols` and `nodes` are those
/// of [`fetch`].
///
/// The number of turns is that of the binary digits of the number of rows. Each takes the coins of one fetch, `8 + r * t`
/// bytes, and in each every server is asked, whatever was answered before.
///
/// # Errors
///
/// `CoinsFault` only where the count of Coins rose. `CoinsEnded` exactly where there are fewer coins than all turns
/// need, with the number of those that were left for the fetch that met the end. `Memory` for want of memory. Each ends
/// the look-up at once.
pub fn look_up<I: Interpolate, C: Ledger, N: Ledger, P: Ports>(
    alloc: Global,
    way: &I,
    request: &KeyRequest,
    ports: &mut P,
    cols: &mut Steps<C>,
    nodes: &mut Steps<N>,
) -> Result<LookUp, FetchFault>
    ensures looked { LooksUp request.now result ((P.world ports.old).at COINS) (P.world ports.old) (P.world ports.new) }
    ensures others { TouchesLinks request.now.plan.n (P.world ports.old) (P.world ports.new) }
{
    let key = request.key.copied(alloc)?;
    let mut search = Search::new(alloc, request.plan.r, request.plan.s, key)?;
    let mut unlisted = None;
    'turns: for _turn in 0..search.turns() {
        let rows = [search.ask()];
        let (_session, verdict) = fetch(
            alloc,
            way,
            &request.plan,
            &rows,
            request.addresses,
            ports,
            cols,
            nodes,
        )?;
        tell(&mut search, &mut unlisted, verdict);
    }
    Ok(LookUp { search, unlisted })
}
