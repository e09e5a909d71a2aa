//! A search, query by query.

ghost use Rattle.std.specs.Prelude.{◌≡◌, ◌≤◌};
ghost use Rattle.std.specs.Option.{option_or};
ghost use Rattle.port_trait.specs.Number.{COINS};
ghost use Rattle.query_rounds.specs.Gathered.{TouchesLinks};
ghost use Rattle.list_finds.specs.Found.{FindsKeys, unlisted_of};

use crate::cuts::{keys_each, keys_of, queries_for, write_rows};
use crate::finds::{Finds, Unlisted};
use crate::search::Search;
use crate::telling::{only_block, tell};
use block_decoder::Verdict;
use fetch_client::{FetchFault, fetch};
use interpolation::Interpolate;
use port_trait::Ports;
use std::alloc::Global;
use std::sync::ledger::Ledger;
use uni_poly::steps::Steps;
use wire_frames::{MOST_BLOCKS, Session};

/// Keeps the first verdict that doesn't list exactly one block, with its session.
fn keep_unlisted(unlisted: &mut Option<Unlisted>, session: Session, verdict: Verdict)
    ensures { unlisted.new ≡ option_or unlisted.old (unlisted_of session verdict) }
{
    if unlisted.is_none() && only_block(&verdict).is_none() {
        *unlisted = Some(Unlisted { session, verdict });
    }
}

/// Finds keys in a list, in Shamir's sharing (Goldberg 2007): in each of the search's queries it fetches the rows of
/// the next keys, and looks for each key in its row of the block that the verdict lists, where it lists exactly one.
/// Coins is open already. `way`, `cols` and `nodes` are those of [`fetch`].
///
/// A query has up to [`MOST_BLOCKS`] keys, as many as have rows of no more than [`MOST_WIDTH`](wire_frames::MOST_WIDTH)
/// bytes together, and the last has those that are left. Each takes the coins of one fetch, and in each every server is
/// asked, whatever was answered before. So how many keys there are is all that the number of bytes sent depends on.
///
/// # Errors
///
/// `CoinsFault` only where the count of Coins rose. `CoinsEnded` exactly where there are fewer coins than all queries
/// need, with the number of those that were left for the query that met the end. `Memory` for want of memory. Each ends
/// the search at once.
pub fn find_keys<I: Interpolate, C: Ledger, N: Ledger, P: Ports>(
    alloc: Global,
    way: &I,
    search: Search,
    ports: &mut P,
    cols: &mut Steps<C>,
    nodes: &mut Steps<N>,
) -> Result<Finds, FetchFault>
    ensures found { FindsKeys search.entry result ((P.world ports.old).at COINS)
        (P.world ports.old) (P.world ports.new) }
    ensures others { TouchesLinks search.entry.plan.n (P.world ports.old) (P.world ports.new) }
    ensures cols { cols.old ≤ cols.new }
    ensures nodes { nodes.old ≤ nodes.new }
{
    let Search {
        plan,
        list,
        keys,
        addresses,
        mut answers,
    } = search;
    let mut unlisted = None;
    'queries: for query in 0..queries_for(keys.len(), plan.s) {
        let own = keys_of(keys, keys_each(plan.s), query);
        let mut room = [0u32; MOST_BLOCKS as usize];
        let rows = &mut room[..own.len()];
        write_rows(&list, plan.r, own, rows);
        let (session, verdict) = fetch(alloc, way, &plan, rows, addresses, ports, cols, nodes)?;
        tell(&list, plan.r, plan.s, own, &verdict, &mut answers);
        keep_unlisted(&mut unlisted, session, verdict);
    }
    Ok(Finds { answers, unlisted })
}
