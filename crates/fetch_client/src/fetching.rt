//! One fetch.

ghost use Rattle.std.specs.Prelude.{◌≡◌, ◌≤◌, length, map, string_bytes};
ghost use Rattle.wire_frames.specs.declared.scheme.TheConstants.{XOR};
ghost use Rattle.query_rounds.specs.Plan.{AreBlocks, IsPlan};
ghost use Rattle.block_decoder.specs.Numbers.{most_columns, most_nodes};
ghost use Rattle.query_rounds.specs.Gathered.{TouchesLinks};
ghost use Rattle.query_rounds.specs.Request.{request};
ghost use Rattle.fetch_client.specs.Fetched.{CountsListed, CountsSeveral, CountsSteps, FetchCounts, FetchCountsWhole};
ghost use Rattle.fetch_client.specs.Fetched.{Fetches, FetchesWhole, FetchesWith};
ghost use Rattle.block_decoder.specs.Decoding.{counters};

use block_decoder::{Report, Verdict, judge_with};
use interpolation::Interpolate;
use port_trait::Ports;
use query_rounds::{FetchFault, FetchPlan, gather};
use std::alloc::Global;
use std::sync::ledger::Ledger;
use uni_poly::steps::Steps;
use wire_frames::Session;

/// What a fetch is given: what is fetched, from which servers, and whether a report is wanted beside the verdict.
#[derive(Drop)]
struct Inputs<'a> {
    plan: &'a FetchPlan,
    blocks: &'a [u32],
    addresses: &'a [String],
    report: bool,
}

/// Fetches blocks, from 1 to [`MOST_BLOCKS`](wire_frames::MOST_BLOCKS) in one query: takes the coins, asks every
/// server, and judges what they answered. Coins is open already; there is one address for each server, in the order
/// of their indices. Where the verdict takes an interpolation with multiplicities, it is made in this `way`. `cols`
/// and `nodes` count the steps of the verdict, as in [`judge`](block_decoder::judge): the columns that are decoded, and
/// the coefficients that are fixed in looking for roots. The XOR scheme takes no such step.
///
/// All memory but that for judging is taken first. Then the coins are taken: 8 bytes for the number of the session,
/// and for the queries, for each block, `r * t`, which is `t` for each row, or in the XOR scheme
/// `(n - 1) * ceil(r / 8)`, a bitmap for each server but the last. Then each server, in the order of their indices, is
/// sent its query, whose payload has for each block r bytes or, in the XOR scheme, `ceil(r / 8)`: of version 1 for one
/// block, and else of version 2. When all were sent theirs, of the answer of each, in the same order, as many bytes as
/// a whole one has are taken. A server whose link fails has no record: nothing is done with a link after a failed call.
/// None is left out, and no byte that is sent depends on an answer.
///
/// # Errors
///
/// `CoinsFault` only where the count of Coins rose, and then fewer coins were taken than are needed; `CoinsEnded`
/// exactly where there are fewer coins, with their number; at both no server was asked. `Memory` for want of memory,
/// before anything was touched or when all were asked.
pub fn fetch<I: Interpolate, C: Ledger, N: Ledger, P: Ports>(
    alloc: Global,
    way: &I,
    plan: &FetchPlan,
    blocks: &[u32],
    addresses: &[String],
    ports: &mut P,
    cols: &mut Steps<C>,
    nodes: &mut Steps<N>,
) -> Result<(Session, Verdict), FetchFault>
    requires plan { IsPlan plan.now }
    requires blocks { AreBlocks plan.now blocks.now }
    requires addresses { length addresses.now ≡ plan.now.n }
    ensures fetched { Fetches (request plan.now blocks.now (map string_bytes addresses.now)) result
        (P.world ports.old) (P.world ports.new) }
    ensures others { TouchesLinks plan.now.n (P.world ports.old) (P.world ports.new) }
    ensures cols { FetchCounts most_columns plan.now blocks.now result cols.old cols.new }
    ensures nodes { FetchCounts most_nodes plan.now blocks.now result nodes.old nodes.new }
    ensures least { cols.old ≤ cols.new }
    ensures least_nodes { nodes.old ≤ nodes.new }
    ensures listed { CountsListed (λ both. both.1) plan.now blocks.now result cols.old cols.new }
    ensures several { CountsSeveral (λ both. both.1) plan.now result nodes.old nodes.new }
    ensures xor { plan.now.scheme ≡ XOR → (cols.new ≡ cols.old) × (nodes.new ≡ nodes.old) }
{
    let inputs = Inputs {
        plan,
        blocks,
        addresses,
        report: false,
    };
    let (session, verdict, _report) = fetch_with(alloc, way, &inputs, ports, cols, nodes)?;
    Ok((session, verdict))
}

/// Fetches blocks as [`fetch`] does, and says beside the verdict who agrees, as
/// [`judge_report`](block_decoder::judge_report) has it: `None` exactly in the XOR scheme, or where the verdict isn't a
/// listing. The steps are those of [`fetch`].
///
/// # Errors
///
/// As [`fetch`].
pub fn fetch_report<I: Interpolate, C: Ledger, N: Ledger, P: Ports>(
    alloc: Global,
    way: &I,
    plan: &FetchPlan,
    blocks: &[u32],
    addresses: &[String],
    ports: &mut P,
    cols: &mut Steps<C>,
    nodes: &mut Steps<N>,
) -> Result<(Session, Verdict, Option<Report>), FetchFault>
    requires plan { IsPlan plan.now }
    requires blocks { AreBlocks plan.now blocks.now }
    requires addresses { length addresses.now ≡ plan.now.n }
    ensures fetched { FetchesWhole (request plan.now blocks.now (map string_bytes addresses.now)) result
        (P.world ports.old) (P.world ports.new) }
    ensures others { TouchesLinks plan.now.n (P.world ports.old) (P.world ports.new) }
    ensures cols { FetchCountsWhole most_columns plan.now blocks.now result cols.old cols.new }
    ensures nodes { FetchCountsWhole most_nodes plan.now blocks.now result nodes.old nodes.new }
    ensures least { cols.old ≤ cols.new }
    ensures least_nodes { nodes.old ≤ nodes.new }
    ensures listed { CountsListed (λ found. found.1) plan.now blocks.now result cols.old cols.new }
    ensures several { CountsSeveral (λ found. found.1) plan.now result nodes.old nodes.new }
    ensures xor { plan.now.scheme ≡ XOR → (cols.new ≡ cols.old) × (nodes.new ≡ nodes.old) }
{
    let inputs = Inputs {
        plan,
        blocks,
        addresses,
        report: true,
    };
    fetch_with(alloc, way, &inputs, ports, cols, nodes)
}

/// Fetches blocks, and judges what was answered, with the report beside the verdict where that is wanted.
///
/// # Errors
///
/// As [`fetch`].
fn fetch_with<I: Interpolate, C: Ledger, N: Ledger, P: Ports>(
    alloc: Global,
    way: &I,
    inputs: &Inputs,
    ports: &mut P,
    cols: &mut Steps<C>,
    nodes: &mut Steps<N>,
) -> Result<(Session, Verdict, Option<Report>), FetchFault>
    requires plan { IsPlan inputs.now.plan.now }
    requires blocks { AreBlocks inputs.now.plan.now inputs.now.blocks.now }
    requires addresses { length inputs.now.addresses.now ≡ inputs.now.plan.now.n }
    ensures fetched { FetchesWith inputs.now.report
        (request inputs.now.plan.now inputs.now.blocks.now (map string_bytes inputs.now.addresses.now)) result
        (P.world ports.old) (P.world ports.new) }
    ensures counted { CountsSteps inputs.now.plan.now inputs.now.blocks.now result
        (counters cols.old nodes.old) (counters cols.new nodes.new) }
{
    let all = gather(alloc, inputs.plan, inputs.blocks, inputs.addresses, ports)?;
    // What holds of every session is told by its calls alone.
    all.session.params();
    all.session.record_count();
    let (verdict, report) = judge_with(alloc, way, &all.session, inputs.report, cols, nodes)?;
    Ok((all.session, verdict, report))
}
