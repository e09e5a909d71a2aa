//! For how many blocks a plan asks at once, and how many bytes that takes.

ghost use Rattle.std.specs.Prelude.{IsTrue, IfOk, ◌↔◌, ◌≡◌, ◌<◌, ◌≤◌, ◌^◌};
ghost use Rattle.quantity_limits.specs.declared.TheConstants.{MOST_CELLS};
ghost use Rattle.wire_frames.specs.Limits.{IsInRange};
ghost use Rattle.query_rounds.specs.Plan.{IsPlan, need, params_of, query_coins, query_params, version_for};
ghost use Rattle.client_calls.specs.Asking.{Asks, IsAsking, MayAsk, Sizes};
ghost use Rattle.client_calls.specs.Asking.{answer_size as answer_bytes, query_size as query_bytes};

use crate::numbers::PlanNumbers;
use crate::refusal::Refusal;
use quantity_limits::{MOST_BLOCKS, MOST_WIDTH};
use query_rounds::{FetchPlan, NUMBER_LEN};
use wire_frames::{Scheme, SessionParams, Version, answer_len, query_len};

/// A plan, its scheme, and how many blocks are asked for at once by it.
#[derive(Clone, Copy, Debug, PartialEq, Eq)]
pub(crate) struct Asking {
    pub(crate) plan: FetchPlan,
    pub(crate) scheme: Scheme,
    pub(crate) count: u8,
}

/// Whether so many blocks may be asked for at once by the plan.
fn may_ask(plan: &FetchPlan, count: usize) -> bool
    requires { IsPlan plan.now }
    ensures { IsTrue result ↔ MayAsk plan.now count }
{
    1 <= count
        && count <= usize::from(MOST_BLOCKS)
        && count * plan.s as usize <= MOST_WIDTH as usize
}

/// What it is to ask for so many blocks by a plan with these numbers.
///
/// # Errors
///
/// `Plan` exactly where the numbers are those of no plan; else `Blocks` exactly where so many aren't asked for at once.
pub(crate) fn asking_for(numbers: &PlanNumbers, count: usize) -> Result<Asking, Refusal>
    ensures { Asks numbers.now count result }
{
    let Some(plan) = numbers.plan() else {
        return Err(Refusal::Plan);
    };
    if !may_ask(&plan, count) {
        return Err(Refusal::Blocks);
    }
    Ok(Asking {
        plan,
        scheme: Scheme::of(plan.scheme),
        count: count as u8,
    })
}

/// The version in which so many blocks are asked for.
#[tactic(auto, unfolding(query_rounds::specs::Plan::version_for))]
fn version_for(count: u8) -> Version
    ensures { result ≡ version_for count }
{
    if count == 1 {
        Version::Single
    } else {
        Version::Several
    }
}

impl Asking {
    /// The numbers of the session that has this number.
    pub(crate) fn params(&self, session: u64) -> SessionParams
        requires { IsAsking self.now }
        ensures is { result ≡ params_of self.now.plan self.now.count session }
        ensures range { IsInRange (params_of self.now.plan self.now.count session) }
    {
        let FetchPlan {
            scheme,
            t,
            tau,
            h,
            n,
            r,
            s,
        } = self.plan;
        SessionParams {
            version: version_for(self.count).number(),
            scheme,
            t: t + tau,
            h,
            n,
            count: self.count,
            session,
            r,
            s,
        }
    }

    /// How many coins the query takes for each block: `t` for each row or, in the XOR scheme, a bitmap for each server
    /// but the last.
    #[tactic(auto, unfolding(query_rounds::specs::Plan::query_coins))]
    pub(crate) fn block_coins(&self) -> usize
        requires { IsAsking self.now }
        ensures is { result ≡ query_coins (query_params self.now.plan 1 0) }
        ensures few { result ≤ MOST_CELLS }
    {
        let FetchPlan { t, n, r, .. } = self.plan;
        match self.scheme {
            Scheme::Shamir => r as usize * usize::from(t),
            Scheme::Xor => (usize::from(n) - 1) * self.scheme.payload_len(r),
        }
    }

    /// How many coins the query takes: those of the session's number, and those for each block.
    pub(crate) fn coins_len(&self) -> usize
        requires { IsAsking self.now }
        ensures is { result ≡ need self.now.plan self.now.count }
        ensures few { result < 2 ^ 40 }
    {
        NUMBER_LEN + usize::from(self.count) * self.block_coins()
    }

    /// How many bytes a query has.
    pub(crate) fn query_len(&self) -> usize
        requires { IsAsking self.now }
        ensures is { result ≡ query_bytes self.now.plan self.now.count }
        ensures few { result < 2 ^ 40 }
    {
        query_len(self.scheme, self.count, self.plan.r)
    }

    /// How many bytes a whole answer has.
    pub(crate) fn answer_len(&self) -> usize
        requires { IsAsking self.now }
        ensures is { result ≡ answer_bytes self.now.plan self.now.count }
        ensures few { result < 2 ^ 40 }
    {
        answer_len(self.count, self.plan.s)
    }
}

/// How many coins the queries for so many blocks take: eight for the session's number, and then for each block `t` for
/// each row or, in the XOR scheme, a bitmap for each server but the last. It takes no memory.
///
/// # Errors
///
/// `Plan` exactly where the numbers are those of no plan; else `Blocks` exactly where so many aren't asked for at once.
pub fn coins_size(numbers: &PlanNumbers, count: usize) -> Result<usize, Refusal>
    ensures sizes { Sizes need numbers.now count result }
    ensures few { IfOk result (λ n. n < 2 ^ 40) }
{
    let asking = asking_for(numbers, count)?;
    Ok(asking.coins_len())
}

/// How many bytes the frame has that each server is sent. It takes no memory.
///
/// # Errors
///
/// As [`coins_size`].
pub fn query_size(numbers: &PlanNumbers, count: usize) -> Result<usize, Refusal>
    ensures sizes { Sizes query_bytes numbers.now count result }
    ensures few { IfOk result (λ n. n < 2 ^ 40) }
{
    let asking = asking_for(numbers, count)?;
    Ok(asking.query_len())
}

/// How many bytes a whole answer has, the header among them. It takes no memory.
///
/// # Errors
///
/// As [`coins_size`].
pub fn answer_size(numbers: &PlanNumbers, count: usize) -> Result<usize, Refusal>
    ensures sizes { Sizes answer_bytes numbers.now count result }
    ensures few { IfOk result (λ n. n < 2 ^ 40) }
{
    let asking = asking_for(numbers, count)?;
    Ok(asking.answer_len())
}
