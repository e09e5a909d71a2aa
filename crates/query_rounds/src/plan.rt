//! What is to be fetched, and why it is not.

ghost use Rattle.std.specs.Prelude.{◌≡◌, ◌≤◌};
ghost use Rattle.quantity_limits.specs.declared.TheConstants.{MOST_CELLS};
ghost use Rattle.wire_frames.specs.Scheme.{scheme_of};
ghost use Rattle.query_rounds.specs.Plan.{IsPlan, need, params_of, query_coins, query_params, version_for};

use crate::coins::NUMBER_LEN;
use std::alloc::AllocError;
use thiserror::Error;
use wire_frames::{Scheme, SessionParams, Version};

/// What is to be fetched, and how.
#[derive(Clone, Copy, Debug, PartialEq, Eq)]
pub struct FetchPlan {
    /// 1 for Shamir's sharing (Goldberg 2007), 2 for the XOR scheme (Chor, Goldreich, Kushilevitz and Sudan 1995).
    pub scheme: u8,
    /// So many servers together learn nothing of the block. In Shamir's sharing this is the degree of the queries'
    /// polynomials; in the XOR scheme it is `n - 1`.
    pub t: u8,
    /// So many servers together can't read the database: the degree in which it is shared among them, and 0 where each
    /// server holds the whole of it, as in the XOR scheme. The degree of the session is `t + tau`.
    pub tau: u8,
    /// How many answers have to agree: in the XOR scheme all `n`.
    pub h: u8,
    /// The number of servers.
    pub n: u8,
    /// The number of rows of the database.
    pub r: u32,
    /// The width of a row, in bytes.
    pub s: u32,
}

/// The version in which so many blocks are asked for.
#[tactic(auto, unfolding(crate::specs::Plan::version_for))]
fn version_for(count: u8) -> Version
    ensures { result ≡ version_for count }
{
    if count == 1 {
        Version::Single
    } else {
        Version::Several
    }
}

impl FetchPlan {
    /// The numbers of the session in which so many blocks are fetched, but for the session's number, which is 0.
    pub(crate) fn params(&self, count: u8) -> SessionParams
        requires { IsPlan self.now }
        ensures { result ≡ params_of self.now count 0 }
    {
        SessionParams {
            version: version_for(count).number(),
            scheme: self.scheme,
            t: self.t + self.tau,
            h: self.h,
            n: self.n,
            count,
            session: 0,
            r: self.r,
            s: self.s,
        }
    }

    /// The scheme that it is fetched in.
    pub(crate) fn scheme(&self) -> Scheme
        requires { IsPlan self.now }
        ensures { result ≡ scheme_of self.now.scheme }
    {
        Scheme::of(self.scheme)
    }

    /// How many coins the queries take for each block, in the plan's scheme: `t` for each row or, in the XOR scheme, a
    /// bitmap for each server but the last.
    #[tactic(auto, unfolding(crate::specs::Plan::query_coins))]
    pub(crate) fn query_coins(&self, scheme: Scheme) -> usize
        requires plan { IsPlan self.now }
        requires scheme { scheme ≡ scheme_of self.now.scheme }
        ensures is { result ≡ query_coins (query_params self.now 1 0) }
        ensures few { result ≤ MOST_CELLS }
    {
        match scheme {
            Scheme::Shamir => self.r as usize * usize::from(self.t),
            Scheme::Xor => (usize::from(self.n) - 1) * scheme.payload_len(self.r),
        }
    }

    /// How many coins it needs for so many blocks, in its scheme: those of the session's number, and those of the queries.
    pub(crate) fn coins_len(&self, scheme: Scheme, count: u8) -> usize
        requires plan { IsPlan self.now }
        requires scheme { scheme ≡ scheme_of self.now.scheme }
        ensures { result ≡ need self.now count }
    {
        NUMBER_LEN + usize::from(count) * self.query_coins(scheme)
    }
}

/// Why nothing is fetched.
#[derive(Clone, Copy, Debug, PartialEq, Eq, Error)]
pub enum FetchFault {
    /// A call on the coins failed. No server was asked.
    #[error("a call on the coins failed")]
    CoinsFault,
    /// There are only `taken` coins, fewer than are needed. No server was asked.
    #[error("the coins ended after {taken} bytes")]
    CoinsEnded { taken: u64 },
    /// Want of memory: either nothing was touched, or every server was asked, and the answers couldn't be judged.
    #[error("no memory")]
    Memory,
}

impl From<AllocError> for FetchFault {
    ghost use Rattle.std.specs.Prelude.{◌≡◌};
    ghost use Rattle.query_rounds.specs.declared.plan.FetchFault.TheVariants.{Memory};

    ghost from_gives = { λ _ fault. fault ≡ Memory };

    fn from(_fault: AllocError) -> FetchFault {
        FetchFault::Memory
    }
}
