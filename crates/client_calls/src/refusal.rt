//! Why a call is refused.

use std::alloc::AllocError;
use thiserror::Error;

/// What only the caller can get wrong, and want of memory.
#[derive(Clone, Copy, Debug, PartialEq, Eq, Error)]
pub enum Refusal {
    /// The numbers are those of no plan.
    #[error("the numbers are those of no plan")]
    Plan,
    /// So many blocks aren't asked for at once, or one of them isn't a row of the database.
    #[error("no block, too many, or one that isn't a row")]
    Blocks,
    /// The index is that of no server of the plan.
    #[error("the index is that of no server")]
    Index,
    /// There are fewer coins than the query takes.
    #[error("too few coins")]
    Coins,
    /// There isn't a length and a mark for each server, or the lengths don't add up to the bytes of all answers.
    #[error("the answers aren't those of so many servers")]
    Answers,
    /// There is less room than for the `wanted` bytes that are to be written.
    #[error("room for {wanted} bytes is wanted")]
    Room { wanted: usize },
    /// Want of memory.
    #[error("no memory")]
    Memory,
}

impl From<AllocError> for Refusal {
    ghost use Rattle.std.specs.Prelude.{◌≡◌};
    ghost use Rattle.client_calls.specs.declared.refusal.Refusal.TheVariants.{Memory};

    ghost from_gives = { λ _ refusal. refusal ≡ Memory };

    fn from(_fault: AllocError) -> Refusal {
        Refusal::Memory
    }
}
