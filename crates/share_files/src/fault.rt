//! Why a database isn't split.

use std::alloc::AllocError;
use thiserror::Error;

/// Why a database isn't split.
#[derive(Clone, Copy, Debug, PartialEq, Eq, Error)]
pub enum SplitFault {
    /// A call on Coins failed. No share's file was opened.
    #[error("a call on the coins failed")]
    CoinsFault,
    /// There are only `taken` coins, fewer than are needed. No share's file was opened.
    #[error("the coins ended after {taken} bytes")]
    CoinsEnded { taken: u64 },
    /// A call on the file of a share failed. Those before it are whole, and those behind it are left alone.
    #[error("a call on the file of a share failed")]
    ShareFault,
    /// Want of memory; nothing was touched.
    #[error("no memory")]
    Memory,
}

impl From<AllocError> for SplitFault {
    ghost use Rattle.std.specs.Prelude.{◌≡◌};
    ghost use Rattle.share_files.specs.declared.fault.SplitFault.TheVariants.{Memory};

    ghost from_gives = { λ _ fault. fault ≡ Memory };

    fn from(_fault: AllocError) -> SplitFault {
        SplitFault::Memory
    }
}
