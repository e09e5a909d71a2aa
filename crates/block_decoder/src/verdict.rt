//! What is said of the answers of a session.

use crate::Listing;

/// The verdict on the usable answers of a session.
#[derive(Drop)]
pub enum Verdict {
    /// The blocks on which enough answers agree; in the XOR scheme the sum of all answers.
    Listed(Listing),
    /// Only `k` answers are usable, fewer than the `h` that have to agree, which in the XOR scheme are all.
    TooFew { k: u32, h: u32 },
    /// With `k` answers and degree `t`, an agreement of `h` is too weak for Johnson's bound on the blocks: `h * h <= k * t`.
    TooWeak { k: u32, t: u32, h: u32 },
    /// The list decoding of a column takes `cost` equations (Guruswami and Sudan 1999), more than
    /// [`MOST_COST`](column_lists::MOST_COST).
    TooCostly { cost: u64 },
}
