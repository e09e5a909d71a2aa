//! The blocks that are asked for.

ghost use Rattle.std.specs.Prelude.{IsTrue, ◌↔◌, ◌<◌, All};

/// Whether each of the blocks is below so many rows.
pub(crate) fn are_below(blocks: &[u32], rows: u32) -> bool
    ensures { IsTrue result ↔ All (λ b. b < rows) blocks.now }
{
    blocks.iter().all(|&block| block < rows)
}
