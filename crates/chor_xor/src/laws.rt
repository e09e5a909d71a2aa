//! The law of the scheme, as a call whose contract is the law. A call changes nothing.

ghost use Rattle.std.specs.Prelude.{◌<◌, ◌≤◌};
ghost use Rattle.gf256.specs.Product.{IsMatrix};
ghost use Rattle.block_matrix.specs.Database.{Database};
ghost use Rattle.chor_xor.specs.Chosen.{SumToBlock, CombineToBlock};

/// The answers of `n` servers that hold one matrix of `r` rows, each to its own bitmap for the row
/// `block`, have that row as their sum, whatever the coins (Chor, Goldreich, Kushilevitz and Sudan
/// 1995): in each column, and as lists.
pub fn answers_sum_to_the_block(coins: &[u8], n: u32, r: u32, block: u32)
    requires servers { 2 ≤ n }
    requires block { block < r }
    ensures columns { (m : Database) → IsMatrix m.rows r m.width
        → SumToBlock m coins.now n r block }
    ensures list { (m : Database) → IsMatrix m.rows r m.width → CombineToBlock m coins.now n block }
{}
