//! Laws that join the client and the server, each as a call whose contract is the law. A call changes nothing.

ghost use Rattle.std.specs.Prelude.{◌≡◌, ◌≢◌, ◌<◌, ◌≤◌, ℕ, List, length, All};
ghost use Rattle.wire_frames.specs.declared.scheme.TheConstants.{SHAMIR, XOR};
ghost use Rattle.query_rounds.specs.Plan.{AreBlocks, IsPlan, need};
ghost use Rattle.commands.specs.HonestReply.{RepliesHonestly};
ghost use Rattle.pir_tool.specs.Privacy.{IsSentTheSame, LookUpLooksTheSame, OthersAreSentTheSame};
ghost use Rattle.pir_tool.specs.Privacy.{PartnerIsBijection, PartnerXorIsBijection};
ghost use Rattle.pir_tool.specs.SearchPrivacy.{SearchLooksTheSame};

use query_rounds::FetchPlan;

/// What a server that holds a database of the plan's shape replies to the frame that a fetch sends it, is the frame of
/// an honest server: the header of status 0, and the product of its query and the rows (Goldberg 2007), or in the XOR
/// scheme the XOR of the rows in its bitmap (Chor, Goldreich, Kushilevitz and Sudan 1995). It replies nothing else. So
/// what `run` promises of honest frames, it promises of the replies of such servers.
pub fn reply_is_the_honest_frame(plan: &FetchPlan, blocks: &[u32], coins: &[u8], index: u8)
    requires plan { IsPlan plan.now }
    requires blocks { AreBlocks plan.now blocks.now }
    requires coins { length coins.now ≡ need plan.now (length blocks.now) }
    requires index { 1 ≤ index }
    ensures { (matrix : List (List ℕ)) (workers : ℕ) → RepliesHonestly plan.now blocks.now coins.now index matrix workers }
{}

/// In Shamir's sharing, what up to `t` servers together are sent for some blocks, they are sent for as many others from
/// other coins, byte for byte, the session's number included; and a bijection of all coins takes the one to the other.
/// So as many coins lead to what they see for some blocks as for others: where the coins are uniform, secret and used
/// once, what they see doesn't tell the blocks (Goldberg 2007; Shamir 1979). `coalition` has the indices of these
/// servers.
pub fn coalition_is_sent_the_same(
    plan: &FetchPlan,
    coalition: &[u8],
    blocks: &[u32],
    others: &[u32],
)
    requires as_many { length others.now ≡ length blocks.now }
    requires scheme { plan.now.scheme ≡ SHAMIR }
    requires bound { length coalition.now ≤ plan.now.t }
    requires nonzero { All (λ a. a ≢ 0) coalition.now }
    ensures bijection { PartnerIsBijection plan.now coalition.now blocks.now others.now }
    ensures same { IsSentTheSame plan.now coalition.now blocks.now others.now }
{}

/// In Shamir's sharing, what up to `t` servers together are sent in all fetches of a look-up for some rows, they are sent
/// for as many others from other coins, byte for byte: the coins of each fetch are those of
/// [`coalition_is_sent_the_same`], which a bijection gives. How many fetches there are depends on the number of rows
/// alone, so where the coins are uniform, secret and used once, what they see doesn't tell the key, nor what was found
/// (Goldberg 2007).
pub fn coalition_is_sent_the_same_in_each_fetch(plan: &FetchPlan, coalition: &[u8], others: &[u32])
    requires scheme { plan.now.scheme ≡ SHAMIR }
    requires bound { length coalition.now ≤ plan.now.t }
    requires nonzero { All (λ a. a ≢ 0) coalition.now }
    ensures { LookUpLooksTheSame plan.now coalition.now others.now }
{}

/// In Shamir's sharing, what up to `t` servers together are sent in all queries of a search for keys of a list, they are
/// sent in a search for as many other keys, of the same or another list, from other coins, byte for byte: in each query as
/// many rows are asked for, and its coins are those of [`coalition_is_sent_the_same`], which a bijection gives. So where
/// the coins are uniform, secret and used once, what they see tells how many keys are looked for, and no more of them
/// (Goldberg 2007; Chor, Gilboa and Naor 1998).
pub fn coalition_is_sent_the_same_in_a_search(plan: &FetchPlan, coalition: &[u8])
    requires scheme { plan.now.scheme ≡ SHAMIR }
    requires bound { length coalition.now ≤ plan.now.t }
    requires nonzero { All (λ a. a ≢ 0) coalition.now }
    ensures { SearchLooksTheSame plan.now coalition.now }
{}

/// In the XOR scheme the same as [`coalition_is_sent_the_same`] holds of all servers but one, whichever that is: what they
/// together are sent for some blocks, they are sent for as many others from other coins, byte for byte, the session's
/// number included; and a bijection of all coins takes the one to the other (Chor, Goldreich, Kushilevitz and Sudan 1995).
/// `left_out` is the index of the one.
pub fn all_but_one_are_sent_the_same(plan: &FetchPlan, left_out: u8, blocks: &[u32], others: &[u32])
    requires as_many { length others.now ≡ length blocks.now }
    requires scheme { plan.now.scheme ≡ XOR }
    requires first { 1 ≤ left_out }
    requires last { left_out ≤ plan.now.n }
    requires blocks { All (λ b. b < plan.now.r) blocks.now }
    requires other_blocks { All (λ b. b < plan.now.r) others.now }
    ensures bijection { PartnerXorIsBijection plan.now left_out blocks.now others.now }
    ensures same { OthersAreSentTheSame plan.now left_out blocks.now others.now }
{}
