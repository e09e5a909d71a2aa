//! The numbers of a verdict.

ghost use Rattle.std.specs.Prelude.{◌≡◌, length};
ghost use Rattle.client_calls.specs.Listing.{joined};
ghost use Rattle.libpir.specs.Numbers.{first_size, listed_numbers, no_numbers};

use block_decoder::Listing;

/// What is told of a verdict, beside the blocks that it lists; what it doesn't speak of is 0.
#[repr(C)]
#[derive(Clone, Copy, Debug, PartialEq, Eq)]
pub struct VerdictNumbers {
    /// How many blocks are listed.
    pub blocks: u64,
    /// How many bytes the first of them has, and so each.
    pub block_size: u64,
    /// How many bytes they have together.
    pub needed: u64,
    /// How many answers are usable, where they are too few, or agree too weakly.
    pub answers: u64,
    /// The degree of the answers, where they agree too weakly.
    pub degree: u64,
    /// How many have to agree, where they are too few, or agree too weakly.
    pub agreement: u64,
    /// What the list decoding would cost, where that is too much.
    pub cost: u64,
}

/// All are 0.
pub(crate) fn no_numbers() -> VerdictNumbers
    ensures { result ≡ no_numbers }
{
    VerdictNumbers {
        blocks: 0,
        block_size: 0,
        needed: 0,
        answers: 0,
        degree: 0,
        agreement: 0,
        cost: 0,
    }
}

/// How many bytes the first block has: 0 where there is none.
fn first_size(listing: &Listing) -> usize
    ensures { result ≡ first_size listing.now }
{
    match listing.get(0) {
        Some(block) => block.len(),
        None => 0,
    }
}

/// Those of a listing whose blocks have so many bytes together.
pub(crate) fn listed_numbers(listing: &Listing, needed: usize) -> VerdictNumbers
    requires { needed ≡ length (joined listing.now) }
    ensures { result ≡ listed_numbers listing.now }
{
    VerdictNumbers {
        blocks: listing.len() as u64,
        block_size: first_size(listing) as u64,
        needed: needed as u64,
        ..no_numbers()
    }
}
