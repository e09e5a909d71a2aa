//! The listed blocks, written where the caller has room for them.

ghost use Rattle.std.specs.Prelude.{◌≡◌, length, flat_map, IfSome};
ghost use Rattle.client_calls.specs.Listing.{WritesListing};

use crate::refusal::Refusal;
use block_decoder::Listing;

/// How many bytes the blocks have together: nothing where no number of the machine says it.
fn joined_len(blocks: &[Vec<u8>]) -> Option<usize>
    ensures { IfSome result (λ n. n ≡ length (flat_map (λ b. b.items) blocks.now)) }
{
    let mut size: usize = 0;
    for block in blocks {
        let bytes: &[u8] = block;
        if usize::MAX - size < bytes.len() {
            return None;
        }
        size += bytes.len();
    }
    Some(size)
}

/// Writes the blocks, one behind another.
fn write_joined(blocks: &[Vec<u8>], out: &mut [u8])
    requires { length out.old ≡ length (flat_map (λ b. b.items) blocks.now) }
    ensures { out.new ≡ flat_map (λ b. b.items) blocks.now }
{
    let mut start = 0;
    for block in blocks {
        let bytes: &[u8] = block;
        let end = start + bytes.len();
        out[start..end].copy_from_slice(bytes);
        start = end;
    }
}

/// Writes the blocks of a listing one behind another, ascending, at the front of `out`, and gives how many bytes they
/// have.
///
/// # Errors
///
/// `Room` exactly where `out` is shorter, with that number, and then `out` is as it was; `Memory` where the blocks have
/// more bytes together than a number of the machine says, which none that stand in its memory have.
pub fn write_listing(listing: &Listing, out: &mut [u8]) -> Result<usize, Refusal>
    ensures { WritesListing listing.now out.old out.new result }
{
    let blocks = listing.blocks();
    let Some(wanted) = joined_len(blocks) else {
        return Err(Refusal::Memory);
    };
    if out.len() < wanted {
        return Err(Refusal::Room { wanted });
    }
    write_joined(blocks, &mut out[..wanted]);
    Ok(wanted)
}
