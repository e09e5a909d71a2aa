//! The stream of bytes that a seed stands for.

ghost use Rattle.std.specs.Prelude.{◌≡◌, ◌+◌, ◌-◌, ◌^◌, ◌<◌, ◌≤◌, ◌++◌, length, take, replicate, IfOk};
ghost use Rattle.std.specs.Int.{bytes_high_first};
ghost use Rattle.drawn_workload.specs.Stream.{after_bytes, drawn, next_bytes};

use rand_chacha::ChaCha20Rng;
use rand_core::SeedableRng;
use rand_core::utils::fill_bytes_via_u32;
use std::alloc::{AllocError, Global};

// How many bytes are drawn at once: whole words, so that none is lost between two pieces.
const PIECE: usize = 1 << 16;

/// The seed of ChaCha20 that a number stands for: its 8 bytes, highest first, and 24 zeros.
fn key_bytes(seed: u64) -> [u8; 32]
    ensures { result ≡ bytes_high_first 8 seed ++ replicate 24 0 }
{
    let mut key = [0; 32];
    key[..8].copy_from_slice(&seed.to_be_bytes());
    key
}

/// Fills `out` with the next bytes of the stream. Where they are no whole words, the rest of the last word is lost.
fn draw_piece(rng: &mut ChaCha20Rng, out: &mut [u8])
    requires first_stream { rng.old.stream ≡ 0 }
    requires within { rng.old.word_pos + length out.old < 2 ^ 68 }
    ensures bytes { out.new ≡ next_bytes rng.old (length out.old) }
    ensures place { rng.new ≡ after_bytes rng.old (length out.old) }
{
    fill_bytes_via_u32(rng, out);
}

/// Fills what follows the first `start` bytes with the next bytes of the stream.
fn draw_rest(rng: &mut ChaCha20Rng, bytes: &mut [u8], start: usize)
    requires start { start ≤ length bytes.old }
    requires first_stream { rng.old.stream ≡ 0 }
    requires within { rng.old.word_pos + length bytes.old < 2 ^ 68 }
    ensures bytes { bytes.new ≡ take start bytes.old ++ next_bytes rng.old (length bytes.old - start) }
    ensures place { rng.new ≡ after_bytes rng.old (length bytes.old - start) }
{
    draw_piece(rng, &mut bytes[start..]);
}

/// The first `count` bytes of the stream of a seed: ChaCha20 (Bernstein 2008), whose key is the seed's 8 bytes, highest
/// first, and 24 zeros. Memory is taken once, for these bytes.
///
/// The stream of seed 0 begins `76 b8 e0 ad`, as in the first vector of RFC 8439, appendix A.1.
///
/// # Errors
///
/// `AllocError` where there is no memory for the bytes.
pub(crate) fn draw(alloc: Global, seed: u64, count: usize) -> Result<Vec<u8>, AllocError>
    ensures { IfOk result (λ bytes. bytes.items ≡ drawn seed 0 count) }
{
    let mut rng = ChaCha20Rng::from_seed(key_bytes(seed));
    let mut bytes = Vec::with_capacity(alloc, count)?;
    'pieces: while bytes.len() < count {
        let start = bytes.len();
        let more = PIECE.min(count - start);
        bytes.resize(start + more, 0)?;
        draw_rest(&mut rng, &mut bytes, start);
    }
    Ok(bytes)
}
