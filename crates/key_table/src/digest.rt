//! The digest of a key, and its row.

ghost use Rattle.std.specs.Prelude.{◌≡◌, ◌≤◌, ◌<◌, ◌*◌, ◌/◌, ◌^◌, length};
ghost use Rattle.key_table.specs.Digest.{digest_of, number_of, row_of};

use crate::{LEAST_DIGEST, MOST_DIGEST};
use sha2::{Digest, Sha256};

/// Writes the digest of a key: as many of the first bytes of the SHA-256 of the salt and the key as there is room for.
pub fn write_digest(salt: &[u8; 16], key: &[u8], out: &mut [u8])
    requires { length out.old ≤ MOST_DIGEST }
    ensures { out.new ≡ digest_of salt.now (length out.old) key.now }
{
    let mut hasher = Sha256::new();
    hasher.update(salt.as_slice());
    hasher.update(key);
    let whole = hasher.finalize();
    out.copy_from_slice(&whole[..out.len()]);
}

/// The number that the first eight bytes spell, highest first.
pub(crate) fn number_of(digest: &[u8]) -> u64
    requires { LEAST_DIGEST ≤ length digest.now }
    ensures { result ≡ number_of digest.now }
{
    u64::from_be_bytes([
        digest[0], digest[1], digest[2], digest[3], digest[4], digest[5], digest[6], digest[7],
    ])
}

/// The row of a digest with this number among so many rows.
pub(crate) fn row_of_number(rows: u32, number: u64) -> u32
    ensures row { result ≡ number * rows / 2 ^ 64 }
    ensures within { 1 ≤ rows → result < rows }
{
    (u128::from(number) * u128::from(rows) / (1 << 64)) as u32
}

/// The row of a digest among so many rows.
pub fn row_of(rows: u32, digest: &[u8]) -> u32
    requires size { LEAST_DIGEST ≤ length digest.now }
    ensures row { result ≡ row_of rows digest.now }
    ensures within { 1 ≤ rows → result < rows }
{
    row_of_number(rows, number_of(digest))
}
