//! The tag of a list, by its entries as they ascend.

ghost use Rattle.std.specs.Prelude.{◌≡◌, ◌≤◌, replicate, take, length};
ghost use Rattle.key_table.specs.Entry.{entry, value_bytes};
ghost use Rattle.key_table.specs.KeyList.{Hashes, tag_of};
ghost use Rattle.key_table.specs.Looked.{pair};

use crate::MOST_VALUE;
use crate::entries::SortedEntries;
use sha2::{Digest, Sha256};

/// How many zeros are hashed at once.
const ZEROS: usize = 64;

/// Hashes so many zeros behind what was hashed.
fn hash_zeros(hasher: &mut Sha256, count: usize)
    ensures { Hashes (replicate count 0) hasher.old hasher.new }
{
    let zeros = [0u8; ZEROS];
    let mut left = count;
    'pieces: while left > ZEROS {
        hasher.update(zeros.as_slice());
        left -= ZEROS;
    }
    hasher.update(&zeros[..left]);
}

/// Hashes the bytes of a value.
fn hash_value(hasher: &mut Sha256, value: &[u8], most: usize)
    requires most { most ≤ MOST_VALUE }
    requires value { length value.now ≤ most }
    ensures { Hashes (value_bytes most value.now) hasher.old hasher.new }
{
    if most > 0 {
        let count = (value.len() as u16).to_be_bytes();
        hasher.update(count.as_slice());
        hasher.update(value);
        hash_zeros(hasher, most - value.len());
    }
}

/// Hashes an entry.
fn hash_entry(hasher: &mut Sha256, digest: &[u8], value: &[u8], most: usize)
    requires most { most ≤ MOST_VALUE }
    requires value { length value.now ≤ most }
    ensures { Hashes (entry most (pair digest.now value.now)) hasher.old hasher.new }
{
    hasher.update(digest);
    hash_value(hasher, value, most);
}

/// The first bytes of a hash.
fn first_eight(whole: [u8; 32]) -> [u8; 8]
    ensures { result ≡ take 8 whole }
{
    let mut first = [0u8; 8];
    first.copy_from_slice(&whole[..8]);
    first
}

impl SortedEntries {
    /// The tag of the list: the first bytes of the SHA-256 (FIPS 180-4) of the salt and all entries as they ascend. The
    /// entries are hashed one after the other, so it takes no memory.
    pub fn tag(&self, salt: &[u8; 16]) -> [u8; 8]
        ensures { result ≡ tag_of salt.now self.now.most self.now.pairs }
    {
        let mut hasher = Sha256::new();
        hasher.update(salt.as_slice());
        let entries = self.count();
        for entry in 0..entries {
            hash_entry(
                &mut hasher,
                self.digest(entry),
                self.value(entry),
                self.most(),
            );
        }
        first_eight(hasher.finalize())
    }
}
