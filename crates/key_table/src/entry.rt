//! The bytes of an entry: a digest, and the value that stands with it.

ghost use Rattle.std.specs.Prelude.{◌≡◌, ◌≤◌, ◌==◌, ◌≢◌, ℕ, length, List, MatchOption, All, true, false};
ghost use Rattle.std.specs.List.{list_all};
ghost use Rattle.key_table.specs.Entry.{IsValue, entry_size, newline, value_bytes, value_size};

use crate::{LEAST_DIGEST, MOST_DIGEST, MOST_VALUE};

/// How many bytes an entry has, with a digest of `size` bytes and values of at most `most`.
pub fn entry_size(size: usize, most: usize) -> usize
    requires size { size ≤ MOST_DIGEST }
    requires most { most ≤ MOST_VALUE }
    ensures size { result ≡ entry_size size most }
{
    if most == 0 { size } else { size + 2 + most }
}

/// Whether each byte is zero.
pub(crate) fn are_zeros(bytes: &[u8]) -> bool
    ensures { result ≡ list_all (λ b. b == 0) bytes.now }
{
    for &b in bytes {
        if b != 0 {
            return false;
        }
    }
    true
}

/// Whether no byte ends a line.
fn has_no_newline(bytes: &[u8]) -> bool
    ensures yes { result ≡ true → All (λ b. b ≢ newline) bytes.now }
    ensures no { result ≡ false → All (λ b. b ≢ newline) bytes.now → ⊥ }
{
    for &b in bytes {
        if b == b'\n' {
            return false;
        }
    }
    true
}

/// The value that these bytes are, where they are those of one of at most `most` bytes.
pub(crate) fn value_in(bytes: &[u8], most: usize) -> Option<&[u8]>
    requires size { length bytes.now ≡ value_size most }
    requires most { most ≤ MOST_VALUE }
    ensures { MatchOption result
        ((value : List ℕ) → IsValue most value → value_bytes most value ≡ bytes.now → ⊥)
        (λ x. IsValue most x.now × (value_bytes most x.now ≡ bytes.now)) }
{
    if most == 0 {
        return Some(bytes);
    }
    let count = usize::from(u16::from_be_bytes([bytes[0], bytes[1]]));
    if count > most {
        return None;
    }
    let (_, behind) = bytes.split_at(2);
    let (value, rest) = behind.split_at(count);
    if !has_no_newline(value) {
        return None;
    }
    if are_zeros(rest) { Some(value) } else { None }
}
