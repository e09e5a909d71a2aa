//! Writing entries, in memory that is there.

ghost use Rattle.std.specs.Prelude.{◌≡◌, ◌≤◌, ◌-◌, ◌++◌, length, replicate};
ghost use Rattle.key_table.specs.Entry.{entry, entry_size, value_bytes, value_size};

use crate::MOST_VALUE;

/// Zeros in all places.
pub(crate) fn clear(out: &mut [u8])
    ensures { out.new ≡ replicate (length out.old) 0 }
{
    for b in out.iter_mut() {
        *b = 0;
    }
}

/// The bytes, and zeros behind them.
fn write_padded(bytes: &[u8], out: &mut [u8])
    requires { length bytes.now ≤ length out.old }
    ensures { out.new ≡ bytes.now ++ replicate (length out.old - length bytes.now) 0 }
{
    let (front, rest) = out.split_at_mut(bytes.len());
    front.copy_from_slice(bytes);
    clear(rest);
}

/// A value as bytes.
fn write_value(value: &[u8], most: usize, out: &mut [u8])
    requires most { most ≤ MOST_VALUE }
    requires value { length value.now ≤ most }
    requires room { length out.old ≡ value_size most }
    ensures { out.new ≡ value_bytes most value.now }
{
    if most > 0 {
        let (count, behind) = out.split_at_mut(2);
        count.copy_from_slice(&(value.len() as u16).to_be_bytes());
        write_padded(value, behind);
    }
}

/// Writes the entry of a digest and its value, in a list whose values have at most `most` bytes.
pub(crate) fn write_entry(digest: &[u8], value: &[u8], most: usize, out: &mut [u8])
    requires most { most ≤ MOST_VALUE }
    requires value { length value.now ≤ most }
    requires room { length out.old ≡ entry_size (length digest.now) most }
    ensures { out.new ≡ entry most (record { digest = digest.now; value = value.now }) }
{
    let (front, behind) = out.split_at_mut(digest.len());
    front.copy_from_slice(digest);
    write_value(value, most, behind);
}
