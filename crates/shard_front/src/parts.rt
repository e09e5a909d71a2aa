//! What each shard is asked of a query.
ghost use Rattle.std.specs.Prelude.{◌≡◌, ◌*◌, ◌<◌, ◌≤◌, length};
ghost use Rattle.quantity_limits.specs.declared.TheConstants.{MOST_BLOCKS};
ghost use Rattle.shard_front.specs.Spread.{rows_in, shards};
ghost use Rattle.shard_front.specs.Parts.{slice_for, slices_for};

use crate::spread::Spread;

/// Writes the slice of a vector for a shard.
fn write_slice(spread: Spread, place: u8, vector: &[u8], out: &mut [u8])
    requires there { place < shards spread }
    requires vector { length vector.now ≡ spread.rows }
    requires room { length out.old ≡ rows_in spread place }
    ensures { out.new ≡ slice_for spread place vector.now }
{
    let from = spread.first_row(place) as usize;
    let size = spread.rows_in(place) as usize;
    out.copy_from_slice(&vector[from..from + size]);
}

/// Writes the slices of the vectors of a payload for a shard.
pub(crate) fn write_slices(spread: Spread, place: u8, count: u8, vectors: &[u8], out: &mut [u8])
    requires there { place < shards spread }
    requires few { count ≤ MOST_BLOCKS }
    requires vectors { length vectors.now ≡ count * spread.rows }
    requires room { length out.old ≡ count * rows_in spread place }
    ensures { out.new ≡ slices_for spread place count vectors.now }
{
    let rows = spread.rows() as usize;
    let size = spread.rows_in(place) as usize;
    for v in 0..usize::from(count) {
        let vector = &vectors[v * rows..(v + 1) * rows];
        let slice = &mut out[v * size..(v + 1) * size];
        write_slice(spread, place, vector, slice);
    }
}
