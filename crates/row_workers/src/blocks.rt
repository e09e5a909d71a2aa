//! Sums for several queries in blocks: those of N columns for the first query, then those of the
//! same columns for the second, and so on, and then the next N columns. So the bytes of N columns of
//! a row serve all queries at once.

ghost use Rattle.std.specs.Prelude.{◌≡◌, ◌*◌, ◌<◌, ◌≤◌, length};
ghost use Rattle.std.specs.Int.{div_ceil};
ghost use Rattle.quantity_limits.specs.declared.TheConstants.{MOST_WIDTH};
ghost use Rattle.row_workers.specs.Blocks.{block_start, AreLaidOut, AreOfQuery};

/// The first of the N columns of block `i`: the last block ends where the row ends.
#[inline(always)]
pub fn start_of<const N: usize>(width: usize, i: usize) -> usize
    requires wide { N ≤ width }
    requires memory { N * i < MOST_WIDTH }
    ensures { result ≡ block_start N width i }
{
    (N * i).min(width - N)
}

/// Puts sums in blocks where they belong: the columns of the first query first.
pub fn lay_out<const N: usize>(blocks: &[u8], width: usize, count: usize, sums: &mut [u8])
    requires some { 1 ≤ N }
    requires few { count ≤ 16 }
    requires wide { N ≤ width }
    requires memory { width ≤ MOST_WIDTH }
    requires blocks { length blocks.now ≡ N * (div_ceil width N * count) }
    requires room { length sums.old ≡ count * width }
    ensures { AreLaidOut N blocks.now width count sums.new }
{
    for v in 0..count {
        lay_out_one::<N>(
            blocks,
            width,
            count,
            v,
            &mut sums[v * width..(v + 1) * width],
        );
    }
}

/// The sums of query `v`.
fn lay_out_one<const N: usize>(blocks: &[u8], width: usize, count: usize, v: usize, sums: &mut [u8])
    requires some { 1 ≤ N }
    requires few { count ≤ 16 }
    requires query { v < count }
    requires wide { N ≤ width }
    requires memory { width ≤ MOST_WIDTH }
    requires blocks { length blocks.now ≡ N * (div_ceil width N * count) }
    requires room { length sums.old ≡ width }
    ensures { AreOfQuery N blocks.now width count v sums.new }
{
    for c in 0..width {
        let i = c / N;
        sums[c] = blocks[N * (i * count + v) + (c - start_of::<N>(width, i))];
    }
}
