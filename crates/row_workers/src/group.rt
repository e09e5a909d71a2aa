//! The sums over a run of rows for a group of queries, with one pass over the rows.

ghost use Rattle.std.specs.Prelude.{◌≡◌, ℕ, List, ◌+◌, ◌*◌, ◌<◌, ◌≤◌, length, slice_index};
ghost use Rattle.std.specs.Int.{div_ceil};
ghost use Rattle.block_matrix.specs.Database.{Database};
ghost use Rattle.row_workers.specs.RowSums.{AreSums, AddsSums};
ghost use Rattle.row_workers.specs.Group.{
  block_gives,
  group_gives,
  group_places,
  query_gives,
  AddsFour,
  AddsQuarters,
};
ghost use Rattle.row_workers.specs.declared.group.TheConstants.{MOST_SUMS};

use crate::blocks::lay_out;
use crate::streams::share_of;
use block_matrix::Matrix;

/// The most bytes of sums of a group in blocks: 65536, and a block of 32 more for each of 16 queries.
pub const MOST_SUMS: usize = 66048;

/// So many queries, one after the other, and the matrix that they are for.
#[derive(Clone, Copy, Drop)]
pub struct Group<'a> {
    pub matrix: &'a Matrix,
    pub queries: &'a [u8],
    pub count: usize,
}

/// How rows are added to the sums of a group whose queries are of one kind, in blocks of N columns.
pub trait GroupSums<const N: usize> {
    /// How many bytes a query has for so many rows.
    ghost query_size: { ℕ → ℕ };

    /// What row j gives to place p of the sums, which has the columns of the first query, then those
    /// of the second, and so on: the place comes first.
    ghost gives: { List ℕ → Database → ℕ → ℕ → ℕ };

    /// Adds row `j` and the three that follow each so many rows after the one before to sums in
    /// blocks. `room` is for what has to be known of the queries for these rows.
    fn add_four(&self, group: Group, j: u32, apart: u32, room: &mut [u8], blocks: &mut [u8])
        requires lanes { (1 ≤ N) × (N ≤ 32) }
        requires some { 1 ≤ group.count }
        requires few { group.count ≤ 16 }
        requires wide { N ≤ group.matrix.now.width }
        requires within { j + 3 * apart < length group.matrix.now.rows }
        requires queries { length group.queries.now ≡ group.count * query_size (length group.matrix.now.rows) }
        requires room { length room.old ≡ 2048 }
        requires blocks { length blocks.old ≡ N * (div_ceil group.matrix.now.width N * group.count) }
        ensures { AddsFour (block_gives N gives group.entry) j apart blocks.old blocks.new };

    /// Adds the rows from `from` up to `to`, which are few, to the sums of query `v`.
    fn add_few(&self, group: Group, v: usize, from: u32, to: u32, sums: &mut [u8])
        requires few { group.count ≤ 16 }
        requires query { v < group.count }
        requires order { from ≤ to }
        requires within { to ≤ length group.matrix.now.rows }
        requires queries { length group.queries.now ≡ group.count * query_size (length group.matrix.now.rows) }
        requires room { length sums.old ≡ group.matrix.now.width }
        ensures { AddsSums (query_gives gives group.entry v) group.entry.matrix.now.width
            from to sums.old sums.new };
}

/// Makes `sums` the sums over the rows from `from` up to `to` for each query of the group, those of
/// the first query first. The sums are made in blocks on the stack, four rows at once, and then put
/// where they belong; the rows left over are added after that.
///
/// It is never inlined: else each worker's stack would have room for these sums, also where one query
/// is asked.
#[inline(never)]
pub fn sum_group<S: GroupSums<N>, const N: usize>(
    kind: &S,
    group: Group,
    from: u32,
    to: u32,
    sums: &mut [u8],
)
    requires lanes { (1 ≤ N) × (N ≤ 32) }
    requires some { 1 ≤ group.count }
    requires few { group.count ≤ 16 }
    requires wide { N ≤ group.matrix.now.width }
    requires fits { N * (div_ceil group.matrix.now.width N * group.count) ≤ MOST_SUMS }
    requires order { from ≤ to }
    requires within { to ≤ length group.matrix.now.rows }
    requires queries { length group.queries.now ≡ group.count * S.query_size (length group.matrix.now.rows) }
    requires room { length sums.old ≡ group.count * group.matrix.now.width }
    ensures { AreSums (group_gives S.gives group.entry) (group_places group.entry) from to sums.new }
{
    let mut stack = [0; MOST_SUMS];
    let size = N * ((group.matrix.width() as usize).div_ceil(N) * group.count);
    sum_in_blocks::<S, N>(kind, group, from, to, &mut stack[..size], sums);
}

/// The same with room for the sums in blocks, which begin as zeros.
fn sum_in_blocks<S: GroupSums<N>, const N: usize>(
    kind: &S,
    group: Group,
    from: u32,
    to: u32,
    blocks: &mut [u8],
    sums: &mut [u8],
)
    requires lanes { (1 ≤ N) × (N ≤ 32) }
    requires some { 1 ≤ group.count }
    requires few { group.count ≤ 16 }
    requires wide { N ≤ group.matrix.now.width }
    requires order { from ≤ to }
    requires within { to ≤ length group.matrix.now.rows }
    requires queries { length group.queries.now ≡ group.count * S.query_size (length group.matrix.now.rows) }
    requires blocks { length blocks.old ≡ N * (div_ceil group.matrix.now.width N * group.count) }
    requires zeros { (p : ℕ) → slice_index blocks.old p ≡ 0 }
    requires room { length sums.old ≡ group.count * group.matrix.now.width }
    ensures { AreSums (group_gives S.gives group.entry) (group_places group.entry) from to sums.new }
{
    let quarter = share_of(to - from, group.matrix.width(), 4);
    add_quarters::<S, N>(kind, group, from, quarter, blocks);
    lay_out::<N>(blocks, group.matrix.width() as usize, group.count, sums);
    add_rest::<S, N>(kind, group, from + 4 * quarter, to, sums);
}

/// Adds the rows from `from` on, four times `quarter` of them, to sums in blocks: one from each
/// quarter at once, so that the memory is read in four streams.
fn add_quarters<S: GroupSums<N>, const N: usize>(
    kind: &S,
    group: Group,
    from: u32,
    quarter: u32,
    sums: &mut [u8],
)
    requires lanes { (1 ≤ N) × (N ≤ 32) }
    requires some { 1 ≤ group.count }
    requires few { group.count ≤ 16 }
    requires wide { N ≤ group.matrix.now.width }
    requires within { from + 4 * quarter ≤ length group.matrix.now.rows }
    requires queries { length group.queries.now ≡ group.count * S.query_size (length group.matrix.now.rows) }
    requires room { length sums.old ≡ N * (div_ceil group.matrix.now.width N * group.count) }
    ensures { AddsQuarters (block_gives N S.gives group.entry) from quarter sums.old sums.new }
{
    // Its contract bounds the number of rows.
    let _rows = group.matrix.rows();
    let mut room = [0; 2048];
    for i in 0..quarter {
        kind.add_four(group, from + i, quarter, &mut room, sums);
    }
}

/// Adds the rows from `from` up to `to`, which are few, for each query.
fn add_rest<S: GroupSums<N>, const N: usize>(
    kind: &S,
    group: Group,
    from: u32,
    to: u32,
    sums: &mut [u8],
)
    requires few { group.count ≤ 16 }
    requires order { from ≤ to }
    requires within { to ≤ length group.matrix.now.rows }
    requires queries { length group.queries.now ≡ group.count * S.query_size (length group.matrix.now.rows) }
    requires room { length sums.old ≡ group.count * group.matrix.now.width }
    ensures { AddsSums (group_gives S.gives group.entry) (group_places group.entry) from to
        sums.old sums.new }
{
    let width = group.matrix.width() as usize;
    for v in 0..group.count {
        let own = &mut sums[v * width..(v + 1) * width];
        kind.add_few(group, v, from, to, own);
    }
}
