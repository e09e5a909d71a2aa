//! The sums over a run of rows for several queries.

ghost use Rattle.std.specs.Prelude.{◌≡◌, ◌+◌, ◌*◌, ◌<◌, ◌≤◌, length};
ghost use Rattle.std.specs.Int.{div_ceil};
ghost use Rattle.row_workers.specs.RowSums.{AreSums};
ghost use Rattle.server_product.specs.Queries.{entry_of};
ghost use Rattle.quantity_limits.specs.declared.TheConstants.{MOST_BLOCKS, MOST_WIDTH};
ghost use Rattle.server_product.specs.declared.group.TheConstants.{MOST_LANES};

use crate::group::{MOST_LANES, sum_group};
use crate::runs::sum_rows;
use block_matrix::Matrix;

/// Makes `sums` the sums over the rows from `from` up to `to` for each of so many queries, those of
/// the first query first. It goes over the rows once for each group of queries whose sums a near
/// cache holds.
pub fn sum_queries(matrix: &Matrix, queries: &[u8], count: u8, from: u32, to: u32, sums: &mut [u8])
    requires few { count ≤ MOST_BLOCKS }
    requires order { from ≤ to }
    requires within { to ≤ length matrix.now.rows }
    requires queries { length queries.now ≡ count * length matrix.now.rows }
    requires room { length sums.old ≡ count * matrix.now.width }
    ensures { AreSums (entry_of queries.now matrix.now) (count * matrix.now.width) from to sums.new }
{
    let rows = matrix.rows() as usize;
    let width = matrix.width() as usize;
    let group = group_of(matrix.width()) as usize;
    let count = count as usize;
    let mut done = 0;
    'groups: while done < count {
        let end = done + group.min(count - done);
        let some = &queries[done * rows..end * rows];
        let own = &mut sums[done * width..end * width];
        sum_some(matrix, some, end - done, from, to, own);
        done = end;
    }
}

/// How many queries go in a group where rows have so many bytes: where they have fewer than 16, one.
fn group_of(width: u32) -> u32
    requires some { 1 ≤ width }
    requires few { width ≤ MOST_WIDTH }
    ensures some { 1 ≤ result }
    ensures fits { result * div_ceil width 16 ≤ MOST_LANES }
    ensures wide { 1 < result → 16 ≤ width }
{
    if width < 16 {
        1
    } else {
        MOST_LANES / width.div_ceil(16)
    }
}

/// The sums for one group of queries.
fn sum_some(matrix: &Matrix, queries: &[u8], count: usize, from: u32, to: u32, sums: &mut [u8])
    requires some { 1 ≤ count }
    requires few { count ≤ MOST_BLOCKS }
    requires wide { 1 < count → 16 ≤ matrix.now.width }
    requires fits { count * div_ceil matrix.now.width 16 ≤ MOST_LANES }
    requires order { from ≤ to }
    requires within { to ≤ length matrix.now.rows }
    requires queries { length queries.now ≡ count * length matrix.now.rows }
    requires room { length sums.old ≡ count * matrix.now.width }
    ensures { AreSums (entry_of queries.now matrix.now) (count * matrix.now.width) from to sums.new }
{
    if count == 1 {
        sum_rows(matrix, queries, from, to, sums);
    } else {
        sum_group(matrix, queries, count, from, to, sums);
    }
}
