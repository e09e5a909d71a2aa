//! The sums over a run of rows for a group of queries: what four rows give to them, and what the few
//! give that are left over.

ghost use Rattle.std.specs.Prelude.{◌≡◌, ◌+◌, ◌*◌, ◌<◌, ◌≤◌, length};
ghost use Rattle.std.specs.Int.{div_ceil};
ghost use Rattle.row_workers.specs.RowSums.{AreSums};
ghost use Rattle.server_product.specs.Queries.{entry_of};
ghost use Rattle.server_product.specs.Blocks.{AreFactors};
ghost use Rattle.quantity_limits.specs.declared.TheConstants.{MOST_ROWS};
ghost use Rattle.server_product.specs.declared.group.TheConstants.{MOST_LANES};

use crate::four_rows::add_four_rows;
use crate::sixths::add_in_sixths;
use block_matrix::Matrix;
use gf256::tables::Tables;
use gf256::vectors::{LANES, LookUp, Vectors};
use row_workers::{Group, GroupSums, four_apart, takes_wide_lanes};

/// The most blocks of 16 sums of a group: 64 KB, which the second cache holds.
pub const MOST_LANES: u32 = 4096;

/// Makes `sums` the sums over the rows from `from` up to `to` for each of so many queries, those of
/// the first query first, with one pass over the rows for all.
///
/// It is never inlined: else each worker's stack would have room for the tables, also where one query
/// is asked.
#[inline(never)]
pub fn sum_group(matrix: &Matrix, queries: &[u8], count: usize, from: u32, to: u32, sums: &mut [u8])
    requires some { 1 ≤ count }
    requires few { count ≤ 16 }
    requires wide { 16 ≤ matrix.now.width }
    requires fits { count * div_ceil matrix.now.width 16 ≤ MOST_LANES }
    requires order { from ≤ to }
    requires within { to ≤ length matrix.now.rows }
    requires queries { length queries.now ≡ count * length matrix.now.rows }
    requires room { length sums.old ≡ count * matrix.now.width }
    ensures { AreSums (entry_of queries.now matrix.now) (count * matrix.now.width) from to sums.new }
{
    let multiples = Multiples {
        tables: Tables::new(),
    };
    let group = Group {
        matrix,
        queries,
        count,
    };
    if takes_wide_lanes(matrix.width() as usize) {
        row_workers::sum_group::<Multiples, LANES>(&multiples, group, from, to, sums);
    } else {
        row_workers::sum_group::<Multiples, 16>(&multiples, group, from, to, sums);
    }
}

/// What rows give to the sums of a group: their multiples by the bytes of its queries.
#[derive(Drop)]
struct Multiples {
    tables: Tables,
}

impl<const N: usize> GroupSums<N> for Multiples
where
    Vectors: LookUp<N>,
{
    ghost query_size = { λ rows. rows };

    ghost gives = { entry_of };

    fn add_four(&self, group: Group, j: u32, apart: u32, _room: &mut [u8], blocks: &mut [u8]) {
        let Group {
            matrix,
            queries,
            count,
        } = group;
        let rows = matrix.rows() as usize;
        // Its contract bounds the width.
        let _width = matrix.width();
        let factors = factors_of(queries, rows, count, j as usize, apart as usize);
        let four = four_apart(matrix, j, apart);
        add_four_rows::<N>(blocks, four, &factors, count, &self.tables);
    }

    fn add_few(&self, group: Group, v: usize, from: u32, to: u32, sums: &mut [u8]) {
        let rows = group.matrix.rows() as usize;
        let query = &group.queries[v * rows..(v + 1) * rows];
        add_in_sixths(group.matrix, query, from, to, sums);
    }
}

/// For each of so many queries its bytes for row `j` and for the three that follow each so many rows
/// after the one before, four after the other.
fn factors_of(queries: &[u8], rows: usize, count: usize, j: usize, apart: usize) -> [u8; 64]
    requires few { count ≤ 16 }
    requires within { j + 3 * apart < rows }
    requires memory { rows ≤ MOST_ROWS }
    requires queries { length queries.now ≡ count * rows }
    ensures { AreFactors result queries.now rows count j apart }
{
    let mut factors = [0; 64];
    for v in 0..count {
        let from = v * rows + j;
        factors[4 * v] = queries[from];
        factors[4 * v + 1] = queries[from + apart];
        factors[4 * v + 2] = queries[from + 2 * apart];
        factors[4 * v + 3] = queries[from + 3 * apart];
    }
    factors
}
