//! Four rows at once for several queries: the bytes of a row are read once for all queries, and the
//! sums are read and written once for the four.

ghost use Rattle.std.specs.Prelude.{◌≡◌, ◌+◌, ◌*◌, ◌<◌, ◌≤◌, length};
ghost use Rattle.std.specs.Int.{div_ceil};
ghost use Rattle.quantity_limits.specs.declared.TheConstants.{MOST_WIDTH};
ghost use Rattle.row_workers.specs.RowSums.{AddsBelow};
ghost use Rattle.row_workers.specs.Blocks.{IsAddedInBlock};
ghost use Rattle.server_product.specs.Blocks.{four_at};

use gf256::tables::Tables;
use gf256::vectors::{LookUp, Vectors};
use row_workers::blocks::start_of;
use row_workers::{FourRows, lanes_of};
use std::simd::prelude::*;

/// Adds four rows, each times a factor, to the sums in blocks of N columns of so many queries:
/// `factors` has four for each query.
pub fn add_four_rows<const N: usize>(
    sums: &mut [u8],
    rows: FourRows,
    factors: &[u8; 64],
    count: usize,
    tables: &Tables,
)
where
    Vectors: LookUp<N>,
    requires lanes { (1 ≤ N) × (N ≤ 32) }
    requires wide { N ≤ length rows.a.now }
    requires b { length rows.b.now ≡ length rows.a.now }
    requires c { length rows.c.now ≡ length rows.a.now }
    requires d { length rows.d.now ≡ length rows.a.now }
    requires some { 1 ≤ count }
    requires few { count ≤ 16 }
    requires room { length sums.old ≡ N * (div_ceil (length rows.a.now) N * count) }
    requires memory { length rows.a.now ≤ MOST_WIDTH }
    ensures { AddsBelow (four_at N rows.entry factors.now count) (length sums.old) sums.old sums.new }
{
    for i in 0..rows.a.len().div_ceil(N) {
        add_block::<N>(sums, rows, factors, count, i, tables);
    }
}

/// Adds N columns of the rows to the sums of all queries.
#[inline(always)]
fn add_block<const N: usize>(
    sums: &mut [u8],
    rows: FourRows,
    factors: &[u8; 64],
    count: usize,
    i: usize,
    tables: &Tables,
)
where
    Vectors: LookUp<N>,
    requires lanes { (1 ≤ N) × (N ≤ 32) }
    requires wide { N ≤ length rows.a.now }
    requires b { length rows.b.now ≡ length rows.a.now }
    requires c { length rows.c.now ≡ length rows.a.now }
    requires d { length rows.d.now ≡ length rows.a.now }
    requires some { 1 ≤ count }
    requires few { count ≤ 16 }
    requires memory { N * i < MOST_WIDTH }
    requires room { N * (i * count + count) ≤ length sums.old }
    ensures { IsAddedInBlock N (four_at N rows.entry factors.now count) count i sums.old sums.new }
{
    let FourRows { a, b, c, d } = rows;
    let start = start_of::<N>(a.len(), i);
    let in_a = lanes_of::<N>(a, start);
    let in_b = lanes_of::<N>(b, start);
    let in_c = lanes_of::<N>(c, start);
    let in_d = lanes_of::<N>(d, start);
    for v in 0..count {
        let at = N * (i * count + v);
        let sum = lanes_of::<N>(sums, at)
            ^ tables.times(factors[4 * v], in_a)
            ^ tables.times(factors[4 * v + 1], in_b)
            ^ tables.times(factors[4 * v + 2], in_c)
            ^ tables.times(factors[4 * v + 3], in_d);
        sum.copy_to_slice(&mut sums[at..]);
    }
}
