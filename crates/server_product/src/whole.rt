//! The products in parts, each on a thread of its own.

ghost use Rattle.std.specs.Prelude.{◌≡◌, ◌≤◌, ◌*◌, length};
ghost use Rattle.quantity_limits.specs.declared.TheConstants.{MOST_BLOCKS, MOST_WORKERS};
ghost use Rattle.gf256.specs.Product.{product};
ghost use Rattle.server_product.specs.Queries.{AreProducts, entry_of};

use crate::queries::sum_queries;
use block_matrix::Matrix;
use row_workers::{Gate, RowSums, sum_in_parts};
use std::thread::Threads;

/// Makes `out` the product of the query `q`, a byte for each row, and the matrix: a byte for each
/// column. The query `01 02` and the rows `05 00` and `00 03` have the product `05 06`.
///
/// With r rows, worker w, counted from 0, passes the gate once and sums the rows from
/// `w * r / workers` up to `(w + 1) * r / workers` into its own part of `scratch`, which has
/// `workers` times the width bytes and is written over. The parts are added when all workers have
/// ended. One worker runs on the caller's thread.
pub fn product_into<R: Threads + Sync, G: Gate + Sync>(
    rt: &R,
    matrix: &Matrix,
    q: &[u8],
    workers: u8,
    scratch: &mut [u8],
    gate: &G,
    out: &mut [u8],
)
    requires some { 1 ≤ workers }
    requires few { workers ≤ MOST_WORKERS }
    requires query { length q.now ≡ length matrix.now.rows }
    requires scratch { length scratch.old ≡ workers * matrix.now.width }
    requires room { length out.old ≡ matrix.now.width }
    ensures { out.new ≡ product matrix.now.rows matrix.now.width q.now }
{
    products_into(rt, matrix, q, 1, workers, scratch, gate, out);
}

/// Makes `out` the products of so many queries and the matrix, one after the other, as `queries`
/// has the queries: each is the product that [`product_into`] gives of this query. The queries
/// `01 02` and `01 00` and the rows `05 00` and `00 03` have the products `05 06` and `05 00`.
///
/// The rows are shared among the workers in the same way, and each worker reads its rows once for
/// as many queries as have 65536 bytes of sums together. `scratch` has `workers` times the bytes of
/// `out`.
pub fn products_into<R: Threads + Sync, G: Gate + Sync>(
    rt: &R,
    matrix: &Matrix,
    queries: &[u8],
    count: u8,
    workers: u8,
    scratch: &mut [u8],
    gate: &G,
    out: &mut [u8],
)
    requires few_queries { count ≤ MOST_BLOCKS }
    requires some { 1 ≤ workers }
    requires few { workers ≤ MOST_WORKERS }
    requires queries { length queries.now ≡ count * length matrix.now.rows }
    requires scratch { length scratch.old ≡ workers * (count * matrix.now.width) }
    requires room { length out.old ≡ count * matrix.now.width }
    ensures { AreProducts matrix.now count queries.now out.new }
{
    let sums = ProductSums {
        matrix,
        queries,
        count,
    };
    sum_in_parts(rt, &sums, workers, scratch, gate, out);
}

/// So many queries, one after the other, and the matrix whose products with them are summed.
#[derive(Drop)]
struct ProductSums<'a> {
    matrix: &'a Matrix,
    queries: &'a [u8],
    count: u8,
}

impl RowSums for ProductSums<'_> {
    ghost row_count = { λ sums. length sums.matrix.now.rows };

    ghost places = { λ sums. sums.count * sums.matrix.now.width };

    ghost gives = { λ sums. entry_of sums.queries.now sums.matrix.now };

    ghost ready = { λ sums. (sums.count ≤ MOST_BLOCKS)
        × (length sums.queries.now ≡ sums.count * length sums.matrix.now.rows) };

    fn rows(&self) -> u32 {
        self.matrix.rows()
    }

    fn sum(&self, from: u32, to: u32, sums: &mut [u8]) {
        sum_queries(self.matrix, self.queries, self.count, from, to, sums);
    }
}
