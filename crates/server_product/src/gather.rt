//! The sum over a run of rows, in trios of the same factor.
//!
//! Each row waits for others whose byte of the query is the same, so that three cost one product:
//! the rows of a factor are added up before they are multiplied, as in the buckets of Pippenger
//! (1976). What is left over at the end is added six rows at once.

ghost use Rattle.std.specs.Prelude.{◌≡◌, ℕ, ◌<◌, ◌≤◌, List, length, replicate, slice_index, slice_index_or};
ghost use Rattle.row_workers.specs.RowSums.{Adds};
ghost use Rattle.server_product.specs.Runs.{run_term};
ghost use Rattle.server_product.specs.Trios.{trio_at};
ghost use Rattle.server_product.specs.Gathered.{
  three_sum,
  few_sum,
  GathersRow,
  Holds,
  AddsWaiting,
  Leaves,
  LeavesRow,
  GiveAlike,
  AreOf,
  FewAreOf,
  HeldAreAlike,
  ThreeAreRows,
  AreRows,
  HeldAreRows,
  RestAreRows,
};

use crate::rows::{add_term, scaled_row};
use crate::six_rows::{SixRows, add_six_rows};
use crate::trios::{Trio, add_two_trios};
use block_matrix::Matrix;

/// Three rows, by their numbers.
#[derive(Clone, Copy, Drop)]
pub struct Three {
    a: u32,
    b: u32,
    c: u32,
}

/// Up to three rows, by their numbers.
#[derive(Clone, Copy, Drop)]
pub enum UpToThree {
    Empty,
    One(u32),
    Two(u32, u32),
    All(Three),
}

/// Adds the rows from `from` up to `to`, each times the query's byte for it.
pub fn add_in_trios(matrix: &Matrix, q: &[u8], from: u32, to: u32, sums: &mut [u8])
    requires order { from ≤ to }
    requires within { to ≤ length matrix.now.rows }
    requires query { length q.now ≡ length matrix.now.rows }
    requires room { length sums.old ≡ matrix.now.width }
    ensures { Adds (run_term q.now matrix.now.rows from to) sums.old sums.new }
{
    let mut waiting = none_waiting();
    let mut held = None;
    for j in from..to {
        held = gather(matrix, q, j, &mut waiting, held, sums);
    }
    add_waiting(matrix, q, &waiting, held, sums);
}

/// No rows, for each factor.
fn none_waiting() -> [UpToThree; 256]
    ensures { result ≡ replicate 256 UpToThree.Empty }
{
    [UpToThree::Empty; 256]
}

/// Lets row `j` wait for others of its factor. Where three wait already, they go first: they are
/// held, or added with the three that are held.
fn gather(
    matrix: &Matrix,
    q: &[u8],
    j: u32,
    waiting: &mut [UpToThree; 256],
    held: Option<Three>,
    sums: &mut [u8],
) -> Option<Three>
    requires row { j < length matrix.now.rows }
    requires query { length q.now ≡ length matrix.now.rows }
    requires room { length sums.old ≡ matrix.now.width }
    requires held { HeldAreAlike q.now held }
    requires waiting { (f : ℕ) → f < 256
        → FewAreOf q.now f (slice_index_or waiting.old f UpToThree.Empty) }
    ensures held { HeldAreAlike q.now result }
    ensures waiting { (f : ℕ) → f < 256
        → FewAreOf q.now f (slice_index_or waiting.new f UpToThree.Empty) }
    ensures sum { GathersRow q.now matrix.now.rows j
        (sums.old, held, waiting.old) (sums.new, result, waiting.new) }
{
    let factor = usize::from(q[j as usize]);
    let before = waiting[factor];
    match before {
        UpToThree::Empty => waiting[factor] = UpToThree::One(j),
        UpToThree::One(a) => waiting[factor] = UpToThree::Two(a, j),
        UpToThree::Two(a, b) => waiting[factor] = UpToThree::All(Three { a, b, c: j }),
        UpToThree::All(three) => {
            waiting[factor] = UpToThree::One(j);
            return hold(matrix, q, three, held, sums);
        }
    }
    held
}

/// Adds the three rows with those that are held, or holds them where none are.
fn hold(
    matrix: &Matrix,
    q: &[u8],
    three: Three,
    held: Option<Three>,
    sums: &mut [u8],
) -> Option<Three>
    requires query { length q.now ≡ length matrix.now.rows }
    requires room { length sums.old ≡ matrix.now.width }
    requires held { HeldAreAlike q.now held }
    requires three { AreOf q.now (slice_index q.now three.a) three }
    ensures held { HeldAreAlike q.now result }
    ensures sum { Holds q.now matrix.now.rows three (sums.old, held) (sums.new, result) }
{
    match held {
        None => Some(three),
        Some(other) => {
            add_two_trios(sums, trio_of(matrix, q, other), trio_of(matrix, q, three));
            None
        }
    }
}

/// The three rows, and the query's byte for each of them.
#[inline(always)]
fn trio_of<'a>(matrix: &'a Matrix, q: &[u8], three: Three) -> Trio<'a>
    requires query { length q.now ≡ length matrix.now.rows }
    requires three { AreOf q.now (slice_index q.now three.a) three }
    ensures a { length result.a.now ≡ matrix.now.width }
    ensures b { length result.b.now ≡ matrix.now.width }
    ensures c { length result.c.now ≡ matrix.now.width }
    ensures sum { (k : ℕ) → trio_at result k ≡ three_sum q.now matrix.now.rows k three }
{
    Trio {
        a: matrix.row(three.a),
        b: matrix.row(three.b),
        c: matrix.row(three.c),
        factor: q[three.a as usize],
    }
}

/// Rows that are still to be added, each by itself: three, if there are some, and up to three
/// others.
#[derive(Clone, Copy, Drop)]
struct UpToSix {
    three: Option<Three>,
    few: UpToThree,
}

/// Rows that are still to be added: three of the same factor, if there are some, and the rest.
#[derive(Clone, Copy, Drop)]
struct Leftover {
    held: Option<Three>,
    rest: UpToSix,
}

/// Adds all rows that wait, and those that are held.
fn add_waiting(
    matrix: &Matrix,
    q: &[u8],
    waiting: &[UpToThree; 256],
    held: Option<Three>,
    sums: &mut [u8],
)
    requires query { length q.now ≡ length matrix.now.rows }
    requires room { length sums.old ≡ matrix.now.width }
    requires held { HeldAreAlike q.now held }
    requires waiting { (f : ℕ) → f < 256
        → FewAreOf q.now f (slice_index_or waiting.now f UpToThree.Empty) }
    ensures { AddsWaiting q.now matrix.now.rows (sums.old, held, waiting.now) sums.new }
{
    let mut left = Leftover {
        held,
        rest: UpToSix {
            three: None,
            few: UpToThree::Empty,
        },
    };
    for factor in 0..256 {
        left = add_or_leave(matrix, q, factor, waiting[factor as usize], left, sums);
    }
    add_few(matrix, q, few_of(left.held), sums);
    add_few(matrix, q, few_of(left.rest.three), sums);
    add_few(matrix, q, left.rest.few, sums);
}

/// Adds the few rows, of one factor, with those that are left, or leaves them with those.
fn add_or_leave(
    matrix: &Matrix,
    q: &[u8],
    factor: u32,
    few: UpToThree,
    left: Leftover,
    sums: &mut [u8],
) -> Leftover
    requires query { length q.now ≡ length matrix.now.rows }
    requires room { length sums.old ≡ matrix.now.width }
    requires few { FewAreOf q.now factor few }
    requires held { HeldAreAlike q.now left.held }
    requires rest { RestAreRows q.now left.rest }
    ensures held { HeldAreAlike q.now result.held }
    ensures rest { RestAreRows q.now result.rest }
    ensures sum { Leaves q.now matrix.now.rows few (sums.old, left) (sums.new, result) }
{
    let Leftover { held, rest } = left;
    match few {
        UpToThree::Empty => left,
        UpToThree::One(a) => Leftover {
            held,
            rest: add_to_rest(matrix, q, rest, a, sums),
        },
        UpToThree::Two(a, b) => {
            let rest = add_to_rest(matrix, q, rest, a, sums);
            Leftover {
                held,
                rest: add_to_rest(matrix, q, rest, b, sums),
            }
        }
        UpToThree::All(three) => Leftover {
            held: hold(matrix, q, three, held, sums),
            rest,
        },
    }
}

/// The three rows, where there are some.
fn few_of(held: Option<Three>) -> UpToThree
    ensures rows { (query : List ℕ) → HeldAreRows query held → AreRows query result }
    ensures sum { GiveAlike result held }
{
    match held {
        None => UpToThree::Empty,
        Some(three) => UpToThree::All(three),
    }
}

/// Leaves row `j` with the rest. Where three are left already, they go first.
fn add_to_rest(matrix: &Matrix, q: &[u8], rest: UpToSix, j: u32, sums: &mut [u8]) -> UpToSix
    requires row { j < length matrix.now.rows }
    requires query { length q.now ≡ length matrix.now.rows }
    requires room { length sums.old ≡ matrix.now.width }
    requires rest { RestAreRows q.now rest }
    ensures rest { RestAreRows q.now result }
    ensures sum { LeavesRow q.now matrix.now.rows j (sums.old, rest) (sums.new, result) }
{
    let UpToSix { three, few } = rest;
    let few = match few {
        UpToThree::Empty => UpToThree::One(j),
        UpToThree::One(a) => UpToThree::Two(a, j),
        UpToThree::Two(a, b) => UpToThree::All(Three { a, b, c: j }),
        UpToThree::All(full) => {
            return UpToSix {
                three: add_six(matrix, q, full, three, sums),
                few: UpToThree::One(j),
            };
        }
    };
    UpToSix { three, few }
}

/// Adds the three rows with three others that are left, or leaves them where there are none.
fn add_six(
    matrix: &Matrix,
    q: &[u8],
    three: Three,
    left: Option<Three>,
    sums: &mut [u8],
) -> Option<Three>
    requires query { length q.now ≡ length matrix.now.rows }
    requires room { length sums.old ≡ matrix.now.width }
    requires left { HeldAreRows q.now left }
    requires three { ThreeAreRows q.now three }
    ensures left { HeldAreRows q.now result }
    ensures sum { Holds q.now matrix.now.rows three (sums.old, left) (sums.new, result) }
{
    match left {
        None => Some(three),
        Some(other) => {
            let six = SixRows {
                a: scaled_row(matrix, q, other.a),
                b: scaled_row(matrix, q, other.b),
                c: scaled_row(matrix, q, other.c),
                d: scaled_row(matrix, q, three.a),
                e: scaled_row(matrix, q, three.b),
                f: scaled_row(matrix, q, three.c),
            };
            add_six_rows(sums, six, None);
            None
        }
    }
}

/// Adds a few rows, one after the other.
fn add_few(matrix: &Matrix, q: &[u8], few: UpToThree, sums: &mut [u8])
    requires query { length q.now ≡ length matrix.now.rows }
    requires room { length sums.old ≡ matrix.now.width }
    requires few { AreRows q.now few }
    ensures { Adds (λ k. few_sum q.now matrix.now.rows k few) sums.old sums.new }
{
    match few {
        UpToThree::Empty => {}
        UpToThree::One(a) => add_term(matrix, q, a, sums),
        UpToThree::Two(a, b) => {
            add_term(matrix, q, a, sums);
            add_term(matrix, q, b, sums);
        }
        UpToThree::All(three) => {
            add_term(matrix, q, three.a, sums);
            add_term(matrix, q, three.b, sums);
            add_term(matrix, q, three.c, sums);
        }
    }
}
