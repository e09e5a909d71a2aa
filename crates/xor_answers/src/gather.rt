//! The sums over a run of rows for up to eight bitmaps, eight rows of the same pattern at once.
//!
//! Each row waits for others that the same bitmaps ask for. When there are eight, they are added up
//! once, and their sum goes to each of these bitmaps: the rows of a pattern are gathered as in the
//! buckets of Pippenger (1976).

ghost use Rattle.std.specs.Prelude.{◌≡◌, ℕ, ◌*◌, ◌<◌, ◌≤◌, length, slice_index, slice_index_or};
ghost use Rattle.chor_xor.specs.Bitmap.{size_of};
ghost use Rattle.gf256.specs.Field.{◌⊕◌};
ghost use Rattle.row_workers.specs.RowSums.{AreSums};
ghost use Rattle.xor_answers.specs.Asked.{asked_of};
ghost use Rattle.row_workers.specs.Group.{group_gives, group_places};
ghost use Rattle.xor_answers.specs.Waiting.{
  no_rows,
  few_sum,
  waiting_at,
  asked_by,
  Grows,
  AllAreRows,
  AreRows,
  GathersRow,
  HaveOneMore,
  IsSumOfEight,
  IsSumWith,
};

use crate::sets::pattern_of;
use block_matrix::Matrix;
use gf256::rows::{add_row, clear};
use quantity_limits::MOST_WIDTH;
use row_workers::{FourRows, Group};

/// Up to seven rows, by their numbers: the first `count` of `rows`.
#[derive(Clone, Copy, Drop)]
pub struct UpToSeven {
    rows: [u32; 7],
    count: u32,
}

/// A row, by its number, and the pattern of the bitmaps that ask for it.
#[derive(Clone, Copy, Drop)]
pub struct AskedRow {
    row: u32,
    pattern: u8,
}

/// Makes `sums` the sums over the rows from `from` up to `to` for each of so many bitmaps, those of
/// the first bitmap first: rows wait for others of their pattern until eight go at once, and what
/// waits at the end goes by itself.
///
/// It is never inlined: else each worker's stack would have room for the rows that wait, also
/// where one bitmap is asked.
#[inline(never)]
pub fn sum_in_eights(
    matrix: &Matrix,
    bitmaps: &[u8],
    count: usize,
    from: u32,
    to: u32,
    sums: &mut [u8],
)
    requires few { count ≤ 8 }
    requires order { from ≤ to }
    requires within { to ≤ length matrix.now.rows }
    requires bitmaps { length bitmaps.now ≡ count * size_of (length matrix.now.rows) }
    requires room { length sums.old ≡ count * matrix.now.width }
    ensures { AreSums (asked_of bitmaps.now matrix.now) (count * matrix.now.width) from to sums.new }
{
    let mut stack = [0; MOST_WIDTH as usize];
    let width = matrix.width() as usize;
    clear(sums);
    let group = Group {
        matrix,
        queries: bitmaps,
        count,
    };
    add_in_eights(group, from, to, &mut stack[..width], sums);
}

/// Adds the rows from `from` up to `to` to sums that begin as zeros. `eight` has room for a row.
fn add_in_eights(group: Group, from: u32, to: u32, eight: &mut [u8], sums: &mut [u8])
    requires few { group.count ≤ 8 }
    requires order { from ≤ to }
    requires within { to ≤ length group.matrix.now.rows }
    requires bitmaps { length group.queries.now ≡ group.count * size_of (length group.matrix.now.rows) }
    requires eight { length eight.old ≡ group.matrix.now.width }
    requires room { length sums.old ≡ group.count * group.matrix.now.width }
    requires zeros { (p : ℕ) → slice_index sums.old p ≡ 0 }
    ensures { AreSums (group_gives asked_of group.entry) (group_places group.entry) from to sums.new }
{
    let Group {
        matrix,
        queries: bitmaps,
        count,
    } = group;
    let size = matrix.rows().div_ceil(8) as usize;
    let mut waiting = none_waiting();
    for j in from..to {
        let pattern = pattern_of(bitmaps, size, count, j);
        let asked = AskedRow { row: j, pattern };
        gather(matrix, asked, count, &mut waiting, eight, sums);
    }
    add_waiting(matrix, &waiting, count, eight, sums);
}

/// No rows, for each pattern.
fn none_waiting() -> [UpToSeven; 256]
    ensures { (p : ℕ) → (slice_index_or result p no_rows).count ≡ 0 }
{
    [none(); 256]
}

/// No rows.
fn none() -> UpToSeven
    ensures { result.count ≡ 0 }
{
    UpToSeven {
        rows: [0; 7],
        count: 0,
    }
}

/// Lets the row wait for others of its pattern. Where seven wait already, the eight are added. A row
/// that no bitmap asks for is passed over.
fn gather(
    matrix: &Matrix,
    asked: AskedRow,
    count: usize,
    waiting: &mut [UpToSeven; 256],
    eight: &mut [u8],
    sums: &mut [u8],
)
    requires few { count ≤ 8 }
    requires row { asked.row < length matrix.now.rows }
    requires waiting { AllAreRows (length matrix.now.rows) waiting.old }
    requires eight { length eight.old ≡ matrix.now.width }
    requires room { length sums.old ≡ count * matrix.now.width }
    ensures waiting { AllAreRows (length matrix.now.rows) waiting.new }
    ensures sum { GathersRow matrix.now count asked (sums.old, waiting.old) (sums.new, waiting.new) }
{
    let AskedRow { row, pattern } = asked;
    if pattern == 0 {
        return;
    }
    let place = pattern as usize;
    let few = waiting[place];
    if few.count < 7 {
        waiting[place] = with(few, row);
    } else {
        waiting[place] = none();
        put_all(matrix, few, row, eight);
        add_to_asked(sums, eight, pattern, count);
    }
}

/// A few rows, fewer than seven, and row `j`.
fn with(few: UpToSeven, j: u32) -> UpToSeven
    requires { few.count < 7 }
    ensures rows { (n : ℕ) → AreRows n few → j < n → AreRows n result }
    ensures sum { HaveOneMore few j result }
{
    let mut more = few;
    more.rows[few.count as usize] = j;
    more.count += 1;
    more
}

/// Makes `sum` the sum of seven rows and row `j`.
fn put_all(matrix: &Matrix, few: UpToSeven, j: u32, sum: &mut [u8])
    requires seven { few.count ≡ 7 }
    requires rows { AreRows (length matrix.now.rows) few }
    requires row { j < length matrix.now.rows }
    requires room { length sum.old ≡ matrix.now.width }
    ensures { IsSumWith matrix.now few j sum.new }
{
    let first = FourRows {
        a: matrix.row(few.rows[0]),
        b: matrix.row(few.rows[1]),
        c: matrix.row(few.rows[2]),
        d: matrix.row(few.rows[3]),
    };
    let second = FourRows {
        a: matrix.row(few.rows[4]),
        b: matrix.row(few.rows[5]),
        c: matrix.row(few.rows[6]),
        d: matrix.row(j),
    };
    put_eight(sum, first, second);
}

/// Makes `sum` the sum of eight rows: each is as long.
fn put_eight(sum: &mut [u8], first: FourRows, second: FourRows)
    requires a { length first.a.now ≡ length sum.old }
    requires b { length first.b.now ≡ length sum.old }
    requires c { length first.c.now ≡ length sum.old }
    requires d { length first.d.now ≡ length sum.old }
    requires e { length second.a.now ≡ length sum.old }
    requires f { length second.b.now ≡ length sum.old }
    requires g { length second.c.now ≡ length sum.old }
    requires h { length second.d.now ≡ length sum.old }
    ensures { IsSumOfEight first.entry second.entry (length sum.old) sum.new }
{
    let FourRows { a, b, c, d } = first;
    let FourRows {
        a: e,
        b: f,
        c: g,
        d: h,
    } = second;
    for i in 0..sum.len() {
        sum[i] = (a[i] ^ b[i] ^ c[i] ^ d[i]) ^ (e[i] ^ f[i] ^ g[i] ^ h[i]);
    }
}

/// Adds the row to the sums of each of so many bitmaps that the pattern has a bit for.
fn add_to_asked(sums: &mut [u8], row: &[u8], pattern: u8, count: usize)
    requires few { count ≤ 8 }
    requires room { length sums.old ≡ count * length row.now }
    ensures { Grows count (length row.now) (asked_by pattern (slice_index row.now)) sums.old sums.new }
{
    let width = row.len();
    for v in 0..count {
        let place = count - 1 - v;
        if pattern >> place & 1 == 1 {
            add_row(&mut sums[v * width..(v + 1) * width], row);
        }
    }
}

/// Adds all rows that wait.
fn add_waiting(
    matrix: &Matrix,
    waiting: &[UpToSeven; 256],
    count: usize,
    eight: &mut [u8],
    sums: &mut [u8],
)
    requires few { count ≤ 8 }
    requires waiting { AllAreRows (length matrix.now.rows) waiting.now }
    requires eight { length eight.old ≡ matrix.now.width }
    requires room { length sums.old ≡ count * matrix.now.width }
    ensures { Grows count matrix.now.width (waiting_at matrix.now.rows waiting.now) sums.old sums.new }
{
    for pattern in 0..256 {
        add_few(matrix, waiting[pattern], pattern as u8, count, eight, sums);
    }
}

/// Adds a few rows of the same pattern.
fn add_few(
    matrix: &Matrix,
    few: UpToSeven,
    pattern: u8,
    count: usize,
    eight: &mut [u8],
    sums: &mut [u8],
)
    requires few { count ≤ 8 }
    requires rows { AreRows (length matrix.now.rows) few }
    requires eight { length eight.old ≡ matrix.now.width }
    requires room { length sums.old ≡ count * matrix.now.width }
    ensures { Grows count matrix.now.width (asked_by pattern (λ c. few_sum matrix.now.rows c few))
        sums.old sums.new }
{
    if few.count == 0 {
        return;
    }
    put_few(matrix, few, eight);
    add_to_asked(sums, eight, pattern, count);
}

/// Makes `sum` the sum of a few rows.
fn put_few(matrix: &Matrix, few: UpToSeven, sum: &mut [u8])
    requires rows { AreRows (length matrix.now.rows) few }
    requires room { length sum.old ≡ matrix.now.width }
    ensures { (k : ℕ) → slice_index sum.new k ≡ few_sum matrix.now.rows k few }
{
    clear(sum);
    for i in 0..few.count as usize {
        add_row(sum, matrix.row(few.rows[i]));
    }
}
