//! Runs of columns whose points lie on one polynomial each.

ghost use Rattle.std.specs.Prelude.{◌≡◌, ◌≢◌, ◌+◌, ◌^◌, ◌<◌, ◌≤◌, length, All, AllPairs, IfOk, MatchResult};
ghost use Rattle.column_runs.specs.Factors.{place_count, AreOfOneSize, IsTileBy};
ghost use Rattle.column_runs.specs.Rows.{lists_of, rows_of};
ghost use Rattle.column_runs.specs.Run.{IsRun};
ghost use Rattle.column_runs.specs.Tile.{IsTile};

use crate::columns::Columns;
use crate::halves::HalvedRow;
use crate::lagrange::{Factors, factors_by_first};
use crate::rows::{are_bytes, rows_are_bytes};
use crate::sums::BLOCK;
use crate::tile::decode_tile;
use std::alloc::{AllocError, Global};
use std::sync::ledger::Ledger;
use uni_poly::steps::Steps;

/// The most columns that are decoded at once.
const MOST_COLUMNS: usize = 2048;

/// The most of the first tile. Each later one has no more than are done, so that a short run costs little.
const FIRST_COLUMNS: usize = 256;

/// As many bytes as the halves of the differences of a tile fill at most, unless it has but a block of columns. The nearest
/// cache has room for twice as many.
const TILE_BYTES: usize = 16384;

/// The longest run of columns, from column `from` on, in each of which the points lie on one polynomial of degree at most
/// `t`. The constants of these polynomials go into `out`, and their number is returned; there are no more of them than `out`
/// has places, and what stands behind them in `out` is not said.
///
/// There are more than `t` of the `xs`, no two of them equal, and for each a row that has a byte for each place of `out`,
/// from column `from` on.
///
/// With the `xs` `01 02 03`, the rows `13 10`, `10 10` and `11 11`, and `t` 1, the run from column 0 on has one column, with
/// the constant `12`.
///
/// `cols` counts the columns of the run.
///
/// # Errors
///
/// `AllocError` where there is no memory, before the first column.
pub fn decode_run<C: Ledger>(
    alloc: Global,
    columns: &Columns<'_>,
    from: usize,
    out: &mut [u8],
    cols: &mut Steps<C>,
) -> Result<usize, AllocError>
    requires enough { columns.now.t < length columns.now.xs.now }
    requires rows { length columns.now.rows.now ≡ length columns.now.xs.now }
    requires widths { All (λ row. from + length out.old ≤ length row) (rows_of columns.now.rows.now) }
    requires distinct { AllPairs (λ x y. x ≢ y) columns.now.xs.now }
    ensures run { IfOk result (λ n. IsRun columns.now.xs.now (rows_of columns.now.rows.now) columns.now.t from out.new n) }
    ensures cols { MatchResult result (λ n. cols.new ≡ cols.old + n) (λ _. cols.new ≡ cols.old) }
{
    let factors = factors_by_first(alloc, columns.xs, columns.t)?;
    let width = tile_width(columns.t as usize, out.len());
    let mut differences = rows_of_zeros(alloc, columns.t as usize, width)?;
    are_bytes(columns.xs);
    rows_are_bytes(columns.rows);
    let done = decode_tiles(columns.rows, from, &factors, &mut differences, width, out);
    count(done, cols);
    Ok(done)
}

/// How many of so many columns are decoded at once where there are `t` rows of differences.
fn tile_width(t: usize, columns: usize) -> usize
    ensures { 0 < result }
{
    if columns <= BLOCK {
        return columns.max(1);
    }
    let fitting = TILE_BYTES / 2 / t.max(1) / BLOCK * BLOCK;
    fitting.clamp(BLOCK, MOST_COLUMNS).min(columns)
}

/// So many rows of zeros, of so many columns each.
fn rows_of_zeros(alloc: Global, count: usize, columns: usize) -> Result<Vec<HalvedRow>, AllocError>
    ensures count { IfOk result (λ v. length v.items ≡ count) }
    ensures columns { IfOk result (λ v. All (λ row. length row ≡ columns) v.items) }
{
    let mut rows = Vec::with_capacity(alloc, count)?;
    for _row in 0..count {
        rows.push(HalvedRow::zeros(alloc, columns)?)?;
    }
    Ok(rows)
}

/// The columns from `from` on in which each row past those that the factors go by has the byte that its factors give, tile
/// by tile, each of so many columns. There are as many as before the first other one, and `out` has a place for each that may
/// be taken; there go the bytes that the factors for 0 give.
fn decode_tiles(
    rows: &[&[u8]],
    from: usize,
    factors: &Factors,
    differences: &mut [HalvedRow],
    width: usize,
    out: &mut [u8],
) -> usize
    requires rows { length rows.now ≡ place_count factors.now }
    requires factors { AreOfOneSize factors.now }
    requires widths { All (λ row. from + length out.old ≤ length row) (rows_of rows.now) }
    requires memory { from + length out.old < 2 ^ 64 }
    requires count { length differences.old ≡ length factors.now.zero.items }
    requires some { 0 < width }
    requires room { All (λ d. width ≤ length d) differences.old }
    ensures { IsTileBy (rows_of rows.now) from factors.now out.new result }
{
    let mut done = 0;
    'tiles: while done < out.len() {
        let size = done.max(FIRST_COLUMNS).min(width).min(out.len() - done);
        let tile = &mut out[done..done + size];
        let columns = decode_tile(rows, from + done, factors, differences, tile);
        done += columns;
        if columns < size {
            return done;
        }
    }
    done
}

/// Counts so many columns.
fn count<C: Ledger>(columns: usize, cols: &mut Steps<C>)
    ensures { cols.new ≡ cols.old + columns }
{
    for _column in 0..columns {
        cols.tick();
    }
}
