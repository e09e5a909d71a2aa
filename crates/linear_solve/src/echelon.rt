//! Gauss's elimination, a row at a time, and the solution from the last row back to the first.

ghost use Rattle.std.specs.Prelude.{ℕ, ◌<◌, length, slice_index, IfOk, MatchOption};
ghost use Rattle.linear_solve.specs.Kernel.{component};
ghost use Rattle.linear_solve.specs.Echelon.{columns_of, rows_of, IsClear, IsEchelon, IsFree, IsImplied, IsReducedBy, KeepsFree, KeepsInner, SendToZero, TakesIn};

use crate::row::{first_nonzero, inner_product, scale};
use gf256::rows::add_scaled_row;
use std::alloc::{AllocError, Global};

/// A row of the echelon form: it has 1 in its column, and 0 in the columns of the pivots before it.
#[derive(Drop)]
pub(crate) struct PivotRow {
    column: usize,
    row: Vec<u8>,
}

/// Clears the columns of the pivots in `row`, by adding multiples of theirs.
fn clear(row: &mut [u8], pivots: &[PivotRow])
    requires { IsEchelon (columns_of pivots.now) (rows_of pivots.now) (length row.old) }
    ensures same { KeepsInner pivots.now row.new row.old }
    ensures cleared { IsClear pivots.now row.new }
{
    for pivot in pivots {
        let factor = row[pivot.column];
        add_scaled_row(row, &pivot.row, factor);
    }
}

/// Clears the columns of the pivots in `row`, and scales it to have 1 in the first column that isn't 0 then, which is
/// the result. There is none where the row is a combination of theirs.
fn reduce(row: &mut [u8], pivots: &[PivotRow]) -> Option<usize>
    requires { IsEchelon (columns_of pivots.now) (rows_of pivots.now) (length row.old) }
    ensures { MatchOption result (IsImplied pivots.now row.old) (IsReducedBy pivots.now row.new row.old) }
{
    clear(row, pivots);
    let column = first_nonzero(row)?;
    let factor = gf256::inv(row[column]);
    scale(row, factor);
    Some(column)
}

/// Takes one more row into the pivots, unless it is a combination of theirs.
pub(crate) fn add_row(
    alloc: Global,
    pivots: &mut Vec<PivotRow>,
    row: &[u8],
) -> Result<(), AllocError>
    requires { IsEchelon (columns_of pivots.old.items) (rows_of pivots.old.items) (length row.now) }
    ensures { IfOk result (λ _. TakesIn pivots.new.items pivots.old.items row.now) }
{
    let mut row = row.to_vec(alloc)?;
    if let Some(column) = reduce(&mut row, pivots) {
        pivots.push(PivotRow { column, row })?;
    }
    Ok(())
}

/// A column that is no pivot's.
pub(crate) fn free_column(
    alloc: Global,
    pivots: &[PivotRow],
    width: usize,
) -> Result<usize, AllocError>
    requires fewer { length pivots.now < width }
    requires inside { (t : ℕ) → t < length pivots.now → slice_index (columns_of pivots.now) t < width }
    ensures { IfOk result (λ k. IsFree (columns_of pivots.now) width k) }
{
    // 1 in each column that is no pivot's
    let mut is_free = vec![in alloc; 1; width]?;
    for pivot in pivots {
        is_free[pivot.column] = 0;
    }
    Ok(first_nonzero(&is_free).unwrap())
}

/// Sets the components of `v` in the columns of the pivots, so that their rows send it to zero. The last pivot comes
/// first, since the later rows have 0 in its column.
pub(crate) fn solve_back(v: &mut [u8], pivots: &[PivotRow])
    requires echelon { IsEchelon (columns_of pivots.now) (rows_of pivots.now) (length v.old) }
    requires clear { IsClear pivots.now v.old }
    ensures bytes { (k : ℕ) → component v.new k < 256 }
    ensures sent_to_zero { SendToZero (rows_of pivots.now) (length v.old) v.new }
    ensures kept { KeepsFree pivots.now v.new v.old }
{
    for t in (0..pivots.len()).rev() {
        let pivot = &pivots[t];
        let value = inner_product(&pivot.row, v);
        v[pivot.column] = value;
    }
}
