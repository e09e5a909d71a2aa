// Runs of columns, a column at a time: what the faster body is tested against.

ghost use Rattle.std.specs.Prelude.{◌≡◌, ◌≢◌, ◌+◌, ◌<◌, ◌≤◌, length, All, AllPairs, IfOk};
ghost use Rattle.column_runs.specs.Rows.{rows_of};
ghost use Rattle.column_runs.specs.Run.{points_at, IsRun};

use column_runs::Columns;
use column_runs::one_polynomial::{lie_on, through_first};
use column_runs::rows::row_from;
use std::alloc::{AllocError, Global};

/// The same as [`decode_run`](column_runs::decode_run), by interpolating each column for itself. It counts nothing.
///
/// # Errors
///
/// `AllocError` where there is no memory for the points of a column, or to interpolate.
pub(crate) fn plain_run(
    alloc: Global,
    columns: &Columns<'_>,
    from: usize,
    out: &mut [u8],
) -> Result<usize, AllocError>
    requires enough { columns.now.t < length columns.now.xs.now }
    requires rows { length columns.now.rows.now ≡ length columns.now.xs.now }
    requires widths { All (λ row. from + length out.old ≤ length row) (rows_of columns.now.rows.now) }
    requires distinct { AllPairs (λ x y. x ≢ y) columns.now.xs.now }
    ensures { IfOk result (λ n. IsRun columns.now.xs.now (rows_of columns.now.rows.now) columns.now.t from out.new n) }
{
    for column in 0..out.len() {
        let points = points_at(alloc, columns.xs, columns.rows, from, column)?;
        let through = through_first(alloc, &points, columns.t)?;
        if !lie_on(&through, &points) {
            return Ok(column);
        }
        out[column] = through[0];
    }
    Ok(out.len())
}

/// The points of a column, counted from column `from` on.
fn points_at(
    alloc: Global,
    xs: &[u8],
    rows: &[&[u8]],
    from: usize,
    column: usize,
) -> Result<Vec<(u8, u8)>, AllocError>
    requires rows { length rows.now ≡ length xs.now }
    requires widths { All (λ row. from + column < length row) (rows_of rows.now) }
    ensures { IfOk result (λ v. v.items ≡ points_at xs.now (rows_of rows.now) (from + column)) }
{
    let mut points = Vec::with_capacity(alloc, xs.len())?;
    for place in 0..xs.len() {
        points.push((xs[place], row_from(rows, place, from)[column]))?;
    }
    Ok(points)
}
