// Runs of columns whose points lie on one polynomial each.
ghost use Rattle.std.specs.Prelude.{◌≡◌, ◌≢◌, ◌+◌, ◌<◌, ◌≤◌, length, map, All, AllPairs, IsTrue};

use crate::lists::{ascends, listed_by_koetter, next};
use crate::plain_runs::plain_run;
use column_lists::{Columns, decode_run};
use std::alloc::{AllocError, Global};
use std::marker::Brand;
use std::sync::ledger::{Blank, Ledger};
use uni_poly::eval;
use uni_poly::steps::Steps;

/// Whether each row has at least so many bytes.
fn are_wide(rows: &[&[u8]], width: usize) -> bool
    ensures { IsTrue result → All (λ row. width ≤ length row) (map (λ row. row.now) rows.now) }
{
    for i in 0..rows.len() {
        if rows[i].len() < width {
            return false;
        }
    }
    true
}

/// Whether there is a run in rows of this width.
fn admits(columns: &Columns<'_>, width: usize) -> bool
    ensures enough { IsTrue result → columns.now.t < length columns.now.xs.now }
    ensures rows { IsTrue result → length columns.now.rows.now ≡ length columns.now.xs.now }
    ensures distinct { IsTrue result → AllPairs (λ x y. x ≢ y) columns.now.xs.now }
    ensures widths { IsTrue result → All (λ row. width ≤ length row) (map (λ row. row.now) columns.now.rows.now) }
{
    let count = columns.xs.len();
    (columns.t as usize) < count
        && columns.rows.len() == count
        && ascends(columns.xs)
        && are_wide(columns.rows, width)
}

/// The length of the run, where the counter is that of the blank's ledger; `None` where the numbers don't admit one.
fn run_in_steps<C: Ledger>(
    cols: Blank,
    alloc: Global,
    columns: &Columns<'_>,
    from: usize,
    out: &mut [u8],
) -> Result<Option<usize>, AllocError>
    requires cols { (cols.name ≡ C.name) × (cols.parts ≡ C.parts) × (0 < cols.parts) }
{
    let Some(width) = from.checked_add(out.len()) else {
        return Ok(None);
    };
    if !admits(columns, width) {
        return Ok(None);
    }
    let mut cols: Steps<C> = Steps::new(cols);
    Ok(Some(decode_run(alloc, columns, from, out, &mut cols)?))
}

/// The same by a caller that counts nothing.
fn run_at_once(
    alloc: Global,
    columns: &Columns<'_>,
    from: usize,
    out: &mut [u8],
) -> Result<Option<usize>, AllocError> {
    run_in_steps::<Brand>(Blank::new(1), alloc, columns, from, out)
}

/// The same by the plain body.
fn run_plainly(
    alloc: Global,
    columns: &Columns<'_>,
    from: usize,
    out: &mut [u8],
) -> Result<Option<usize>, AllocError> {
    let Some(width) = from.checked_add(out.len()) else {
        return Ok(None);
    };
    if !admits(columns, width) {
        return Ok(None);
    }
    Ok(Some(plain_run(alloc, columns, from, out)?))
}

/// A run to be found in drawn rows.
#[derive(Copy, Clone)]
struct Case {
    /// How many rows there are, and the degree on which they lie.
    k: u8,
    t: u32,
    /// The first column, and how many there are from there on.
    from: usize,
    width: usize,
    /// The place of the column in which a row has a wrong byte.
    wrong: Option<usize>,
}

/// As many places as the case has rows, ascending, none 0.
fn places(alloc: Global, case: Case, state: &mut u32) -> Result<Vec<u8>, AllocError> {
    let mut xs = Vec::new(alloc);
    let mut x = 0u8;
    for _ in 0..case.k {
        x = x.wrapping_add(1 + next(state) % 8);
        xs.push(x)?;
    }
    Ok(xs)
}

/// Rows of which each column from `from` on lies on a drawn polynomial, but the wrong one.
fn drawn_rows(
    alloc: Global,
    case: Case,
    xs: &[u8],
    state: &mut u32,
) -> Result<Vec<Vec<u8>>, AllocError> {
    let mut rows = Vec::new(alloc);
    for _ in xs {
        let mut row = Vec::new(alloc);
        for _ in 0..case.from {
            row.push(next(state))?;
        }
        rows.push(row)?;
    }
    for column in 0..case.width {
        let phi = crate::lists::next_polynomial(alloc, state, case.t)?;
        let liar = next(state) % case.k.max(1);
        for (i, row) in rows.iter_mut().enumerate() {
            let lie = case.wrong == Some(column) && i == liar as usize;
            let byte = if i < xs.len() { eval(&phi, xs[i]) } else { 0 };
            row.push(if lie { byte ^ 0x5a } else { byte })?;
        }
    }
    Ok(rows)
}

/// Whether the list of the column, where all points have to agree, is the polynomial with this constant, or none.
fn is_listed(
    alloc: Global,
    case: Case,
    xs: &[u8],
    rows: &[&[u8]],
    column: usize,
    constant: Option<u8>,
) -> Result<bool, AllocError> {
    let mut points = Vec::new(alloc);
    for (x, row) in xs.iter().zip(rows) {
        let Some(&y) = row.get(column) else {
            return Ok(false);
        };
        points.push((*x, y))?;
    }
    let Some(list) = listed_by_koetter(alloc, &points, case.t, u32::from(case.k))? else {
        return Ok(false);
    };
    Ok(match constant {
        Some(byte) => list.len() == 1 && list[0].first() == Some(&byte),
        None => list.is_empty(),
    })
}

/// Whether the lists of the columns are those of a run with these constants, and of a column after it, where there is one.
fn are_listed(
    alloc: Global,
    case: Case,
    xs: &[u8],
    rows: &[&[u8]],
    constants: &[u8],
) -> Result<bool, AllocError> {
    for i in 0..constants.len() {
        let Some(column) = case.from.checked_add(i) else {
            return Ok(false);
        };
        if !is_listed(alloc, case, xs, rows, column, Some(constants[i]))? {
            return Ok(false);
        }
    }
    match case.wrong.and_then(|wrong| case.from.checked_add(wrong)) {
        Some(column) => is_listed(alloc, case, xs, rows, column, None),
        None => Ok(true),
    }
}

/// Whether the run is as long as it should be, has what the plain body finds, and what the lists of columns have.
fn is_found(alloc: Global, case: Case, state: &mut u32) -> Result<bool, AllocError> {
    let xs = places(alloc, case, state)?;
    let vectors = drawn_rows(alloc, case, &xs, state)?;
    let mut rows = Vec::new(alloc);
    for vector in &vectors {
        rows.push(vector.as_slice())?;
    }
    let mut out = vec![in alloc; 0; case.width]?;
    let mut plain = vec![in alloc; 0; case.width]?;
    let columns = Columns {
        xs: &xs,
        rows: &rows,
        t: case.t,
    };
    let found = run_at_once(alloc, &columns, case.from, &mut out)?;
    let length = case.wrong.unwrap_or(case.width);
    if found != Some(length) || run_plainly(alloc, &columns, case.from, &mut plain)? != found {
        return Ok(false);
    }
    let (Some(constants), Some(same)) = (out.get(..length), plain.get(..length)) else {
        return Ok(false);
    };
    Ok(constants == same && are_listed(alloc, case, &xs, &rows, constants)?)
}

/// Numbers of rows, and degrees.
const SHAPES: [(u8, u32); 5] = [(3, 1), (4, 2), (7, 1), (9, 5), (20, 3)];

/// Numbers of columns: about one vector of 16; a block, a vector of 32, one of 16 and one column more; and one column more
/// than two tiles.
const WIDTHS: [usize; 7] = [0, 1, 15, 16, 17, 177, 513];

/// The columns that can be wrong: none, the first, one in the middle and the last.
fn wrong_columns(width: usize) -> [Option<usize>; 4] {
    if width == 0 {
        return [None; 4];
    }
    [None, Some(0), Some(width / 2), Some(width - 1)]
}

#[test]
fn runs_as_the_plain_body_and_the_lists(rt: HostRuntime) -> Result<(), AllocError> {
    let mut state = 1u32;
    for (k, t) in SHAPES {
        for width in WIDTHS {
            for wrong in wrong_columns(width) {
                let case = Case {
                    k,
                    t,
                    from: 3,
                    width,
                    wrong,
                };
                assert!(rt; is_found(rt.alloc(), case, &mut state)?);
            }
        }
    }
    Ok(())
}
