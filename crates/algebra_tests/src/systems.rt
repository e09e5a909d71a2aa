// Systems of linear equations.
ghost use Rattle.std.specs.Prelude.{◌≡◌, ◌<◌, ◌≤◌, length, IfOk};

use linear_solve::{MOST_SIDE, Table, kernel_vector};
use std::alloc::{AllocError, Global};

/// The table of one row, `01 02`.
fn one_row(alloc: Global) -> Result<Table, AllocError>
    ensures rows { IfOk result (λ t. t.rows ≡ 1) }
    ensures cols { IfOk result (λ t. t.cols ≡ 2) }
{
    let mut table = Table::new(alloc, 1, 2)?;
    table.set(0, 0, 0x01);
    table.set(0, 1, 0x02);
    Ok(table)
}

#[test]
fn entries_stand_where_they_were_set(rt: HostRuntime) -> Result<(), AllocError> {
    let table = one_row(rt.alloc())?;
    assert!(rt; table.get(0, 0) == 0x01);
    assert!(rt; table.get(0, 1) == 0x02);
    Ok(())
}

/// Whether this is one of the 255 nonzero multiples of `02 01`.
fn is_multiple(v: &[u8]) -> bool {
    v.len() == 2 && v[1] != 0 && v[0] == gf256::mul(v[1], 0x02)
}

#[test]
fn worked_row(rt: HostRuntime) -> Result<(), AllocError> {
    let table = one_row(rt.alloc())?;
    let v = kernel_vector(rt.alloc(), &table)?;
    assert!(rt; is_multiple(&v));
    Ok(())
}

/// A table of drawn bytes of which only the bits of the mask are kept.
fn drawn_table(alloc: Global, rows: u32, cols: u32, mask: u8) -> Result<Table, AllocError>
    requires few_rows { rows ≤ MOST_SIDE }
    requires few_cols { cols ≤ MOST_SIDE }
    ensures rows { IfOk result (λ t. t.rows ≡ rows) }
    ensures cols { IfOk result (λ t. t.cols ≡ cols) }
{
    let mut table = Table::new(alloc, rows, cols)?;
    let mut state = 1u32;
    for i in 0..rows {
        for j in 0..cols {
            state = state.wrapping_mul(1664525).wrapping_add(1013904223);
            table.set(i, j, (state >> 24) as u8 & mask);
        }
    }
    Ok(table)
}

/// The inner product of row `i` and the vector, by multiplying out.
fn multiplied_out(table: &Table, i: u32, cols: u32, v: &[u8]) -> u8
    requires row { i < table.now.rows }
    requires cols { cols ≡ table.now.cols }
    requires width { length v.now ≡ table.now.cols }
{
    let mut sum = 0;
    for j in 0..cols {
        sum = gf256::add(sum, gf256::mul(table.get(i, j), v[j as usize]));
    }
    sum
}

/// Whether the vector is not 0, and the table sends it to 0.
fn is_solution(table: &Table, rows: u32, cols: u32, v: &[u8]) -> bool
    requires rows { rows ≡ table.now.rows }
    requires cols { cols ≡ table.now.cols }
    requires width { length v.now ≡ table.now.cols }
{
    for i in 0..rows {
        if multiplied_out(table, i, cols, v) != 0 {
            return false;
        }
    }
    v.iter().any(|&x| x != 0)
}

/// Whether the drawn system of this size is solved.
fn is_solved(alloc: Global, rows: u32, cols: u32, mask: u8) -> Result<bool, AllocError>
    requires more { rows < cols }
    requires few { cols ≤ 41 }
{
    let table = drawn_table(alloc, rows, cols, mask)?;
    let v = kernel_vector(alloc, &table)?;
    Ok(is_solution(&table, rows, cols, &v))
}

// Few bits make rows that depend on each other, and none make a table of zeros.
#[test]
fn drawn_systems_are_solved(rt: HostRuntime) -> Result<(), AllocError> {
    assert!(rt; is_solved(rt.alloc(), 0, 1, 0xff)?);
    assert!(rt; is_solved(rt.alloc(), 1, 5, 0xff)?);
    assert!(rt; is_solved(rt.alloc(), 7, 8, 0xff)?);
    assert!(rt; is_solved(rt.alloc(), 3, 9, 0x00)?);
    assert!(rt; is_solved(rt.alloc(), 9, 10, 0x01)?);
    assert!(rt; is_solved(rt.alloc(), 12, 20, 0x01)?);
    assert!(rt; is_solved(rt.alloc(), 40, 41, 0xff)?);
    Ok(())
}
