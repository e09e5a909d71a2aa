//! Interpolation by linear algebra.

ghost use Rattle.std.specs.Prelude.{◌≡◌, ◌≢◌, ℕ, ◌+◌, ◌<◌, ◌≤◌, length, sum, IfOk};
ghost use Rattle.linear_solve.specs.Matrix.{entry};
ghost use Rattle.gs_interpolate.specs.Layout.{AreEquations, IsCoefficient, IsEquation, KeepsBefore};

use crate::basis::MOST_PLACES;
use crate::condition::{Condition, conditions};
use crate::layout::{cut, row_lengths};
use crate::{Interpolate, MOST_EQUATIONS};
use bi_poly::BiPoly;
use linear_solve::{MOST_SIDE, Table, kernel_vector};
use std::alloc::{AllocError, Global};

/// Interpolation by Gauss's elimination (Guruswami and Sudan 1999): the coefficients of the polynomial are the unknowns of
/// a linear system, in which each equation is that one Hasse derivative is 0 at one point. There is one unknown more than
/// there are equations, so that a solution is not 0.
///
/// For c equations it takes about `c^3 / 2` products of bytes, and memory for `2 * c^2` of them.
pub struct Elimination;

impl Interpolate for Elimination {
    fn interpolate(
        &self,
        alloc: Global,
        points: &[(u8, u8)],
        m: u32,
        t: u32,
        d: u32,
    ) -> Result<BiPoly, AllocError> {
        let conditions = conditions(alloc, points, m)?;
        let unknowns = conditions.len() as u32 + 1;
        let lengths = row_lengths(alloc, unknowns, t, d)?;
        let table = equations(alloc, &conditions, unknowns, &lengths)?;
        let coefficients = kernel_vector(alloc, &table)?;
        let rows = cut(alloc, &coefficients, &lengths)?;
        Ok(BiPoly::from_rows(rows))
    }
}

/// The table whose rows say the conditions of the coefficients of a polynomial with rows of these lengths.
fn equations(
    alloc: Global,
    conditions: &[Condition],
    unknowns: u32,
    lengths: &[u32],
) -> Result<Table, AllocError>
    requires few { length conditions.now ≤ MOST_EQUATIONS }
    requires size { unknowns ≤ MOST_EQUATIONS + 1 }
    requires unknowns { sum lengths.now ≡ unknowns }
    requires rows { length lengths.now ≤ MOST_PLACES }
    ensures height { IfOk result (λ table. table.rows ≡ length conditions.now) }
    ensures width { IfOk result (λ table. table.cols ≡ unknowns) }
    ensures equations { IfOk result (λ table. AreEquations table lengths.now conditions.now) }
{
    let mut table = Table::new(alloc, conditions.len() as u32, unknowns)?;
    for (r, condition) in conditions.iter().enumerate() {
        write_equation(&mut table, r as u32, lengths, condition);
    }
    Ok(table)
}

/// Writes the condition into row `r` of the table.
fn write_equation(table: &mut Table, r: u32, lengths: &[u32], condition: &Condition)
    requires row { r < table.old.rows }
    requires room { sum lengths.now ≤ table.old.cols }
    requires rows { length lengths.now ≤ MOST_PLACES }
    requires small { table.old.cols ≤ MOST_SIDE }
    ensures height { table.new.rows ≡ table.old.rows }
    ensures width { table.new.cols ≡ table.old.cols }
    ensures written { IsEquation table.new r lengths.now condition.now }
    ensures kept { (s k : ℕ) → s ≢ r → k < table.old.cols → entry table.new s k ≡ entry table.old s k }
{
    let mut column = 0;
    for (j, &length) in lengths.iter().enumerate() {
        write_row(table, r, column, length, j as u32, condition);
        column += length;
    }
}

/// Writes the condition's derivatives of `x^i * y^j`, for each i below `length`, into row `r` of the table from `column` on.
fn write_row(table: &mut Table, r: u32, column: u32, length: u32, j: u32, condition: &Condition)
    requires row { r < table.old.rows }
    requires room { column + length ≤ table.old.cols }
    requires small { table.old.cols ≤ MOST_SIDE }
    ensures height { table.new.rows ≡ table.old.rows }
    ensures width { table.new.cols ≡ table.old.cols }
    ensures written { (i : ℕ) → i < length → IsCoefficient table.new r (column + i) condition.now i j }
    ensures kept { KeepsBefore table.new table.old r column }
{
    for i in 0..length {
        table.set(r, column + i, condition.derivative_of(i, j));
    }
}
