//! Polynomials side by side, so that a step of the iteration is the same for all of them, 32 at once or 16: the coefficients that
//! they have at one power of x stand together in a row, one in each lane, and then those at the next power. There may be
//! more lanes than polynomials.

ghost use Rattle.std.specs.Prelude.{ℕ, ◌≡◌, ◌≢◌, ◌+◌, ◌-◌, ◌*◌, ◌<◌, ◌≤◌, length, slice_index, IfOk};
ghost use Rattle.std.specs.Simd.Lanes.{chunk};
ghost use Rattle.gf256.specs.Field.{◌⊕◌};
ghost use Rattle.gs_interpolate.specs.Family.{AreCoefficients, AreMultiplesAdded, IsCellStep, IsRowStep, AreVectors, FillsVectors, IsReach, StaysWhole};

use gf256::rows::add_scaled_row;
use gf256::tables::Tables;
use gf256::vectors::LANES;
use std::alloc::{AllocError, Global};
use std::simd::prelude::*;

/// As many vectors of factors as are held at once. A list within the limit on costs has no more.
pub(crate) const MOST_VECTORS: usize = 8;

/// Adds `own` times the factors. Where it is 0, there is nothing to do.
fn add_multiple(cell: &mut [u8], factors: &[u8], own: u8)
    requires { length factors.now ≡ length cell.old }
    ensures { AreMultiplesAdded factors.now own cell.new cell.old }
{
    if own == 0 {
        return;
    }
    add_scaled_row(cell, factors, own);
}

/// Adds `carry` to the coefficient of the polynomial at place `p`.
#[inline(always)]
fn add_carry(cell: &mut [u8], p: usize, carry: u8)
    requires { p < length cell.old }
    ensures pivot { slice_index cell.new p ≡ slice_index cell.old p ⊕ carry }
    ensures others { (g : ℕ) → g ≢ p → slice_index cell.new g ≡ slice_index cell.old g }
{
    cell[p] = gf256::add(cell[p], carry);
}

/// Takes a step at one power of x, whose coefficients are `cell`. The polynomial at place `p` had the coefficient `carry` at
/// the power before, and has the result here.
fn step_cell(cell: &mut [u8], factors: &[u8], p: usize, carry: u8) -> u8
    requires size { length factors.now ≡ length cell.old }
    requires inside { p < length cell.old }
    ensures own { result ≡ slice_index cell.old p }
    ensures step { IsCellStep factors.now p carry cell.new cell.old }
{
    let own = cell[p];
    add_multiple(cell, factors, own);
    add_carry(cell, p, carry);
    own
}

/// The first of these bytes, in vectors.
#[inline(always)]
fn vectors_of<const VECTORS: usize>(bytes: &[u8]) -> [u8x32; VECTORS]
    requires few { VECTORS ≤ MOST_VECTORS }
    requires room { VECTORS * LANES ≤ length bytes.now }
    ensures { AreVectors VECTORS bytes.now result }
{
    let mut vectors = [u8x32::splat(0); VECTORS];
    for v in 0..VECTORS {
        vectors[v] = u8x32::from_slice(&bytes[v * LANES..]);
    }
    vectors
}

/// Adds `own` times the factors, of which the first are in the vectors `held`, and the last 16 in `last`: past the vectors
/// there may be 16 more. Where `own` is 0, zeros are added: to look whether it is would take longer.
#[inline(always)]
fn add_held_multiple<const VECTORS: usize>(
    cell: &mut [u8],
    factors: &[u8],
    held: &[u8x32; VECTORS],
    last: u8x16,
    own: u8,
    tables: &Tables,
)
    requires same { length factors.now ≡ length cell.old }
    requires size { FillsVectors VECTORS (length cell.old) }
    requires held { AreVectors VECTORS factors.now held.now }
    requires last { last ≡ chunk (length factors.now - 16) 16 factors.now }
    ensures { AreMultiplesAdded factors.now own cell.new cell.old }
{
    // Read once, and not again after each write.
    let products = tables.products(own);
    for v in 0..VECTORS {
        let sum = u8x32::from_slice(&cell[v * LANES..]) ^ products.times(held[v]);
        sum.copy_to_slice(&mut cell[v * LANES..]);
    }
    if VECTORS * LANES < cell.len() {
        let sum = u8x16::from_slice(&cell[VECTORS * LANES..]) ^ products.times(last);
        sum.copy_to_slice(&mut cell[VECTORS * LANES..]);
    }
}

/// Takes a step in one row of so many vectors of lanes, and perhaps 16 more, as `step_row` does. The factors stay in vectors.
#[inline(always)]
fn step_held_row<const VECTORS: usize>(
    row: &mut [u8],
    factors: &[u8],
    p: usize,
    count: usize,
    tables: &Tables,
)
    requires vectors { VECTORS ≤ MOST_VECTORS }
    requires lanes { FillsVectors VECTORS (length factors.now) }
    requires inside { p < length factors.now }
    requires room { count * length factors.now ≤ length row.old }
    ensures { IsRowStep factors.now p row.new row.old count }
{
    let lanes = factors.len();
    let held = vectors_of::<VECTORS>(factors);
    let last = u8x16::from_slice(&factors[lanes - 16..]);
    let mut carry = 0;
    for i in 0..count {
        let start = i * lanes;
        let cell = &mut row[start..start + lanes];
        let own = cell[p];
        add_held_multiple::<VECTORS>(cell, factors, &held, last, own, tables);
        add_carry(cell, p, carry);
        carry = own;
    }
}

/// Takes a step in one row, as `step_row` does, whatever the lanes are.
fn step_row_of_any(row: &mut [u8], factors: &[u8], p: usize, count: usize)
    requires inside { p < length factors.now }
    requires room { count * length factors.now ≤ length row.old }
    ensures { IsRowStep factors.now p row.new row.old count }
{
    let lanes = factors.len();
    let mut carry = 0;
    for i in 0..count {
        let start = i * lanes;
        carry = step_cell(&mut row[start..start + lanes], factors, p, carry);
    }
}

/// Takes a step in one row of more than two vectors of lanes, as `step_row` does.
#[inline(never)]
fn step_wide_row(row: &mut [u8], factors: &[u8], p: usize, count: usize, tables: &Tables)
    requires inside { p < length factors.now }
    requires room { count * length factors.now ≤ length row.old }
    ensures { IsRowStep factors.now p row.new row.old count }
{
    match factors.len() {
        48 => step_held_row::<1>(row, factors, p, count, tables),
        64 | 80 => step_held_row::<2>(row, factors, p, count, tables),
        96 | 112 => step_held_row::<3>(row, factors, p, count, tables),
        128 | 144 => step_held_row::<4>(row, factors, p, count, tables),
        160 | 176 => step_held_row::<5>(row, factors, p, count, tables),
        192 | 208 => step_held_row::<6>(row, factors, p, count, tables),
        224 | 240 => step_held_row::<7>(row, factors, p, count, tables),
        256 => step_held_row::<8>(row, factors, p, count, tables),
        _ => step_row_of_any(row, factors, p, count),
    }
}

/// Takes a step in one row, at the powers of x below `x^count`: to each other polynomial the multiple of that at place `p`,
/// the pivot, by its factor is added, and the pivot is multiplied by `x - a`, where its own factor is `a + 1`. For with
/// `a + 1` times itself it is a times itself, and to that its product with x is added.
pub(crate) fn step_row(row: &mut [u8], factors: &[u8], p: usize, count: usize, tables: &Tables)
    requires inside { p < length factors.now }
    requires room { count * length factors.now ≤ length row.old }
    ensures { IsRowStep factors.now p row.new row.old count }
{
    match factors.len() {
        16 => step_held_row::<0>(row, factors, p, count, tables),
        32 => step_held_row::<1>(row, factors, p, count, tables),
        _ => step_wide_row(row, factors, p, count, tables),
    }
}

/// How many of the first `count` powers of x the polynomial at place `p` reaches: at none past these has it a coefficient, and
/// at the last of them it has one.
fn powers_reached(row: &[u8], lanes: usize, p: usize, count: usize) -> usize
    requires inside { p < lanes }
    requires room { count * lanes ≤ length row.now }
    ensures { IsReach lanes p row.now count result }
{
    let mut powers = count;
    'zeros: while powers > 0 && row[(powers - 1) * lanes + p] == 0 {
        powers -= 1;
    }
    powers
}

/// Takes a step in one row, as `step_row` does, where there is something to do: at the power behind the last at which the
/// pivot has a coefficient only that moves up, and past it nothing changes.
fn step_reached(row: &mut [u8], factors: &[u8], p: usize, count: usize, tables: &Tables)
    requires inside { p < length factors.now }
    requires room { count * length factors.now ≤ length row.old }
    ensures { IsRowStep factors.now p row.new row.old count }
{
    let lanes = factors.len();
    let powers = powers_reached(row, lanes, p, count);
    if powers == 0 {
        return;
    }
    let last = row[(powers - 1) * lanes + p];
    step_row(row, factors, p, powers, tables);
    if powers == count {
        return;
    }
    row[powers * lanes + p] = last;
}

/// Takes a step in one row, as `step_row` does. A row that has no place for so many coefficients is made longer, by zeros.
///
/// `AllocError` where there is no memory for them.
pub(crate) fn step_long_row(
    row: &mut Vec<u8>,
    factors: &[u8],
    p: usize,
    count: usize,
    tables: &Tables,
) -> Result<(), AllocError>
    requires inside { p < length factors.now }
    requires small { count * length factors.now < usize.MAX }
    ensures step { IfOk result (λ _. IsRowStep factors.now p row.new.items row.old.items count) }
    ensures whole { IfOk result (λ _. StaysWhole (length factors.now) row.new.items row.old.items) }
{
    let room = count * factors.len();
    let missing = room.saturating_sub(row.len());
    row.resize(row.len() + missing, 0)?;
    step_reached(row, factors, p, count, tables);
    Ok(())
}

/// The first `count` coefficients of the polynomial at place `g`, of those in one row; zeros past its end.
///
/// `AllocError` where there is no memory for them.
pub(crate) fn coefficients(
    alloc: Global,
    row: &[u8],
    lanes: usize,
    g: usize,
    count: usize,
) -> Result<Vec<u8>, AllocError>
    requires small { count * lanes + g < usize.MAX }
    ensures { IfOk result (λ made. AreCoefficients lanes g count row.now made.items) }
{
    let mut made = Vec::with_capacity(alloc, count)?;
    for i in 0..count {
        made.push(row.get(i * lanes + g).copied().unwrap_or(0))?;
    }
    Ok(made)
}
