//! The values of a polynomial at all bytes, 16 of them at once.

ghost use Rattle.std.specs.Prelude.{ℕ, List, ◌≡◌, ◌+◌, ◌<◌, ◌≤◌, length, map, slice_index, IfOk, MatchOption};
ghost use Rattle.gf256.specs.Field.{◌⊗◌};
ghost use Rattle.gf256.specs.Rows.{AreLanes};
ghost use Rattle.bi_poly.specs.Rows.{column};
ghost use Rattle.rr_roots.specs.Values.{ArePowers, AreTimesPlaces, AreValues, HaveNoZero, IsFirstZero};

use bi_poly::BiPoly;
use gf256::rows::{Products, add_scaled_row};
use gf256::vectors::LANES;
use std::alloc::{AllocError, Global};
use std::simd::prelude::*;

/// The product of each of 16 bytes with its place: the sum of those with the powers of two that the place is made of.
#[inline(always)]
fn times_first_places(bytes: u8x16) -> u8x16
    ensures { AreLanes 16 result (λ k. k ⊗ slice_index bytes k) 0 }
{
    let ones = u8x16::from_array([
        0, 255, 0, 255, 0, 255, 0, 255, 0, 255, 0, 255, 0, 255, 0, 255,
    ]);
    let twos = u8x16::from_array([
        0, 0, 255, 255, 0, 0, 255, 255, 0, 0, 255, 255, 0, 0, 255, 255,
    ]);
    let fours = u8x16::from_array([
        0, 0, 0, 0, 255, 255, 255, 255, 0, 0, 0, 0, 255, 255, 255, 255,
    ]);
    let eights = u8x16::from_array([
        0, 0, 0, 0, 0, 0, 0, 0, 255, 255, 255, 255, 255, 255, 255, 255,
    ]);
    let low = (bytes & ones) ^ (Products::of(2).times(bytes) & twos);
    let high = (Products::of(4).times(bytes) & fours) ^ (Products::of(8).times(bytes) & eights);
    low ^ high
}

/// Makes of each of the 16 bytes from place `16 * block` on its product with its place.
#[inline(always)]
fn times_block(row: &mut [u8], block: usize)
    requires size { length row.old ≡ 256 }
    requires inside { block < 16 }
    ensures { (xs : List ℕ) → AreTimesPlaces xs row.old block → AreTimesPlaces xs row.new (block + 1) }
{
    let at = block * 16;
    let bytes = u8x16::from_slice(&row[at..]);
    let products = Products::of(at as u8).times(bytes) ^ times_first_places(bytes);
    products.copy_to_slice(&mut row[at..]);
}

/// Makes of each of 256 bytes its product with its place.
fn times_places(row: &mut [u8])
    requires { length row.old ≡ 256 }
    ensures { (g : ℕ) → g < 256 → slice_index row.new g ≡ g ⊗ slice_index row.old g }
{
    for block in 0..16 {
        times_block(row, block);
    }
}

/// The powers of all bytes with the exponents below `count`: row e has `g^e` at place g.
///
/// `AllocError` where there is no memory for them.
pub(crate) fn powers_of_bytes(alloc: Global, count: usize) -> Result<Vec<Vec<u8>>, AllocError>
    ensures size { IfOk result (λ rows. length rows.items ≡ count) }
    ensures powers { IfOk result (λ rows. ArePowers (map (λ r. r.items) rows.items)) }
{
    let mut rows = Vec::with_capacity(alloc, count)?;
    if count == 0 {
        return Ok(rows);
    }
    rows.push(vec![in alloc; 1; 256]?)?;
    for e in 1..count {
        let mut row = Vec::from_slice(alloc, &rows[e - 1])?;
        times_places(&mut row);
        rows.push(row)?;
    }
    Ok(rows)
}

/// The values at all bytes of what stands in `q` before `x^0`: at place g that at g. There is a row of powers for each row of
/// `q`.
pub(crate) fn values_at_bytes(q: &BiPoly, powers: &[Vec<u8>]) -> [u8; 256]
    requires enough { length q.now ≤ length powers.now }
    requires powers { ArePowers (map (λ r. r.items) powers.now) }
    ensures { AreValues result (column q.now 0) }
{
    let rows = q.rows();
    let mut sums = [0; 256];
    for e in 0..rows.len() {
        let constant = rows[e].get(0).copied().unwrap_or(0);
        // So it is in most rows of a child's polynomial.
        if constant == 0 {
            continue;
        }
        add_scaled_row(&mut sums, &powers[e], constant);
    }
    sums
}

/// How many of the values from place `at` on, so many as a vector has, stand before the first that is 0: all of them where none is.
#[inline(always)]
fn count_before_zero(values: &[u8], at: usize) -> usize
    requires { at + LANES ≤ length values.now }
    ensures few { result ≤ LANES }
    ensures others { HaveNoZero values.now at (at + result) }
    ensures zero { result < LANES → slice_index values.now (at + result) ≡ 0 }
{
    let zeros = u8x32::from_slice(&values[at..])
        .simd_eq(u8x32::splat(0))
        .to_bitmask();
    if zeros == 0 {
        return LANES;
    }
    zeros.trailing_zeros() as usize
}

/// The first place from `from` on where the value is 0.
pub(crate) fn first_zero(values: &[u8; 256], from: usize) -> Option<usize>
    requires { from ≤ 256 }
    ensures { MatchOption result (HaveNoZero values.now from 256) (IsFirstZero values.now from) }
{
    let mut place = from;
    'vectors: while place + LANES <= 256 {
        let others = count_before_zero(values, place);
        place += others;
        if others < LANES {
            return Some(place);
        }
    }
    'rest: while place < 256 {
        if values[place] == 0 {
            return Some(place);
        }
        place += 1;
    }
    None
}
