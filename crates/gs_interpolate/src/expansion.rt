//! Polynomials side by side about another point: the coefficients that they have at one power of x stand together, as many
//! as there are polynomials, and then those at the next power.
//!
//! In characteristic 2, `(x - a)^e` is `x^e - a^e` where e is a power of two. So the first e coefficients about a are those
//! of the remainder by `x^e - a^e`, which takes one product for each coefficient. And where of the e coefficients of a
//! remainder both halves are about a, the second half times `a^(e/2)`, added to the first, makes the whole so, for
//! `(x - a)^(e/2)` is `x^(e/2) - a^(e/2)`.

ghost use Rattle.std.specs.Prelude.{◌≡◌, ℕ, List, ◌+◌, ◌-◌, ◌*◌, ◌%◌, ◌<◌, ◌≤◌, length, slice_index};
ghost use Rattle.std.specs.Int.{IsPowerOfTwo};
ghost use Rattle.gf256.specs.Field.{◌⊕◌, ◌⊗◌, power};
ghost use Rattle.gs_interpolate.specs.Family.{lane};
ghost use Rattle.gs_interpolate.specs.Expansion.{AreExpanded, AreFolded, AreHalvesAdded, AreRaised, IsPieceAdded};

use crate::basis::MOST_LANES;
use gf256::rows::{Products, add_row, add_scaled_row, clear};
use gf256::vectors::{LANES, LookUp, Vectors};
use std::simd::prelude::*;

/// More coefficients than any expansion has.
pub(crate) const MOST_TERMS: usize = 512;

/// N bytes of the sums from place `at` on become what they were times the factor, plus those of the row.
#[inline(always)]
fn raise_lanes<const N: usize>(sums: &mut [u8], row: &[u8], products: &Products, at: usize)
where
    Vectors: LookUp<N>,
    requires same { length row.now ≡ length sums.old }
    requires within { at + N ≤ length sums.old }
    ensures { (before : List ℕ) → AreRaised products.now row.now sums.old before at
        → AreRaised products.now row.now sums.new before (at + N) }
{
    let more = products.times(Simd::<u8, N>::from_slice(&sums[at..]));
    let sum = Simd::from_slice(&row[at..]) ^ more;
    sum.copy_to_slice(&mut sums[at..]);
}

/// The sums become what they were times the factor, plus a row as long.
fn raise(sums: &mut [u8], row: &[u8], products: &Products)
    requires { length row.now ≡ length sums.old }
    ensures { AreRaised products.now row.now sums.new sums.old (length sums.old) }
{
    // Read once, and not again after each write.
    let held = products.copied();
    let mut at = 0;
    'wide: while sums.len() - at >= LANES {
        raise_lanes::<LANES>(sums, row, &held, at);
        at += LANES;
    }
    'lanes: while sums.len() - at >= 16 {
        raise_lanes::<16>(sums, row, &held, at);
        at += 16;
    }
    for k in at..sums.len() {
        sums[k] = gf256::add(row[k], gf256::mul(products.factor(), sums[k]));
    }
}

/// Makes N sums the remainder of a row of whole pieces, as `fold` does. Until the end they stay in a vector.
#[inline(always)]
fn fold_held<const N: usize>(sums: &mut [u8], row: &[u8], products: &Products)
where
    Vectors: LookUp<N>,
    requires some { 1 ≤ N }
    requires size { length sums.old ≡ N }
    requires whole { length row.now % N ≡ 0 }
    ensures { AreFolded products.now row.now sums.new }
{
    // Read once, and not again in each turn.
    let held = products.copied();
    let mut sum = Simd::<u8, N>::splat(0);
    let mut at = row.len();
    'pieces: while at >= N {
        at -= N;
        let more = held.times(sum);
        sum = Simd::from_slice(&row[at..]) ^ more;
    }
    sum.copy_to_slice(sums);
}

/// Makes the sums the remainder of a row, as `fold` does, whatever their length is.
fn fold_pieces(sums: &mut [u8], row: &[u8], products: &Products)
    requires { 1 ≤ length sums.old }
    ensures { AreFolded products.now row.now sums.new }
{
    clear(sums);
    let size = sums.len();
    for b in (0..row.len().div_ceil(size)).rev() {
        let start = b * size;
        let end = row.len().min(start + size);
        raise(&mut sums[..end - start], &row[start..end], products);
    }
}

/// Makes the sums the remainder of a row: of its pieces as long as they are the first, plus the factor times the second,
/// and so on, by Horner's rule.
fn fold(sums: &mut [u8], row: &[u8], products: &Products)
    requires { 1 ≤ length sums.old }
    ensures { AreFolded products.now row.now sums.new }
{
    if sums.len() == 16 && row.len() % 16 == 0 {
        fold_held::<16>(sums, row, products);
    } else if sums.len() == LANES && row.len() % LANES == 0 {
        fold_held::<LANES>(sums, row, products);
    } else {
        fold_pieces(sums, row, products);
    }
}

/// Adds values at the power j to the remainder by `x^terms - a^terms`, which has `terms` pieces as long as they are.
pub(crate) fn add_values(sums: &mut [u8], values: &[u8], j: usize, terms: usize, a: u8)
    requires some { 1 ≤ terms }
    requires size { length sums.old ≡ terms * length values.now }
    requires few { j ≤ MOST_LANES }
    ensures { IsPieceAdded (power a (j - j % terms)) (j % terms) values.now sums.new sums.old }
{
    if j < terms {
        let start = j * values.len();
        return add_row(&mut sums[start..start + values.len()], values);
    }
    let at = j % terms;
    let start = at * values.len();
    let factor = gf256::pow(a, (j - at) as u32);
    add_scaled_row(&mut sums[start..start + values.len()], values, factor);
}

/// Adds to the first half of a pair of pieces, of `size` bytes each, the second half times the factor.
fn add_half(pair: &mut [u8], size: usize, factor: u8)
    requires { length pair.old ≡ size + size }
    ensures first { (k : ℕ) → k < size
        → slice_index pair.new k ≡ slice_index pair.old k ⊕ factor ⊗ slice_index pair.old (size + k) }
    ensures second { (k : ℕ) → k < size → slice_index pair.new (size + k) ≡ slice_index pair.old (size + k) }
{
    let (low, high) = pair.split_at_mut(size);
    add_scaled_row(low, high, factor);
}

/// Does so in each of so many pairs.
fn add_halves(cells: &mut [u8], size: usize, pairs: usize, factor: u8)
    requires { pairs * (size + size) ≤ length cells.old }
    ensures { AreHalvesAdded factor size pairs cells.new cells.old }
{
    for pair in 0..pairs {
        let start = pair * (size + size);
        add_half(&mut cells[start..start + (size + size)], size, factor);
    }
}

/// Makes of polynomials with `terms` coefficients those about a. The halves of shorter remainders come first, since each power of
/// a that they take is the square of the one before.
pub(crate) fn expand(cells: &mut [u8], lanes: usize, terms: usize, a: u8)
    requires some { 1 ≤ lanes }
    requires power { IsPowerOfTwo terms }
    requires few { terms ≤ MOST_TERMS }
    requires size { length cells.old ≡ terms * lanes }
    ensures { AreExpanded lanes terms a cells.new (λ g. lane lanes g cells.old) }
{
    let mut pairs = terms / 2;
    let mut size = lanes;
    let mut power = a;
    'halves: while pairs > 0 {
        add_halves(cells, size, pairs, power);
        pairs /= 2;
        size *= 2;
        power = gf256::mul(power, power);
    }
}

/// How many of the first `terms` coefficients of a row of `len` bytes may differ from 0, or more: a power of two.
fn terms_used(len: usize, lanes: usize, terms: usize) -> usize
    requires power { IsPowerOfTwo terms }
    requires small { terms * lanes < usize.MAX }
    ensures power { IsPowerOfTwo result }
    ensures few { result ≤ terms }
    ensures enough { result < terms → len ≤ result * lanes }
{
    let mut used = terms;
    'halves: while used > 1 && len <= used / 2 * lanes {
        used /= 2;
    }
    used
}

/// Makes `made` the first `terms` coefficients about a of each of the polynomials in one row. Those of a short row have no
/// more about a than it has. `whole` has the products with `a^terms`.
pub(crate) fn expand_row(
    made: &mut [u8],
    row: &[u8],
    lanes: usize,
    terms: usize,
    a: u8,
    whole: &Products,
)
    requires factor { whole.now ≡ power a terms }
    requires some { 1 ≤ lanes }
    requires power { IsPowerOfTwo terms }
    requires few { terms ≤ MOST_TERMS }
    requires size { length made.old ≡ terms * lanes }
    ensures { AreExpanded lanes terms a made.new (λ g. lane lanes g row.now) }
{
    fold(made, row, whole);
    let used = terms_used(row.len(), lanes, terms);
    expand(&mut made[..used * lanes], lanes, used, a);
}
