//! The places of a polynomial's coefficients in a vector: row after row.

ghost use Rattle.std.specs.Prelude.{◌≤◌, length, map, sum, IfOk};
ghost use Rattle.interpolation.specs.Monomials.{monomials};
ghost use Rattle.gs_interpolate.specs.Layout.{IsLayout, IsCut};

use crate::MOST_WEIGHTED_DEGREE;
use std::alloc::{AllocError, Global};

/// The lengths of the rows of a polynomial with `size` coefficients, of `(1, t)`-weighted degree at most `d`: row 0 is as
/// long as it can be, then row 1, and so on until there are enough.
pub(crate) fn row_lengths(alloc: Global, size: u32, t: u32, d: u32) -> Result<Vec<u32>, AllocError>
    requires weight { 1 ≤ t }
    requires degree { d ≤ MOST_WEIGHTED_DEGREE }
    requires enough { size ≤ monomials t d }
    ensures { IfOk result (λ lengths. IsLayout lengths.items size t d) }
{
    let mut lengths = Vec::new(alloc);
    let mut missing = size;
    let mut longest = d + 1;
    while missing > 0 {
        let length = missing.min(longest);
        lengths.push(length)?;
        missing -= length;
        longest = longest.saturating_sub(t);
    }
    Ok(lengths)
}

/// The rows of these lengths that make up the vector.
pub(crate) fn cut(alloc: Global, vector: &[u8], lengths: &[u32]) -> Result<Vec<Vec<u8>>, AllocError>
    requires { sum lengths.now ≤ length vector.now }
    ensures { IfOk result (λ rows. IsCut (map (λ r. r.items) rows.items) lengths.now vector.now) }
{
    let mut rows = Vec::new(alloc);
    let mut rest = vector;
    for &length in lengths {
        let (row, after) = rest.split_at(length as usize);
        rows.push(Vec::from_slice(alloc, row)?)?;
        rest = after;
    }
    Ok(rows)
}
