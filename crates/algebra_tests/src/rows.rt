// Polynomials in two variables for the tests.
ghost use Rattle.std.specs.Prelude.{◌≡◌, ◌↔◌, IsTrue, All, length};
ghost use Rattle.bi_poly.specs.Rows.{IsZero, IsWithinLimits};

use bi_poly::BiPoly;
use std::alloc::{AllocError, Global};

/// The polynomial with these rows.
pub fn from_slices(alloc: Global, slices: &[&[u8]]) -> Result<BiPoly, AllocError> {
    let mut rows = Vec::new(alloc);
    for slice in slices {
        rows.push(Vec::from_slice(alloc, slice)?)?;
    }
    Ok(BiPoly::from_rows(rows))
}

/// Whether it is small enough for its weighted degree.
pub fn is_within_limits(q: &BiPoly) -> bool
    ensures { IsTrue result → IsWithinLimits q.now }
{
    let rows = q.rows();
    if rows.len() > 65537 {
        return false;
    }
    for row in rows {
        if row.len() > 2147483648 {
            return false;
        }
    }
    true
}

/// Whether each coefficient of `p` is 0.
fn is_zero(p: &[u8]) -> bool
    ensures { IsTrue result ↔ All (λ c. c ≡ 0) p.now }
{
    p.iter().all(|&c| c == 0)
}

/// Whether some coefficient is not 0.
pub fn is_nonzero(q: &BiPoly) -> bool
    ensures { IsTrue result → ¬ IsZero q.now }
{
    for row in q.rows() {
        if !is_zero(row) {
            return true;
        }
    }
    false
}

/// The coefficient at `x^i`.
fn coefficient(p: &[u8], i: usize) -> u8 {
    match p.get(i) {
        Some(&c) => c,
        None => 0,
    }
}

/// Whether both are the same polynomial: zeros at the end change nothing.
pub fn is_same(p: &[u8], q: &[u8]) -> bool {
    (0..p.len().max(q.len())).all(|i| coefficient(p, i) == coefficient(q, i))
}

/// Whether the rows are these polynomials.
pub fn has_rows(q: &BiPoly, polynomials: &[&[u8]]) -> bool {
    let rows = q.rows();
    if rows.len() != polynomials.len() {
        return false;
    }
    for j in 0..rows.len() {
        if !is_same(&rows[j], polynomials[j]) {
            return false;
        }
    }
    true
}

/// Whether the lists are these.
pub fn are(lists: &[Vec<u8>], slices: &[&[u8]]) -> bool {
    lists.len() == slices.len() && (0..lists.len()).all(|i| lists[i].as_slice() == slices[i])
}
