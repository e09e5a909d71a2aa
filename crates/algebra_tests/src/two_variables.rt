// Polynomials in two variables.
use crate::rows::{are, from_slices, has_rows, is_nonzero, is_same, is_within_limits};
use bi_poly::BiPoly;
use std::alloc::{AllocError, Global};

/// `y^2 + (1 + x)*y + x`, which is `(y - x) * (y - 1)`, so that `x` and `1` are what stands for y where it is 0.
fn two_roots(alloc: Global) -> Result<BiPoly, AllocError> {
    from_slices(alloc, &[&[0x00, 0x01], &[0x01, 0x01], &[0x01]])
}

/// The weighted degree, where it is small enough for one.
fn weight(q: &BiPoly, t: u8) -> Option<u64> {
    if t > 254 || !is_within_limits(q) {
        return None;
    }
    q.weighted_degree(u32::from(t))
}

#[test]
fn degree_and_derivative_of_two_roots(rt: HostRuntime) -> Result<(), AllocError> {
    let q = two_roots(rt.alloc())?;
    assert!(rt; weight(&q, 1) == Some(2));
    assert!(rt; q.hasse(1, 0, 0x00, 0x03) == 0x02);
    Ok(())
}

/// Whether the polynomial is 0 where this stands for y.
fn is_zero_at(alloc: Global, q: &BiPoly, phi: &[u8]) -> Result<bool, AllocError> {
    Ok(is_same(&q.at_poly(alloc, phi)?, &[]))
}

#[test]
fn both_roots_are_roots(rt: HostRuntime) -> Result<(), AllocError> {
    let q = two_roots(rt.alloc())?;
    assert!(rt; is_zero_at(rt.alloc(), &q, &[0x01])?);
    assert!(rt; is_zero_at(rt.alloc(), &q, &[0x01, 0x00])?);
    assert!(rt; is_zero_at(rt.alloc(), &q, &[0x00, 0x01])?);
    assert!(rt; !is_zero_at(rt.alloc(), &q, &[0x02])?);
    // Of the constants 1 alone is one: where 0 stands for y, x is left.
    assert!(rt; q.vanishes_at(0x01));
    assert!(rt; !q.vanishes_at(0x00));
    assert!(rt; !q.vanishes_at(0x02));
    Ok(())
}

/// Whether these are the coefficients of `x^2*y^2 + (x + x^2)*y`, and its degree in x and y and its derivatives.
fn is_shifted(q: &BiPoly) -> bool {
    has_rows(q, &[&[], &[0x00, 0x01, 0x01], &[0x00, 0x00, 0x01]])
        && weight(q, 0) == Some(2)
        && q.hasse(1, 1, 0, 0) == 0x01
        && q.hasse(2, 1, 0, 0) == 0x01
        && q.hasse(2, 2, 0, 0) == 0x01
}

/// Divides by x as often as can be, where that is once.
fn is_stripped_once(q: &mut BiPoly) -> bool {
    is_nonzero(q) && q.strip_x() == 1
}

#[test]
fn one_root_is_shifted_to_zero(rt: HostRuntime) -> Result<(), AllocError> {
    let q = two_roots(rt.alloc())?;
    let mut shifted = q.shift_root(rt.alloc(), 0x01)?;
    assert!(rt; is_shifted(&shifted));
    assert!(rt; is_stripped_once(&mut shifted));
    // What is left is `x*y^2 + (1 + x)*y`, and y where x is 0.
    assert!(rt; has_rows(&shifted, &[&[], &[0x01, 0x01], &[0x00, 0x01]]));
    let constant = shifted.at_zero(rt.alloc())?;
    assert!(rt; constant.as_slice() == [0x00, 0x01, 0x00].as_slice());
    Ok(())
}

#[test]
fn zero_has_no_degree(rt: HostRuntime) -> Result<(), AllocError> {
    let zero = from_slices(rt.alloc(), &[&[], &[0x00, 0x00]])?;
    assert!(rt; is_within_limits(&zero));
    assert!(rt; weight(&zero, 1) == None);
    Ok(())
}
