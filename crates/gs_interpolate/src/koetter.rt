//! Interpolation by Koetter's iteration.

use crate::Interpolate;
use crate::basis::Basis;
use crate::layout::row_lengths;
use crate::steps::room_for_steps;
use crate::window::Window;
use bi_poly::BiPoly;
use gf256::tables::Tables;
use std::alloc::{AllocError, Global};

/// Interpolation by Koetter's iteration (Koetter 1996): it imposes the conditions one after the other, and keeps
/// polynomials that have all so far, whose leading monomials in the weighted order have different degrees in y. Each
/// condition makes one of them heavier by one and no other.
///
/// What weighs more than `d` never weighs less later, so it is dropped: nobody looks at it any more, and no coefficient that
/// weighs more than `d` is kept. One polynomial is left at the end, for if all were dropped, each would have been raised as
/// many times as its row has monomials that weigh at most `d`, and these are more than the conditions.
///
/// It begins with as many polynomials as it takes rows of monomials to outnumber the conditions, and not always `d / t + 1`.
/// They stand side by side, so that each product is of 16 coefficients at once, or 32. At each point their derivatives are
/// found once, and follow the steps from condition to condition. Each row takes the steps of a point one after the other, while
/// it lies in a cache.
///
/// Let there be n polynomials, in whose rows s monomials weigh at most `d`: more than the conditions, by at most the last
/// row. Whatever the points are, the steps take at most about `s^2 / 2` times `n / 16` such products, since none is raised
/// twice from the same weight, and the derivatives at each point, with multiplicity m and the least power e of two that is
/// not less, about `s + (e * log2(e) / 2 + m) * n` times `n / 16`. The rows take about `s * n` bytes, and the steps
/// of a point about `m^2 / 2 * n`.
pub struct Koetter;

impl Interpolate for Koetter {
    fn interpolate(
        &self,
        alloc: Global,
        points: &[(u8, u8)],
        m: u32,
        t: u32,
        d: u32,
    ) -> Result<BiPoly, AllocError> {
        let conditions = points.len() as u64 * m as u64 * (m as u64 + 1) / 2;
        let lengths = row_lengths(alloc, conditions as u32 + 1, t, d)?;
        let mut basis = Basis::new(alloc, lengths.len(), t, d)?;
        let tables = Tables::new();
        let mut window = Window::new(alloc, basis.lanes(), m as usize)?;
        let most_steps = m as usize * (m as usize + 1) / 2;
        let mut steps = room_for_steps(alloc, most_steps, basis.lanes())?;
        for &(a, b) in points {
            window = basis.pass(window, &mut steps, a, b, &tables)?;
        }
        basis.into_lightest(alloc)
    }
}
