//! The equations that zeros with multiplicities are.

ghost use Rattle.std.specs.Prelude.{◌≡◌, IfOk};
ghost use Rattle.gs_interpolate.specs.Conditions.{derivative_of, AreConditions};

use bi_poly::is_odd_binomial;
use std::alloc::{AllocError, Global};

/// That the Hasse derivative of order `(u, v)` is 0 at `(a, b)`.
#[derive(Clone, Copy)]
pub(crate) struct Condition {
    u: u32,
    v: u32,
    a: u8,
    b: u8,
}

impl Condition {
    /// That derivative of the monomial `x^i * y^j` (Hasse 1936).
    pub(crate) fn derivative_of(&self, i: u32, j: u32) -> u8
        ensures { result ≡ derivative_of self.now i j }
    {
        if !is_odd_binomial(i as usize, self.u as usize)
            || !is_odd_binomial(j as usize, self.v as usize)
        {
            return 0;
        }
        gf256::mul(
            gf256::pow(self.a, i - self.u),
            gf256::pow(self.b, j - self.v),
        )
    }
}

/// The conditions for a zero of multiplicity `m` at each of the points: for each point, those of each order `(u, v)` with
/// `u + v < m`.
pub(crate) fn conditions(
    alloc: Global,
    points: &[(u8, u8)],
    m: u32,
) -> Result<Vec<Condition>, AllocError>
    ensures { IfOk result (λ cs. AreConditions points.now m cs.items) }
{
    let mut made = Vec::new(alloc);
    'points: for &(a, b) in points {
        'orders: for order in 0..m {
            'derivatives: for u in 0..=order {
                let v = order - u;
                made.push(Condition { u, v, a, b })?;
            }
        }
    }
    Ok(made)
}
