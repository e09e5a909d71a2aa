//! Polynomials in two variables over GF(256), as the list decoding of Guruswami and Sudan (1999)
//! uses them.
//!
//! Promised: a [`BiPoly`] has exactly the Hasse derivatives, the weighted degree, the greatest
//! power of x that divides it and the substitutions for y that the contracts name. Want of memory
//! is the only error, and `from_rows`, `rows`, `hasse`, `weighted_degree`, `strip_x` and `vanishes_at`
//! take none.
//! [`laws`] has what the decoder rests on: a polynomial is the sum of its Hasse derivatives at a
//! point times the powers about it, and a zero of multiplicity m becomes a factor `(x - a)^m` once
//! a polynomial through that point stands for y.
//!
//! Not promised: anything of time. `shift_root` adds, for each pair of rows, at most one to the
//! other as a multiple, 16 coefficients at once, and `at_poly` for each row as many as the product has
//! coefficients times those of `phi`.
#![tactic(auto)]

pub mod laws;
mod product;
mod row;

ghost use Rattle.std.specs.Prelude.{◌≡◌, ℕ, [], ◌∷◌, ◌<◌, ◌≤◌, ◌↔◌, IsTrue, length, map, slice_index, MatchOption, IfOk};
ghost use Rattle.gf256.specs.Field.{◌⊕◌};
ghost use Rattle.gf256.specs.Polynomial.{val};
ghost use Rattle.uni_poly.specs.Taylor.{taylor};
ghost use Rattle.bi_poly.specs.Rows.{row as row_of, column, AreBytes, IsZero, IsWithinLimits, IsWidth};
ghost use Rattle.bi_poly.specs.Degree.{IsWeightedDegree, IsOrderInX, without_first};
ghost use Rattle.bi_poly.specs.Hasse.{hasse};
ghost use Rattle.bi_poly.specs.Substitution.{at_poly_coef, AreDerivativesAdded, IsAtPoly, IsShiftedRoot, shifted_row};

use crate::laws::coefficients_are_bytes;
use crate::product::multiply_and_add;
pub use crate::row::is_odd_binomial;
use crate::row::{coefficient, degree, derivative, drop_first, order};
use gf256::rows::clear;
use quantity_limits::MOST_DEGREE;
use std::alloc::{AllocError, Global};
use std::marker::Model;

/// A polynomial in x and y. Contracts see the list of its rows, row j being the polynomial in x
/// before `y^j`, as the list of its coefficients from that of `x^0` on. Zeros at the end of a row,
/// and rows of zeros at the end, change nothing.
#[derive(Drop)]
pub struct BiPoly {
    rows: Vec<Vec<u8>>,
}

impl Model for BiPoly {
    ghost use Rattle.std.specs.Prelude.{ℕ, List, map};

    ghost Value = { List (List ℕ) };

    ghost view = { λ q. map (λ r. r.items) q.rows.items };
}

impl BiPoly {
    /// The polynomial whose row j is `rows[j]`: rows `00 01`, `01 01` and `01` are
    /// `y^2 + (1 + x)*y + x`.
    pub fn from_rows(rows: Vec<Vec<u8>>) -> BiPoly
        ensures { result ≡ map (λ r. r.items) rows.items }
    {
        BiPoly { rows }
    }

    /// The rows, that before `y^0` first.
    pub fn rows(&self) -> &[Vec<u8>]
        ensures { map (λ r. r.items) result.now ≡ self.now }
    {
        &self.rows
    }

    /// How many rows there are.
    fn len(&self) -> usize
        ensures { result ≡ length self.now }
    {
        self.rows.len()
    }

    /// Row `j`, which must be there.
    fn row(&self, j: usize) -> &[u8]
        requires { j < length self.now }
        ensures { result.now ≡ row_of self.now j }
    {
        &self.rows[j]
    }

    /// The Hasse derivative of order `(u, v)` at `(a, b)` (Hasse 1936): the sum over i and j of
    /// `C(i, u) * C(j, v) * q_ij * a^(i - u) * b^(j - v)`, where a binomial coefficient counts as 1
    /// where it is odd and as 0 where it is even. That of order `(1, 0)` at `(00, 03)` of
    /// `y^2 + (1 + x)*y + x` is `02`.
    ///
    /// Where it is 0 for each `u + v < m`, the polynomial has a zero of multiplicity m at `(a, b)`.
    pub fn hasse(&self, u: u32, v: u32, a: u8, b: u8) -> u8
        ensures { result ≡ hasse self.now u v a b }
    {
        let mut sum = 0;
        let mut power = 1;
        for j in v as usize..self.len() {
            if is_odd_binomial(j, v as usize) {
                let derivative = derivative(self.row(j), u as usize, a);
                sum = gf256::add(sum, gf256::mul(derivative, power));
            }
            power = gf256::mul(power, b);
        }
        sum
    }

    /// The weighted degree, x having the weight 1 and y the weight `t`, at most [`MOST_DEGREE`]: the
    /// greatest `i + t*j` of a coefficient, at `x^i * y^j`, that is not 0 (Guruswami and Sudan 1999). `None`
    /// exactly where all are 0. There may be at most 2^16 + 1 rows, of at most 2^31 coefficients
    /// each. That of `y^2 + (1 + x)*y + x` for `t` 1 is 2.
    pub fn weighted_degree(&self, t: u32) -> Option<u64>
        requires limits { IsWithinLimits self.now }
        requires weight { t ≤ MOST_DEGREE }
        ensures { MatchOption result (IsZero self.now) (IsWeightedDegree self.now t) }
    {
        let mut greatest = None;
        for j in 0..self.len() {
            if let Some(i) = degree(self.row(j)) {
                let weight = i as u64 + t as u64 * j as u64;
                greatest = Some(greatest.unwrap_or(0).max(weight));
            }
        }
        greatest
    }

    /// The exponent of the greatest power of x that divides the polynomial; `None` exactly where it
    /// is 0.
    fn order_in_x(&self) -> Option<usize>
        ensures { MatchOption result (IsZero self.now) (IsOrderInX self.now) }
    {
        let mut least = None;
        for j in 0..self.len() {
            if let Some(i) = order(self.row(j)) {
                least = Some(least.unwrap_or(i).min(i));
            }
        }
        least
    }

    /// Divides the polynomial, which must not be 0, by the greatest power of x that divides it, and
    /// gives its exponent: of `x^2*y^2 + (x + x^2)*y` it leaves `x*y^2 + (1 + x)*y`, and gives 1.
    /// The number of rows stays, and none gets longer.
    pub fn strip_x(&mut self) -> u64
        requires { ¬ IsZero self.old }
        ensures order { IsOrderInX self.old result }
        ensures quotient { self.new ≡ without_first result self.old }
    {
        let Some(order) = self.order_in_x() else {
            // Only where the polynomial is 0, which is ruled out.
            return 0;
        };
        for row in self.rows.iter_mut() {
            drop_first(row, order);
        }
        order as u64
    }

    /// Column `i`, the polynomial in y before `x^i`, one byte for each row.
    fn column(&self, alloc: Global, i: usize) -> Result<Vec<u8>, AllocError>
        ensures { IfOk result (λ v. v.items ≡ column self.now i) }
    {
        let mut made = Vec::with_capacity(alloc, self.len())?;
        for j in 0..self.len() {
            made.push(coefficient(self.row(j), i))?;
        }
        Ok(made)
    }

    /// The polynomial in y where x is 0, one byte for each row: that of `x*y^2 + (1 + x)*y` is
    /// `00 01 00`.
    ///
    /// # Errors
    ///
    /// `AllocError` where there is no memory for it.
    pub fn at_zero(&self, alloc: Global) -> Result<Vec<u8>, AllocError>
        ensures { IfOk result (λ v. v.items ≡ column self.now 0) }
    {
        self.column(alloc, 0)
    }

    /// The polynomial in x where `phi` stands for y, by Horner's rule. Zeros may stand at its end.
    /// Where all are 0, `phi` is a y-root (Roth and Ruckenstein 2000), as `01` is of
    /// `y^2 + (1 + x)*y + x`.
    ///
    /// # Errors
    ///
    /// `AllocError` where there is no memory for the coefficients.
    pub fn at_poly(&self, alloc: Global, phi: &[u8]) -> Result<Vec<u8>, AllocError>
        ensures { IfOk result (λ v. IsAtPoly self.now phi.now v.items) }
    {
        let mut made = Vec::new(alloc);
        for j in (0..self.len()).rev() {
            made = multiply_and_add(alloc, phi, &made, self.row(j))?;
        }
        Ok(made)
    }

    /// The value at `gamma` of column `i`, by Horner's rule.
    fn column_value(&self, i: usize, gamma: u8) -> u8
        requires { AreBytes self.now }
        ensures { result ≡ val (column self.now i) gamma }
    {
        let mut value = 0;
        for j in (0..self.len()).rev() {
            value = gf256::add(gf256::mul(value, gamma), coefficient(self.row(j), i));
        }
        value
    }

    /// Whether the polynomial is 0 where the constant `gamma` stands for y, as `y^2 + (1 + x)*y + x` is
    /// where 1 does. It takes no memory, and looks no further than the first power of x that is left.
    pub fn vanishes_at(&self, gamma: u8) -> bool
        ensures { IsTrue result ↔ ((e : ℕ) → at_poly_coef self.now (gamma ∷ []) e ≡ 0) }
    {
        coefficients_are_bytes(self);
        for i in 0..self.width() {
            if self.column_value(i, gamma) != 0 {
                return false;
            }
        }
        true
    }

    /// The length of the longest row, 0 where there is none.
    fn width(&self) -> usize
        ensures { IsWidth self.now result }
    {
        let mut width = 0;
        for j in 0..self.len() {
            width = width.max(self.row(j).len());
        }
        width
    }

    /// Adds to each of the `sums` the Hasse derivative of order `j` at `gamma` of the column at its
    /// place: row `k` goes into all of them at once, times `gamma^(k - j)`, where `C(k, j)` is odd.
    fn add_derivatives(&self, sums: &mut [u8], j: usize, gamma: u8)
        requires { (k : ℕ) → length (row_of self.now k) ≤ length sums.old }
        ensures { AreDerivativesAdded self.now gamma j sums.new sums.old }
    {
        let mut power = 1;
        for k in j..self.len() {
            if is_odd_binomial(k, j) {
                uni_poly::add_scaled(sums, self.row(k), power);
            }
            power = gf256::mul(power, gamma);
        }
    }

    /// Row `j` of what [`BiPoly::shift_root`] gives. `sums` has room for the longest row of this.
    fn shifted_row(
        &self,
        alloc: Global,
        j: usize,
        gamma: u8,
        sums: &mut [u8],
    ) -> Result<Vec<u8>, AllocError>
        requires { (k : ℕ) → length (row_of self.now k) ≤ length sums.old }
        ensures { IfOk result (λ v. v.items ≡ shifted_row self.now (length sums.old) gamma j) }
    {
        clear(sums);
        self.add_derivatives(sums, j, gamma);
        let mut made = Vec::with_capacity(alloc, sums.len().saturating_add(j))?;
        made.resize(j, 0)?;
        made.extend_from_slice(sums)?;
        Ok(made)
    }

    /// The polynomial where `x*y + gamma` stands for y (Roth and Ruckenstein 2000): its y-roots are
    /// the y-roots of this one that have the constant `gamma`, without it and divided by x. It has
    /// as many rows, row j at most j longer than the longest of this one. With `gamma` 1,
    /// `y^2 + (1 + x)*y + x` becomes `x^2*y^2 + (x + x^2)*y`.
    ///
    /// # Errors
    ///
    /// `AllocError` where there is no memory for the rows, or for one more.
    pub fn shift_root(&self, alloc: Global, gamma: u8) -> Result<BiPoly, AllocError>
        ensures { IfOk result (IsShiftedRoot self.now gamma) }
    {
        let mut sums = vec![in alloc; 0; self.width()]?;
        let mut rows = Vec::with_capacity(alloc, self.len())?;
        for j in 0..self.len() {
            rows.push(self.shifted_row(alloc, j, gamma, &mut sums)?)?;
        }
        Ok(BiPoly { rows })
    }
}
