//! Interpolation with multiplicities over GF(256), the first step of the list decoding of Guruswami and Sudan (1999): two
//! ways to find a polynomial in two variables, not 0 and of small weighted degree, that has a zero of a given multiplicity at
//! each of the given points.
//!
//! Promised: [`Koetter`] and [`Elimination`] keep the contract of [`Interpolate`], which comes from `interpolation`. Want of
//! memory is the only error.
//!
//! Not promised: which of the many such polynomials it is, and anything of time.
#![tactic(auto)]

mod basis;
mod condition;
mod elimination;
mod expansion;
mod family;
mod koetter;
mod layout;
mod steps;
mod window;

pub use elimination::Elimination;
pub use interpolation::{Interpolate, MOST_EQUATIONS, MOST_WEIGHTED_DEGREE};
pub use koetter::Koetter;
