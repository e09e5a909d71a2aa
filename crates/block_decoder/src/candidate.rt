//! The candidates of a decoding.

use crate::answer_set::AnswerSet;

/// Answers that may agree: those at which polynomials of the columns before `column` hold.
#[derive(Copy, Clone)]
pub struct Candidate<'k, 'a> {
    pub kept: &'k AnswerSet<'a>,
    pub column: usize,
}

/// A candidate whose answers part in its column, and the polynomials of this column on which enough of them lie.
#[derive(Drop)]
pub struct Parting<'k, 'a> {
    pub candidate: Candidate<'k, 'a>,
    pub polynomials: Vec<Vec<u8>>,
}
