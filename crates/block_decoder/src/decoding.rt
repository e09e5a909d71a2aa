//! What is decoded.

use crate::answer_set::AnswerSet;

/// What is decoded: answers of `width` bytes, of which `agreement` or more are to agree with polynomials of degree at most
/// `degree`.
#[derive(Drop)]
pub struct Decoding<'a> {
    pub answers: AnswerSet<'a>,
    pub width: usize,
    pub degree: u32,
    pub agreement: u32,
}
