//! The agreed blocks straight from their definition: every vector of polynomials is tried. It is the yardstick for
//! faster ways, and tests alone call it.
//!
//! Promised: [`plain_listing`] lists exactly the blocks on which enough answers agree (Goldberg 2007), each once and
//! ascending. Want of memory is the only error.
//!
//! Not promised: anything of time.

ghost use Rattle.std.specs.Prelude.{◌≡◌, ◌*◌, ◌+◌, ◌%◌, ◌^◌, ◌<◌, ◌≤◌, ◌↔◌, ◌⊎◌, ℕ, List, length, map, take, Contains, IfOk, OnOk, vec_len};
ghost use Rattle.std.specs.Cmp.Lexicographic.{slice_cmp};
ghost use Rattle.std.specs.List.Sorted.{IsStrictlySortedBy};
ghost use Rattle.std.specs.Ordering.{nat_cmp};
ghost use Rattle.gf256.specs.Polynomial.{val};
ghost use Rattle.block_decoder.specs.Agreed.{answers_of, constants_of, holds_first, weight, Filled, Lists};
ghost use Rattle.program_tests.specs.declared.plain_blocks.TheConstants.{MOST_PLAIN_DEGREE};
ghost use Rattle.block_decoder.specs.Gains.{Gains};
ghost use Rattle.block_decoder.specs.Numbered.{numbered, all_numbered, Continues};

use block_decoder::{Answer, Listing, PackedAnswers};
use std::alloc::{AllocError, Global};

/// The greatest degree that [`plain_listing`] takes: the numbers of its polynomials just fit 64 bits.
pub const MOST_PLAIN_DEGREE: u32 = 6;

/// What is searched for: polynomials of degree at most `degree`, one for each of `width` columns, that hold at
/// `agreement` answers or more. A polynomial is written as a number, whose lowest `degree` + 1 bytes are its
/// coefficients, the constant the lowest.
#[derive(Drop)]
struct Search<'a> {
    answers: PackedAnswers<'a>,
    degree: u32,
    agreement: usize,
    width: usize,
    ghost small: { degree ≤ MOST_PLAIN_DEGREE },
    ghost filled: { Filled width answers },
}

/// Lists the blocks on which `h` answers or more agree (Goldberg 2007), straight from that definition: it tries
/// every polynomial in every column. It uses no interpolation, no inverse and no law of the field.
///
/// The answers are the `indices` and, in `bytes`, their payloads of `s` bytes one after another; the polynomials
/// have degree at most `t`, which is at most [`MOST_PLAIN_DEGREE`]. With indices 1, 2, 3, the payloads `cfd2`, `4073`,
/// `cce5` and t 1, h 3, s 2, the one block is `4344`.
///
/// For small inputs only: for each vector of polynomials in the first columns that still holds at `h` answers,
/// it evaluates 256^(t + 1) polynomials at each answer. It calls itself to a depth of `s`, and takes memory for
/// the vector and the listing alone.
///
/// # Errors
///
/// `AllocError` where there is no memory for a vector of `s` polynomials or for the listing.
pub fn plain_listing(
    alloc: Global,
    indices: &[u8],
    bytes: &[u8],
    t: u32,
    h: u32,
    s: u32,
) -> Result<Listing, AllocError>
    requires fit { length bytes.now ≡ length indices.now * s }
    requires degree { t ≤ MOST_PLAIN_DEGREE }
    ensures { IfOk result (λ l. Lists l (answers_of s indices.now bytes.now) s t h) }
{
    let search = Search {
        answers: PackedAnswers::new(indices, bytes, s as usize),
        degree: t,
        agreement: h as usize,
        width: s as usize,
    };
    let mut listing = Listing::new(alloc);
    search.extend(alloc, &mut Vec::new(alloc), &mut listing)?;
    Ok(listing)
}

impl<'a> Search<'a> {
    ghost use Rattle.program_tests.specs.Search.{sought};

    /// Lists the block of each vector of polynomials that begins with those of these numbers.
    fn extend(
        &self,
        alloc: Global,
        numbers: &mut Vec<u64>,
        listing: &mut Listing,
    ) -> Result<(), AllocError>
        requires columns { vec_len numbers.old ≤ self.now.width }
        requires ascending { IsStrictlySortedBy (slice_cmp nat_cmp) listing.old }
        ensures kept { OnOk result (numbers.new.items ≡ numbers.old.items) }
        ensures ascending { IsStrictlySortedBy (slice_cmp nat_cmp) listing.new }
        ensures exact { OnOk result (Gains (Continues (sought self.now) numbers.old.items) listing.old listing.new) }
    {
        // Where too few answers hold in these columns, no more hold in all of them.
        if self.weight(numbers) < self.agreement {
            return Ok(());
        }
        if numbers.len() == self.width {
            return listing.insert(constants(alloc, numbers)?);
        }
        for number in 0..256u64.pow(self.degree + 1) {
            numbers.push(number)?;
            self.extend(alloc, numbers, listing)?;
            numbers.pop();
        }
        Ok(())
    }

    /// How many answers the polynomials hold at, in their columns.
    fn weight(&self, numbers: &[u64]) -> usize
        requires columns { length numbers.now ≤ self.now.width }
        ensures { result ≡ weight (all_numbered self.now.degree numbers.now) self.now.answers }
    {
        let mut count = 0;
        for place in 0..self.answers.len() {
            if self.holds(numbers, &self.answers.at(place)) {
                count += 1;
            }
        }
        count
    }

    /// Whether the polynomials take the answer's bytes at its index, in their columns.
    fn holds(&self, numbers: &[u64], answer: &Answer<'_>) -> bool
        requires columns { length numbers.now ≤ length answer.now.payload }
        ensures { result ≡ holds_first (all_numbered self.now.degree numbers.now) answer.now }
    {
        for (column, number) in numbers.iter().enumerate() {
            if self.value_at(*number, answer.index()) != answer.payload()[column] {
                return false;
            }
        }
        true
    }

    /// The value of the polynomial with this number.
    fn value_at(&self, number: u64, at: u8) -> u8
        ensures { result ≡ val (numbered self.now.degree number) at }
    {
        let bytes = number.to_le_bytes();
        value(&bytes[..self.degree as usize + 1], at)
    }
}

/// The value of a polynomial, term by term.
fn value(polynomial: &[u8], at: u8) -> u8
    requires { length polynomial.now < 2 ^ 32 }
    ensures { result ≡ val polynomial.now at }
{
    let mut sum = 0;
    for (power, coefficient) in polynomial.iter().enumerate() {
        sum = gf256::add(sum, gf256::mul(*coefficient, gf256::pow(at, power as u32)));
    }
    sum
}

/// The constants of the polynomials.
fn constants(alloc: Global, numbers: &[u64]) -> Result<Vec<u8>, AllocError>
    ensures { IfOk result (λ block. block.items ≡ map (λ n. n % 256) numbers.now) }
{
    numbers
        .iter()
        .map(|number| (*number % 256) as u8)
        .collect(alloc)
}
