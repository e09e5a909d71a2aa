//! Which blocks are fetched: a row by its number, and further ones, split by commas.

ghost use Rattle.std.specs.Prelude.{◌≡◌, ◌≤◌, IfOk, codes, map};
ghost use Rattle.std.specs.List.{slice_split};
ghost use Rattle.clap.specs.Words.{first_of};
ghost use Rattle.quantity_limits.specs.declared.TheConstants.{MOST_WIDTH};
ghost use Rattle.pir_words.specs.Numbers.{given};
ghost use Rattle.pir_words.specs.FetchForm.{at_once, blocks_in, is_comma, more_texts, rows_behind};
ghost use Rattle.pir_words.specs.Form.{IsReadAs};

use crate::asked::WordsFault;
use crate::ranges::{Sizes, block_at, row_named};
use crate::values::text_at;
use clap::ArgMatches;
use std::alloc::{AllocError, Global};
use std::marker::Model;
use wire_frames::{MOST_BLOCKS, MOST_WIDTH};

/// Rows of a database, by their numbers, in the order in which they were named. Contracts see the numbers.
#[derive(Drop)]
pub struct Blocks {
    list: Vec<u32>,
}

impl Model for Blocks {
    ghost use Rattle.std.specs.Prelude.{ℕ, List};

    ghost Value = { List ℕ };

    ghost view = { λ b. b.list.items };
}

impl Blocks {
    /// The numbers themselves.
    pub fn as_slice(&self) -> &[u32]
        ensures { result.now ≡ self.now }
    {
        self.list.as_slice()
    }
}

/// The texts between the commas.
fn split<'a>(alloc: Global, text: &'a str) -> Result<Vec<&'a str>, AllocError>
    ensures { IfOk result (λ parts. map (λ p. p.now) parts.items ≡ slice_split is_comma text.now) }
{
    text.split(',').collect(alloc)
}

/// The texts of the further blocks: none where the option isn't given.
fn more_at<'a>(alloc: Global, matches: &ArgMatches<'a>) -> Result<Vec<&'a str>, AllocError>
    ensures { IfOk result (λ parts.
        map (λ part. part.now) parts.items ≡ more_texts (first_of (codes "more") (given matches.now))) }
{
    match text_at(matches, "more") {
        Some(text) => split(alloc, text),
        None => Ok(Vec::new(alloc)),
    }
}

/// Whether these blocks, of so many bytes each, may be asked for at once.
#[tactic(auto, unfolding(crate::specs::FetchForm::at_once))]
fn are_at_once(width: u32, blocks: &[u32]) -> bool
    ensures { result ≡ at_once width blocks.now }
{
    blocks.len() <= MOST_BLOCKS as usize && blocks.len() as u64 * width as u64 <= MOST_WIDTH as u64
}

/// The first block, and behind it those that the texts name, each one of so many rows. `None` where a text names none.
fn read_rows(
    alloc: Global,
    first: u32,
    rows: u32,
    texts: &[&str],
) -> Result<Option<Blocks>, AllocError>
    ensures { IfOk result (λ blocks. blocks ≡ rows_behind first rows (map (λ t. t.now) texts.now)) }
{
    let mut list = Vec::new(alloc);
    list.push(first)?;
    for text in texts {
        match row_named(*text, rows) {
            Some(row) => list.push(row)?,
            None => return Ok(None),
        }
    }
    Ok(Some(Blocks { list }))
}

/// The blocks, each one of the rows, which may be asked for at once.
#[tactic(auto, unfolding(crate::specs::FetchForm::blocks_in))]
pub fn blocks_at(alloc: Global, matches: &ArgMatches, sizes: Sizes) -> Result<Blocks, WordsFault>
    ensures { IsReadAs (blocks_in sizes (given matches.now)) result }
{
    let Some(first) = block_at(matches, sizes.rows) else {
        return Err(WordsFault::Usage);
    };
    let texts = more_at(alloc, matches)?;
    let Some(blocks) = read_rows(alloc, first, sizes.rows, &texts)? else {
        return Err(WordsFault::Usage);
    };
    if are_at_once(sizes.width, blocks.as_slice()) {
        Ok(blocks)
    } else {
        Err(WordsFault::Usage)
    }
}
