//! The text of a verdict, in memory.

ghost use Rattle.std.specs.Prelude.{◌≡◌, ◌++◌, flat_map, map, IfOk, OnOk};
ghost use Rattle.block_decoder.specs.Text.{block_line, line_of, number_word, text as text_of};
ghost use Rattle.block_decoder.specs.declared.verdict.Verdict.TheVariants.{Listed};

use block_decoder::{Listing, Verdict};
use itoa::Buffer;
use std::alloc::{AllocError, Global};

/// Adds a space, and a number in decimal.
fn add_number(text: &mut Vec<u8>, n: u64) -> Result<(), AllocError>
    ensures { OnOk result (text.new.items ≡ text.old.items ++ number_word n) }
{
    let mut room = Buffer::new();
    text.extend_from_slice(b" ")?;
    text.extend_from_slice(room.format(n).as_bytes())
}

/// Adds numbers in decimal, each after a space.
fn add_numbers(text: &mut Vec<u8>, numbers: &[u64]) -> Result<(), AllocError>
    ensures { OnOk result (text.new.items ≡ text.old.items ++ flat_map number_word numbers.now) }
{
    for n in numbers {
        add_number(text, *n)?;
    }
    Ok(())
}

/// Adds a line of words and numbers.
fn add_line(text: &mut Vec<u8>, words: &str, numbers: &[u64]) -> Result<(), AllocError>
    ensures { OnOk result (text.new.items ≡ text.old.items ++ line_of words.now numbers.now) }
{
    text.extend_from_slice(words.as_bytes())?;
    add_numbers(text, numbers)?;
    text.extend_from_slice(b"\n")
}

/// Adds the line of a block: its bytes in lower-case hexadecimal.
fn add_block(alloc: Global, lines: &mut Vec<u8>, block: &[u8]) -> Result<(), AllocError>
    ensures { OnOk result (lines.new.items ≡ lines.old.items ++ block_line block.now) }
{
    let digits = hex::encode(alloc, block)?;
    lines.extend_from_slice(digits.as_bytes())?;
    lines.extend_from_slice(b"\n")
}

/// Adds the lines of blocks.
fn add_blocks(alloc: Global, lines: &mut Vec<u8>, blocks: &[Vec<u8>]) -> Result<(), AllocError>
    ensures { OnOk result (lines.new.items
        ≡ lines.old.items ++ flat_map block_line (map (λ b. b.items) blocks.now)) }
{
    for block in blocks {
        add_block(alloc, lines, block)?;
    }
    Ok(())
}

/// Adds the number of blocks, and their lines.
fn add_listing(alloc: Global, text: &mut Vec<u8>, listing: &Listing) -> Result<(), AllocError>
    ensures { OnOk result (text.new.items ≡ text.old.items ++ text_of (Listed listing.now)) }
{
    add_line(text, "blocks", &[listing.len() as u64])?;
    add_blocks(alloc, text, listing.blocks())
}

/// Adds the text of a verdict.
fn add_verdict(alloc: Global, text: &mut Vec<u8>, verdict: &Verdict) -> Result<(), AllocError>
    ensures { OnOk result (text.new.items ≡ text.old.items ++ text_of verdict.now) }
{
    match verdict {
        Verdict::Listed(listing) => add_listing(alloc, text, listing),
        Verdict::TooFew { k, h } => add_line(text, "too few", &[u64::from(*k), u64::from(*h)]),
        Verdict::TooWeak { k, t, h } => add_line(
            text,
            "too weak",
            &[u64::from(*k), u64::from(*t), u64::from(*h)],
        ),
        Verdict::TooCostly { cost } => add_line(text, "too costly", &[*cost]),
    }
}

/// The text of a verdict, as the program prints it.
///
/// # Errors
///
/// `AllocError` where there is no memory for it, or for the line of a block beside it.
pub(crate) fn verdict_text(alloc: Global, verdict: &Verdict) -> Result<Vec<u8>, AllocError>
    ensures { IfOk result (λ made. made.items ≡ text_of verdict.now) }
{
    let mut text = Vec::new(alloc);
    add_verdict(alloc, &mut text, verdict)?;
    Ok(text)
}
