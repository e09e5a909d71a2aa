//! Writes the text of a verdict, in pieces, with no memory taken.

ghost use Rattle.std.specs.Prelude.{◌≡◌, ◌<◌, ◌≤◌, length, map, flat_map};
ghost use Rattle.port_trait.specs.Number.{OUTPUT};
ghost use Rattle.hex.specs.Hex.{encode_lower};
ghost use Rattle.port_trait.specs.Moves.{Touches};
ghost use Rattle.block_decoder.specs.Text.{block_line, number_word, number_words, line_of, text};
ghost use Rattle.block_decoder.specs.Writing.{Writes};

use crate::{Listing, Verdict};
use itoa::Buffer;
use port_trait::{Failed, Port, Ports, write_all};

/// How many bytes of a block are written at once.
const PIECE: usize = 2048;

/// A space, and a number in decimal.
#[tactic(auto, using(std::proofs::lemmas::Fmt::decimal_nonempty))]
pub(crate) fn write_number<P: Ports>(ports: &mut P, n: u64) -> Result<(), Failed>
    ensures written { Writes (number_word n) result (P.world ports.old) (P.world ports.new) }
    ensures others { Touches OUTPUT (P.world ports.old) (P.world ports.new) }
{
    let mut room = Buffer::new();
    let text = room.format(n);
    write_all(ports, Port::Output, b" ")?;
    write_all(ports, Port::Output, text.as_bytes())
}

/// Numbers in decimal, each after a space.
fn write_numbers<P: Ports>(ports: &mut P, numbers: &[u64]) -> Result<(), Failed>
    ensures written { Writes (number_words numbers.now)
        result (P.world ports.old) (P.world ports.new) }
    ensures others { Touches OUTPUT (P.world ports.old) (P.world ports.new) }
{
    for n in numbers {
        write_number(ports, *n)?;
    }
    Ok(())
}

/// A line of words and numbers.
fn write_line<P: Ports>(ports: &mut P, words: &str, numbers: &[u64]) -> Result<(), Failed>
    requires { 0 < length words.now }
    ensures written { Writes (line_of words.now numbers.now)
        result (P.world ports.old) (P.world ports.new) }
    ensures others { Touches OUTPUT (P.world ports.old) (P.world ports.new) }
{
    write_all(ports, Port::Output, words.as_bytes())?;
    write_numbers(ports, numbers)?;
    write_all(ports, Port::Output, b"\n")
}

/// At most so many bytes as are written at once, in hexadecimal.
fn write_piece<P: Ports>(ports: &mut P, bytes: &[u8]) -> Result<(), Failed>
    requires some { 0 < length bytes.now }
    requires few { length bytes.now ≤ PIECE }
    ensures written { Writes (encode_lower bytes.now) result (P.world ports.old) (P.world ports.new) }
    ensures others { Touches OUTPUT (P.world ports.old) (P.world ports.new) }
{
    let mut room = [0u8; 2 * PIECE];
    let text: &mut [u8] = &mut room[..2 * bytes.len()];
    let _ = hex::encode_to_slice(bytes, text);
    write_all(ports, Port::Output, text)
}

/// Any number of bytes, in hexadecimal.
pub(crate) fn write_hex<P: Ports>(ports: &mut P, bytes: &[u8]) -> Result<(), Failed>
    ensures written { Writes (encode_lower bytes.now) result (P.world ports.old) (P.world ports.new) }
    ensures others { Touches OUTPUT (P.world ports.old) (P.world ports.new) }
{
    let mut at = 0;
    'pieces: while at < bytes.len() {
        let end = bytes.len().min(at + PIECE);
        write_piece(ports, &bytes[at..end])?;
        at = end;
    }
    Ok(())
}

/// Writes a block to Output, in lower-case hexadecimal and with a newline, in pieces; it takes no memory.
///
/// # Errors
///
/// `Failed` exactly where the count of Output rose; then Output took a proper prefix of the line.
pub fn write_block<P: Ports>(ports: &mut P, block: &[u8]) -> Result<(), Failed>
    ensures written { Writes (block_line block.now) result (P.world ports.old) (P.world ports.new) }
    ensures others { Touches OUTPUT (P.world ports.old) (P.world ports.new) }
{
    write_hex(ports, block)?;
    write_all(ports, Port::Output, b"\n")
}

/// The lines of blocks.
fn write_blocks<P: Ports>(ports: &mut P, blocks: &[Vec<u8>]) -> Result<(), Failed>
    ensures written { Writes (flat_map block_line (map (λ b. b.items) blocks.now))
        result (P.world ports.old) (P.world ports.new) }
    ensures others { Touches OUTPUT (P.world ports.old) (P.world ports.new) }
{
    for block in blocks {
        write_block(ports, block)?;
    }
    Ok(())
}

/// The number of blocks, and the lines of them.
fn write_listing<P: Ports>(ports: &mut P, listing: &Listing) -> Result<(), Failed>
    ensures written { Writes (text (Verdict.Listed listing.now))
        result (P.world ports.old) (P.world ports.new) }
    ensures others { Touches OUTPUT (P.world ports.old) (P.world ports.new) }
{
    write_line(ports, "blocks", &[listing.len() as u64])?;
    write_blocks(ports, listing.blocks())
}

/// Writes the text of the verdict to Output, in pieces; it takes no memory.
///
/// A listing is the line `blocks N`, and a line for each block, ascending, in lower-case hexadecimal. The other
/// verdicts are a line each, as `too few K H`, `too weak K T H` and `too costly COST`, with their numbers in decimal.
///
/// # Errors
///
/// `Failed` exactly where the count of Output rose; then Output took a proper prefix of the text.
pub fn write_verdict<P: Ports>(ports: &mut P, verdict: &Verdict) -> Result<(), Failed>
    ensures written { Writes (text verdict.now) result (P.world ports.old) (P.world ports.new) }
    ensures others { Touches OUTPUT (P.world ports.old) (P.world ports.new) }
{
    match verdict {
        Verdict::Listed(listing) => write_listing(ports, listing),
        Verdict::TooFew { k, h } => write_line(ports, "too few", &[u64::from(*k), u64::from(*h)]),
        Verdict::TooWeak { k, t, h } => {
            write_line(
                ports,
                "too weak",
                &[u64::from(*k), u64::from(*t), u64::from(*h)],
            )
        }
        Verdict::TooCostly { cost } => write_line(ports, "too costly", &[*cost]),
    }
}
