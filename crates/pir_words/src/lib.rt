//! The words of the command line, read to a command.
//!
//! Promised: words give a command with its values exactly where they have its form, and are a
//! faulty command line exactly where they have none, want of memory aside. The form is what `clap`
//! takes by the commands that are built here, with each value in its range; so each value of a
//! command that was read is in its range.
//!
//! Not promised: that a file or an address is one. Any text is a name, the empty one too. `help`,
//! `--help` and `--version` are a faulty command line.
//!
//! What reads a single value is public for `word_reasons`, which says why words have no form.
//!
//! A command that is to come takes a variant of [`Asked`], a row of the table beside it and an arm of what reads them, and a
//! line in `specs/Form.antt`. Where it has values, a form in `specs/` says how `clap` sees it and what its words are read as,
//! and a module reads them.
#![tactic(auto)]

ghost use Rattle.std.specs.Prelude.{◌≡◌, true, false, IfErr, IfOk, map, string_bytes};
ghost use Rattle.clap.specs.Words.{subcommand_of, subcommand_rows_of};
ghost use Rattle.pir_words.specs.Form.{IsReadAs, InRange, are_taken, asked_in, asked_of, pir};

mod asked;
mod blocks;
mod command;
mod demo_words;
mod fetch_words;
mod front_words;
mod lookup_words;
mod ranges;
mod replay_words;
mod selfrun_words;
mod serve_words;
mod split_words;
mod text;
mod values;

use asked::read_command;
pub use asked::{Asked, WordsFault, form_named, pir_command};
pub use blocks::Blocks;
use clap::ArgMatches;
pub use command::{Form, Kind};
pub use fetch_words::{addresses_at, fetch_sharing_at, tau_at};
pub use quantity_limits::MOST_SHARDS;
pub use ranges::{Sharing, Sizes, block_at, scheme_at, servers_at, sharing_at, sizes_at};
use std::alloc::Global;
pub use text::{Text, Texts};
pub use values::{limited_at, number_at, number_of, text_at, texts_at};
use wire_frames::MOST_DEGREE;

/// The least port of a demonstration, whose servers listen at those that follow it.
pub const LEAST_PORT: u16 = 1024;

/// The greatest port of a demonstration.
pub const MOST_PORT: u16 = 65000;

/// The greatest degree in which the database of `fetch` may be shared: with queries of degree 1 it is the greatest degree of
/// a session.
pub const MOST_TAU: u8 = MOST_DEGREE - 1;

/// The matches of the words, where they have some.
fn parse<'a>(alloc: Global, words: &'a [String]) -> Result<ArgMatches<'a>, WordsFault>
    ensures taken { IfOk result (λ m. are_taken (map string_bytes words.entry.now) ≡ true) }
    ensures entered { IfOk result (λ m.
        subcommand_rows_of m ≡ subcommand_of pir (map string_bytes words.entry.now)) }
    ensures err { IfErr result (λ e.
        e ≡ WordsFault.Usage → are_taken (map string_bytes words.entry.now) ≡ false) }
{
    let Ok(command) = pir_command(alloc) else {
        return Err(WordsFault::Memory);
    };
    Ok(command.try_get_matches_from(words)?)
}

/// The command that the matches ask for.
fn read_matches(alloc: Global, matches: &ArgMatches) -> Result<Asked, WordsFault>
    ensures form { IsReadAs (asked_in (subcommand_rows_of matches.now)) result }
    ensures ranges { IfOk result InRange }
{
    match matches.subcommand() {
        Some((name, inner)) => read_command(alloc, name, inner),
        None => Err(WordsFault::Usage),
    }
}

/// The command that the words ask for. They come without the program's name.
///
/// What each command takes stands over its form, in the module that reads its words, as `fetch_words`.
///
/// Options come in any order, each once, as `--rows 2` or `--rows=2`, and addresses may stand between them; `--slow`
/// and `--report` take no value. What follows the word `--` is no option. A value that begins with `-` is written `--coins=-x`; `-`
/// alone is a value.
///
/// A number is one or more ASCII decimal digits, of a value below `2^64`: `002` is good, and `+2`
/// is not. Any such number is a seed. The numbers R of rows and S of their bytes are at least 1 and
/// at most [`MOST_ROWS`](wire_frames::MOST_ROWS) and [`MOST_WIDTH`](wire_frames::MOST_WIDTH), their
/// product is at most [`MOST_CELLS`](wire_frames::MOST_CELLS), and the block B is below R. Further
/// blocks are such numbers too, split by single commas, in the order in which they are fetched, and
/// may repeat; with B they are at most [`MOST_BLOCKS`](wire_frames::MOST_BLOCKS), and of at most
/// [`MOST_WIDTH`](wire_frames::MOST_WIDTH) bytes together. A key HEX is an even number of hexadecimal
/// digits of either case, two for each of its bytes, of which there are 1 to S. There are at least
/// [`LEAST_SERVERS`](wire_frames::LEAST_SERVERS) servers and at most
/// [`MOST_SERVERS`](wire_frames::MOST_SERVERS), as many as `--servers` says or addresses stand.
/// The rows of a shard are at least 1 and at most R, and each shard has one address, of the R/K shards, rounded up,
/// that there are: at most [`MOST_SHARDS`].
/// Degree and agreement of N servers have `1 <= T < H <= N`, and T is at most
/// [`MOST_DEGREE`](wire_frames::MOST_DEGREE). The degree U in which the database of `fetch` is shared is at most
/// [`MOST_TAU`], with `T + U < H`; that in which `split` shares one is at least 1 and below N. In the XOR scheme none of the three may stand, not even as 0: the
/// agreement is N, and the degree one less. At most all servers are liars. The number of guests is at least 1 and
/// at most [`MOST_GUESTS`](wire_frames::MOST_GUESTS), the number W of workers at least 1 and at
/// most [`MOST_WORKERS`](wire_frames::MOST_WORKERS), and the port P at least [`LEAST_PORT`] and at
/// most [`MOST_PORT`].
///
/// # Errors
///
/// `Usage` exactly where the words have no such form, and `Memory` if memory is short.
///
/// ```
/// // The words are `replay -`.
/// let Ok(Asked::Replay { file, report }) = read_words(alloc, &words) else {
///     return Err("no replay".into());
/// };
/// assert_eq!(file.as_str(), "-");
/// assert!(!report);
/// ```
pub fn read_words(alloc: Global, words: &[String]) -> Result<Asked, WordsFault>
    ensures form { IsReadAs (asked_of (map string_bytes words.now)) result }
    ensures ranges { IfOk result InRange }
{
    let matches = parse(alloc, words)?;
    read_matches(alloc, &matches)
}
