//! Reads words to a command.

ghost use Rattle.std.specs.Prelude.{◌≡◌, [], map, string_bytes};
ghost use Rattle.clap.specs.Words.{fault_of, kind_of, subcommand_of, subcommand_rows_of};
ghost use Rattle.pir_words.specs.Numbers.{given};
ghost use Rattle.list_words.specs.Answer.{Comes, IsAnswer, IsCommand, IsShown};
ghost use Rattle.list_words.specs.Command.{pir_list};

use crate::asked::Asked;
use crate::command::list_command;
use crate::fault::WordsFault;
use crate::values::{build_at, build_fault, check_at, find_at, find_fault};
use clap::ArgMatches;
use clap::error::ErrorKind;
use std::alloc::Global;

/// The command of this name, with the values that the matches have for its arguments.
fn read_command<'a>(name: &str, matches: &ArgMatches<'a>) -> Result<Asked<'a>, WordsFault>
    ensures { IsCommand name.now (given matches.now) result }
{
    match name {
        "build" => match build_fault(matches) {
            Some(fault) => Err(WordsFault::Value(fault)),
            None => Ok(Asked::Build(build_at(matches))),
        },
        "find" => match find_fault(matches) {
            Some(fault) => Err(WordsFault::Value(fault)),
            None => Ok(Asked::Find(find_at(matches))),
        },
        "check" => Ok(Asked::Check(check_at(matches))),
        _ => Err(WordsFault::NoCommand),
    }
}

/// The command that the matches ask for.
fn read_matches<'a>(matches: &ArgMatches<'a>) -> Result<Asked<'a>, WordsFault>
    ensures { Comes (subcommand_rows_of matches.now) result }
{
    match matches.subcommand() {
        Some((name, inner)) => read_command(name, inner),
        None => Err(WordsFault::NoCommand),
    }
}

/// What `clap` says to words that it doesn't take.
fn read_error<'a>(alloc: Global, error: &clap::Error) -> Result<Asked<'a>, WordsFault>
    ensures { IsShown (kind_of error.now) result }
{
    let kind = error.kind();
    let Ok(text) = error.to_string(alloc) else {
        return Err(WordsFault::Memory);
    };
    match kind {
        ErrorKind::OutOfMemory => Err(WordsFault::Memory),
        ErrorKind::DisplayHelp => Ok(Asked::Help(text)),
        ErrorKind::DisplayVersion => Ok(Asked::Version(text)),
        _ => Err(WordsFault::Refused(text)),
    }
}

/// The command that the words ask for. They come without the program's name.
///
/// | Command | Has to be given | May be left out |
/// |---|---|---|
/// | `build` | KEYS, `--database FILE` | `--catalog FILE`, `--values`, `--value-bytes V` with it (as the longest one has), `--digest-bytes D` (16), `--rows R`, `--coins FILE` (`/dev/urandom`) |
/// | `find` | CATALOG | `--keys FILE` (`-`), `--servers ADDRESS,..`, `--degree T`, `--agree H`, `--coins FILE` (`/dev/urandom`), `--hex` |
/// | `check` | DATABASE, CATALOG | |
///
/// Options come in any order, each once, as `--rows 2` or `--rows=2`.
/// A number is one or more decimal digits, in the range of its [`Amount`](crate::Amount); no address is empty.
/// Of the files of `build` for keys, database and catalog no two have one name; keys that are standard input have none.
/// `--help`, `help` and `--version` ask for a text.
///
/// # Errors
///
/// `Refused` exactly where `clap` doesn't take the words and its error is neither help nor the version,
/// `NoCommand` exactly where it takes them and they enter no command, `Value` exactly where a value is wrong,
/// and `Memory` for want of memory.
///
/// ```
/// // The words are `check table catalog.toml`.
/// let Ok(Asked::Check(check)) = read_words(alloc, &words) else {
///     return Err("no check".into());
/// };
/// assert_eq!(check.database, "table");
/// ```
pub fn read_words<'a>(alloc: Global, words: &'a [String]) -> Result<Asked<'a>, WordsFault>
    ensures { IsAnswer (map string_bytes words.entry.now) result }
{
    let Ok(command) = list_command(alloc) else {
        return Err(WordsFault::Memory);
    };
    match command.try_get_matches_from(words) {
        Ok(matches) => read_matches(&matches),
        Err(error) => read_error(alloc, &error),
    }
}
