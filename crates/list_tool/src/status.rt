//! The exit code of a run.

ghost use Rattle.std.specs.Prelude.{◌≡◌};
ghost use Rattle.std.specs.List.{list_any};
ghost use Rattle.list_finds.specs.Answers.{answer_of};
ghost use Rattle.list_tool.specs.Status.{build_code, check_code, code_of, find_code, finds_code, is_absent, lines_code, load_code, verdict_code};

use crate::check_command::CheckListFault;
use crate::fault::{FindFault, LoadFault};
use crate::looked::Looked;
use crate::run::ListEnd;
use block_decoder::Verdict;
use list_builds::{BuildFault, Built};
use list_checks::{CheckFault, Tally};
use list_finds::{Answer, Ending, Finds};
use list_keys::LinesFault;
use list_words::WordsFault;
use query_rounds::FetchFault;

/// The code of a verdict that doesn't list exactly one block.
fn verdict_code(verdict: &Verdict) -> u8
    ensures { result ≡ verdict_code verdict.now }
{
    match verdict {
        Verdict::Listed(listing) => match listing.len() {
            0 => 3,
            _ => 4,
        },
        Verdict::TooFew { .. } => 5,
        Verdict::TooWeak { .. } => 6,
        Verdict::TooCostly { .. } => 7,
    }
}

/// Whether the list doesn't have the key.
fn is_absent(answer: Answer<&[u8]>) -> bool
    ensures { result ≡ is_absent (answer_of answer.entry) }
{
    matches!(answer, Answer::Absent)
}

/// Whether the list doesn't have one of the keys.
#[tactic(auto, using(crate::proofs::Codes::none_at_all, crate::proofs::Codes::none_more, crate::proofs::Codes::one_settles))]
fn has_absent(finds: &Finds) -> bool
    ensures { result ≡ list_any is_absent finds.now.answers }
{
    'places: for place in 0..finds.len() {
        if is_absent(finds.answer(place)) {
            return true;
        }
    }
    false
}

/// The code of a search.
fn finds_code(finds: &Finds) -> u8
    ensures { result ≡ finds_code finds.now }
{
    match finds.end() {
        Ending::Unlisted(unlisted) => verdict_code(&unlisted.verdict),
        Ending::BrokenRow(_) => 10,
        Ending::Settled => { if has_absent(finds) { 14 } else { 0 } }
    }
}

/// The code where there is no catalog.
fn load_code(fault: &LoadFault) -> u8
    ensures { result ≡ load_code fault.now }
{
    match fault {
        LoadFault::ReadFault => 8,
        LoadFault::Refused(_) => 10,
        LoadFault::Memory => 12,
    }
}

/// The code where there are no keys.
fn lines_code(fault: &LinesFault) -> u8
    ensures { result ≡ lines_code fault.now }
{
    match fault {
        LinesFault::ReadFault => 8,
        LinesFault::NoLine | LinesFault::Refused { .. } => 10,
        LinesFault::Memory => 12,
    }
}

/// The code of `find`.
fn find_code(found: &Result<Looked, FindFault>) -> u8
    ensures { result ≡ find_code found.now }
{
    match found {
        Ok(looked) => finds_code(&looked.finds),
        Err(FindFault::Catalog(fault)) => load_code(fault),
        Err(FindFault::Servers(_)) => 10,
        Err(FindFault::Keys(fault)) => lines_code(fault),
        Err(FindFault::Fetch(FetchFault::CoinsFault)) => 8,
        Err(FindFault::Fetch(FetchFault::CoinsEnded { .. })) => 10,
        Err(FindFault::WriteFault) => 9,
        Err(FindFault::Fetch(FetchFault::Memory) | FindFault::Memory) => 12,
    }
}

/// The code of `build`.
fn build_code(built: &Result<Built, BuildFault>) -> u8
    ensures { result ≡ build_code built.now }
{
    match built {
        Ok(_) => 0,
        Err(BuildFault::CoinsFault | BuildFault::KeysFault) => 8,
        Err(BuildFault::DatabaseFault | BuildFault::CatalogFault) => 9,
        Err(BuildFault::Memory) => 12,
        Err(_) => 10,
    }
}

/// The code of `check`.
fn check_code(checked: &Result<Tally, CheckListFault>) -> u8
    ensures { result ≡ check_code checked.now }
{
    match checked {
        Ok(_) => 0,
        Err(CheckListFault::Catalog(fault)) => load_code(fault),
        Err(CheckListFault::Database(CheckFault::ReadFault)) => 8,
        Err(CheckListFault::Database(CheckFault::Memory) | CheckListFault::Memory) => 12,
        Err(CheckListFault::Database(_)) => 10,
        Err(CheckListFault::WriteFault) => 9,
    }
}

/// The exit code of the program for what a run came to.
///
/// | Code | When |
/// |---|---|
/// | 0 | `build` and `check` are done, `find` has each key; help or the version was asked for |
/// | 2 | the words give no command |
/// | 3 to 7 | the first verdict of `find` that isn't one block: no block, several, too few answers, a weak agreement, a cost |
/// | 8 | a call on a file that is read failed |
/// | 9 | a call on a file that is written failed |
/// | 10 | a list, keys, a catalog, servers, a database, a row or coins are none |
/// | 12 | want of memory |
/// | 14 | of each key it is known whether the list has it, and it hasn't one |
pub fn exit_code(end: &ListEnd) -> u8
    ensures { result ≡ code_of end.now }
{
    match end {
        ListEnd::Words(WordsFault::Memory) => 12,
        ListEnd::Words(_) => 2,
        ListEnd::Help(_) | ListEnd::Version(_) => 0,
        ListEnd::Built(built) => build_code(built),
        ListEnd::Found(found) => find_code(found),
        ListEnd::Checked(checked) => check_code(checked),
    }
}
