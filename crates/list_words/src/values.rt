//! The values of each command.

ghost use Rattle.std.specs.Prelude.{◌≡◌, ◌≤◌, unwrap_or, IfSome};
ghost use Rattle.pir_words.specs.Numbers.{given};
ghost use Rattle.list_words.specs.Amounts.{most_of};
ghost use Rattle.list_words.specs.declared.TheConstants.{USUAL_DIGEST};
ghost use Rattle.list_words.specs.declared.amount.Amount.TheVariants.{DigestBytes, ValueBytes};
ghost use Rattle.list_words.specs.declared.fault.BuildFile.TheVariants.{Keys};
ghost use Rattle.list_words.specs.declared.fault.ValueFault.TheVariants.{OneFile};
ghost use Rattle.list_words.specs.Values.{IsBuild, IsCheck, IsFind, amount_fault, amount_in, build_amount_fault, build_fault, files_fault, find_fault, have_one_text, is_input, is_set, over_database, over_keys, servers_fault, text_fault, text_or, values_fault};

use crate::USUAL_DIGEST;
use crate::address_list::has_empty;
use crate::amount::Amount;
use crate::asked::{Build, Check, Find};
use crate::fault::{BuildFile, ValueFault};
use clap::ArgMatches;
use pir_words::{limited_at, number_of, text_at};

/// What is wrong with the text of a number.
#[tactic(auto, unfolding(crate::specs::Values::text_fault))]
fn text_fault(amount: Amount, text: &str) -> Option<ValueFault>
    ensures { result ≡ text_fault amount text.now }
{
    match number_of(text) {
        None => Some(ValueFault::NoNumber { amount }),
        Some(number) => {
            if u64::from(amount.least()) <= number && number <= u64::from(amount.most()) {
                None
            } else {
                Some(ValueFault::OutOfRange { amount, number })
            }
        }
    }
}

/// What is wrong with the number of an option, where it is given.
#[tactic(auto, unfolding(crate::specs::Values::amount_fault))]
fn amount_fault(matches: &ArgMatches, amount: Amount) -> Option<ValueFault>
    ensures { result ≡ amount_fault amount (given matches.now) }
{
    text_fault(amount, text_at(matches, amount.name())?)
}

/// The number of an option, where it is given.
#[tactic(auto, unfolding(crate::specs::Values::amount_in))]
fn amount_at(matches: &ArgMatches, amount: Amount) -> Option<u32>
    ensures value { result ≡ amount_in amount (given matches.now) }
    ensures bound { IfSome result (λ n. n ≤ most_of amount) }
{
    limited_at(matches, amount.name(), amount.least(), amount.most())
}

/// Whether an option without a value is given.
#[tactic(auto, unfolding(crate::specs::Values::is_set))]
fn flag_at(matches: &ArgMatches, id: &str) -> bool
    ensures { result ≡ is_set id.now (given matches.now) }
{
    matches!(text_at(matches, id), Some("true"))
}

/// The text of an argument, or another where it isn't given.
#[tactic(auto, unfolding(crate::specs::Values::text_or))]
fn text_or<'a>(matches: &ArgMatches<'a>, id: &str, usual: &'static str) -> &'a str
    ensures { result.now ≡ text_or id.now usual.now (given matches.now) }
{
    text_at(matches, id).unwrap_or(usual)
}

/// That the longest value is given for lines without values.
#[tactic(auto, unfolding(crate::specs::Values::values_fault))]
fn values_fault(matches: &ArgMatches) -> Option<ValueFault>
    ensures { result ≡ values_fault (given matches.now) }
{
    if text_at(matches, "value-bytes").is_some() && !flag_at(matches, "values") {
        Some(ValueFault::WithoutValues)
    } else {
        None
    }
}

/// That an address is empty.
#[tactic(auto, unfolding(crate::specs::Values::servers_fault))]
fn servers_fault(matches: &ArgMatches) -> Option<ValueFault>
    ensures { result ≡ servers_fault (given matches.now) }
{
    if has_empty(text_at(matches, "servers")?) {
        Some(ValueFault::EmptyAddress)
    } else {
        None
    }
}

/// Whether both arguments are given, with one text.
#[tactic(auto, unfolding(crate::specs::Values::have_one_text))]
fn have_one_text(matches: &ArgMatches, a: &str, b: &str) -> bool
    ensures { result ≡ have_one_text a.now b.now (given matches.now) }
{
    match (text_at(matches, a), text_at(matches, b)) {
        (Some(text), Some(own)) => own == text,
        _ => false,
    }
}

/// Whether the keys are standard input.
#[tactic(auto, unfolding(crate::specs::Values::is_input))]
fn is_input(matches: &ArgMatches) -> bool
    ensures { result ≡ is_input (given matches.now) }
{
    matches!(text_at(matches, "keys"), Some("-"))
}

/// That a file that is written has the name of the keys' file.
#[tactic(auto, unfolding(crate::specs::Values::over_keys))]
fn over_keys(matches: &ArgMatches, id: &str, written: BuildFile) -> Option<ValueFault>
    ensures { result ≡ over_keys id.now (OneFile written Keys) (given matches.now) }
{
    if have_one_text(matches, id, "keys") && !is_input(matches) {
        Some(ValueFault::OneFile {
            written,
            other: BuildFile::Keys,
        })
    } else {
        None
    }
}

/// That the catalog has the name of the database.
#[tactic(auto, unfolding(crate::specs::Values::over_database))]
fn over_database(matches: &ArgMatches) -> Option<ValueFault>
    ensures { result ≡ over_database (given matches.now) }
{
    if have_one_text(matches, "catalog", "database") {
        Some(ValueFault::OneFile {
            written: BuildFile::Catalog,
            other: BuildFile::Database,
        })
    } else {
        None
    }
}

/// That a file would be written over another.
#[tactic(auto, unfolding(crate::specs::Values::files_fault))]
fn files_fault(matches: &ArgMatches) -> Option<ValueFault>
    ensures { result ≡ files_fault (given matches.now) }
{
    over_keys(matches, "database", BuildFile::Database).or(over_keys(
        matches,
        "catalog",
        BuildFile::Catalog,
    ).or(over_database(matches)))
}

/// The first fault of the numbers of `build`.
#[tactic(auto, unfolding(crate::specs::Values::build_amount_fault))]
fn build_amount_fault(matches: &ArgMatches) -> Option<ValueFault>
    ensures { result ≡ build_amount_fault (given matches.now) }
{
    amount_fault(matches, Amount::DigestBytes).or(amount_fault(matches, Amount::Rows).or(
        values_fault(matches).or(amount_fault(matches, Amount::ValueBytes)),
    ))
}

/// The first fault of the values of `build`.
#[tactic(auto, unfolding(crate::specs::Values::build_fault))]
pub(crate) fn build_fault(matches: &ArgMatches) -> Option<ValueFault>
    ensures { result ≡ build_fault (given matches.now) }
{
    build_amount_fault(matches).or(files_fault(matches))
}

/// The first fault of the values of `find`.
#[tactic(auto, unfolding(crate::specs::Values::find_fault))]
pub(crate) fn find_fault(matches: &ArgMatches) -> Option<ValueFault>
    ensures { result ≡ find_fault (given matches.now) }
{
    servers_fault(matches).or(amount_fault(matches, Amount::Degree).or(amount_fault(
        matches,
        Amount::Agree,
    )))
}

/// How many bytes a value may have, where it is said.
fn value_bytes_at(matches: &ArgMatches) -> Option<usize>
    ensures { result ≡ amount_in ValueBytes (given matches.now) }
{
    let most = amount_at(matches, Amount::ValueBytes)?;
    Some(most as usize)
}

/// How many bytes a digest has.
fn digest_at(matches: &ArgMatches) -> usize
    ensures { result ≡ unwrap_or (amount_in DigestBytes (given matches.now)) USUAL_DIGEST }
{
    match amount_at(matches, Amount::DigestBytes) {
        Some(bytes) => bytes as usize,
        None => USUAL_DIGEST,
    }
}

/// A number of at most 255.
fn byte_at(matches: &ArgMatches, amount: Amount) -> Option<u8>
    requires { most_of amount ≤ 255 }
    ensures { result ≡ amount_in amount (given matches.now) }
{
    let number = amount_at(matches, amount)?;
    Some(number as u8)
}

/// `build` with its values.
pub(crate) fn build_at<'a>(matches: &ArgMatches<'a>) -> Build<'a>
    ensures { IsBuild (given matches.now) result }
{
    Build {
        keys: text_or(matches, "keys", ""),
        database: text_or(matches, "database", ""),
        catalog: text_at(matches, "catalog"),
        values: flag_at(matches, "values"),
        value_bytes: value_bytes_at(matches),
        digest_bytes: digest_at(matches),
        rows: amount_at(matches, Amount::Rows),
        coins: text_or(matches, "coins", "/dev/urandom"),
    }
}

/// `find` with its values.
pub(crate) fn find_at<'a>(matches: &ArgMatches<'a>) -> Find<'a>
    ensures { IsFind (given matches.now) result }
{
    Find {
        catalog: text_or(matches, "catalog", ""),
        keys: text_or(matches, "keys", "-"),
        servers: text_at(matches, "servers"),
        degree: byte_at(matches, Amount::Degree),
        agree: byte_at(matches, Amount::Agree),
        coins: text_or(matches, "coins", "/dev/urandom"),
        hex: flag_at(matches, "hex"),
    }
}

/// `check` with its values.
pub(crate) fn check_at<'a>(matches: &ArgMatches<'a>) -> Check<'a>
    ensures { IsCheck (given matches.now) result }
{
    Check {
        database: text_or(matches, "database", ""),
        catalog: text_or(matches, "catalog", ""),
    }
}
