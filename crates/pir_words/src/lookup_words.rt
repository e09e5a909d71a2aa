//! The words of `lookup`.

ghost use Rattle.pir_words.specs.Numbers.{given};
ghost use Rattle.pir_words.specs.LookUpForm.{key_in, lookup_of};
ghost use Rattle.pir_words.specs.Form.{IsReadAs};

use crate::asked::{Asked, WordsFault};
use crate::command::{Form, Kind};
use crate::fetch_words::addresses_at;
use crate::ranges::{coins_at, sharing_at, sizes_at};
use crate::text::Texts;
use crate::values::text_at;
use clap::ArgMatches;
use key_search::{Key, read_key};
use std::alloc::Global;

/// `lookup --rows R --width S --key HEX --degree T --agree H` with two addresses or more;
/// `--coins FILE` (`/dev/urandom`) may be left out.
pub(crate) const FORM: Form<'static> = Form {
    name: "lookup",
    arguments: &[
        ("rows", Kind::Required),
        ("width", Kind::Required),
        ("key", Kind::Required),
        ("degree", Kind::Required),
        ("agree", Kind::Required),
        ("coins", Kind::Optional),
        ("addresses", Kind::Operands),
    ],
};

/// The key, for rows of so many bytes.
#[tactic(auto, unfolding(crate::specs::LookUpForm::key_in))]
fn key_at(alloc: Global, matches: &ArgMatches, width: u32) -> Result<Key, WordsFault>
    ensures { IsReadAs (key_in width (given matches.now)) result }
{
    match text_at(matches, "key") {
        Some(text) => Ok(read_key(alloc, text, width)?),
        None => Err(WordsFault::Usage),
    }
}

/// `lookup` with its values, each in its range.
#[tactic(auto, unfolding(crate::specs::LookUpForm::lookup_of))]
pub fn read_lookup(alloc: Global, matches: &ArgMatches) -> Result<Asked, WordsFault>
    ensures { IsReadAs (lookup_of (given matches.now)) result }
{
    let Some(sizes) = sizes_at(matches) else {
        return Err(WordsFault::Usage);
    };
    let Some(addresses) = addresses_at(matches) else {
        return Err(WordsFault::Usage);
    };
    let Some(sharing) = sharing_at(matches, addresses.len() as u8) else {
        return Err(WordsFault::Usage);
    };
    let key = key_at(alloc, matches, sizes.width)?;
    let coins = coins_at(alloc, matches)?;
    let addresses = Texts::new(alloc, addresses)?;
    Ok(Asked::Lookup {
        rows: sizes.rows,
        width: sizes.width,
        key,
        degree: sharing.degree,
        agree: sharing.agree,
        coins,
        addresses,
    })
}
