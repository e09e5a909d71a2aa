//! The words of `split`.

ghost use Rattle.std.specs.Prelude.{◌≡◌};
ghost use Rattle.pir_words.specs.Numbers.{given};
ghost use Rattle.pir_words.specs.SplitForm.{split_of, tau_among};
ghost use Rattle.pir_words.specs.Form.{IsReadAs};

use crate::asked::{Asked, WordsFault};
use crate::command::{Form, Kind};
use crate::ranges::{coins_at, servers_at, width_at};
use crate::values::{number_at, owned_at};
use clap::ArgMatches;
use std::alloc::Global;

/// `split --database FILE --width S --servers N --tau U --into NAME`; `--coins FILE` (`/dev/urandom`) may be left out.
pub(crate) const FORM: Form<'static> = Form {
    name: "split",
    arguments: &[
        ("database", Kind::Required),
        ("width", Kind::Required),
        ("servers", Kind::Required),
        ("tau", Kind::Required),
        ("into", Kind::Required),
        ("coins", Kind::Optional),
    ],
};

/// The degree in which a database is shared among so many servers.
#[tactic(auto, unfolding(crate::specs::SplitForm::tau_among))]
fn tau_among(matches: &ArgMatches, servers: u8) -> Option<u8>
    ensures { result ≡ tau_among servers (given matches.now) }
{
    match number_at(matches, "tau") {
        Some(tau) if 1 <= tau && tau < servers as u64 => Some(tau as u8),
        _ => None,
    }
}

/// `split` with its values, each in its range.
#[tactic(auto, unfolding(crate::specs::SplitForm::split_of))]
pub fn read_split(alloc: Global, matches: &ArgMatches) -> Result<Asked, WordsFault>
    ensures { IsReadAs (split_of (given matches.now)) result }
{
    let Some(width) = width_at(matches) else {
        return Err(WordsFault::Usage);
    };
    let Some(servers) = servers_at(matches) else {
        return Err(WordsFault::Usage);
    };
    let Some(tau) = tau_among(matches, servers) else {
        return Err(WordsFault::Usage);
    };
    let database = owned_at(alloc, matches, "database")?;
    let into = owned_at(alloc, matches, "into")?;
    let coins = coins_at(alloc, matches)?;
    Ok(Asked::Split {
        database,
        width,
        servers,
        tau,
        into,
        coins,
    })
}
