//! The words of `front`.

ghost use Rattle.std.specs.Prelude.{◌≡◌, ◌≤◌, map, option_map};
ghost use Rattle.pir_words.specs.Numbers.{given};
ghost use Rattle.pir_words.specs.FrontForm.{front_of, shard_addresses_in};
ghost use Rattle.pir_words.specs.Form.{IsReadAs};

use crate::MOST_SHARDS;
use crate::asked::{Asked, WordsFault};
use crate::command::{Form, Kind};
use crate::ranges::{conns_at, sizes_at};
use crate::text::Texts;
use crate::values::{limited_at, owned_at, texts_at};
use clap::ArgMatches;
use std::alloc::Global;

/// `front --rows R --width S --shard K --conns GUESTS --listen ADDR` with an address for each shard.
pub(crate) const FORM: Form<'static> = Form {
    name: "front",
    arguments: &[
        ("rows", Kind::Required),
        ("width", Kind::Required),
        ("shard", Kind::Required),
        ("conns", Kind::Required),
        ("listen", Kind::Required),
        ("addresses", Kind::Operands),
    ],
};

/// The addresses, one for each shard of the rows, of which `shard` lie on each but the last.
#[tactic(auto, unfolding(crate::specs::FrontForm::shard_addresses_in))]
fn shard_addresses_at<'a, 'b>(
    matches: &'b ArgMatches<'a>,
    rows: u32,
    shard: u32,
) -> Option<&'b [&'a str]>
    requires { 1 ≤ shard }
    ensures { option_map (λ s. map (λ v. v.now) s.now) result ≡ shard_addresses_in rows shard (given matches.now) }
{
    let shards = rows.div_ceil(shard) as usize;
    match texts_at(matches, "addresses") {
        Some(addresses) if addresses.len() == shards && shards <= MOST_SHARDS as usize => {
            Some(addresses)
        }
        _ => None,
    }
}

/// `front` with its values, each in its range.
#[tactic(auto, unfolding(crate::specs::FrontForm::front_of))]
pub fn read_front(alloc: Global, matches: &ArgMatches) -> Result<Asked, WordsFault>
    ensures { IsReadAs (front_of (given matches.now)) result }
{
    let Some(sizes) = sizes_at(matches) else {
        return Err(WordsFault::Usage);
    };
    let Some(shard) = limited_at(matches, "shard", 1, sizes.rows) else {
        return Err(WordsFault::Usage);
    };
    let Some(conns) = conns_at(matches) else {
        return Err(WordsFault::Usage);
    };
    let Some(addresses) = shard_addresses_at(matches, sizes.rows, shard) else {
        return Err(WordsFault::Usage);
    };
    let listen = owned_at(alloc, matches, "listen")?;
    let addresses = Texts::new(alloc, addresses)?;
    Ok(Asked::Front {
        rows: sizes.rows,
        width: sizes.width,
        shard,
        conns,
        listen,
        addresses,
    })
}
