//! The words of `fetch`.

ghost use Rattle.std.specs.Prelude.{◌≡◌, ◌≤◌, IfSome, length, map, option_map};
ghost use Rattle.quantity_limits.specs.declared.TheConstants.{MOST_SERVERS};
ghost use Rattle.pir_words.specs.Numbers.{given};
ghost use Rattle.pir_words.specs.FetchForm.{addresses_in, fetch_of, fetch_sharing_in, tau_in, xor_sharing_in};
ghost use Rattle.pir_words.specs.Form.{IsReadAs};

use crate::MOST_TAU;
use crate::asked::{Asked, WordsFault};
use crate::blocks::blocks_at;
use crate::command::{Form, Kind};
use crate::ranges::{Sharing, coins_at, scheme_at, sharing_at, sizes_at};
use crate::text::Texts;
use crate::values::{flag_at, number_of, owned_if_given, text_at, texts_at};
use clap::ArgMatches;
use std::alloc::Global;
use wire_frames::{LEAST_SERVERS, MOST_SERVERS, Scheme};

/// `fetch --rows R --width S --block B --degree T --agree H` with two addresses or more, or in the XOR scheme
/// `fetch --scheme xor --rows R --width S --block B` with as many.
/// What may be left out: `--scheme shamir`, `--more B,B,..`, `--tau U` (0; not in the XOR scheme),
/// `--coins FILE` (`/dev/urandom`), `--record FILE` and `--report`.
pub(crate) const FORM: Form<'static> = Form {
    name: "fetch",
    arguments: &[
        ("rows", Kind::Required),
        ("width", Kind::Required),
        ("block", Kind::Required),
        ("more", Kind::Optional),
        ("scheme", Kind::Optional),
        ("degree", Kind::Optional),
        ("tau", Kind::Optional),
        ("agree", Kind::Optional),
        ("coins", Kind::Optional),
        ("record", Kind::Optional),
        ("report", Kind::Flag),
        ("addresses", Kind::Operands),
    ],
};

/// The addresses, of no more servers than there may be.
#[tactic(auto, unfolding(crate::specs::FetchForm::addresses_in))]
pub fn addresses_at<'a, 'b>(matches: &'b ArgMatches<'a>) -> Option<&'b [&'a str]>
    ensures value { option_map (λ s. map (λ v. v.now) s.now) result ≡ addresses_in (given matches.now) }
    ensures few { IfSome result (λ s. length s.now ≤ MOST_SERVERS) }
{
    match texts_at(matches, "addresses") {
        Some(addresses) if addresses.len() <= MOST_SERVERS as usize => Some(addresses),
        _ => None,
    }
}

/// The degree and the agreement of `servers` servers in the XOR scheme, in which neither is given.
#[tactic(auto, unfolding(crate::specs::FetchForm::xor_sharing_in))]
fn xor_sharing_at(matches: &ArgMatches, servers: u8) -> Option<Sharing>
    ensures { result ≡ xor_sharing_in servers (given matches.now) }
{
    let given = text_at(matches, "degree").is_some() || text_at(matches, "agree").is_some();
    if given || servers < LEAST_SERVERS {
        return None;
    }
    Some(Sharing {
        degree: servers - 1,
        agree: servers,
    })
}

/// The degree and the agreement of `servers` servers in a scheme.
#[tactic(auto, unfolding(crate::specs::FetchForm::fetch_sharing_in))]
pub fn fetch_sharing_at(matches: &ArgMatches, scheme: Scheme, servers: u8) -> Option<Sharing>
    ensures { result ≡ fetch_sharing_in scheme servers (given matches.now) }
{
    match scheme {
        Scheme::Shamir => sharing_at(matches, servers),
        Scheme::Xor => xor_sharing_at(matches, servers),
    }
}

/// The degree in which the database is shared, 0 where it isn't given: with that of the queries it is less than the
/// agreement. In the XOR scheme it is not given.
#[tactic(auto, unfolding(crate::specs::FetchForm::tau_in))]
pub fn tau_at(matches: &ArgMatches, scheme: Scheme, sharing: Sharing) -> Option<u8>
    ensures { result ≡ tau_in scheme sharing (given matches.now) }
{
    let given = text_at(matches, "tau");
    match scheme {
        Scheme::Shamir => {
            let most = MOST_TAU as u64;
            let (degree, agree) = (sharing.degree as u64, sharing.agree as u64);
            match number_of(given.unwrap_or("0")) {
                Some(tau) if tau <= most && degree + tau < agree => Some(tau as u8),
                _ => None,
            }
        }
        Scheme::Xor => {
            if given.is_some() {
                return None;
            }
            Some(0)
        }
    }
}

/// `fetch` with its values, each in its range.
#[tactic(auto, unfolding(crate::specs::FetchForm::fetch_of))]
pub fn read_fetch(alloc: Global, matches: &ArgMatches) -> Result<Asked, WordsFault>
    ensures { IsReadAs (fetch_of (given matches.now)) result }
{
    let Some(sizes) = sizes_at(matches) else {
        return Err(WordsFault::Usage);
    };
    let Some(scheme) = scheme_at(matches) else {
        return Err(WordsFault::Usage);
    };
    let Some(addresses) = addresses_at(matches) else {
        return Err(WordsFault::Usage);
    };
    let Some(sharing) = fetch_sharing_at(matches, scheme, addresses.len() as u8) else {
        return Err(WordsFault::Usage);
    };
    let Some(tau) = tau_at(matches, scheme, sharing) else {
        return Err(WordsFault::Usage);
    };
    let blocks = blocks_at(alloc, matches, sizes)?;
    let coins = coins_at(alloc, matches)?;
    let keep = owned_if_given(alloc, text_at(matches, "record"))?;
    let addresses = Texts::new(alloc, addresses)?;
    Ok(Asked::Fetch {
        scheme: scheme.number(),
        rows: sizes.rows,
        width: sizes.width,
        blocks,
        degree: sharing.degree,
        tau,
        agree: sharing.agree,
        coins,
        keep,
        report: flag_at(matches, "report"),
        addresses,
    })
}
