//! The values that several commands have, each in its range.

ghost use Rattle.std.specs.Prelude.{◌≡◌, IfOk, codes};
ghost use Rattle.quantity_limits.specs.declared.TheConstants.{MOST_GUESTS, MOST_WIDTH};
ghost use Rattle.pir_words.specs.Numbers.{given, limited};
ghost use Rattle.pir_words.specs.Ranges.{block_in, coins_in, row_named, scheme_in, scheme_named, servers_in, sharing_in, sizes_in, workers_in};

use crate::text::Text;
use crate::values::{limited_at, number_at, number_of, text_at};
use clap::ArgMatches;
use std::alloc::{AllocError, Global};
use wire_frames::{
    LEAST_SERVERS, MOST_CELLS, MOST_DEGREE, MOST_GUESTS, MOST_ROWS, MOST_SERVERS, MOST_WIDTH,
    MOST_WORKERS, Scheme,
};

/// The sizes of a database.
#[derive(Clone, Copy)]
pub struct Sizes {
    pub rows: u32,
    pub width: u32,
}

/// The degree of a query's polynomials, and how many answers have to agree.
#[derive(Clone, Copy)]
pub struct Sharing {
    pub degree: u8,
    pub agree: u8,
}

/// How many bytes a row has.
pub fn width_at(matches: &ArgMatches) -> Option<u32>
    ensures { result ≡ limited (codes "width") 1 MOST_WIDTH (given matches.now) }
{
    limited_at(matches, "width", 1, MOST_WIDTH)
}

/// After how many guests a server ends.
pub fn conns_at(matches: &ArgMatches) -> Option<u32>
    ensures { result ≡ limited (codes "conns") 1 MOST_GUESTS (given matches.now) }
{
    limited_at(matches, "conns", 1, MOST_GUESTS)
}

/// The rows of a database and their width.
#[tactic(auto, unfolding(crate::specs::Ranges::sizes_in))]
pub fn sizes_at(matches: &ArgMatches) -> Option<Sizes>
    ensures { result ≡ sizes_in (given matches.now) }
{
    match (limited_at(matches, "rows", 1, MOST_ROWS), width_at(matches)) {
        (Some(rows), Some(width)) if rows as u64 * width as u64 <= MOST_CELLS => {
            Some(Sizes { rows, width })
        }
        _ => None,
    }
}

/// The row that a text names, one of so many.
#[tactic(auto, unfolding(crate::specs::Ranges::row_named))]
pub fn row_named(text: &str, rows: u32) -> Option<u32>
    ensures { result ≡ row_named rows text.now }
{
    match number_of(text) {
        Some(row) if row < rows as u64 => Some(row as u32),
        _ => None,
    }
}

/// The block, one of so many rows.
#[tactic(auto, unfolding(crate::specs::Ranges::block_in))]
pub fn block_at(matches: &ArgMatches, rows: u32) -> Option<u32>
    ensures { result ≡ block_in rows (given matches.now) }
{
    row_named(text_at(matches, "block")?, rows)
}

/// The scheme of this name.
#[tactic(auto, unfolding(crate::specs::Ranges::scheme_named))]
fn scheme_named(name: &str) -> Option<Scheme>
    ensures { result ≡ scheme_named name.now }
{
    match name {
        "shamir" => Some(Scheme::Shamir),
        "xor" => Some(Scheme::Xor),
        _ => None,
    }
}

/// The scheme, Shamir's where none is named.
#[tactic(auto, unfolding(crate::specs::Ranges::scheme_in))]
pub fn scheme_at(matches: &ArgMatches) -> Option<Scheme>
    ensures { result ≡ scheme_in (given matches.now) }
{
    scheme_named(text_at(matches, "scheme").unwrap_or("shamir"))
}

/// How many servers there are.
#[tactic(auto, unfolding(crate::specs::Ranges::servers_in))]
pub fn servers_at(matches: &ArgMatches) -> Option<u8>
    ensures { result ≡ servers_in (given matches.now) }
{
    let servers = limited_at(
        matches,
        "servers",
        LEAST_SERVERS as u32,
        MOST_SERVERS as u32,
    )?;
    Some(servers as u8)
}

/// The degree and the agreement of `servers` servers.
#[tactic(auto, unfolding(crate::specs::Ranges::sharing_in))]
pub fn sharing_at(matches: &ArgMatches, servers: u8) -> Option<Sharing>
    ensures { result ≡ sharing_in servers (given matches.now) }
{
    let degree = limited_at(matches, "degree", 1, MOST_DEGREE as u32);
    match (degree, number_at(matches, "agree")) {
        (Some(degree), Some(agree)) if agree > degree as u64 && agree <= servers as u64 => {
            Some(Sharing {
                degree: degree as u8,
                agree: agree as u8,
            })
        }
        _ => None,
    }
}

/// The number of workers, one where it isn't given.
#[tactic(auto, unfolding(crate::specs::Ranges::workers_in))]
pub fn workers_at(matches: &ArgMatches) -> Option<u8>
    ensures { result ≡ workers_in (given matches.now) }
{
    match number_of(text_at(matches, "workers").unwrap_or("1")) {
        Some(n) if 1 <= n && n <= MOST_WORKERS as u64 => Some(n as u8),
        _ => None,
    }
}

/// The name of the file that random bytes come from.
#[tactic(auto, unfolding(crate::specs::Ranges::coins_in))]
pub fn coins_at(alloc: Global, matches: &ArgMatches) -> Result<Text, AllocError>
    ensures { IfOk result (λ coins. coins ≡ coins_in (given matches.now)) }
{
    Text::new(alloc, text_at(matches, "coins").unwrap_or("/dev/urandom"))
}
