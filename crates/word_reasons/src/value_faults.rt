//! What is wrong with the values of words that `clap` takes. Each reading that refuses a value has its reason here, in the
//! order in which the values are read.

ghost use Rattle.std.specs.Prelude.{IfSome};
ghost use Rattle.word_reasons.specs.Reason.{Hides, HidesNumber};

use crate::reason::{Amount, Named, OptionFault, Reason, Relation, Wanted, is_secret};
use clap::ArgMatches;
use pir_words::{
    LEAST_PORT, MOST_PORT, MOST_SHARDS, MOST_TAU, addresses_at, block_at, fetch_sharing_at,
    limited_at, number_at, number_of, scheme_at, servers_at, sharing_at, sizes_at, tau_at, text_at,
    texts_at,
};
use wire_frames::{
    LEAST_SERVERS, MOST_BLOCKS, MOST_CELLS, MOST_DEGREE, MOST_GUESTS, MOST_ROWS, MOST_SERVERS,
    MOST_WIDTH, MOST_WORKERS, Scheme,
};

/// That the value of an option isn't what it has to be.
fn unread<'a>(name: &'a str, text: &'a str, wanted: Wanted) -> Reason<'a>
    ensures { Hides result }
{
    let text = if is_secret(name) { None } else { Some(text) };
    Reason::Unread(name, text, wanted)
}

/// The number of an option.
fn named<'a>(matches: &ArgMatches<'a>, name: &'static str) -> Named<'a>
    ensures { HidesNumber result }
{
    Named::new(name, number_at(matches, name).unwrap_or(0))
}

/// Why the number of an option isn't read that has to be given, and from `least` to `most`.
fn number_reason<'a>(
    matches: &ArgMatches<'a>,
    name: &'static str,
    least: u64,
    most: u64,
) -> Reason<'a>
    ensures { Hides result }
{
    let Some(text) = text_at(matches, name) else {
        return Reason::Faulty(name, OptionFault::Missing);
    };
    let Some(number) = number_of(text) else {
        return unread(name, text, Wanted::Number);
    };
    let amount = Amount::Of(Named::new(name, number));
    if number < least {
        Reason::Compared(amount, Relation::Below, Amount::Limit(least))
    } else {
        Reason::Compared(amount, Relation::Above, Amount::Limit(most))
    }
}

/// Why the number of an option isn't one from `least` to `most`, where it isn't.
fn number_fault<'a>(
    matches: &ArgMatches<'a>,
    name: &'static str,
    least: u32,
    most: u32,
) -> Option<Reason<'a>>
    ensures { IfSome result Hides }
{
    match limited_at(matches, name, least, most) {
        Some(_) => None,
        None => Some(number_reason(matches, name, least as u64, most as u64)),
    }
}

/// Why the sizes of a database aren't read.
fn sizes_reason<'a>(matches: &ArgMatches<'a>) -> Reason<'a>
    ensures { Hides result }
{
    if let Some(reason) = number_fault(matches, "rows", 1, MOST_ROWS) {
        return reason;
    }
    if let Some(reason) = number_fault(matches, "width", 1, MOST_WIDTH) {
        return reason;
    }
    let cells = Amount::Times(named(matches, "rows"), named(matches, "width"));
    Reason::Compared(cells, Relation::Above, Amount::Limit(MOST_CELLS))
}

/// Why the scheme isn't read.
fn scheme_reason<'a>(matches: &ArgMatches<'a>) -> Reason<'a>
    ensures { Hides result }
{
    match text_at(matches, "scheme") {
        Some(text) => unread("scheme", text, Wanted::Scheme),
        None => Reason::Faulty("scheme", OptionFault::Missing),
    }
}

/// Why the block isn't read.
fn block_reason<'a>(matches: &ArgMatches<'a>) -> Reason<'a>
    ensures { Hides result }
{
    if number_at(matches, "block").is_none() {
        return number_reason(matches, "block", 0, MOST_ROWS as u64);
    }
    let block = Amount::Of(named(matches, "block"));
    Reason::Compared(
        block,
        Relation::NotBelow,
        Amount::Of(named(matches, "rows")),
    )
}

/// Why further blocks aren't read, where one of these texts isn't.
fn further_fault<'a>(matches: &ArgMatches<'a>, texts: &'a str, rows: u32) -> Option<Reason<'a>>
    ensures { IfSome result Hides }
{
    for text in texts.split(',') {
        match number_of(text) {
            Some(row) if row < rows as u64 => {}
            Some(row) => {
                let further = Amount::Of(Named::new("more", row));
                let rows = Amount::Of(named(matches, "rows"));
                return Some(Reason::Compared(further, Relation::NotBelow, rows));
            }
            None => return Some(unread("more", texts, Wanted::Numbers)),
        }
    }
    None
}

/// Why blocks aren't read that are each one of so many rows: they are too many, or have too many bytes.
fn together_reason<'a>(matches: &ArgMatches<'a>, texts: &str) -> Reason<'a>
    ensures { Hides result }
{
    let mut count = 1u64;
    for _ in texts.split(',') {
        count = count.saturating_add(1);
    }
    let blocks = Named::new("blocks", count);
    if count > MOST_BLOCKS as u64 {
        Reason::Compared(
            Amount::Of(blocks),
            Relation::Above,
            Amount::Limit(MOST_BLOCKS as u64),
        )
    } else {
        let bytes = Amount::Times(blocks, named(matches, "width"));
        Reason::Compared(bytes, Relation::Above, Amount::Limit(MOST_WIDTH as u64))
    }
}

/// Why the blocks of a fetch aren't read.
fn blocks_reason<'a>(matches: &ArgMatches<'a>, rows: u32) -> Reason<'a>
    ensures { Hides result }
{
    if block_at(matches, rows).is_none() {
        return block_reason(matches);
    }
    let texts = text_at(matches, "more").unwrap_or("");
    match further_fault(matches, texts, rows) {
        Some(reason) => reason,
        None => together_reason(matches, texts),
    }
}

/// Why degree and agreement aren't read, of so many servers or addresses.
fn sharing_reason<'a>(matches: &ArgMatches<'a>, name: &'static str, servers: u8) -> Reason<'a>
    ensures { Hides result }
{
    let all = Amount::Of(Named::new(name, servers as u64));
    if servers < LEAST_SERVERS {
        return Reason::Compared(all, Relation::Below, Amount::Limit(LEAST_SERVERS as u64));
    }
    if let Some(reason) = number_fault(matches, "degree", 1, MOST_DEGREE as u32) {
        return reason;
    }
    let Some(agree) = number_at(matches, "agree") else {
        return number_reason(matches, "agree", 0, MOST_SERVERS as u64);
    };
    let agreement = Amount::Of(Named::new("agree", agree));
    if agree > servers as u64 {
        Reason::Compared(agreement, Relation::Above, all)
    } else {
        let degree = Amount::Of(named(matches, "degree"));
        Reason::Compared(agreement, Relation::NotAbove, degree)
    }
}

/// Why the XOR scheme doesn't take the words of a fetch from so many servers.
fn xor_reason<'a>(matches: &ArgMatches<'a>, servers: u8) -> Reason<'a>
    ensures { Hides result }
{
    for name in ["degree", "agree", "tau"] {
        if text_at(matches, name).is_some() {
            return Reason::Faulty(name, OptionFault::NotForXor);
        }
    }
    let all = Amount::Of(Named::new("addresses", servers as u64));
    Reason::Compared(all, Relation::Below, Amount::Limit(LEAST_SERVERS as u64))
}

/// Why the degree of the shares isn't read, with these degree and agreement.
fn tau_reason<'a>(matches: &ArgMatches<'a>) -> Reason<'a>
    ensures { Hides result }
{
    if let Some(reason) = number_fault(matches, "tau", 0, MOST_TAU as u32) {
        return reason;
    }
    let sum = Amount::Plus(named(matches, "degree"), named(matches, "tau"));
    Reason::Compared(sum, Relation::NotBelow, Amount::Of(named(matches, "agree")))
}

/// Why the addresses of servers aren't read: they are too many.
fn addresses_reason<'a>(matches: &ArgMatches<'a>, most: u8) -> Reason<'a>
    ensures { Hides result }
{
    let count = match texts_at(matches, "addresses") {
        Some(addresses) => addresses.len(),
        None => 0,
    };
    let all = Amount::Of(Named::new("addresses", count as u64));
    Reason::Compared(all, Relation::Above, Amount::Limit(most as u64))
}

/// Why `fetch` isn't read.
fn fetch_reason<'a>(matches: &ArgMatches<'a>) -> Reason<'a>
    ensures { Hides result }
{
    let Some(sizes) = sizes_at(matches) else {
        return sizes_reason(matches);
    };
    let Some(scheme) = scheme_at(matches) else {
        return scheme_reason(matches);
    };
    let Some(addresses) = addresses_at(matches) else {
        return addresses_reason(matches, MOST_SERVERS);
    };
    let servers = addresses.len() as u8;
    let Some(sharing) = fetch_sharing_at(matches, scheme, servers) else {
        return match scheme {
            Scheme::Shamir => sharing_reason(matches, "addresses", servers),
            Scheme::Xor => xor_reason(matches, servers),
        };
    };
    if tau_at(matches, scheme, sharing).is_some() {
        return blocks_reason(matches, sizes.rows);
    }
    match scheme {
        Scheme::Shamir => tau_reason(matches),
        Scheme::Xor => xor_reason(matches, servers),
    }
}

/// Why `serve` isn't read.
fn serve_reason<'a>(matches: &ArgMatches<'a>) -> Reason<'a>
    ensures { Hides result }
{
    if let Some(reason) = number_fault(matches, "width", 1, MOST_WIDTH) {
        return reason;
    }
    if let Some(reason) = number_fault(matches, "conns", 1, MOST_GUESTS) {
        return reason;
    }
    if scheme_at(matches).is_none() {
        return scheme_reason(matches);
    }
    number_reason(matches, "workers", 1, MOST_WORKERS as u64)
}

/// Why the values of `selfrun` and `demo` aren't read that both have, where one of them isn't.
fn servers_fault<'a>(matches: &ArgMatches<'a>) -> Option<Reason<'a>>
    ensures { IfSome result Hides }
{
    let Some(servers) = servers_at(matches) else {
        let (least, most) = (LEAST_SERVERS as u64, MOST_SERVERS as u64);
        return Some(number_reason(matches, "servers", least, most));
    };
    match sharing_at(matches, servers) {
        Some(_) => None,
        None => Some(sharing_reason(matches, "servers", servers)),
    }
}

/// Why `selfrun` isn't read.
fn selfrun_reason<'a>(matches: &ArgMatches<'a>) -> Reason<'a>
    ensures { Hides result }
{
    if number_at(matches, "seed").is_none() {
        return number_reason(matches, "seed", 0, u64::MAX);
    }
    if sizes_at(matches).is_none() {
        return sizes_reason(matches);
    }
    if let Some(reason) = servers_fault(matches) {
        return reason;
    }
    let servers = servers_at(matches).unwrap_or(MOST_SERVERS);
    if let Some(reason) = number_fault(matches, "liars", 0, servers as u32) {
        return reason;
    }
    number_reason(matches, "workers", 1, MOST_WORKERS as u64)
}

/// Why `demo` isn't read.
fn demo_reason<'a>(matches: &ArgMatches<'a>) -> Reason<'a>
    ensures { Hides result }
{
    if let Some(reason) = number_fault(matches, "port", LEAST_PORT as u32, MOST_PORT as u32) {
        return reason;
    }
    let Some(sizes) = sizes_at(matches) else {
        return sizes_reason(matches);
    };
    if block_at(matches, sizes.rows).is_none() {
        return block_reason(matches);
    }
    match servers_fault(matches) {
        Some(reason) => reason,
        None => Reason::Faulty("database", OptionFault::Missing),
    }
}

/// Why the key isn't read, for rows of so many bytes.
fn key_reason<'a>(matches: &ArgMatches<'a>, width: u32) -> Reason<'a>
    ensures { Hides result }
{
    let text = text_at(matches, "key").unwrap_or("");
    if text.len() as u64 / 2 > width as u64 {
        let key = Amount::Of(Named::new("key", 0));
        let width = Amount::Of(Named::new("width", width as u64));
        return Reason::Compared(key, Relation::Longer, width);
    }
    unread("key", text, Wanted::Bytes)
}

/// Why `lookup` isn't read.
fn lookup_reason<'a>(matches: &ArgMatches<'a>) -> Reason<'a>
    ensures { Hides result }
{
    let Some(sizes) = sizes_at(matches) else {
        return sizes_reason(matches);
    };
    let Some(addresses) = addresses_at(matches) else {
        return addresses_reason(matches, MOST_SERVERS);
    };
    let servers = addresses.len() as u8;
    match sharing_at(matches, servers) {
        Some(_) => key_reason(matches, sizes.width),
        None => sharing_reason(matches, "addresses", servers),
    }
}

/// Why `split` isn't read.
fn split_reason<'a>(matches: &ArgMatches<'a>) -> Reason<'a>
    ensures { Hides result }
{
    if let Some(reason) = number_fault(matches, "width", 1, MOST_WIDTH) {
        return reason;
    }
    let (least, most) = (LEAST_SERVERS as u32, MOST_SERVERS as u32);
    if let Some(reason) = number_fault(matches, "servers", least, most) {
        return reason;
    }
    match number_at(matches, "tau") {
        Some(tau) if tau > 0 => {
            let degree = Amount::Of(Named::new("tau", tau));
            let servers = Amount::Of(named(matches, "servers"));
            Reason::Compared(degree, Relation::NotBelow, servers)
        }
        _ => number_reason(matches, "tau", 1, MOST_SERVERS as u64),
    }
}

/// Why the addresses of shards aren't read, where there are to be so many.
fn shards_reason<'a>(matches: &ArgMatches<'a>, shards: u32) -> Reason<'a>
    ensures { Hides result }
{
    let wanted = Amount::Of(Named::new("shards", shards as u64));
    if shards > MOST_SHARDS as u32 {
        return Reason::Compared(wanted, Relation::Above, Amount::Limit(MOST_SHARDS as u64));
    }
    let count = match texts_at(matches, "addresses") {
        Some(addresses) => addresses.len(),
        None => 0,
    };
    let given = Amount::Of(Named::new("addresses", count as u64));
    Reason::Compared(given, Relation::Unlike, wanted)
}

/// Why `front` isn't read.
fn front_reason<'a>(matches: &ArgMatches<'a>) -> Reason<'a>
    ensures { Hides result }
{
    let Some(sizes) = sizes_at(matches) else {
        return sizes_reason(matches);
    };
    let Some(shard) = limited_at(matches, "shard", 1, sizes.rows) else {
        return number_reason(matches, "shard", 1, sizes.rows as u64);
    };
    if let Some(reason) = number_fault(matches, "conns", 1, MOST_GUESTS) {
        return reason;
    }
    shards_reason(matches, sizes.rows.div_ceil(shard))
}

/// Why the command of this name isn't read, with the values that the matches have.
fn command_reason<'a>(name: &'a str, matches: &ArgMatches<'a>) -> Reason<'a>
    ensures { Hides result }
{
    match name {
        "fetch" => fetch_reason(matches),
        "serve" => serve_reason(matches),
        "selfrun" => selfrun_reason(matches),
        "demo" => demo_reason(matches),
        "lookup" => lookup_reason(matches),
        "split" => split_reason(matches),
        "front" => front_reason(matches),
        "replay" => Reason::NoOperand("file"),
        _ => Reason::UnknownCommand(name),
    }
}

/// Why the command that the matches ask for isn't read.
pub fn value_reason<'a>(matches: &ArgMatches<'a>) -> Reason<'a>
    ensures { Hides result }
{
    match matches.subcommand() {
        Some((name, inner)) => command_reason(name, inner),
        None => Reason::NoCommand,
    }
}
