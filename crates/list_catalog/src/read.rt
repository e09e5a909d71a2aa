//! Reading a catalog.

ghost use Rattle.std.specs.Prelude.{◌≡◌, ◌≤◌, IfOk, IfSome, length, map, option_map, string_bytes};
ghost use Rattle.toml.specs.Data.{get_member};
ghost use Rattle.toml.specs.View.{array_view, table_view, view};
ghost use Rattle.list_catalog.specs.Member.{name_of};
ghost use Rattle.list_catalog.specs.Documents.{addresses_in, all_texts, catalog_in, digits_in, fitting, is_known, no_stranger, number_in, ranged, servers_in, servers_of, stranger, texts};
ghost use Rattle.list_catalog.specs.Said.{IsFaithful};
ghost use Rattle.list_catalog.specs.Reading.{Comes, ComesAs, Parses, Reads, line_of};

use crate::catalog::Catalog;
use crate::fault::{CatalogFault, MemberFault, Name};
use crate::member::{Member, OF_SERVERS, ROOT};
use crate::range::Range;
use crate::servers::Servers;
use crate::{FORMAT, MOST_CATALOG};
use hex::FromHex;
use key_table::{LEAST_DIGEST, MOST_DIGEST, MOST_PAIRS, MOST_VALUE, entry_size};
use quantity_limits::{MOST_CELLS, MOST_DEGREE, MOST_ROWS, MOST_SERVERS, MOST_WIDTH};
use std::alloc::Global;
use toml::value::Array;
use toml::{Table, Value};

/// How many bytes stand before the entries of a row.
const HEAD_SIZE: usize = 10;

/// Whether a name is one of these members'.
fn is_known(known: &[Member], name: &str) -> bool
    ensures { result ≡ is_known known.now name.now }
{
    for member in known {
        if name == member.name() {
            return true;
        }
    }
    false
}

/// The first name in a table that is none of these members'.
fn stranger<'a>(known: &[Member], table: &'a Table) -> Option<&'a str>
    ensures { option_map (λ name. name.now) result ≡ stranger known.now (table_view table.now) }
{
    'members: for (name, _) in table.iter() {
        if !is_known(known, name.as_str()) {
            return Some(name.as_str());
        }
    }
    None
}

/// Refuses a table that has another member than these.
fn refuse_stranger(alloc: Global, known: &[Member], table: &Table) -> Result<(), CatalogFault>
    ensures { Comes (no_stranger (stranger known.now (table_view table.now))) result }
{
    match stranger(known, table) {
        Some(name) => Err(CatalogFault::Unfit(MemberFault::Unknown(Name::new(alloc, name)?))),
        None => Ok(()),
    }
}

/// The value of a member.
fn value_of<'a>(table: &'a Table, member: Member) -> Option<&'a Value>
    ensures { option_map (λ value. view value.now) result ≡ get_member (name_of member) (table_view table.now) }
{
    table.get(member.name())
}

/// A number, where it is one from `least` to `most`.
fn ranged(number: i64, least: u32, most: u32) -> Option<u32>
    ensures value { result ≡ ranged number least most }
    ensures range { IfSome result (λ n. (least ≤ n) × (n ≤ most)) }
{
    match u32::try_from(number) {
        Ok(n) if least <= n && n <= most => Some(n),
        _ => None,
    }
}

/// The number of a member, from `least` to `most`.
#[tactic(auto, unfolding(crate::specs::Documents::number_in))]
fn number_in(table: &Table, member: Member, least: u32, most: u32) -> Result<u32, MemberFault>
    ensures value { result ≡ number_in (table_view table.now) member least most }
    ensures range { IfOk result (λ n. (least ≤ n) × (n ≤ most)) }
{
    let Some(value) = value_of(table, member) else {
        return Err(MemberFault::Missing(member));
    };
    let Some(number) = value.as_integer() else {
        return Err(MemberFault::NotNumber(member));
    };
    match ranged(number, least, most) {
        Some(number) => Ok(number),
        None => {
            let range = Range { least, most };
            Err(MemberFault::OutOfRange {
                member,
                number,
                range,
            })
        }
    }
}

/// The bytes of a member, which has two hexadecimal digits for each.
#[tactic(auto, unfolding(crate::specs::Documents::digits_in))]
fn digits_in<const N: usize>(table: &Table, member: Member) -> Result<[u8; N], MemberFault>
    requires { N ≤ 32 }
    ensures { result ≡ digits_in (table_view table.now) member N }
{
    let Some(value) = value_of(table, member) else {
        return Err(MemberFault::Missing(member));
    };
    let fault = MemberFault::NotDigits {
        member,
        count: 2 * N,
    };
    let Some(text) = value.as_str() else {
        return Err(fault);
    };
    match <[u8; N] as FromHex>::from_hex(text) {
        Ok(bytes) => Ok(bytes),
        Err(_) => Err(fault),
    }
}

/// That a row has room for an entry, that the rows are no more than a database, and that they have room for all
/// entries.
#[tactic(auto, unfolding(crate::specs::Documents::fitting))]
fn fitting(
    digest: usize,
    entries: u32,
    rows: u32,
    value: usize,
    width: u32,
) -> Result<(), MemberFault>
    requires digest { (LEAST_DIGEST ≤ digest) × (digest ≤ MOST_DIGEST) }
    requires value { value ≤ MOST_VALUE }
    ensures { result ≡ fitting digest entries rows value width }
{
    let size = entry_size(digest, value) as u32;
    let least = HEAD_SIZE as u32 + size;
    if width < least {
        return Err(MemberFault::TooNarrow { width, least });
    }
    if u64::from(rows) * u64::from(width) > MOST_CELLS {
        return Err(MemberFault::TooLarge { rows, width });
    }
    let room = u64::from(rows) * u64::from((width - HEAD_SIZE as u32) / size);
    if room < u64::from(entries) {
        return Err(MemberFault::TooMany { entries, room });
    }
    Ok(())
}

/// Copies of the texts of a list that has only texts.
fn copied_texts(alloc: Global, list: &Array) -> Result<Vec<String>, CatalogFault>
    ensures { ComesAs (λ v. map string_bytes v.items) (all_texts (texts (array_view list.now))) result }
{
    let mut copies = Vec::new(alloc);
    'items: for item in list {
        let Some(text) = item.as_str() else {
            return Err(CatalogFault::Unfit(MemberFault::NotTexts));
        };
        copies.push(String::from_str(alloc, text)?)?;
    }
    Ok(copies)
}

/// The addresses in the table of the servers.
#[tactic(auto, unfolding(crate::specs::Documents::addresses_in))]
fn addresses_in(alloc: Global, table: &Table) -> Result<Vec<String>, CatalogFault>
    ensures { ComesAs (λ v. map string_bytes v.items) (addresses_in (table_view table.now)) result }
{
    let Some(value) = value_of(table, Member::Addresses) else {
        return Err(CatalogFault::Unfit(MemberFault::Missing(Member::Addresses)));
    };
    match value.as_array() {
        Some(list) => copied_texts(alloc, list),
        None => Err(CatalogFault::Unfit(MemberFault::NotTexts)),
    }
}

/// What the table of the servers says.
#[tactic(auto, unfolding(crate::specs::Documents::servers_of))]
fn servers_of(alloc: Global, table: &Table) -> Result<Servers, CatalogFault>
    ensures { Comes (servers_of (table_view table.now)) result }
{
    refuse_stranger(alloc, OF_SERVERS.as_slice(), table)?;
    let addresses = addresses_in(alloc, table)?;
    let agree = number_in(table, Member::Agree, 1, MOST_SERVERS as u32)?;
    let degree = number_in(table, Member::Degree, 1, MOST_DEGREE as u32)?;
    match Servers::new(addresses, degree as u8, agree as u8) {
        Ok(servers) => Ok(servers),
        Err(fault) => Err(CatalogFault::Unfit(MemberFault::Servers(fault))),
    }
}

/// The servers of a document, where it has some.
#[tactic(auto, unfolding(crate::specs::Documents::servers_in))]
fn servers_in(alloc: Global, document: &Table) -> Result<Option<Servers>, CatalogFault>
    ensures { Comes (servers_in (table_view document.now)) result }
{
    let Some(value) = value_of(document, Member::Servers) else {
        return Ok(None);
    };
    let Some(table) = value.as_table() else {
        return Err(CatalogFault::Unfit(MemberFault::NotTable));
    };
    match servers_of(alloc, table) {
        Ok(servers) => Ok(Some(servers)),
        Err(fault) => Err(fault),
    }
}

/// What a document says as a catalog.
#[tactic(auto, unfolding(crate::specs::Documents::catalog_in))]
fn catalog_in(alloc: Global, document: &Table) -> Result<Catalog, CatalogFault>
    ensures { Comes (catalog_in (table_view document.now)) result }
{
    refuse_stranger(alloc, ROOT.as_slice(), document)?;
    let digest = number_in(
        document,
        Member::Digest,
        LEAST_DIGEST as u32,
        MOST_DIGEST as u32,
    )? as usize;
    let entries = number_in(document, Member::Entries, 1, MOST_PAIRS as u32)?;
    number_in(document, Member::Format, FORMAT, FORMAT)?;
    let tag = digits_in::<8>(document, Member::List)?;
    let rows = number_in(document, Member::Rows, 1, MOST_ROWS)?;
    let salt = digits_in::<16>(document, Member::Salt)?;
    let sha256 = digits_in::<32>(document, Member::Sha256)?;
    let value = number_in(document, Member::Value, 0, MOST_VALUE as u32)? as usize;
    let width = number_in(document, Member::Width, 1, MOST_WIDTH)?;
    fitting(digest, entries, rows, value, width)?;
    let servers = servers_in(alloc, document)?;
    Ok(Catalog {
        digest,
        entries,
        tag,
        rows,
        salt,
        sha256,
        value,
        width,
        servers,
    })
}

/// The line of a place in a text, counted from 1.
fn line_of(text: &[u8], place: usize) -> usize
    requires { place ≤ length text.now }
    ensures { result ≡ line_of text.now place }
{
    1 + text[..place].iter().filter(|b| **b == b'\n').count()
}

/// The document that a text is.
fn parsed(alloc: Global, text: &str) -> Result<Table, CatalogFault>
    requires { length text.now ≤ MOST_CATALOG }
    ensures { Parses text.now result }
{
    match toml::table_from_str(alloc, text) {
        Ok(document) => Ok(document),
        Err(why) => match why.span() {
            Some(span) => {
                let line = line_of(text.as_bytes(), span.start);
                Err(CatalogFault::NotToml { line, why })
            }
            None => Err(CatalogFault::Memory),
        },
    }
}

/// The catalog that a text is.
fn catalog_of(alloc: Global, text: &[u8]) -> Result<Catalog, CatalogFault>
    ensures { Reads text.now result }
{
    if text.len() > MOST_CATALOG {
        return Err(CatalogFault::TooLong);
    }
    let Ok(text) = std::str::from_utf8(text) else {
        return Err(CatalogFault::NotText);
    };
    let document = parsed(alloc, text)?;
    catalog_in(alloc, &document)
}

/// Reads the text of a catalog. Its document has the members `digest`, `entries`, `format`, `list`, `rows`, `salt`,
/// `sha256`, `value` and `width`, and may have a table `servers` with `addresses`, `agree` and `degree`, and no others.
///
/// ```
/// let catalog = read_catalog(alloc, &bytes)?;
/// let Some(servers) = catalog.servers else {
///     return Err(NoServers);
/// };
/// ```
///
/// # Errors
///
/// The first of these. `TooLong` exactly where there are more than [`MOST_CATALOG`] bytes; `NotText` exactly where they
/// are not UTF-8; `NotToml` exactly where the text is no document in TOML 1.1; `Unfit` exactly where the document is no
/// catalog, with the first fault: a member of another name, then the members as they are listed above, then that the sizes
/// don't fit each other, and last the servers. `Memory` for want of memory, where none of the first two is so.
pub fn read_catalog(alloc: Global, text: &[u8]) -> Result<Catalog, CatalogFault>
    ensures reads { Reads text.now result }
    // A catalog says what its document has, member by member; a document that is refused says no catalog.
    ensures catalog { IsFaithful text.now result }
{
    catalog_of(alloc, text)
}
