//! Writing a catalog.

ghost use Rattle.std.specs.Prelude.{◌≡◌, ◌≤◌, ℕ, pos, IfErr, IfOk, None, OnOk, length, map, string_bytes};
ghost use Rattle.hex.specs.Hex.{IsBytes};
ghost use Rattle.toml.specs.View.{array_view, table_view, view};
ghost use Rattle.list_catalog.specs.Member.{name_of};
ghost use Rattle.list_catalog.specs.Reading.{ReadsBack};
ghost use Rattle.list_catalog.specs.Serving.{CanServe};
ghost use Rattle.list_catalog.specs.Facts.{AreBytes, IsCatalog};
ghost use Rattle.list_catalog.specs.Writing.{Writes, digits, document_of, items_of, number, servers_document, with_member};

use crate::catalog::Catalog;
use crate::fault::WriteFault;
use crate::member::Member;
use crate::servers::Servers;
use crate::{FORMAT, MOST_CATALOG};
use std::alloc::{AllocError, Global};
use toml::value::Array;
use toml::{Table, Value};

/// Puts a value into a table, as a member.
fn put(alloc: Global, table: &mut Table, member: Member, value: Value) -> Result<(), AllocError>
    ensures { OnOk result (table_view table.new ≡ with_member (name_of member) (view value) (table_view table.old)) }
{
    let name = String::from_str(alloc, member.name())?;
    table.insert(name, value)?;
    Ok(())
}

/// Puts a number into a table.
fn put_number(alloc: Global, table: &mut Table, member: Member, n: u32) -> Result<(), AllocError>
    ensures { OnOk result (table_view table.new ≡ with_member (name_of member) (number n) (table_view table.old)) }
{
    put(alloc, table, member, Value::from(n))
}

/// Bytes as two hexadecimal digits each.
fn digits(alloc: Global, bytes: &[u8]) -> Result<Value, AllocError>
    ensures value { IfOk result (λ value. view value ≡ digits bytes.now) }
    ensures bytes { IfOk result (λ _. IsBytes bytes.now) }
{
    let text = hex::encode(alloc, bytes)?;
    Ok(Value::from(text))
}

/// Puts bytes into a table, as two hexadecimal digits each.
fn put_digits<const N: usize>(
    alloc: Global,
    table: &mut Table,
    member: Member,
    bytes: &[u8; N],
) -> Result<(), AllocError>
    ensures table { OnOk result (table_view table.new
        ≡ with_member (name_of member) (digits bytes.now) (table_view table.old)) }
    ensures bytes { OnOk result (AreBytes N bytes.now) }
{
    let value = digits(alloc, bytes.as_slice())?;
    put(alloc, table, member, value)
}

/// Texts as a list.
fn list_of(alloc: Global, texts: &[String]) -> Result<Array, AllocError>
    ensures { IfOk result (λ list. array_view list ≡ items_of (map string_bytes texts.now)) }
{
    let mut list = Vec::new(alloc);
    for text in texts {
        list.push(Value::string(alloc, text.as_str())?)?;
    }
    Ok(list)
}

/// The table of the servers.
#[tactic(auto, unfolding(crate::specs::Writing::servers_document))]
fn servers_document(alloc: Global, servers: &Servers) -> Result<Table, AllocError>
    ensures table { IfOk result (λ table. table_view table ≡ servers_document servers.now) }
    ensures rules { OnOk result (CanServe servers.now.addresses servers.now.degree servers.now.agree) }
{
    let mut table = Table::new(alloc);
    let addresses = list_of(alloc, servers.addresses())?;
    put(alloc, &mut table, Member::Addresses, Value::from(addresses))?;
    put_number(alloc, &mut table, Member::Agree, servers.agree() as u32)?;
    put_number(alloc, &mut table, Member::Degree, servers.degree() as u32)?;
    Ok(table)
}

/// The document of a catalog.
#[tactic(auto, unfolding(crate::specs::Writing::document_of))]
fn document_of(alloc: Global, catalog: &Catalog) -> Result<Table, AllocError>
    ensures table { IfOk result (λ table. table_view table ≡ document_of catalog.now) }
    ensures rules { IfOk result (λ _. IsCatalog catalog.now) }
{
    let mut table = Table::new(alloc);
    put_number(alloc, &mut table, Member::Digest, catalog.digest as u32)?;
    put_number(alloc, &mut table, Member::Entries, catalog.entries)?;
    put_number(alloc, &mut table, Member::Format, FORMAT)?;
    put_digits(alloc, &mut table, Member::List, &catalog.tag)?;
    put_number(alloc, &mut table, Member::Rows, catalog.rows)?;
    put_digits(alloc, &mut table, Member::Salt, &catalog.salt)?;
    if let Some(servers) = &catalog.servers {
        let document = servers_document(alloc, servers)?;
        put(alloc, &mut table, Member::Servers, Value::from(document))?;
    }
    put_digits(alloc, &mut table, Member::Sha256, &catalog.sha256)?;
    put_number(alloc, &mut table, Member::Value, catalog.value as u32)?;
    put_number(alloc, &mut table, Member::Width, catalog.width)?;
    Ok(table)
}

/// The text of a catalog: a line `NAME = VALUE` for each member, ascending by name, with hexadecimal digits in lower
/// case, and where it has servers their table at the end.
///
/// [`read_catalog`](crate::read_catalog) reads the text as the same catalog.
///
/// # Errors
///
/// `TooLong` exactly where the text has more than [`MOST_CATALOG`] bytes, which its addresses alone can bring about, or
/// `Memory`.
pub fn write_catalog(alloc: Global, catalog: &Catalog) -> Result<String, WriteFault>
    ensures text { Writes catalog.now result }
    ensures read_back { IfOk result (λ text. ReadsBack (string_bytes text) catalog.now) }
    ensures short { catalog.now.servers ≡ None → IfErr result (λ fault. fault ≡ WriteFault.Memory) }
{
    let document = document_of(alloc, catalog)?;
    let Ok(text) = toml::table_to_string(alloc, &document) else {
        return Err(WriteFault::Memory);
    };
    if text.len() > MOST_CATALOG {
        return Err(WriteFault::TooLong);
    }
    Ok(text)
}
