//! Addresses, parted by commas.

ghost use Rattle.std.specs.Prelude.{◌≡◌, ◌==◌, length, map, string_bytes, IfOk};
ghost use Rattle.std.specs.List.{list_any};
ghost use Rattle.list_words.specs.Values.{addresses_of, has_empty};

use std::alloc::{AllocError, Global};

/// Whether one of the texts between the commas is empty.
pub(crate) fn has_empty(text: &str) -> bool
    ensures { result ≡ has_empty text.now }
{
    text.split(',').any(|address| address.is_empty())
}

/// The texts between the commas.
fn parts<'a>(alloc: Global, text: &'a str) -> Result<Vec<&'a str>, AllocError>
    ensures { IfOk result (λ parts. map (λ part. part.now) parts.items ≡ addresses_of text.now) }
{
    text.split(',').collect(alloc)
}

/// Copies of texts.
fn owned(alloc: Global, texts: &[&str]) -> Result<Vec<String>, AllocError>
    ensures { IfOk result (λ list. map string_bytes list.items ≡ map (λ v. v.now) texts.now) }
{
    let mut list = Vec::new(alloc);
    for text in texts {
        list.push(String::from_str(alloc, *text)?)?;
    }
    Ok(list)
}

/// The addresses that a text has, parted by commas.
///
/// # Errors
///
/// `AllocError` for want of memory.
pub fn addresses(alloc: Global, text: &str) -> Result<Vec<String>, AllocError>
    ensures { IfOk result (λ list. map string_bytes list.items ≡ addresses_of text.now) }
{
    let texts = parts(alloc, text)?;
    owned(alloc, texts.as_slice())
}
