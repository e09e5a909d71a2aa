//! What options say of the servers.

ghost use Rattle.std.specs.Prelude.{◌≡◌, map, string_bytes, IfOk};
ghost use Rattle.std.specs.Option.{option_map};
ghost use Rattle.list_words.specs.Values.{addresses_of};

use list_words::addresses;
use std::alloc::{AllocError, Global};

/// The addresses that an option has, parted by commas, where it is given.
pub(crate) fn addresses_by(
    alloc: Global,
    text: Option<&str>,
) -> Result<Option<Vec<String>>, AllocError>
    ensures { IfOk result (λ list. option_map (λ v. map string_bytes v.items) list
        ≡ option_map (λ t. addresses_of t.now) text.entry) }
{
    match text {
        Some(text) => Ok(Some(addresses(alloc, text)?)),
        None => Ok(None),
    }
}
