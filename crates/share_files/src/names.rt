//! The names of the shares' files.

ghost use Rattle.std.specs.Prelude.{◌≡◌, map, string_bytes, IfOk, vec_len};
ghost use Rattle.share_files.specs.SplitPlan.{share_name, share_names};

use std::alloc::{AllocError, Global};

/// The name of the file for the server with this index.
#[tactic(auto, unfolding(crate::specs::SplitPlan::share_name))]
fn name_of_share(alloc: Global, into: &str, index: u8) -> Result<String, AllocError>
    ensures { IfOk result (λ name. string_bytes name ≡ share_name into.now index) }
{
    format!(in alloc; "{into}.{index}")
}

/// The names of the files for so many servers, in their order.
#[tactic(auto, unfolding(crate::specs::SplitPlan::share_names))]
pub(crate) fn names_of_shares(
    alloc: Global,
    into: &str,
    servers: u8,
) -> Result<Vec<String>, AllocError>
    ensures names { IfOk result (λ names. map string_bytes names.items ≡ share_names into.now servers) }
    ensures count { IfOk result (λ names. vec_len names ≡ servers) }
{
    let mut names = Vec::new(alloc);
    'servers: for i in 0..servers {
        names.push(name_of_share(alloc, into, i + 1)?)?;
    }
    Ok(names)
}
