//! What is said to a person of a run. The words of these sentences have no clause.

use crate::looked::Looked;
use crate::run::ListEnd;
use crate::status::exit_code;
use crate::too_few::too_few;
use block_decoder::Verdict;
use list_builds::{BuildFault, Built};
use list_finds::{Ending, Unlisted};
use std::alloc::{AllocError, Global};

/// What is said of a verdict that doesn't list exactly one block.
fn unlisted_sentence(alloc: Global, unlisted: &Unlisted) -> Result<String, AllocError> {
    match &unlisted.verdict {
        Verdict::Listed(listing) if listing.len() == 0 => {
            String::from_str(alloc, "no block has enough servers that agree on it")
        }
        Verdict::Listed(listing) => {
            let count = listing.len();
            format!(in alloc; "{count} blocks have enough servers that agree on each")
        }
        Verdict::TooFew { h, .. } => too_few(alloc, &unlisted.session, *h),
        Verdict::TooWeak { k, t, h } => {
            format!(in alloc; "with {k} answers and degree {t} an agreement of {h} is too weak")
        }
        Verdict::TooCostly { cost } => {
            format!(in alloc; "the decoding of a column takes {cost} equations, which are too many")
        }
    }
}

/// What is said of a look-up.
fn looked_sentence(alloc: Global, looked: &Looked) -> Result<String, AllocError> {
    match (looked.finds.end(), looked.broken_row) {
        (Ending::Unlisted(unlisted), _) => unlisted_sentence(alloc, unlisted),
        (_, Some(row)) => {
            format!(in alloc; "row {row} isn't of this list: the servers hold another one")
        }
        (_, None) => Ok(String::new(alloc)),
    }
}

/// What is said of a building.
fn built_sentence(alloc: Global, built: &Result<Built, BuildFault>) -> Result<String, AllocError> {
    match built {
        Ok(built) if built.all_end_with_return => String::from_str(
            alloc,
            "warning: each line ends with a carriage return, which belongs to its key or value",
        ),
        Ok(_) => Ok(String::new(alloc)),
        Err(fault) => format!(in alloc; "{fault}"),
    }
}

/// What is said of a run by what it came to alone.
fn end_sentence(alloc: Global, end: &ListEnd) -> Result<String, AllocError> {
    match end {
        ListEnd::Words(fault) => format!(in alloc; "{fault}"),
        ListEnd::Help(_) | ListEnd::Version(_) | ListEnd::Checked(Ok(_)) => Ok(String::new(alloc)),
        ListEnd::Built(built) => built_sentence(alloc, built),
        ListEnd::Found(Ok(looked)) => looked_sentence(alloc, looked),
        ListEnd::Found(Err(fault)) => format!(in alloc; "{fault}"),
        ListEnd::Checked(Err(fault)) => format!(in alloc; "{fault}"),
    }
}

/// What is said to a person of a run: a sentence, or nothing. Where a call on a file failed it says who says more.
///
/// # Errors
///
/// `AllocError` for want of memory.
pub fn sentence(alloc: Global, end: &ListEnd) -> Result<String, AllocError> {
    let mut said = end_sentence(alloc, end)?;
    if matches!(exit_code(end), 8 | 9) {
        said.push_str("; PIR_EXPLAIN=1 says why")?;
    }
    Ok(said)
}
