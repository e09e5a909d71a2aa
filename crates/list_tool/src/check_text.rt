//! What is written of a database that is its catalog's.

ghost use Rattle.std.specs.Prelude.{◌≡◌, string_bytes, IfOk};
ghost use Rattle.list_tool.specs.CheckText.{check_text, count_lines, look_up_lines, mean_line, serve_line};

use list_catalog::Catalog;
use std::alloc::{AllocError, Global};
use std::fmt::Write;
use wire_frames::{Scheme, answer_len, query_len};

/// The lines of how many entries there are, and how many of them the fullest row has.
#[tactic(auto, unfolding(crate::specs::CheckText::count_lines))]
fn count_lines(alloc: Global, entries: u32, fullest: u16) -> Result<String, AllocError>
    ensures { IfOk result (λ text. string_bytes text ≡ count_lines entries fullest) }
{
    format!(in alloc; "entries {entries}\nfullest row {fullest}\n")
}

/// The line of how many entries a row has in the mean, to the tenth below.
#[tactic(auto, unfolding(crate::specs::CheckText::mean_line))]
fn mean_line(alloc: Global, tenths: u64) -> Result<String, AllocError>
    ensures { IfOk result (λ text. string_bytes text ≡ mean_line tenths) }
{
    let (whole, tenth) = (tenths / 10, tenths % 10);
    format!(in alloc; "mean row {whole}.{tenth}\n")
}

/// The lines of how many bytes one look-up sends to each server, and how many come from each.
#[tactic(auto, unfolding(crate::specs::CheckText::look_up_lines))]
fn look_up_lines(alloc: Global, up: usize, down: usize) -> Result<String, AllocError>
    ensures { IfOk result (λ text. string_bytes text ≡ look_up_lines up down) }
{
    format!(in alloc; "bytes up {up}\nbytes down {down}\n")
}

/// The line that serves the file of this name.
#[tactic(auto, unfolding(crate::specs::CheckText::serve_line))]
fn serve_line(alloc: Global, database: &str, width: u32) -> Result<String, AllocError>
    ensures { IfOk result (λ text. string_bytes text ≡ serve_line database.now width) }
{
    format!(in alloc;
        "pir serve --database {database} --width {width} --conns COUNT --listen ADDRESS\n"
    )
}

/// What is written of a database in the file of this name that is the catalog's, with so many entries in the fullest row.
///
/// # Errors
///
/// `AllocError` for want of memory.
#[tactic(auto, unfolding(crate::specs::CheckText::check_text))]
pub(crate) fn check_text(
    alloc: Global,
    catalog: &Catalog,
    fullest: u16,
    database: &str,
) -> Result<String, AllocError>
    ensures { IfOk result (λ text. string_bytes text ≡ check_text catalog.now fullest database.now) }
{
    let mut text = count_lines(alloc, catalog.entries, fullest)?;
    let mean = mean_line(
        alloc,
        u64::from(catalog.entries) * 10 / u64::from(catalog.rows),
    )?;
    text.push_str(&mean)?;
    let up = query_len(Scheme::Shamir, 1, catalog.rows);
    let down = answer_len(1, catalog.width);
    text.push_str(&look_up_lines(alloc, up, down)?)?;
    text.push_str(&serve_line(alloc, database, catalog.width)?)?;
    Ok(text)
}
