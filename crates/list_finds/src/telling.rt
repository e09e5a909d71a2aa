//! The answers to the keys of one query.

ghost use Rattle.std.specs.Prelude.{◌≡◌, ◌≤◌, ◌<◌, ◌*◌, length, IfSome, Some};
ghost use Rattle.std.specs.Option.{option_copied};
ghost use Rattle.quantity_limits.specs.declared.TheConstants.{MOST_WIDTH};
ghost use Rattle.key_fetches.specs.Listed.{only_block};
ghost use Rattle.list_finds.specs.Known.{IsKnown};
ghost use Rattle.list_finds.specs.Told.{Tells, TellsNone};
ghost use Rattle.list_finds.specs.Wanted.{held_keys};

use crate::answers::{Answer, Answers};
use crate::known_list::KnownList;
use block_decoder::Verdict;

/// The block of a verdict that lists exactly one.
pub(crate) fn only_block(verdict: &Verdict) -> Option<&[u8]>
    ensures { option_copied result ≡ only_block verdict.now }
{
    match verdict {
        Verdict::Listed(listing) => match listing.len() {
            1 => listing.get(0),
            _ => None,
        },
        Verdict::TooFew { .. } | Verdict::TooWeak { .. } | Verdict::TooCostly { .. } => None,
    }
}

/// Tells the answers to the keys of a query, by the block that has their rows, one behind another.
fn tell_rows(
    list: &KnownList,
    rows: u32,
    width: u32,
    keys: &[&[u8]],
    block: &[u8],
    answers: &mut Answers,
)
    requires known { IsKnown list.now }
    requires width { width ≤ MOST_WIDTH }
    requires block { length block.now ≡ length keys.now * width }
    requires room { length keys.now ≤ answers.old.room }
    requires most { answers.old.most ≡ list.now.most }
    ensures { Tells list.now rows width (Some block.now) (held_keys keys.now)
        answers.old answers.new }
{
    let each = width as usize;
    for place in 0..keys.len() {
        let row = &block[place * each..(place + 1) * each];
        answers.push(list.look_for(rows, row, keys[place]));
    }
}

/// Tells that nothing is known of the keys of a query.
fn tell_none(keys: &[&[u8]], answers: &mut Answers)
    requires room { length keys.now ≤ answers.old.room }
    ensures { TellsNone (length keys.now) answers.old answers.new }
{
    for _key in keys {
        answers.push(Answer::Unknown);
    }
}

/// Tells the answers to the keys of a query, by the verdict on it.
pub(crate) fn tell(
    list: &KnownList,
    rows: u32,
    width: u32,
    keys: &[&[u8]],
    verdict: &Verdict,
    answers: &mut Answers,
)
    requires known { IsKnown list.now }
    requires width { width ≤ MOST_WIDTH }
    requires block { IfSome (only_block verdict.now) (λ block. length block ≡ length keys.now * width) }
    requires room { length keys.now ≤ answers.old.room }
    requires most { answers.old.most ≡ list.now.most }
    ensures { Tells list.now rows width (only_block verdict.now) (held_keys keys.now)
        answers.old answers.new }
{
    match only_block(verdict) {
        Some(block) => tell_rows(list, rows, width, keys, block, answers),
        None => tell_none(keys, answers),
    }
}
