//! The places of a list, each with the number of its digest, by which most comparisons end.

ghost use Rattle.std.specs.Prelude.{◌≡◌, ◌<◌, ◌≤◌, length, slice_index};
ghost use Rattle.std.specs.List.{range_with_len};
ghost use Rattle.key_table.specs.Numbered.{bare, numbered_cmp, numbers, same_numbered};
ghost use Rattle.key_table.specs.declared.TheConstants.{MOST_PAIRS};

use crate::pairs::Pairs;
use std::cmp::Ordering;

/// A place of a list, and the number that the first bytes of the digest there spell.
#[derive(Clone, Copy)]
pub(crate) struct Place {
    /// The number of the digest.
    pub(crate) number: u64,
    /// Where the pair is.
    pub(crate) place: u32,
}

/// Which of two places comes first: by their numbers, and where these are the same by [`Pairs::compare`].
pub(crate) fn compare(pairs: &Pairs, one: Place, other: Place) -> Ordering
    ensures { result ≡ numbered_cmp pairs.now.pairs one other }
{
    match one.number.cmp(&other.number) {
        Ordering::Less => Ordering::Less,
        Ordering::Equal => pairs.compare(one.place, other.place),
        Ordering::Greater => Ordering::Greater,
    }
}

/// Whether two places have one number and one digest. Where the numbers differ the digests aren't looked at.
pub(crate) fn have_same_digest(pairs: &Pairs, one: Place, other: Place) -> bool
    ensures { result ≡ same_numbered pairs.now.pairs one other }
{
    one.number == other.number && pairs.has_same_digest(one.place, other.place)
}

/// The place at an index.
pub(crate) fn place_at(places: &[Place], index: usize) -> u32
    requires { index < length places.now }
    ensures { result ≡ slice_index (bare places.now) index }
{
    places[index].place
}

/// Each place is its index from now on, and keeps its number.
pub(crate) fn count_places(places: &mut [Place])
    requires { length places.old ≤ MOST_PAIRS }
    ensures places { bare places.new ≡ range_with_len 0 (length places.old) }
    ensures numbers { numbers places.new ≡ numbers places.old }
{
    for i in 0..places.len() {
        places[i].place = i as u32;
    }
}

/// The number at an index.
pub(crate) fn number_at(places: &[Place], index: usize) -> u64
    requires { index < length places.now }
    ensures { result ≡ slice_index (numbers places.now) index }
{
    places[index].number
}
