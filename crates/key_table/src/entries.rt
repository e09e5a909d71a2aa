//! A list as it is gathered, and its entries as they ascend.

ghost use Rattle.std.specs.Prelude.{◌≡◌, ◌≤◌, ◌<◌, ◌+◌, length, [], All};
ghost use Rattle.std.specs.List.{dedup};
ghost use Rattle.std.specs.List.Sorted.{IsPermutation, IsSortedBy};
ghost use Rattle.key_table.specs.Counting.{row_at};
ghost use Rattle.key_table.specs.Entry.{entry_size};
ghost use Rattle.key_table.specs.Sorting.{Adds, AreAscending, Sorts};
ghost use Rattle.key_table.specs.Numbered.{comes_numbered, same_numbered};
ghost use Rattle.key_table.specs.Places.{digest_at, value_at};
ghost use Rattle.key_table.specs.declared.TheConstants.{LEAST_DIGEST, MOST_DIGEST, MOST_VALUE, MOST_PAIRS};

use crate::MOST_PAIRS;
use crate::clash::{Clash, clash_among};
use crate::digest::{number_of, row_of_number};
use crate::entry::entry_size;
use crate::pairs::Pairs;
use crate::place::{Place, compare, count_places, have_same_digest, number_at, place_at};
use std::alloc::Global;
use std::marker::Model;

/// Why a pair was not added.
#[derive(Clone, Copy, Debug, PartialEq, Eq)]
pub enum AddFault {
    /// There are as many pairs as a list may have.
    TooMany,
    /// There was no memory for it.
    Memory,
}

/// The pairs of a list, as they are given.
#[derive(Drop)]
pub struct Entries {
    pairs: Pairs,
    places: Vec<Place>,
}

impl Model for Entries {
    ghost use Rattle.key_table.specs.Held.{AreGathered, Held};

    ghost Value = { Held };

    ghost view = { λ e. e.pairs };

    ghost invariant = { λ e. AreGathered e.pairs e.places.items };
}

/// The entries of a clear list, as they ascend.
#[derive(Drop)]
pub struct SortedEntries {
    pairs: Pairs,
    places: Vec<Place>,
    most: usize,
}

impl Model for SortedEntries {
    ghost use Rattle.key_table.specs.Sorting.{AreKept, Sorted, kept};

    ghost Value = { Sorted };

    ghost view = { λ s. kept s.pairs s.most s.places.items };

    ghost invariant = { λ s. AreKept s.pairs s.most s.places.items };
}

/// Sorts places by their digests, and those of one digest as they were given. Where two numbers differ the digests, which
/// lie elsewhere in memory, aren't looked at.
fn sort_places(pairs: &Pairs, places: &mut Vec<Place>)
    ensures moved { IsPermutation places.old.items places.new.items }
    ensures sorted { IsSortedBy (comes_numbered pairs.now.pairs) places.new.items }
{
    places.sort_unstable_by(|one, other| compare(pairs, *one, *other));
}

/// Of the places that have one digest and stand side by side, the first is kept.
fn keep_firsts(pairs: &Pairs, places: &mut Vec<Place>)
    ensures { places.new.items ≡ dedup (same_numbered pairs.now.pairs) places.old.items }
{
    places.dedup_by(|one, other| have_same_digest(pairs, *one, *other));
}

impl Entries {
    /// A list without pairs, whose digests have `size` bytes.
    pub fn new(alloc: Global, size: usize) -> Entries
        requires least { LEAST_DIGEST ≤ size }
        requires most { size ≤ MOST_DIGEST }
        ensures { result ≡ record { size = size; pairs = [] } }
    {
        Entries {
            pairs: Pairs::new(alloc, size),
            places: Vec::new(alloc),
        }
    }

    /// One more pair of a digest and a value.
    ///
    /// # Errors
    ///
    /// `TooMany` exactly where there are as many pairs as a list may have, `Memory` for want of memory. Nothing changed
    /// then.
    pub fn add(&mut self, digest: &[u8], value: &[u8]) -> Result<(), AddFault>
        requires digest { length digest.now ≡ self.old.size }
        requires value { length value.now ≤ MOST_VALUE }
        ensures { Adds self.old digest.now value.now result self.new }
    {
        let count = self.pairs.len();
        if count == MOST_PAIRS {
            return Err(AddFault::TooMany);
        }
        let place = Place {
            number: number_of(digest),
            place: count as u32,
        };
        if self.places.push(place).is_err() {
            return Err(AddFault::Memory);
        }
        if self.pairs.add(digest, value).is_err() {
            self.places.truncate(count);
            return Err(AddFault::Memory);
        }
        Ok(())
    }

    /// The entries of the list as they ascend, each once, where values have at most `most` bytes. Where there is memory
    /// for a copy of them they lie in it in this order.
    ///
    /// # Errors
    ///
    /// The clash of the list, exactly where a digest stands with two values.
    pub fn sort(self, most: usize) -> Result<SortedEntries, Clash>
        requires most { most ≤ MOST_VALUE }
        requires values { All (λ p. length p.value ≤ most) self.pairs }
        ensures { Sorts self most result }
    {
        let Entries { pairs, mut places } = self;
        sort_places(&pairs, &mut places);
        if let Some(clash) = clash_among(&pairs, &places) {
            return Err(clash);
        }
        keep_firsts(&pairs, &mut places);
        let sorted = SortedEntries {
            pairs,
            places,
            most,
        };
        Ok(sorted.side_by_side())
    }
}

impl SortedEntries {
    /// The same entries, which lie in memory as they ascend, so that a pass over them goes through it once. Where there
    /// is no memory for a copy they stay where they are.
    fn side_by_side(self) -> SortedEntries
        ensures { result ≡ self }
    {
        let SortedEntries {
            pairs,
            mut places,
            most,
        } = self;
        let Ok(copy) = pairs.copied(&places) else {
            return SortedEntries {
                pairs,
                places,
                most,
            };
        };
        count_places(&mut places);
        SortedEntries {
            pairs: copy,
            places,
            most,
        }
    }

    /// How many entries there are. Their digests ascend, and all have one size.
    pub fn count(&self) -> usize
        ensures count { result ≡ length self.now.pairs }
        ensures ascend { AreAscending self.now }
    {
        self.places.as_slice().len()
    }

    /// How many bytes a digest has.
    pub fn size(&self) -> usize
        ensures { result ≡ self.now.size }
    {
        self.pairs.size()
    }

    /// How many bytes a value has at most.
    pub fn most(&self) -> usize
        ensures most { result ≡ self.now.most }
        ensures few { result ≤ MOST_VALUE }
    {
        self.most
    }

    /// How many bytes an entry has.
    pub fn entry_size(&self) -> usize
        ensures size { result ≡ entry_size self.now.size self.now.most }
        ensures least { LEAST_DIGEST ≤ result }
        ensures few { result ≤ MOST_DIGEST + 2 + MOST_VALUE }
    {
        entry_size(self.pairs.size(), self.most)
    }

    /// The digest of an entry.
    pub fn digest(&self, entry: usize) -> &[u8]
        requires { entry < length self.now.pairs }
        ensures digest { result.now ≡ digest_at self.now.pairs entry }
        ensures size { length result.now ≡ self.now.size }
        ensures least { LEAST_DIGEST ≤ length result.now }
    {
        self.pairs.digest(place_at(self.places.as_slice(), entry))
    }

    /// The row of the digest of an entry, of so many rows.
    pub(crate) fn row(&self, rows: u32, entry: usize) -> u32
        requires { entry < length self.now.pairs }
        ensures row { result ≡ row_at rows self.now.pairs entry }
        ensures within { 1 ≤ rows → result < rows }
    {
        row_of_number(rows, number_at(self.places.as_slice(), entry))
    }

    /// The value of an entry.
    pub fn value(&self, entry: usize) -> &[u8]
        requires { entry < length self.now.pairs }
        ensures value { result.now ≡ value_at self.now.pairs entry }
        ensures few { length result.now ≤ self.now.most }
    {
        self.pairs.value(place_at(self.places.as_slice(), entry))
    }
}
