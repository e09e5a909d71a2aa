//! The clash of a list: where a digest stands with two values.

ghost use Rattle.std.specs.Prelude.{◌≤◌, length, MatchOption};
ghost use Rattle.key_table.specs.KeyList.{IsClear};
ghost use Rattle.key_table.specs.Numbered.{AreNumbered, bare};
ghost use Rattle.key_table.specs.Places.{IsClash};
ghost use Rattle.key_table.specs.Scan.{AreOrdered, LooksAt};
ghost use Rattle.key_table.specs.declared.TheConstants.{MOST_PAIRS};

use crate::MOST_PAIRS;
use crate::pairs::Pairs;
use crate::place::{Place, have_same_digest};

/// Two places of a list that have one digest with two values.
#[derive(Clone, Copy, Debug, PartialEq, Eq)]
pub struct Clash {
    /// The first place with the digest.
    pub first: u32,
    /// The least place of the list whose digest stands with another value at an earlier one.
    pub place: u32,
}

/// What is known of the places that were looked at, in the order of their digests.
#[derive(Clone, Copy)]
struct Scan {
    /// The first place that has the digest of the last one.
    first: Place,
    /// The least place whose value isn't that of the first place of its digest.
    least: u32,
    /// That first place.
    least_first: u32,
}

/// One more place is looked at.
fn scan_place(pairs: &Pairs, scan: Scan, place: Place) -> Scan
    ensures { LooksAt pairs.now.pairs scan place result }
{
    if !have_same_digest(pairs, scan.first, place) {
        return Scan {
            first: place,
            least: scan.least,
            least_first: scan.least_first,
        };
    }
    if place.place >= scan.least {
        return scan;
    }
    if pairs.has_same_value(scan.first.place, place.place) {
        return scan;
    }
    Scan {
        first: scan.first,
        least: place.place,
        least_first: scan.first.place,
    }
}

/// The clash of the list, by its places in the order of their digests.
pub(crate) fn clash_among(pairs: &Pairs, places: &[Place]) -> Option<Clash>
    requires few { length pairs.now.pairs ≤ MOST_PAIRS }
    requires ordered { AreOrdered pairs.now.pairs (bare places.now) }
    requires numbered { AreNumbered pairs.now.pairs places.now }
    ensures { MatchOption result (IsClear pairs.now.pairs) (λ clash. IsClash pairs.now.pairs clash.first clash.place) }
{
    let count = pairs.len() as u32;
    if count == 0 {
        return None;
    }
    let mut scan = Scan {
        first: places[0],
        least: count,
        least_first: count,
    };
    for i in 1..places.len() {
        scan = scan_place(pairs, scan, places[i]);
    }
    if scan.least >= count {
        return None;
    }
    Some(Clash {
        first: scan.least_first,
        place: scan.least,
    })
}
