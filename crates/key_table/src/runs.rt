//! How many entries the fullest row has for each power of two, by one pass over the entries.

ghost use Rattle.std.specs.Prelude.{◌≡◌, ◌≤◌, ◌<◌, ◌+◌, ◌-◌, length, max};
ghost use Rattle.key_table.specs.Counting.{AreRuns};
ghost use Rattle.key_table.specs.Sorting.{AreAscending};

use crate::entries::SortedEntries;

/// How many powers of two are numbers of rows.
pub(crate) const POWERS: usize = 21;

/// What is known of the entries that were counted, for some number of rows.
#[derive(Clone, Copy)]
pub(crate) struct Run {
    /// The first entry that has the row of the last one.
    start: u32,
    /// How many the fullest of the rows before that one has, at least 1.
    fullest: u32,
}

impl Run {
    /// How many entries the fullest row has, where so many were counted.
    pub(crate) fn fullest_of(self, count: u32) -> u32
        requires { self.start ≤ count }
        ensures { result ≡ max self.fullest (count - self.start) }
    {
        self.fullest.max(count - self.start)
    }

    /// The run of the row that this entry begins.
    fn next(self, entry: u32) -> Run
        requires { self.start ≤ entry }
        ensures { result ≡ record { start = entry; fullest = max self.fullest (entry - self.start) } }
    {
        Run {
            start: entry,
            fullest: self.fullest_of(entry),
        }
    }
}

impl SortedEntries {
    /// Counts one more entry. Where it has the row of the one before it, it has it for each lesser power of two.
    fn count_in_runs(&self, runs: &mut [Run], entry: u32)
        requires powers { length runs.old ≡ 21 }
        requires within { entry < length self.now.pairs }
        requires ascend { AreAscending self.now }
        requires counted { AreRuns self.now.pairs entry runs.old }
        ensures powers { length runs.new ≡ 21 }
        ensures counted { AreRuns self.now.pairs (entry + 1) runs.new }
    {
        let before = entry.saturating_sub(1);
        for i in 0..21u32 {
            let power = 20 - i;
            let rows = 1 << power;
            if self.row(rows, entry as usize) == self.row(rows, before as usize) {
                return;
            }
            runs[power as usize] = runs[power as usize].next(entry);
        }
    }

    /// The runs of all entries.
    pub(crate) fn runs(&self) -> [Run; POWERS]
        ensures powers { length result ≡ 21 }
        ensures counted { AreRuns self.now.pairs (length self.now.pairs) result }
    {
        let mut runs = [Run {
            start: 0,
            fullest: 1,
        }; POWERS];
        let count = self.count() as u32;
        for entry in 0..count {
            self.count_in_runs(&mut runs, entry);
        }
        runs
    }
}
