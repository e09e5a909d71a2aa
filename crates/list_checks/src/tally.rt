//! What is counted in rows.

ghost use Rattle.std.specs.Prelude.{◌≡◌, ◌+◌, ◌<◌, ◌^◌, max};

/// What is counted in the rows of a database.
#[derive(Clone, Copy, Debug, PartialEq, Eq)]
pub struct Tally {
    /// How many entries the rows have together.
    pub entries: u64,
    /// How many entries the fullest row has.
    pub fullest: u16,
}

impl Tally {
    /// Counts one row more, which has so many entries.
    pub(crate) fn with_row(self, count: u16) -> Tally
        requires { self.entries + count < 2 ^ 64 }
        ensures { result ≡ record { entries = self.entries + count; fullest = max self.fullest count } }
    {
        Tally {
            entries: self.entries + u64::from(count),
            fullest: self.fullest.max(count),
        }
    }
}
