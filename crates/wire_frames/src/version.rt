//! The versions of frames and sessions. In version 1 a query asks for one block, and doesn't say so;
//! in version 2 it says for how many it asks.
ghost use Rattle.std.specs.Prelude.{◌≡◌, ◌≤◌};
ghost use Rattle.wire_frames.specs.declared.version.Version.TheVariants.{Single, Several};
ghost use Rattle.wire_frames.specs.Version.{answer_version, count_byte, number_of, version_of};

/// A version of frames and sessions. All that differs between them is told apart by it.
#[derive(Clone, Copy, Debug, PartialEq, Eq)]
pub enum Version {
    /// A query asks for one block, and doesn't say so.
    Single = 1,
    /// A query says for how many blocks it asks.
    Several = 2,
}

impl Version {
    /// The version that a number stands for, which is 1 or 2.
    #[tactic(auto, unfolding(crate::specs::Version::version_of))]
    pub fn of(number: u8) -> Version
        requires some { number_of Single ≤ number }
        requires two { number ≤ number_of Several }
        ensures is { result ≡ version_of number }
        ensures number { number_of result ≡ number }
    {
        if number == Version::Several as u8 {
            Version::Several
        } else {
            Version::Single
        }
    }

    /// Its number, 1 or 2, which stands for it.
    #[tactic(auto, unfolding(crate::specs::Version::version_of))]
    pub fn number(self) -> u8
        ensures is { result ≡ number_of self }
        ensures stands { version_of result ≡ self }
    {
        match self {
            Version::Single => Version::Single as u8,
            Version::Several => Version::Several as u8,
        }
    }
}

/// The byte that says for how many blocks a query of a version asks: 0 in version 1.
pub(crate) fn count_byte(version: Version, count: u8) -> u8
    ensures { result ≡ count_byte version count }
{
    match version {
        Version::Single => 0,
        Version::Several => count,
    }
}

/// The version of the answer to a query with this byte for its version, right or not.
#[tactic(auto, unfolding(crate::specs::Version::answer_version))]
pub(crate) fn answer_version(byte: u8) -> Version
    ensures { result ≡ answer_version byte }
{
    if byte == Version::Several as u8 {
        Version::Several
    } else {
        Version::Single
    }
}
