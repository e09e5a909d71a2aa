//! The schemes, and their numbers in frames, sessions and words.
ghost use Rattle.std.specs.Prelude.{◌≡◌, ◌≤◌, ◌<◌, ◌⊎◌};
ghost use Rattle.wire_frames.specs.declared.scheme.TheConstants.{SHAMIR, XOR};
ghost use Rattle.wire_frames.specs.Scheme.{scheme_of, number_of, payload_len};

/// The number of Shamir's sharing (Goldberg 2007).
pub const SHAMIR: u8 = 1;

/// The number of the XOR scheme (Chor, Goldreich, Kushilevitz and Sudan 1995).
pub const XOR: u8 = 2;

/// A way to ask servers for a row. All that differs between the schemes is told apart by it.
#[derive(Clone, Copy, Debug, PartialEq, Eq)]
pub enum Scheme {
    /// Shamir's sharing (Goldberg 2007).
    Shamir,
    /// The XOR scheme (Chor, Goldreich, Kushilevitz and Sudan 1995).
    Xor,
}

impl Scheme {
    /// The scheme that a number stands for, which is [`SHAMIR`] or [`XOR`].
    #[tactic(auto, unfolding(crate::specs::Scheme::scheme_of))]
    pub fn of(number: u8) -> Scheme
        requires { (number ≡ SHAMIR) ⊎ (number ≡ XOR) }
        ensures is { result ≡ scheme_of number }
        ensures number { number_of result ≡ number }
    {
        if number == XOR {
            Scheme::Xor
        } else {
            Scheme::Shamir
        }
    }

    /// Its number, [`SHAMIR`] or [`XOR`], which stands for it.
    #[tactic(auto, unfolding(crate::specs::Scheme::scheme_of))]
    pub fn number(self) -> u8
        ensures is { result ≡ number_of self }
        ensures stands { scheme_of result ≡ self }
    {
        match self {
            Scheme::Shamir => SHAMIR,
            Scheme::Xor => XOR,
        }
    }

    /// How many bytes a query has for each block, for a database of so many rows: one for each row
    /// or, in the XOR scheme, a bit for each row.
    pub fn payload_len(self, rows: u32) -> usize
        ensures is { result ≡ payload_len self rows }
        ensures some { 0 < rows → 0 < result }
        ensures few { result ≤ rows }
    {
        let rows = rows as usize;
        match self {
            Scheme::Shamir => rows,
            Scheme::Xor => rows.div_ceil(8),
        }
    }
}
