//! Why a query is refused.
ghost use Rattle.std.specs.Prelude.{◌≡◌};
ghost use Rattle.serve_core.specs.Refusal.{refusal_status};

/// Why a query is refused.
#[derive(Clone, Copy, Debug, PartialEq, Eq)]
pub(crate) enum Refusal {
    /// Its first bytes are no header of a query, or its bitmap sets a bit past those of the rows.
    Malformed,
    /// The query is for a database of another shape.
    OtherShape,
    /// The query is of another scheme.
    OtherScheme,
}

impl Refusal {
    /// The status of the frame that says so.
    pub(crate) fn status(self) -> u8
        ensures { result ≡ refusal_status self }
    {
        match self {
            Refusal::Malformed => 1,
            Refusal::OtherShape => 2,
            Refusal::OtherScheme => 3,
        }
    }
}
