//! The range of a number.

use std::fmt;

/// The numbers from `least` to `most`.
#[derive(Clone, Copy, Debug, PartialEq, Eq)]
pub struct Range {
    /// The least of them.
    pub least: u32,
    /// The greatest of them.
    pub most: u32,
}

impl fmt::Display for Range {
    fn fmt<W: fmt::Write>(&self, f: &mut fmt::Formatter<W>) -> fmt::Result {
        let (least, most) = (self.least, self.most);
        if least == most {
            write!(f, "{least}")
        } else {
            write!(f, "among {least} to {most}")
        }
    }
}
