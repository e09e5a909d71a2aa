//! Columns of points.

/// Columns of points, which lie in rows. The points of a column are each of the `xs` with the byte of its row there.
#[derive(Clone, Copy)]
pub struct Columns<'a> {
    /// The positions.
    pub xs: &'a [u8],
    /// For each position its row of bytes.
    pub rows: &'a [&'a [u8]],
    /// The degree that a polynomial through the points of a column has at most.
    pub t: u32,
}
