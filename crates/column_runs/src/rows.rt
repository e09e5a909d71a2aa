//! Rows that lie in different places.

ghost use Rattle.std.specs.Prelude.{◌≡◌, ◌<◌, ◌≤◌, ◌^◌, [], length, drop, slice_index_or, All};
ghost use Rattle.column_runs.specs.Rows.{rows_of};

/// The bytes of the row at a place from a column on.
#[inline(always)]
pub fn row_from<'a>(rows: &[&'a [u8]], place: usize, column: usize) -> &'a [u8]
    requires place { place < length rows.now }
    requires within { column ≤ length (slice_index_or (rows_of rows.now) place []) }
    ensures { result.now ≡ drop column (slice_index_or (rows_of rows.now) place []) }
{
    &rows[place][column..]
}

/// The rows have bytes, and each fits into memory. It looks at each row once, since a contract sees the rows as lists of
/// numbers.
pub(crate) fn rows_are_bytes(rows: &[&[u8]])
    ensures bytes { All (λ row. All (λ b. b < 256) row) (rows_of rows.now) }
    ensures sizes { All (λ row. length row < 2 ^ 64) (rows_of rows.now) }
{
    for place in 0..rows.len() {
        are_bytes(rows[place]);
    }
}

/// These are bytes, and fit into memory.
pub(crate) fn are_bytes(bytes: &[u8])
    ensures bytes { All (λ b. b < 256) bytes.now }
    ensures size { length bytes.now < 2 ^ 64 }
{
    let _size = bytes.len();
}
