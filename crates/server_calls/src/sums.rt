//! What a server answers to a vector, by rows that lie one behind another.

ghost use Rattle.std.specs.Prelude.{◌≡◌, ◌*◌, ◌<◌, ◌≤◌, [], length, slice_index_or, All};
ghost use Rattle.gf256.specs.Product.{product};
ghost use Rattle.quantity_limits.specs.declared.TheConstants.{MOST_BLOCKS, MOST_ROWS, MOST_WIDTH};
ghost use Rattle.wire_frames.specs.Scheme.{payload_len};
ghost use Rattle.chor_xor.specs.Bitmap.{size_of};
ghost use Rattle.chor_xor.specs.Chosen.{chosen};
ghost use Rattle.serve_core.specs.Reply.{answer};
ghost use Rattle.server_calls.specs.Held.{held_database, AreRows};
ghost use Rattle.server_calls.specs.Reply.{answers_by_held};

use chor_xor::is_set;
use gf256::rows::{add_row, clear};
use server_product::mul_add_row;
use wire_frames::Scheme;

/// The rows of a database, one behind another.
#[derive(Clone, Copy, Debug)]
pub(crate) struct HeldRows<'a> {
    pub(crate) bytes: &'a [u8],
    pub(crate) count: u32,
    pub(crate) width: u32,
}

impl<'a> HeldRows<'a> {
    /// Row `j`.
    fn row(&self, j: usize) -> &'a [u8]
        requires rows { AreRows self.now.bytes.now self.now.count self.now.width }
        requires within { j < self.now.count }
        ensures { result.now ≡ slice_index_or (held_database self.now).rows j [] }
    {
        let width = self.width as usize;
        &self.bytes[j * width..j * width + width]
    }
}

/// The bytes of a slice are below 256, which a proof can cite.
fn are_bytes(bytes: &[u8])
    ensures { All (λ b. b < 256) bytes.now }
{}

/// Makes `out` the product of a vector and the rows.
fn write_product(rows: &HeldRows, vector: &[u8], out: &mut [u8])
    requires rows { AreRows rows.now.bytes.now rows.now.count rows.now.width }
    requires vector { length vector.now ≡ rows.now.count }
    requires room { length out.old ≡ rows.now.width }
    ensures { out.new ≡ product (held_database rows.now).rows rows.now.width vector.now }
{
    clear(out);
    for j in 0..vector.len() {
        mul_add_row(out, rows.row(j), vector[j]);
    }
}

/// Makes `out` the sum of the rows whose bit is set.
fn write_chosen(rows: &HeldRows, bitmap: &[u8], out: &mut [u8])
    requires rows { AreRows rows.now.bytes.now rows.now.count rows.now.width }
    requires bitmap { length bitmap.now ≡ size_of rows.now.count }
    requires room { length out.old ≡ rows.now.width }
    ensures { out.new ≡ chosen (held_database rows.now) bitmap.now }
{
    are_bytes(rows.bytes);
    clear(out);
    for j in 0..rows.count {
        if is_set(bitmap, j) {
            add_row(out, rows.row(j as usize));
        }
    }
}

/// Makes `out` the answer to a vector, in a scheme.
fn write_answer(rows: &HeldRows, scheme: Scheme, vector: &[u8], out: &mut [u8])
    requires rows { AreRows rows.now.bytes.now rows.now.count rows.now.width }
    requires vector { length vector.now ≡ payload_len scheme rows.now.count }
    requires room { length out.old ≡ rows.now.width }
    ensures { out.new ≡ answer scheme (held_database rows.now) vector.now }
{
    match scheme {
        Scheme::Shamir => write_product(rows, vector, out),
        Scheme::Xor => write_chosen(rows, vector, out),
    }
}

/// Makes `out` the answers to so many vectors, one behind another.
pub(crate) fn write_answers(
    rows: &HeldRows,
    scheme: Scheme,
    count: u8,
    vectors: &[u8],
    out: &mut [u8],
)
    requires rows { AreRows rows.now.bytes.now rows.now.count rows.now.width }
    requires few { count ≤ MOST_BLOCKS }
    requires vectors { length vectors.now ≡ count * payload_len scheme rows.now.count }
    requires room { length out.old ≡ count * rows.now.width }
    ensures { out.new ≡ answers_by_held rows.now scheme count vectors.now }
{
    let size = scheme.payload_len(rows.count);
    let width = rows.width as usize;
    for i in 0..usize::from(count) {
        let vector = &vectors[i * size..(i + 1) * size];
        let own = &mut out[i * width..(i + 1) * width];
        write_answer(rows, scheme, vector, own);
    }
}
