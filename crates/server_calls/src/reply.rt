//! What a server replies to a guest, written where the caller has room for it.

ghost use Rattle.std.specs.Prelude.{◌≡◌, ◌*◌, ◌++◌, ◌≤◌, length};
ghost use Rattle.quantity_limits.specs.declared.TheConstants.{MOST_BLOCKS};
ghost use Rattle.wire_frames.specs.Header.{answer_to};
ghost use Rattle.wire_frames.specs.Scheme.{payload_len};
ghost use Rattle.wire_frames.specs.Sizes.{answer_len};
ghost use Rattle.server_calls.specs.Held.{AreRows};
ghost use Rattle.server_calls.specs.Reply.{HoldsRows, RepliesInto, SaysScheme, WritesFrame, answers_by_held, held};

use crate::judging::{Judged, judge_guest};
use crate::sums::{HeldRows, write_answers};
use quantity_limits::{MOST_CELLS, MOST_ROWS, MOST_WIDTH};
use serve_core::Met;
use wire_frames::{FRAME_HEADER_LEN, SHAMIR, Scheme, XOR, answer_len, write_answer_header};

/// Why no reply is written.
#[derive(Clone, Copy, Debug, PartialEq, Eq)]
pub enum ReplyRefusal {
    /// The bytes are no rows of a database, or the scheme is none.
    Database,
    /// There is less room than for the reply, by which the guest is met so, of so many bytes.
    Room(Met, usize),
}

/// The rows of so many bytes that these bytes are, where they are those of a database.
fn held_rows<'a>(bytes: &'a [u8], width: u32) -> Option<HeldRows<'a>>
    ensures { HoldsRows bytes.now width result }
{
    if width == 0 || MOST_WIDTH < width || MOST_CELLS < bytes.len() as u64 {
        return None;
    }
    let count = bytes.len() / width as usize;
    if count == 0 || (MOST_ROWS as usize) < count || count * width as usize != bytes.len() {
        return None;
    }
    Some(HeldRows {
        bytes,
        count: count as u32,
        width,
    })
}

/// The scheme with this number, if it is one.
fn scheme_at(number: u32) -> Option<Scheme>
    ensures { SaysScheme number result }
{
    if number == u32::from(SHAMIR) {
        return Some(Scheme::Shamir);
    }
    if number == u32::from(XOR) {
        return Some(Scheme::Xor);
    }
    None
}

/// Writes the frame of a refusal at the front of `out`.
fn write_refusal(
    header: &[u8; FRAME_HEADER_LEN],
    status: u8,
    out: &mut [u8],
) -> Result<(Met, usize), ReplyRefusal>
    ensures { WritesFrame (answer_to header.now status) (Met.Refused status) out.old out.new result }
{
    let mut frame = [0; FRAME_HEADER_LEN];
    write_answer_header(header, status, &mut frame);
    if out.len() < FRAME_HEADER_LEN {
        return Err(ReplyRefusal::Room(Met::Refused(status), FRAME_HEADER_LEN));
    }
    out[..FRAME_HEADER_LEN].copy_from_slice(&frame);
    Ok((Met::Refused(status), FRAME_HEADER_LEN))
}

/// Writes the frame of an answer, which has just the room for it.
fn write_frame(
    rows: &HeldRows,
    scheme: Scheme,
    header: &[u8; FRAME_HEADER_LEN],
    count: u8,
    vectors: &[u8],
    frame: &mut [u8],
)
    requires rows { AreRows rows.now.bytes.now rows.now.count rows.now.width }
    requires few { count ≤ MOST_BLOCKS }
    requires vectors { length vectors.now ≡ count * payload_len scheme rows.now.count }
    requires room { length frame.old ≡ answer_len count rows.now.width }
    ensures { frame.new ≡ answer_to header.now 0
        ++ answers_by_held rows.now scheme count vectors.now }
{
    let Some((head, body)) = frame.split_first_chunk_mut() else {
        unreachable!()
    };
    write_answer_header(header, 0, head);
    write_answers(rows, scheme, count, vectors, body);
}

/// Writes the frame of an answer at the front of `out`.
fn write_served(
    rows: &HeldRows,
    scheme: Scheme,
    header: &[u8; FRAME_HEADER_LEN],
    count: u8,
    vectors: &[u8],
    out: &mut [u8],
) -> Result<(Met, usize), ReplyRefusal>
    requires rows { AreRows rows.now.bytes.now rows.now.count rows.now.width }
    requires few { count ≤ MOST_BLOCKS }
    requires vectors { length vectors.now ≡ count * payload_len scheme rows.now.count }
    ensures { WritesFrame (answer_to header.now 0
        ++ answers_by_held rows.now scheme count vectors.now)
        Met.Served out.old out.new result }
{
    let size = answer_len(count, rows.width);
    if out.len() < size {
        return Err(ReplyRefusal::Room(Met::Served, size));
    }
    write_frame(rows, scheme, header, count, vectors, &mut out[..size]);
    Ok((Met::Served, size))
}

/// Writes what a server of these rows, of `width` bytes each, replies to the bytes of a guest in a scheme at the front
/// of `out`, and says how the guest is met, and how many bytes the reply has: none where the guest is gone.
///
/// # Errors
///
/// `Database` exactly where the bytes are no whole rows of a database, or the scheme is none; `Room` exactly where the
/// reply has more bytes than `out`, with how the guest would be met, and how many it has. Then `out` is as it was.
pub fn reply_to(
    bytes: &[u8],
    scheme: u32,
    width: u32,
    guest: &[u8],
    out: &mut [u8],
) -> Result<(Met, usize), ReplyRefusal>
    ensures { RepliesInto (held bytes.now width scheme) guest.now out.old out.new result }
{
    let Some(rows) = held_rows(bytes, width) else {
        return Err(ReplyRefusal::Database);
    };
    let Some(scheme) = scheme_at(scheme) else {
        return Err(ReplyRefusal::Database);
    };
    match judge_guest(scheme, rows.count, rows.width, guest) {
        Judged::Cut => Ok((Met::Gone, 0)),
        Judged::Refused(header, status) => write_refusal(header, status, out),
        Judged::Query(header, query, vectors) => {
            write_served(&rows, scheme, header, query.count, vectors, out)
        }
    }
}
