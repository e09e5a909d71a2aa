//! The usable answer of one server.

ghost use Rattle.std.specs.Prelude.{◌≡◌, ◌≤◌, length};
ghost use Rattle.std.specs.Option.{option_copied};
ghost use Rattle.block_decoder.specs.Usable.{payload_of};

use wire_frames::{Session, usable_answer};

/// The payload of the answer of this server, where it is usable.
pub(crate) fn usable_payload(session: &Session, index: u8) -> Option<&[u8]>
    requires first { 1 ≤ index }
    requires last { index ≤ length session.now.records }
    ensures { option_copied result ≡ payload_of session.now index }
{
    let bytes = session.record_at(u32::from(index))?;
    usable_answer(bytes, &session.params().asked(index))
}
