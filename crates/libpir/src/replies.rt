//! What a server replies.

ghost use Rattle.std.specs.Prelude.{◌≡◌};
ghost use Rattle.server_calls.specs.Reply.{held};
ghost use Rattle.libpir.specs.Replies.{AnswersReply, met_number, reply_places};

use crate::code::Code;
use server_calls::{Met, ReplyRefusal, reply_to};

/// How a guest is met, as a number: 0 served, 1 to 3 refused with that status, 4 gone.
fn met_number(met: Met) -> u32
    ensures { result ≡ met_number met }
{
    match met {
        Met::Served => 0,
        Met::Refused(status) => u32::from(status),
        Met::Gone => 4,
        Met::GuestFault => 5,
    }
}

/// Writes what a server of these rows replies to the bytes of a guest at the front of `out`, its length into `used` and
/// how the guest is met into `met`, also where `out` is too short for it.
#[unsafe(no_mangle)]
pub extern "C" fn pir_reply(
    database: &[u8],
    scheme: u32,
    width: u32,
    guest: &[u8],
    out: &mut [u8],
    used: &mut usize,
    met: &mut u32,
) -> i32
    ensures { AnswersReply (held database.now width scheme) guest.now
        (reply_places out.old used.old met.old) (reply_places out.new used.new met.new) result }
{
    match reply_to(database, scheme, width, guest, out) {
        Ok((how, size)) => {
            *used = size;
            *met = met_number(how);
            Code::Done.number()
        }
        Err(ReplyRefusal::Room(how, wanted)) => {
            *used = wanted;
            *met = met_number(how);
            Code::SmallRoom.number()
        }
        Err(ReplyRefusal::Database) => Code::BadDatabase.number(),
    }
}
