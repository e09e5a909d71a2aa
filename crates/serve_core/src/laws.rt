//! The law of one reply, as a call whose contract is the law. A call changes nothing.
ghost use Rattle.serve_core.specs.Reply.{AsksForOneReply};

use crate::desk::Desk;

/// A guest's bytes ask for one reply alone: what the guest is met with, and the frame that it is
/// given. So a query is answered, refused with each status, or cut exactly where its own bytes are
/// so.
pub fn reply_is_one(desk: &Desk, guest: &[u8])
    ensures { AsksForOneReply desk.now guest.now }
{}
