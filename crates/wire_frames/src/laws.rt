//! The law of a session's file, as a call whose contract is the law. A call changes nothing.

ghost use Rattle.std.specs.Prelude.{◌≡◌};
ghost use Rattle.wire_frames.specs.Session.{IsSession};

use crate::session::Session;

/// The bytes of a file are the file of one session: two sessions that they are a file of are one.
pub fn one_session(bytes: &[u8], one: &Session, other: &Session)
    requires one { IsSession bytes.now one.now }
    requires other { IsSession bytes.now other.now }
    ensures { one.now ≡ other.now }
{}
