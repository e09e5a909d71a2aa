//! What is said where too few answers are usable: how the servers answered.

use std::alloc::{AllocError, Global};
use std::fmt::Write;
use wire_frames::{Cause, Session, why};

/// The status of a refusal for other rows or another width.
const OTHER_SHAPE: u8 = 2;

/// How many servers answered in each way.
#[derive(Clone, Copy)]
struct Answered {
    servers: u32,
    usable: u32,
    silent: u32,
    other_shape: u32,
    refused: u32,
    other: u32,
}

impl Answered {
    /// No server so far.
    fn new() -> Answered {
        Answered {
            servers: 0,
            usable: 0,
            silent: 0,
            other_shape: 0,
            refused: 0,
            other: 0,
        }
    }

    /// One server more, whose answer is usable, or why it isn't; `None` where a call on its link failed.
    fn add(&mut self, told: Option<Cause>) {
        self.servers = self.servers.saturating_add(1);
        match told {
            None => self.silent = self.silent.saturating_add(1),
            Some(Cause::Usable) => self.usable = self.usable.saturating_add(1),
            Some(Cause::Refused(OTHER_SHAPE)) => {
                self.other_shape = self.other_shape.saturating_add(1);
            }
            Some(Cause::Refused(_)) => self.refused = self.refused.saturating_add(1),
            Some(Cause::Cut | Cause::Other(_) | Cause::Length) => {
                self.other = self.other.saturating_add(1);
            }
        }
    }
}

/// How the servers of a session answered.
fn answered_in(session: &Session) -> Answered {
    let mut answered = Answered::new();
    let params = session.params();
    for i in 0..session.record_count() {
        let index = i as u8 + 1;
        let told = match session.record_at(u32::from(index)) {
            Some(bytes) => Some(why(bytes, &params.asked(index))),
            None => None,
        };
        answered.add(told);
    }
    answered
}

/// Adds that so many of the servers did something, if one did.
fn add_count(text: &mut String, count: u32, servers: u32, what: &str) -> Result<(), AllocError> {
    if count > 0 {
        write!(text, "; {count} of {servers} servers {what}")?;
    }
    Ok(())
}

/// What is said where fewer answers of a session are usable than have to agree.
pub(crate) fn too_few(alloc: Global, session: &Session, wanted: u32) -> Result<String, AllocError> {
    let answered = answered_in(session);
    let servers = answered.servers;
    let usable = answered.usable;
    let mut text = format!(in alloc;
        "{usable} of {servers} answers are usable, and {wanted} have to agree"
    )?;
    add_count(&mut text, answered.silent, servers, "were silent")?;
    add_count(
        &mut text,
        answered.other_shape,
        servers,
        "refused: they serve another list, or the catalog is old",
    )?;
    add_count(
        &mut text,
        answered.refused,
        servers,
        "refused: they are of another scheme or version, or a front that lost a shard",
    )?;
    add_count(
        &mut text,
        answered.other,
        servers,
        "gave something else than an answer to the query",
    )?;
    Ok(text)
}
