//! Writes which usable answers of a session are not among those that agree, with no memory taken.

ghost use Rattle.std.specs.Prelude.{◌≡◌, ◌≤◌, if◌then◌else◌, [], ◌∷◌, ◌++◌, length, codes};
ghost use Rattle.port_trait.specs.Number.{OUTPUT};
ghost use Rattle.port_trait.specs.Moves.{Touches};
ghost use Rattle.port_trait.specs.Written.{Written};
ghost use Rattle.wire_frames.specs.Answer.{answers, with_answer};
ghost use Rattle.block_decoder.specs.Text.{others, words_of, liars_line};
ghost use Rattle.block_decoder.specs.Usable.{payload_of};

use crate::agreements::Agreement;
use crate::usable::usable_payload;
use crate::write::write_number;
use port_trait::{Failed, Port, Ports, write_all};
use wire_frames::Session;

/// How many answers of the session are usable.
fn usable_count(session: &Session) -> u32
    ensures count { result ≡ length (answers session.now) }
    ensures few { result ≤ session.now.params.n }
{
    let mut count = 0;
    session.params();
    for place in 0..session.record_count() {
        if let Some(_payload) = usable_payload(session, (place + 1) as u8) {
            count += 1;
        }
    }
    count
}

/// Whether the answer of this server is usable, and the server isn't among these.
fn is_other(session: &Session, indices: &[u8], index: u8) -> bool
    requires first { 1 ≤ index }
    requires last { index ≤ length session.now.records }
    ensures { others indices.now (with_answer index (payload_of session.now index) [])
        ≡ if result then index ∷ [] else [] }
{
    match usable_payload(session, index) {
        Some(_payload) => !indices.contains(&index),
        None => false,
    }
}

/// The number of this server, where its answer is usable and it isn't among these.
fn write_other<P: Ports>(
    ports: &mut P,
    session: &Session,
    indices: &[u8],
    index: u8,
) -> Result<(), Failed>
    requires first { 1 ≤ index }
    requires last { index ≤ length session.now.records }
    ensures written { Written OUTPUT
        (words_of indices.now (with_answer index (payload_of session.now index) []))
        result (P.world ports.old) (P.world ports.new) }
    ensures others { Touches OUTPUT (P.world ports.old) (P.world ports.new) }
{
    if is_other(session, indices, index) {
        return write_number(ports, u64::from(index));
    }
    Ok(())
}

/// The numbers of the servers whose answers are usable and that aren't among these.
fn write_others<P: Ports>(ports: &mut P, session: &Session, indices: &[u8]) -> Result<(), Failed>
    ensures written { Written OUTPUT (words_of indices.now (answers session.now))
        result (P.world ports.old) (P.world ports.new) }
    ensures others { Touches OUTPUT (P.world ports.old) (P.world ports.new) }
{
    session.params();
    for place in 0..session.record_count() {
        write_other(ports, session, indices, (place + 1) as u8)?;
    }
    Ok(())
}

/// The line of those that aren't among these.
fn write_line<P: Ports>(ports: &mut P, session: &Session, indices: &[u8]) -> Result<(), Failed>
    ensures written { Written OUTPUT (codes "liars" ++ (words_of indices.now (answers session.now) ++ codes "\n"))
        result (P.world ports.old) (P.world ports.new) }
    ensures others { Touches OUTPUT (P.world ports.old) (P.world ports.new) }
{
    write_all(ports, Port::Output, b"liars")?;
    write_others(ports, session, indices)?;
    write_all(ports, Port::Output, b"\n")
}

/// The line of those that don't agree, where there is one agreement, of so many answers that there can be no other.
pub(crate) fn write_liars<P: Ports>(
    ports: &mut P,
    session: &Session,
    agreements: &[Agreement],
) -> Result<(), Failed>
    ensures written { Written OUTPUT
        (liars_line (answers session.now) session.now.params.t session.now.params.h agreements.now)
        result (P.world ports.old) (P.world ports.new) }
    ensures others { Touches OUTPUT (P.world ports.old) (P.world ports.new) }
{
    let params = session.params();
    let close = usable_count(session) + u32::from(params.t) < 2 * u32::from(params.h);
    if close && agreements.len() == 1 {
        return write_line(ports, session, agreements[0].indices());
    }
    Ok(())
}
