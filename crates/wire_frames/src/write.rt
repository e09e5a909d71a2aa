//! Writes the file of a session, in pieces, with no memory taken.
ghost use Rattle.std.specs.Prelude.{◌≡◌, ◌<◌, ◌^◌, length, IfSome};
ghost use Rattle.std.specs.Option.{option_copied};
ghost use Rattle.port_trait.specs.Number.{RECORD};
ghost use Rattle.port_trait.specs.Moves.{Touches};
ghost use Rattle.port_trait.specs.Written.{Written};
ghost use Rattle.wire_frames.specs.Layout.{record_header};
ghost use Rattle.wire_frames.specs.Limits.{IsInRange};
ghost use Rattle.wire_frames.specs.Session.{IsSession, header_bytes, record_bytes, records_bytes, session_bytes};

use crate::layout::SESSION_MAGIC;
use crate::places::{
    RECORD_INDEX_PLACE, RECORD_LENGTH_PLACE, RECORD_PRESENT_PLACE, SESSION_AGREEMENT_PLACE,
    SESSION_COUNT_PLACE, SESSION_DEGREE_PLACE, SESSION_MAGIC_PLACE, SESSION_NUMBER_PLACE,
    SESSION_ROWS_PLACE, SESSION_SCHEME_PLACE, SESSION_SERVERS_PLACE, SESSION_VERSION_PLACE,
    SESSION_WIDTH_PLACE,
};
use crate::session::{Session, SessionParams};
use crate::sizes::{RECORD_HEADER_LEN, SESSION_HEADER_LEN};
use crate::version::{Version, count_byte};
use byteorder::{BigEndian, ByteOrder};
use port_trait::{Failed, Port, Ports, write_all};

/// The header of a session with these numbers, each in its range.
fn header_of(params: &SessionParams) -> [u8; SESSION_HEADER_LEN]
    requires { IsInRange params.now }
    ensures { result ≡ header_bytes params.now }
{
    let mut header = [0; SESSION_HEADER_LEN];
    header[SESSION_MAGIC_PLACE..SESSION_VERSION_PLACE].copy_from_slice(
        &SESSION_MAGIC.to_be_bytes(),
    );
    header[SESSION_VERSION_PLACE] = params.version;
    header[SESSION_SCHEME_PLACE] = params.scheme;
    header[SESSION_DEGREE_PLACE] = params.t;
    header[SESSION_AGREEMENT_PLACE] = params.h;
    header[SESSION_SERVERS_PLACE] = params.n;
    header[SESSION_COUNT_PLACE] = count_byte(params.version(), params.count);
    BigEndian::write_u64(&mut header[SESSION_NUMBER_PLACE..], params.session);
    BigEndian::write_u32(&mut header[SESSION_ROWS_PLACE..], params.r);
    BigEndian::write_u32(&mut header[SESSION_WIDTH_PLACE..], params.s);
    header
}

/// What stands before the bytes of a record, of so many bytes or absent.
fn record_header_of(index: u8, len: Option<u32>) -> [u8; RECORD_HEADER_LEN]
    ensures { result ≡ record_header index len }
{
    let mut header = [0; RECORD_HEADER_LEN];
    header[RECORD_INDEX_PLACE] = index;
    if let Some(len) = len {
        header[RECORD_PRESENT_PLACE] = 1;
        BigEndian::write_u32(&mut header[RECORD_LENGTH_PLACE..], len);
    }
    header
}

/// Writes the record of one server to Record: the bytes that it answered, or `None` where a call
/// failed.
fn write_record<P: Ports>(ports: &mut P, index: u8, bytes: Option<&[u8]>) -> Result<(), Failed>
    requires { IfSome (option_copied bytes) (λ b. length b < 2 ^ 32) }
    ensures written { Written RECORD (record_bytes index (option_copied bytes.entry)) result
        (P.world ports.old) (P.world ports.new) }
    ensures others { Touches RECORD (P.world ports.old) (P.world ports.new) }
{
    match bytes {
        Some(bytes) => write_present(ports, index, bytes),
        None => write_all(ports, Port::Record, &record_header_of(index, None)),
    }
}

/// Writes a record that is present.
fn write_present<P: Ports>(ports: &mut P, index: u8, bytes: &[u8]) -> Result<(), Failed>
    requires { length bytes.now < 2 ^ 32 }
    ensures written { Written RECORD (record_bytes index (Some bytes.now)) result
        (P.world ports.old) (P.world ports.new) }
    ensures others { Touches RECORD (P.world ports.old) (P.world ports.new) }
{
    let header = record_header_of(index, Some(bytes.len() as u32));
    write_all(ports, Port::Record, &header)?;
    if bytes.is_empty() {
        return Ok(());
    }
    write_all(ports, Port::Record, bytes)
}

/// Writes the records of the session to Record.
fn write_records<P: Ports>(ports: &mut P, session: &Session) -> Result<(), Failed>
    requires { IsInRange session.now.params }
    ensures written { Written RECORD (records_bytes 1 session.now.records) result
        (P.world ports.old) (P.world ports.new) }
    ensures others { Touches RECORD (P.world ports.old) (P.world ports.new) }
{
    for i in 0..session.record_count() {
        write_record(ports, i as u8 + 1, session.record_at(i + 1))?;
    }
    Ok(())
}

/// Writes the file of the session to Record, in pieces; it takes no memory. All `n` records must
/// have been pushed, so that the bytes are the file of a session.
///
/// The file is read back by [`SessionReader`](crate::SessionReader).
///
/// # Errors
///
/// `Failed` exactly where the count of Record rose; then Record took a proper prefix of the file.
pub fn write_session<P: Ports>(ports: &mut P, session: &Session) -> Result<(), Failed>
    requires { length session.now.records ≡ session.now.params.n }
    ensures written { Written RECORD (session_bytes session.now) result
        (P.world ports.old) (P.world ports.new) }
    ensures file { IsSession (session_bytes session.now) session.now }
    ensures others { Touches RECORD (P.world ports.old) (P.world ports.new) }
{
    let whole = session.record_count() == u32::from(session.n());
    prove!(whole);
    let header = header_of(&session.params());
    write_all(ports, Port::Record, &header)?;
    write_records(ports, session)
}
