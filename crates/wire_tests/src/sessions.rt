// Sessions: their numbers and records, and their bytes, read and written.
ghost use Rattle.std.specs.Prelude.{◌≡◌, ◌+◌, ◌<◌, ◌≤◌, IfOk, IfSome, length};

use pir_ports::{Failed, MemPorts, Port};
use std::alloc::{AllocError, Global};
use wire_frames::{BadSession, FeedFault, Session, SessionParams, SessionReader, write_session};

// Three servers answered a query for a block of two bytes.
const THREE: [u8; 124] = *b"PIRS\x01\x01\x01\x02\x03\0\0\0\0\0\0\0\0\0\0\x07\0\0\0\x02\0\0\0\x02\
    \x01\x01\0\0\0\x1aPIRA\x01\x01\x01\0\0\0\0\0\0\0\0\x07\0\0\0\x02\0\0\0\x02\xcf\xd2\
    \x02\x01\0\0\0\x1aPIRA\x01\x01\x02\0\0\0\0\0\0\0\0\x07\0\0\0\x02\0\0\0\x02\x40\x73\
    \x03\x01\0\0\0\x1aPIRA\x01\x01\x03\0\0\0\0\0\0\0\0\x07\0\0\0\x02\0\0\0\x02\xcc\xe5";

// None of three servers answered.
const SILENT: [u8; 46] = *b"PIRS\x01\x01\x01\x02\x03\0\0\0\0\0\0\0\0\0\0\x07\0\0\0\x02\0\0\0\x02\
    \x01\0\0\0\0\0\x02\0\0\0\0\0\x03\0\0\0\0\0";

// Both servers of the XOR scheme answered a query for a block of two bytes.
const BOTH: [u8; 92] = *b"PIRS\x01\x02\x01\x02\x02\0\0\0\0\0\0\0\0\0\0\x07\0\0\0\x02\0\0\0\x02\
    \x01\x01\0\0\0\x1aPIRA\x01\x02\x01\0\0\0\0\0\0\0\0\x07\0\0\0\x02\0\0\0\x02\x41\x42\
    \x02\x01\0\0\0\x1aPIRA\x01\x02\x02\0\0\0\0\0\0\0\0\x07\0\0\0\x02\0\0\0\x02\x02\x06";

// The same where the first did not answer, and where the second did not.
const FIRST_ABSENT: [u8; 66] =
    *b"PIRS\x01\x02\x01\x02\x02\0\0\0\0\0\0\0\0\0\0\x07\0\0\0\x02\0\0\0\x02\
    \x01\0\0\0\0\0\
    \x02\x01\0\0\0\x1aPIRA\x01\x02\x02\0\0\0\0\0\0\0\0\x07\0\0\0\x02\0\0\0\x02\x02\x06";

const SECOND_ABSENT: [u8; 66] =
    *b"PIRS\x01\x02\x01\x02\x02\0\0\0\0\0\0\0\0\0\0\x07\0\0\0\x02\0\0\0\x02\
    \x01\x01\0\0\0\x1aPIRA\x01\x02\x01\0\0\0\0\0\0\0\0\x07\0\0\0\x02\0\0\0\x02\x41\x42\
    \x02\0\0\0\0\0";

const OF_THREE: SessionParams = SessionParams {
    version: 1,
    scheme: 1,
    t: 1,
    h: 2,
    n: 3,
    count: 1,
    session: 7,
    r: 2,
    s: 2,
};

const OF_BOTH: SessionParams = SessionParams {
    version: 1,
    scheme: 2,
    t: 1,
    h: 2,
    n: 2,
    count: 1,
    session: 7,
    r: 2,
    s: 2,
};

/// A session of three servers with three records, the second absent and the third empty. Its number was set anew.
fn recorded(alloc: Global) -> Result<Session, AllocError>
    ensures { IfOk result (λ s. length s.records ≡ 3) }
{
    let mut session = Session::new(alloc, OF_THREE)?;
    session.set_session(8);
    session.push_record(Some(&THREE[34..60]));
    session.push_record(None);
    session.push_record(Some(&[]));
    Ok(session)
}

#[test]
fn a_session_has_no_records_at_first(rt: HostRuntime) -> Result<(), AllocError> {
    let session = Session::new(rt.alloc(), OF_THREE)?;
    assert!(rt; session.record_count() == 0);
    Ok(())
}

#[test]
fn records_stand_where_they_were_pushed(rt: HostRuntime) -> Result<(), AllocError> {
    let session = recorded(rt.alloc())?;
    assert!(rt; session.record_count() == 3);
    assert!(rt; session.record_at(1) == Some(&THREE[34..60]));
    assert!(rt; session.record_at(2) == None);
    assert!(rt; session.record_at(3) == Some(b"".as_slice()));
    Ok(())
}

/// Whether each number is what its call gives.
fn has_numbers(session: &Session, params: SessionParams) -> bool {
    session.params() == params
        && session.scheme() == params.scheme
        && session.t() == params.t
        && session.h() == params.h
        && session.n() == params.n
        && session.session() == params.session
        && session.r() == params.r
        && session.s() == params.s
}

#[test]
fn a_session_has_its_numbers(rt: HostRuntime) -> Result<(), AllocError> {
    let session = recorded(rt.alloc())?;
    let renumbered = SessionParams {
        session: 8,
        ..OF_THREE
    };
    assert!(rt; has_numbers(&session, renumbered));
    Ok(())
}

/// The session that comes in pieces, where it is one.
fn read(alloc: Global, bytes: &[u8], piece: usize) -> Option<Session>
    requires { 0 < piece }
{
    let mut reader = SessionReader::new();
    for part in bytes.chunks(piece) {
        reader.feed(alloc, part).ok()?;
    }
    reader.end().ok()
}

/// Whether the session is read with its numbers and its three records.
fn is_read(alloc: Global, piece: usize) -> bool
    requires { 0 < piece }
{
    let Some(session) = read(alloc, &THREE, piece) else {
        return false;
    };
    session.params() == OF_THREE
        && session.record_count() == 3
        && session.record_at(1) == Some(&THREE[34..60])
        && session.record_at(2) == Some(&THREE[66..92])
        && session.record_at(3) == Some(&THREE[98..])
}

#[test]
fn a_session_is_read_in_any_cut(rt: HostRuntime) {
    for piece in [1, 5, 64, 200] {
        assert!(rt; is_read(rt.alloc(), piece), "pieces of {piece}");
    }
}

// The memory for the records is taken with the last byte of the header. It is refused only where somebody has it refused.
#[test]
fn a_piece_that_was_refused_memory_can_be_fed_again(rt: HostRuntime) {
    let mut reader = SessionReader::new();
    if reader.feed(rt.alloc(), &THREE[..28]) == Err(FeedFault::Memory) {
        assert!(rt; reader.feed(rt.alloc(), &THREE[..28]) == Ok(()));
    }
    assert!(rt; reader.feed(rt.alloc(), &THREE[28..]) == Ok(()));
    assert!(rt; matches!(reader.end(), Ok(session) if session.record_count() == 3));
}

#[test]
fn a_refused_reader_stays_so(rt: HostRuntime) {
    let mut reader = SessionReader::new();
    assert!(rt; reader.feed(rt.alloc(), b"Q") == Err(FeedFault::BadSession { place: 0 }));
    assert!(rt; reader.feed(rt.alloc(), &THREE) == Err(FeedFault::BadSession { place: 0 }));
    assert!(rt; matches!(reader.end(), Err(BadSession { place: 0 })));
}

/// Whether the first `len` bytes of `whole` are written of the session, and the write fails where these are not all.
/// There is room for all of them; a call takes at most `cut`, and the call with the number `fail` fails.
fn is_written(
    alloc: Global,
    session: &Session,
    cut: usize,
    fail: u8,
    whole: &[u8],
    len: usize,
) -> Result<bool, AllocError>
    requires cut { 0 < cut }
    requires front { len ≤ length whole.now }
    requires all { length session.now.records ≡ session.now.params.n }
{
    let mut ports = MemPorts::new(alloc, cut, &[u64::from(fail)], 0, 0)?;
    ports.room(alloc, Port::Record, whole.len())?;
    let is_whole = write_session(&mut ports, session).is_ok();
    Ok(is_whole == (len == whole.len()) && ports.seen(Port::Record) == &whole[..len])
}

/// The session of the three servers that answered.
fn three(alloc: Global) -> Result<Session, AllocError>
    ensures { IfOk result (λ s. length s.records ≡ s.params.n) }
{
    let mut session = Session::new(alloc, OF_THREE)?;
    session.push_record(Some(&THREE[34..60]));
    session.push_record(Some(&THREE[66..92]));
    session.push_record(Some(&THREE[98..]));
    Ok(session)
}

/// The session of the three servers that did not.
fn silent(alloc: Global) -> Result<Session, AllocError>
    ensures { IfOk result (λ s. length s.records ≡ s.params.n) }
{
    let mut session = Session::new(alloc, OF_THREE)?;
    session.push_record(None);
    session.push_record(None);
    session.push_record(None);
    Ok(session)
}

/// The session of both servers of the XOR scheme.
fn both(alloc: Global) -> Result<Session, AllocError>
    ensures { IfOk result (λ s. length s.records ≡ s.params.n) }
{
    let mut session = Session::new(alloc, OF_BOTH)?;
    session.push_record(Some(&BOTH[34..60]));
    session.push_record(Some(&BOTH[66..]));
    Ok(session)
}

#[test]
fn answers_are_written(rt: HostRuntime) -> Result<(), AllocError> {
    let session = three(rt.alloc())?;
    assert!(rt; is_written(rt.alloc(), &session, 5, 99, &THREE, 124)?);
    Ok(())
}

#[test]
fn answers_of_the_xor_scheme_are_written(rt: HostRuntime) -> Result<(), AllocError> {
    let session = both(rt.alloc())?;
    assert!(rt; is_written(rt.alloc(), &session, 5, 99, &BOTH, 92)?);
    Ok(())
}

#[test]
fn a_failed_write_leaves_a_front(rt: HostRuntime) -> Result<(), AllocError> {
    let session = silent(rt.alloc())?;
    for (fail, len) in [(1, 0), (2, 20), (3, 28), (4, 34), (5, 40), (6, 46)] {
        let is_so = is_written(rt.alloc(), &session, 20, fail, &SILENT, len)?;
        assert!(rt; is_so, "call {fail}");
    }
    Ok(())
}

/// Whether the session is read in these pieces, with the numbers of the XOR scheme, and written again.
fn is_rewritten(alloc: Global, bytes: &[u8], piece: usize) -> Result<bool, AllocError>
    requires { 0 < piece }
{
    let Some(session) = read(alloc, bytes, piece) else {
        return Ok(false);
    };
    if session.params() != OF_BOTH || session.record_count() != 2 {
        return Ok(false);
    }
    is_written(alloc, &session, 5, 99, bytes, bytes.len())
}

#[test]
fn sessions_of_the_xor_scheme_are_read_and_written(rt: HostRuntime) -> Result<(), AllocError> {
    for bytes in [
        BOTH.as_slice(),
        FIRST_ABSENT.as_slice(),
        SECOND_ABSENT.as_slice(),
    ] {
        assert!(rt; is_rewritten(rt.alloc(), bytes, 1)?, "one by one");
        assert!(rt; is_rewritten(rt.alloc(), bytes, 92)?, "at once");
    }
    Ok(())
}
