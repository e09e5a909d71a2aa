// Headers of queries and answers, and what is usable of an answer.
ghost use Rattle.std.specs.Prelude.{◌<◌, ◌≤◌};

use wire_frames::{
    Field, FrameFault, QueryHeader, read_query_header, usable_answer, write_answer_header,
    write_query_header,
};

const ASKED: QueryHeader = QueryHeader {
    version: 1,
    scheme: 1,
    index: 1,
    count: 1,
    session: 7,
    r: 2,
    s: 2,
};

const FRAME: [u8; 26] = *b"PIRA\x01\x01\x01\0\0\0\0\0\0\0\0\x07\0\0\0\x02\0\0\0\x02\xcf\xd2";

const QUERY: [u8; 24] = *b"PIRQ\x01\x01\x01\0\0\0\0\0\0\0\0\x07\0\0\0\x02\0\0\0\x02";

/// Whether the query of this server has this header, written and read.
fn is_header_of(index: u8, header: &[u8; 24]) -> bool
    requires { 1 ≤ index }
{
    let asked = QueryHeader { index, ..ASKED };
    let mut out = [0xff; 24];
    write_query_header(&asked, &mut out);
    out == *header && read_query_header(header) == Ok(asked)
}

#[test]
fn headers_of_queries(rt: HostRuntime) {
    let second = b"PIRQ\x01\x01\x02\0\0\0\0\0\0\0\0\x07\0\0\0\x02\0\0\0\x02";
    let third = b"PIRQ\x01\x01\x03\0\0\0\0\0\0\0\0\x07\0\0\0\x02\0\0\0\x02";
    assert!(rt; is_header_of(1, &QUERY));
    assert!(rt; is_header_of(2, second));
    assert!(rt; is_header_of(3, third));
}

/// Whether the query with this byte at this place is refused at `place`, in `field`.
fn is_refused(at: usize, byte: u8, place: u64, field: Field) -> bool {
    let mut bytes = QUERY;
    if let Some(old) = bytes.get_mut(at) {
        *old = byte;
    }
    read_query_header(&bytes) == Err(FrameFault { place, field })
}

#[test]
fn wrong_bytes_of_a_query_are_found(rt: HostRuntime) {
    for (at, byte, place, field) in [
        (0, 0x51, 0, Field::Magic),
        (3, 0x41, 3, Field::Magic),
        (4, 0x02, 7, Field::Count),
        (4, 0x03, 4, Field::Version),
        (5, 0x00, 5, Field::Scheme),
        (5, 0x03, 5, Field::Scheme),
        (6, 0x00, 6, Field::Index),
        (7, 0x01, 7, Field::Zero),
        (16, 0x01, 16, Field::Rows),
        (17, 0x20, 17, Field::Rows),
        (17, 0x10, 19, Field::Rows),
        (19, 0x00, 19, Field::Rows),
        (20, 0x01, 20, Field::Width),
        (21, 0x01, 23, Field::Width),
        (23, 0x00, 23, Field::Width),
    ] {
        assert!(rt; is_refused(at, byte, place, field), "byte {at} is {byte}");
    }
}

const QUERY_FOR_TWO: [u8; 24] = *b"PIRQ\x02\x01\x01\x02\0\0\0\0\0\0\0\x07\0\0\0\x02\0\0\0\x02";

#[test]
fn a_query_says_for_how_many_blocks_it_asks(rt: HostRuntime) {
    let two = QueryHeader {
        version: 2,
        count: 2,
        ..ASKED
    };
    let mut out = [0xff; 24];
    write_query_header(&two, &mut out);
    assert!(rt; out == QUERY_FOR_TWO);
    assert!(rt; read_query_header(&QUERY_FOR_TWO) == Ok(two));
    // Two answers, one behind the other.
    let both = b"PIRA\x02\x01\x01\0\0\0\0\0\0\0\0\x07\0\0\0\x02\0\0\0\x02\xcf\xd2\x86\x88";
    assert!(rt; usable_answer(both, &two) == Some(b"\xcf\xd2\x86\x88".as_slice()));
    assert!(rt; usable_answer(&both[..26], &two) == None);
    assert!(rt; usable_answer(&FRAME, &two) == None);
    assert!(rt; usable_answer(both, &ASKED) == None);
}

/// What a query for so many blocks, of 2^10 rows of so many bytes, is read as.
fn read_for_blocks(count: u8, width: u32) -> Result<QueryHeader, FrameFault> {
    let mut bytes = QUERY_FOR_TWO;
    bytes[7] = count;
    bytes[16..20].copy_from_slice(b"\0\0\x04\0");
    bytes[20..].copy_from_slice(&width.to_be_bytes());
    read_query_header(&bytes)
}

#[test]
fn blocks_may_not_have_too_many_bytes_together(rt: HostRuntime) {
    let widest = QueryHeader {
        version: 2,
        count: 16,
        r: 1 << 10,
        s: 1 << 12,
        ..ASKED
    };
    assert!(rt; read_for_blocks(16, 1 << 12) == Ok(widest));
    let fault = FrameFault {
        place: 23,
        field: Field::Width,
    };
    assert!(rt; read_for_blocks(16, (1 << 12) + 1) == Err(fault));
    let too_many = FrameFault {
        place: 7,
        field: Field::Count,
    };
    assert!(rt; read_for_blocks(17, 1) == Err(too_many));
}

/// What a query for 2^20 rows of so many bytes is read as.
fn read_at_width(width: u32) -> Result<QueryHeader, FrameFault> {
    let mut bytes = QUERY;
    bytes[8..20].copy_from_slice(b"\xff\xff\xff\xff\xff\xff\xff\xff\0\x10\0\0");
    bytes[20..].copy_from_slice(&width.to_be_bytes());
    read_query_header(&bytes)
}

#[test]
fn rows_may_not_have_too_many_bytes_together(rt: HostRuntime) {
    let widest = QueryHeader {
        session: u64::MAX,
        r: 1 << 20,
        s: 1 << 10,
        ..ASKED
    };
    assert!(rt; read_at_width(1 << 10) == Ok(widest));
    let fault = FrameFault {
        place: 23,
        field: Field::Width,
    };
    assert!(rt; read_at_width((1 << 10) + 1) == Err(fault));
}

/// Whether the answer with this status has this header.
fn is_answered(query: &[u8; 24], status: u8, header: &[u8; 24]) -> bool {
    let mut out = [0xff; 24];
    write_answer_header(query, status, &mut out);
    out == *header
}

#[test]
fn headers_of_answers(rt: HostRuntime) {
    let other_shape = b"PIRQ\x01\x01\x01\0\0\0\0\0\0\0\0\x07\0\0\0\x03\0\0\0\x02";
    let wrong_letter = b"QIRQ\x01\x01\x01\0\0\0\0\0\0\0\0\x07\0\0\0\x02\0\0\0\x02";
    let other_scheme = b"PIRQ\x01\x02\x01\0\0\0\0\0\0\0\0\x07\0\0\0\x02\0\0\0\x02";
    let good = b"PIRA\x01\x01\x01\0\0\0\0\0\0\0\0\x07\0\0\0\x02\0\0\0\x02";
    let to_other_shape = b"PIRA\x01\x01\x01\x02\0\0\0\0\0\0\0\x07\0\0\0\x03\0\0\0\x02";
    let to_wrong_letter = b"PIRA\x01\x01\x01\x01\0\0\0\0\0\0\0\x07\0\0\0\x02\0\0\0\x02";
    let to_other_scheme = b"PIRA\x01\x02\x01\x03\0\0\0\0\0\0\0\x07\0\0\0\x02\0\0\0\x02";
    assert!(rt; is_answered(&QUERY, 0, good));
    assert!(rt; is_answered(other_shape, 2, to_other_shape));
    assert!(rt; is_answered(wrong_letter, 1, to_wrong_letter));
    assert!(rt; is_answered(other_scheme, 3, to_other_scheme));
    // The version is the query's where that is 2, also where the header is wrong elsewhere.
    let two = b"PIRA\x02\x01\x01\0\0\0\0\0\0\0\0\x07\0\0\0\x02\0\0\0\x02";
    let of_no_block = b"QIRQ\x02\x01\x01\0\0\0\0\0\0\0\0\x07\0\0\0\x02\0\0\0\x02";
    let to_no_block = b"PIRA\x02\x01\x01\x01\0\0\0\0\0\0\0\x07\0\0\0\x02\0\0\0\x02";
    let of_no_version = b"PIRQ\x03\x01\x01\0\0\0\0\0\0\0\0\x07\0\0\0\x02\0\0\0\x02";
    assert!(rt; is_answered(&QUERY_FOR_TWO, 0, two));
    assert!(rt; is_answered(of_no_block, 1, to_no_block));
    assert!(rt; is_answered(of_no_version, 1, to_wrong_letter));
}

/// What a client that asked this server can use of these bytes.
fn used(scheme: u8, index: u8, bytes: &[u8]) -> Option<&[u8]> {
    let asked = QueryHeader {
        scheme,
        index,
        ..ASKED
    };
    usable_answer(bytes, &asked)
}

#[test]
fn answers_that_can_be_used(rt: HostRuntime) {
    let second = b"PIRA\x01\x01\x02\0\0\0\0\0\0\0\0\x07\0\0\0\x02\0\0\0\x02\x40\x73";
    let xor = b"PIRA\x01\x02\x01\0\0\0\0\0\0\0\0\x07\0\0\0\x02\0\0\0\x02\x41\x42";
    assert!(rt; used(1, 1, &FRAME) == Some(b"\xcf\xd2".as_slice()));
    assert!(rt; used(1, 2, second) == Some(b"\x40\x73".as_slice()));
    assert!(rt; used(2, 1, xor) == Some(b"\x41\x42".as_slice()));
}

#[test]
fn answers_that_cannot_be_used(rt: HostRuntime) {
    let malformed = b"PIRA\x01\x01\x01\x01\0\0\0\0\0\0\0\x07\0\0\0\x02\0\0\0\x02";
    let other_shape = b"PIRA\x01\x01\x01\x02\0\0\0\0\0\0\0\x07\0\0\0\x03\0\0\0\x02";
    let other_scheme = b"PIRA\x01\x02\x01\x03\0\0\0\0\0\0\0\x07\0\0\0\x02\0\0\0\x02";
    let longer = b"PIRA\x01\x01\x01\0\0\0\0\0\0\0\0\x07\0\0\0\x02\0\0\0\x02\xcf\xd2\0";
    assert!(rt; used(1, 2, &FRAME) == None);
    assert!(rt; used(2, 1, &FRAME) == None);
    assert!(rt; used(1, 1, malformed) == None);
    assert!(rt; used(1, 1, other_shape) == None);
    assert!(rt; used(1, 1, other_scheme) == None);
    assert!(rt; used(1, 1, longer) == None);
}

/// Whether the frame can be used where one bit of this byte is changed.
fn is_used_with_a_change(place: usize) -> bool
    requires { place < 24 }
{
    let mut bytes = FRAME;
    bytes[place] ^= 1;
    used(1, 1, &bytes).is_some()
}

#[test]
fn any_change_makes_an_answer_unusable(rt: HostRuntime) {
    for place in 0..24 {
        assert!(rt; !is_used_with_a_change(place), "byte {place}");
    }
    for len in 0..26 {
        assert!(rt; used(1, 1, &FRAME[..len]).is_none(), "{len} bytes");
    }
}
