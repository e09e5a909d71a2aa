//! The decoder beside the program that lists the agreed blocks straight from their definition, and one happy path of each
//! other call.

ghost use Rattle.std.specs.Prelude.{◌≡◌, ◌≢◌, ◌+◌, ◌*◌, ◌<◌, ◌≤◌, length, All, IfOk};
ghost use Rattle.std.specs.List.Sorted.{IsStrictlyIncreasing};
ghost use Rattle.quantity_limits.specs.declared.TheConstants.{MOST_SERVERS};
ghost use Rattle.block_decoder.specs.Numbers.{column_nodes};
ghost use Rattle.block_decoder.specs.Verdict.{ListsNoMoreThan};

use crate::plain_blocks::plain_listing;
use block_decoder::{Verdict, bound, decide, judge, write_verdict};
use gs_interpolate::Koetter;
use pir_ports::{MemPorts, Port};
use std::alloc::{AllocError, Global};
use std::marker::Brand;
use std::sync::ledger::{Blank, Ledger};
use std::test::Fail;
use uni_poly::steps::Steps;
use wire_frames::{MOST_SERVERS, Session, SessionParams};

/// The verdict on answers, with counters of columns and of nodes made of the blanks.
fn decided<C: Ledger, N: Ledger>(
    cols: Blank,
    nodes: Blank,
    alloc: Global,
    indices: &[u8],
    bytes: &[u8],
    t: u32,
    h: u32,
    s: u32,
) -> Result<Verdict, AllocError>
    requires cols { (cols.name ≡ C.name) × (cols.parts ≡ C.parts) × (0 < cols.parts) }
    requires nodes { (nodes.name ≡ N.name) × (nodes.parts ≡ N.parts) × (0 < nodes.parts) }
    requires ascending { IsStrictlyIncreasing indices.now }
    requires nonzero { All (λ a. a ≢ 0) indices.now }
    requires few { length indices.now ≤ MOST_SERVERS }
    requires agreement { (1 ≤ t) × (t < h) }
    requires width { 1 ≤ s }
    requires fit { length bytes.now ≡ length indices.now * s }
{
    let mut cols: Steps<C> = Steps::new(cols);
    let mut nodes: Steps<N> = Steps::new(nodes);
    decide(
        alloc, &Koetter, indices, bytes, t, h, s, &mut cols, &mut nodes,
    )
}

const INDICES: [u8; 5] = [1, 2, 3, 4, 5];

/// How many blocks both programs list at the answers of the first servers, and whether that is Johnson's bound; `None`
/// where they differ, or where the numbers are none of a small session.
fn count_of_both(
    alloc: Global,
    bytes: &[u8],
    t: u32,
    h: u32,
    s: u32,
) -> Result<Option<(usize, bool)>, AllocError> {
    if s < 1 || s > 2 || t < 1 || h <= t || h > 5 || bytes.len() > 10 {
        return Ok(None);
    }
    let k = bytes.len() / s as usize;
    if k > 5
        || k < h as usize
        || k * t as usize >= (h * h) as usize
        || k * s as usize != bytes.len()
    {
        return Ok(None);
    }
    let indices = &INDICES[..k];
    let plain = plain_listing(alloc, indices, bytes, t, h, s)?;
    match decided::<Brand, Brand>(Blank::new(1), Blank::new(1), alloc, indices, bytes, t, h, s)? {
        Verdict::Listed(listing) if listing.blocks() == plain.blocks() => {
            let most = bound(k as u32, t, h) as usize;
            Ok(Some((plain.len(), plain.len() == most)))
        }
        _ => Ok(None),
    }
}

/// The next byte of a fixed sequence: a linear congruential generator.
fn next_byte(state: &mut u32) -> u8 {
    *state = state.wrapping_mul(1_664_525).wrapping_add(1_013_904_223);
    (*state >> 24) as u8
}

/// How five answers lie in a column.
#[derive(Clone, Copy)]
enum Kind {
    Anyhow,
    OnOneLineButOne,
    OnTwoLines,
}

/// A column of a kind. Its two lines meet at index 3.
fn column(state: &mut u32, kind: Kind) -> [u8; 5] {
    let constant = next_byte(state);
    let slope = next_byte(state);
    let turn = next_byte(state);
    let mut bytes = [0; 5];
    for place in 0..5usize {
        let index = INDICES[place];
        let first = gf256::add(constant, gf256::mul(slope, index));
        bytes[place] = match kind {
            Kind::Anyhow => next_byte(state),
            Kind::OnOneLineButOne if index == 4 => next_byte(state),
            Kind::OnTwoLines if index > 3 => {
                gf256::add(first, gf256::mul(turn, gf256::add(index, 3)))
            }
            _ => first,
        };
    }
    bytes
}

/// Two columns as the payloads of answers.
fn side_by_side(left: &[u8; 5], right: &[u8; 5]) -> [u8; 10] {
    let mut bytes = [0; 10];
    for place in 0..5usize {
        bytes[2 * place] = left[place];
        bytes[2 * place + 1] = right[place];
    }
    bytes
}

#[test]
fn both_list_the_same(rt: HostRuntime) -> Result<(), Fail> {
    let mut state = 1;
    // Whether none, one, two, or three blocks were listed at some session, and as many as Johnson's bound has.
    let mut seen = [false; 4];
    let mut at_bound = false;
    for _ in 0..14u8 {
        for kind in [Kind::Anyhow, Kind::OnOneLineButOne, Kind::OnTwoLines] {
            let left = column(&mut state, kind);
            let right = column(&mut state, kind);
            let both = side_by_side(&left, &right);
            for (bytes, h, s) in [
                (left.as_slice(), 3, 1),
                (right.as_slice(), 3, 1),
                (both.as_slice(), 3, 2),
                (&left[..3], 2, 1),
                (&right[..4], 3, 1),
            ] {
                let (count, most) = count_of_both(rt.alloc(), bytes, 1, h, s)?.ok_or(
                    "they differ",
                )?;
                seen[count.min(3)] = true;
                at_bound = at_bound || most;
            }
        }
    }
    assert!(rt; seen == [true; 4] && at_bound);
    Ok(())
}

#[test]
fn both_list_the_same_at_degree_two(rt: HostRuntime) -> Result<(), Fail> {
    let mut state = 2;
    for kind in [Kind::Anyhow, Kind::OnOneLineButOne] {
        let bytes = column(&mut state, kind);
        assert!(rt; count_of_both(rt.alloc(), &bytes[..4], 2, 3, 1)?.is_some());
    }
    Ok(())
}

/// The blocks that are listed straight from their definition at degree 1, one after another.
fn plainly_listed(
    alloc: Global,
    indices: &[u8],
    bytes: &[u8],
    h: u32,
    s: u32,
) -> Result<Vec<u8>, AllocError> {
    let mut all = Vec::new(alloc);
    if indices.len() <= usize::from(MOST_SERVERS)
        && s <= 2
        && bytes.len() == indices.len() * s as usize
    {
        let listing = plain_listing(alloc, indices, bytes, 1, h, s)?;
        for block in listing.blocks() {
            all.extend_from_slice(block)?;
        }
    }
    Ok(all)
}

#[test]
fn worked_answers(rt: HostRuntime) -> Result<(), Fail> {
    for (indices, bytes, h, s, blocks) in [
        (
            b"\x01\x02\x03".as_slice(),
            b"\xcf\xd2\x40\x73\xcc\xe5".as_slice(),
            2,
            2,
            b"\x43\x44".as_slice(),
        ),
        (
            b"\x01\x02\x03",
            b"\xcf\xd2\x40\x73\xcc\xe5",
            3,
            2,
            b"\x43\x44",
        ),
        (b"\x01\x03", b"\xcf\xd2\xcc\xe5", 2, 2, b"\x43\x44"),
        (b"\x01\x02\x03", b"\xcf\xd2\x40\x72\xcc\xe5", 3, 2, b""),
        (
            b"\x01\x02\x03\x04\x05",
            b"\x10\x10\x10\x17\x16",
            3,
            1,
            b"\x10\x13",
        ),
        (
            b"\x01\x02\x03\x04\x05",
            b"\x10\x20\x10\x40\x10\x44\x20\x44\x40\x44",
            3,
            2,
            b"",
        ),
        (
            b"\x01\x02\x03\x04\x05\x06",
            b"\x42\x41\x40\x4b\x49\x4f",
            3,
            1,
            b"\x43",
        ),
        (b"\x01\x02\x03", b"\x00\x01\x02", 2, 1, b"\x01\x07\xf6"),
    ] {
        let listed = plainly_listed(rt.alloc(), indices, bytes, h, s)?;
        assert!(rt; listed.as_slice() == blocks, "{bytes:?}");
    }
    Ok(())
}

#[test]
fn bounds(rt: HostRuntime) {
    for (k, t, h, most) in [
        (3, 1, 2, 3),
        (3, 1, 3, 1),
        (4, 1, 3, 1),
        (5, 1, 3, 2),
        (8, 1, 3, 16),
        (8, 3, 5, 16),
        (7, 6, 7, 1),
        (20, 3, 8, 25),
        (23, 1, 5, 46),
        (47, 1, 7, 141),
        (255, 1, 17, 120),
        (33, 3, 10, 231),
        (156, 38, 78, 40),
    ] {
        assert!(rt; 1 <= t && t < h && h <= k && k <= 255 && k * t < h * h);
        assert!(rt; bound(k, t, h) == most, "{k} {t} {h}");
    }
}

#[test]
fn as_many_blocks_as_the_bound(rt: HostRuntime) -> Result<(), Fail> {
    for (bytes, h, count) in [
        (b"\x10\x10\x10\x17\x16".as_slice(), 3, 2),
        (b"\x00\x01\x02", 2, 3),
    ] {
        let (found, most) = count_of_both(rt.alloc(), bytes, 1, h, 1)?.ok_or("they differ")?;
        assert!(rt; found == count && most, "{bytes:?}");
    }
    Ok(())
}

/// The verdict on eight equal answers, of which three are to agree: where 8 * 1 is just below 3 * 3, the bound on blocks is
/// 16. So 33 columns are decoded at most. A list is made at most 7 times, as it would be for a wider block.
fn decided_among_eight<C: Ledger, N: Ledger>(
    alloc: Global,
    cols: &mut Steps<C>,
    nodes: &mut Steps<N>,
) -> Result<Verdict, AllocError>
    ensures cols { cols.new ≤ cols.old + 33 }
    ensures nodes { nodes.new ≤ nodes.old + 7 * column_nodes 8 1 3 }
    ensures few { IfOk result (ListsNoMoreThan 16) }
{
    let indices = [1, 2, 3, 4, 5, 6, 7, 8];
    decide(
        alloc,
        &Koetter,
        &indices,
        b"abcabcabcabcabcabcabcabc",
        1,
        3,
        3,
        cols,
        nodes,
    )
}

/// The same, with counters made of the blanks.
fn counted_among_eight<C: Ledger, N: Ledger>(
    cols: Blank,
    nodes: Blank,
    alloc: Global,
) -> Result<Verdict, AllocError>
    requires cols { (cols.name ≡ C.name) × (cols.parts ≡ C.parts) × (0 < cols.parts) }
    requires nodes { (nodes.name ≡ N.name) × (nodes.parts ≡ N.parts) × (0 < nodes.parts) }
{
    let mut cols: Steps<C> = Steps::new(cols);
    let mut nodes: Steps<N> = Steps::new(nodes);
    decided_among_eight(alloc, &mut cols, &mut nodes)
}

#[test]
fn eight_equal_answers(rt: HostRuntime) -> Result<(), Fail> {
    let verdict = counted_among_eight::<Brand, Brand>(Blank::new(1), Blank::new(1), rt.alloc())?;
    assert!(rt; is_written(rt.alloc(), &verdict, b"blocks 1\n616263\n")?);
    Ok(())
}

/// The verdict on eight equal answers, of which five are to agree at degree 3. A list is made at most 4 times: of six answers,
/// where each polynomial misses one or more, in 2 ways, of seven and of eight in one.
fn decided_at_degree_three<C: Ledger, N: Ledger>(
    alloc: Global,
    cols: &mut Steps<C>,
    nodes: &mut Steps<N>,
) -> Result<Verdict, AllocError>
    ensures nodes { nodes.new ≤ nodes.old + 4 * column_nodes 8 3 5 }
    ensures few { IfOk result (ListsNoMoreThan 16) }
{
    let indices = [1, 2, 3, 4, 5, 6, 7, 8];
    decide(
        alloc,
        &Koetter,
        &indices,
        b"abcabcabcabcabcabcabcabc",
        3,
        5,
        3,
        cols,
        nodes,
    )
}

/// The verdict on twenty equal answers, of which eight are to agree at degree 3. A list is made at most 9 times: each polynomial
/// misses two or more, so of 10 or 11 answers in 3 ways, of 12 or 13 in 2, and in one of 14, 16, 18, 20 and one more of each.
fn decided_among_twenty<C: Ledger, N: Ledger>(
    alloc: Global,
    cols: &mut Steps<C>,
    nodes: &mut Steps<N>,
) -> Result<Verdict, AllocError>
    ensures nodes { nodes.new ≤ nodes.old + 9 * column_nodes 20 3 8 }
    ensures few { IfOk result (ListsNoMoreThan 25) }
{
    let indices = [
        1, 2, 3, 4, 5, 6, 7, 8, 9, 10, 11, 12, 13, 14, 15, 16, 17, 18, 19, 20,
    ];
    decide(
        alloc,
        &Koetter,
        &indices,
        b"abababababababababababababababababababab",
        3,
        8,
        2,
        cols,
        nodes,
    )
}

/// Both, with counters made of the blanks.
fn counted_at_degree_three<C: Ledger, N: Ledger>(
    cols: Blank,
    nodes: Blank,
    alloc: Global,
) -> Result<(Verdict, Verdict), AllocError>
    requires cols { (cols.name ≡ C.name) × (cols.parts ≡ C.parts) × (0 < cols.parts) }
    requires nodes { (nodes.name ≡ N.name) × (nodes.parts ≡ N.parts) × (0 < nodes.parts) }
{
    let mut cols: Steps<C> = Steps::new(cols);
    let mut nodes: Steps<N> = Steps::new(nodes);
    let eight = decided_at_degree_three(alloc, &mut cols, &mut nodes)?;
    let twenty = decided_among_twenty(alloc, &mut cols, &mut nodes)?;
    Ok((eight, twenty))
}

#[test]
fn equal_answers_at_degree_three(rt: HostRuntime) -> Result<(), Fail> {
    let alloc = rt.alloc();
    let (eight, twenty) = counted_at_degree_three::<Brand, Brand>(
        Blank::new(1),
        Blank::new(1),
        alloc,
    )?;
    assert!(rt; is_written(alloc, &eight, b"blocks 1\n616263\n")?);
    assert!(rt; is_written(alloc, &twenty, b"blocks 1\n6162\n")?);
    Ok(())
}

/// The verdict on a session, with counters of columns and of nodes made of the blanks.
fn judged<C: Ledger, N: Ledger>(
    cols: Blank,
    nodes: Blank,
    alloc: Global,
    session: &Session,
) -> Result<Verdict, AllocError>
    requires cols { (cols.name ≡ C.name) × (cols.parts ≡ C.parts) × (0 < cols.parts) }
    requires nodes { (nodes.name ≡ N.name) × (nodes.parts ≡ N.parts) × (0 < nodes.parts) }
    requires all { length session.now.records ≡ session.now.params.n }
{
    let mut cols: Steps<C> = Steps::new(cols);
    let mut nodes: Steps<N> = Steps::new(nodes);
    judge(alloc, &Koetter, session, &mut cols, &mut nodes)
}

// Two servers of the XOR scheme, with session number 7 and two rows of two bytes.
const XOR_PAIR: SessionParams = SessionParams {
    version: 1,
    scheme: 2,
    t: 1,
    h: 2,
    n: 2,
    count: 1,
    session: 7,
    r: 2,
    s: 2,
};

/// The session, with the answers of both.
fn answered_pair(alloc: Global) -> Result<Session, AllocError>
    ensures { IfOk result (λ session. length session.records ≡ session.params.n) }
{
    let mut session = Session::new(alloc, XOR_PAIR)?;
    session.push_record(Some(b"PIRA\x01\x02\x01\0\0\0\0\0\0\0\0\x07\0\0\0\x02\0\0\0\x02\x41\x42"));
    session.push_record(Some(b"PIRA\x01\x02\x02\0\0\0\0\0\0\0\0\x07\0\0\0\x02\0\0\0\x02\x02\x06"));
    Ok(session)
}

/// Whether the verdict is written as this text.
fn is_written(alloc: Global, verdict: &Verdict, text: &[u8]) -> Result<bool, AllocError> {
    let mut ports = MemPorts::new(alloc, 5, &[], 0, 0)?;
    ports.room(alloc, Port::Output, 99)?;
    Ok(write_verdict(&mut ports, verdict).is_ok() && ports.seen(Port::Output) == text)
}

#[test]
fn a_session_is_judged_and_written(rt: HostRuntime) -> Result<(), Fail> {
    let alloc = rt.alloc();
    let session = answered_pair(alloc)?;
    let verdict = judged::<Brand, Brand>(Blank::new(1), Blank::new(1), alloc, &session)?;
    assert!(rt; is_written(alloc, &verdict, b"blocks 1\n4344\n")?);
    Ok(())
}
