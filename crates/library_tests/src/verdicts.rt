// What the answers agree on.
ghost use Rattle.std.specs.Prelude.{◌≤◌, length};

use block_decoder::Verdict;
use client_calls::{AGREES, Answers, LIED, PlanNumbers, judge_answers, judge_liars, write_listing};
use std::alloc::Global;
use std::test::Fail;

/// Four rows of one byte, of which so many answers have to agree.
fn plan_of(servers: u32, agreement: u32) -> PlanNumbers {
    PlanNumbers {
        scheme: 1,
        degree: 1,
        agreement,
        servers,
        tau: 0,
        rows: 4,
        width: 1,
    }
}

/// The answers of servers in session 7, each of one byte.
fn answers_of(alloc: Global, payloads: &[u8]) -> Result<Vec<u8>, Fail>
    requires { length payloads.now ≤ 6 }
{
    let mut bytes = Vec::new(alloc);
    for place in 0..payloads.len() {
        let index = (place + 1) as u8;
        bytes.extend_from_slice(b"PIRA")?;
        bytes.extend_from_slice(&[
            1, 1, index, 0, 0, 0, 0, 0, 0, 0, 0, 7, 0, 0, 0, 4, 0, 0, 0, 1,
        ])?;
        bytes.push(payloads[place])?;
    }
    Ok(bytes)
}

/// Whether the answers agree on exactly these blocks, of one byte each.
fn agree_on(alloc: Global, agreement: u32, payloads: &[u8], want: &[u8]) -> Result<bool, Fail>
    requires { length payloads.now ≤ 6 }
{
    let bytes = answers_of(alloc, payloads)?;
    let n = payloads.len();
    let answers = Answers {
        bytes: &bytes,
        lengths: &[25; 6][..n],
        marks: &[1; 6][..n],
    };
    let mut out = [0xff; 8];
    match judge_answers(alloc, &plan_of(n as u32, agreement), 1, 7, &answers) {
        Ok(Verdict::Listed(listing)) => match write_listing(&listing, &mut out) {
            Ok(size) => Ok(&out[..size] == want),
            Err(_) => Ok(false),
        },
        _ => Ok(false),
    }
}

#[test]
fn worked_verdicts(rt: HostRuntime) -> Result<(), Fail> {
    let six = [0x42, 0x41, 0x40, 0x4b, 0x49, 0x4f];
    assert!(rt; agree_on(rt.alloc(), 3, &six, &[0x43])?);
    assert!(rt; agree_on(rt.alloc(), 2, &[0, 1, 2], &[0x01, 0x07, 0xf6])?);
    Ok(())
}

/// Whether the fourth of four servers is called a liar.
fn calls_the_fourth(alloc: Global) -> Result<bool, Fail> {
    let bytes = answers_of(alloc, &[0x43, 0x43, 0x43, 0x44])?;
    let answers = Answers {
        bytes: &bytes,
        lengths: &[25; 4],
        marks: &[1; 4],
    };
    let mut who = [0xff; 4];
    match judge_liars(alloc, &plan_of(4, 3), 1, 7, &answers, &mut who) {
        Ok(_) => Ok(who == [AGREES, AGREES, AGREES, LIED]),
        Err(_) => Ok(false),
    }
}

#[test]
fn a_liar(rt: HostRuntime) -> Result<(), Fail> {
    assert!(rt; calls_the_fourth(rt.alloc())?);
    Ok(())
}
