//! The words of a replay, read and run, and what a status is to the system.

use pir_ports::{MemPorts, Port};
use pir_tool::{Status, code, ending_of_run, line, run};
use pir_words::{Asked, WordsFault, read_words};
use share_files::SplitFault;
use std::alloc::{AllocError, Global};
use std::test::Fail;

// Degree 1, agreement 2, session number 7, two rows of two bytes; no server answered.
const SESSION: &[u8; 40] =
    b"PIRS\x01\x01\x01\x02\x02\0\0\0\0\0\0\0\0\0\0\x07\0\0\0\x02\0\0\0\x02\x01\0\0\0\0\0\x02\0\0\0\0\0";

/// The words of a replay of standard input.
fn replay_words(alloc: Global) -> Result<Vec<String>, AllocError> {
    let mut words = Vec::new(alloc);
    words.push(String::from_str(alloc, "replay")?)?;
    words.push(String::from_str(alloc, "-")?)?;
    Ok(words)
}

#[test]
fn a_session_is_replayed(rt: HostRuntime) -> Result<(), Fail> {
    let words = replay_words(rt.alloc())?;
    let mut ports = MemPorts::new(rt.alloc(), 1000, &[], 1, 1)?;
    ports.put(rt.alloc(), Port::Input, SESSION)?;
    ports.room(rt.alloc(), Port::Output, 12)?;
    let status = run(&rt, rt.alloc(), &words, &mut ports);
    assert!(rt; status == Status::TooFew { k: 0, h: 2 });
    assert!(rt; ports.seen(Port::Output) == b"too few 0 2\n".as_slice());
    Ok(())
}

#[test]
fn a_run_ends_with_the_line_of_its_status(rt: HostRuntime) -> Result<(), Fail> {
    let mut ports = MemPorts::new(rt.alloc(), 1000, &[], 1, 1)?;
    let (status, ending) = ending_of_run(&rt, rt.alloc(), &[], &mut ports);
    assert!(rt; status == Status::Usage && ending.line == "pir: usage");
    Ok(())
}

#[test]
fn words_ask_for_a_replay(rt: HostRuntime) -> Result<(), Fail> {
    let words = replay_words(rt.alloc())?;
    let asked = read_words(rt.alloc(), &words);
    assert!(rt;
        matches!(&asked, Ok(Asked::Replay { file, report: false }) if file.as_str() == "-")
    );
    Ok(())
}

#[test]
fn a_status_has_a_code_and_a_line(rt: HostRuntime) {
    assert!(rt; code(&Status::NoBlock) == 3);
    assert!(rt; line(&Status::Usage) == "pir: usage");
}

#[test]
fn faults_of_words_have_texts(rt: HostRuntime) -> Result<(), Fail> {
    for (fault, text) in [
        (WordsFault::Usage, "the words have no form"),
        (WordsFault::Memory, "no memory"),
    ] {
        assert!(rt; format!(in rt.alloc(); "{fault}")?.as_str() == text);
    }
    Ok(())
}

#[test]
fn faults_of_a_split_have_texts(rt: HostRuntime) -> Result<(), Fail> {
    for (fault, text) in [
        (SplitFault::CoinsFault, "a call on the coins failed"),
        (
            SplitFault::CoinsEnded { taken: 9 },
            "the coins ended after 9 bytes",
        ),
        (
            SplitFault::ShareFault,
            "a call on the file of a share failed",
        ),
        (SplitFault::Memory, "no memory"),
    ] {
        assert!(rt; format!(in rt.alloc(); "{fault}")?.as_str() == text);
    }
    Ok(())
}
