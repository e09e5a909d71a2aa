//! The worked table of three keys, checked against what is said of it.
ghost use Rattle.list_checks.specs.Claims.{IsClaim};

use crate::worked::{SHA256_OF_KEYS as SHA256, TABLE_OF_KEYS as TABLE};
use list_checks::{CheckFault, Claim, Tally, check_database};
use pir_ports::{MemPorts, Port};
use std::alloc::{AllocError, Global};

/// What is said of the table, but for the number of entries and the SHA-256.
fn said(entries: u32, sha256: [u8; 32]) -> Claim
    ensures { IsClaim result }
{
    Claim {
        tag: [0x57, 0xc8, 0x3c, 0xd2, 0x9f, 0x54, 0x2f, 0xea],
        size: 8,
        most: 0,
        rows: 2,
        width: 26,
        entries,
        sha256,
    }
}

/// What a check of a file comes to, where the call with the number `fail` fails.
fn checked(
    alloc: Global,
    file: &[u8],
    claim: &Claim,
    fail: u8,
) -> Result<Result<Tally, CheckFault>, AllocError>
    requires { IsClaim claim.now }
{
    let mut ports = MemPorts::new(alloc, 7, &[u64::from(fail)], 1, 8)?;
    ports.put(alloc, Port::Database, file)?;
    Ok(check_database(alloc, &mut ports, "table", claim))
}

/// What a check of the table comes to with this byte at a place.
fn changed(alloc: Global, place: usize, byte: u8) -> Result<Result<Tally, CheckFault>, AllocError> {
    let mut file = TABLE;
    if place < file.len() {
        file[place] = byte;
    }
    checked(alloc, &file, &said(3, SHA256), 0)
}

#[test]
fn all_holds_of_the_table(rt: HostRuntime) -> Result<(), AllocError> {
    let tally = Tally {
        entries: 3,
        fullest: 2,
    };
    assert!(rt; checked(rt.alloc(), &TABLE, &said(3, SHA256), 0)? == Ok(tally));
    Ok(())
}

#[test]
fn the_first_row_that_is_none_is_told(rt: HostRuntime) -> Result<(), AllocError> {
    // The tag, the count, a byte behind the entry, and the tag of the second row.
    for (place, row) in [(0, 0), (9, 0), (25, 0), (26, 1)] {
        let refused = changed(rt.alloc(), place, 3)? == Err(CheckFault::NoRow { row });
        assert!(rt; refused, "place {place}");
    }
    Ok(())
}

#[test]
fn the_length_of_the_file_is_told(rt: HostRuntime) -> Result<(), AllocError> {
    let claim = said(3, SHA256);
    for size in [0usize, 25, 26, 51] {
        let bytes = size as u64;
        let short = checked(rt.alloc(), &TABLE[..size], &claim, 0)?
            == Err(CheckFault::TooShort { bytes });
        assert!(rt; short, "{size} bytes");
    }
    let mut longer = Vec::from_slice(rt.alloc(), &TABLE)?;
    longer.push(0)?;
    assert!(rt; checked(rt.alloc(), &longer, &claim, 0)? == Err(CheckFault::TooLong));
    Ok(())
}

#[test]
fn another_hash_and_other_entries_are_told(rt: HostRuntime) -> Result<(), AllocError> {
    assert!(rt; checked(rt.alloc(), &TABLE, &said(3, [0; 32]), 0)? == Err(CheckFault::OtherHash));
    for entries in [2, 4] {
        let other = checked(rt.alloc(), &TABLE, &said(entries, SHA256), 0)?;
        assert!(rt;
            other == Err(CheckFault::OtherEntries { entries: 3 }),
            "{entries} entries"
        );
    }
    Ok(())
}

#[test]
fn a_call_that_fails_is_told(rt: HostRuntime) -> Result<(), AllocError> {
    for fail in 1..=9 {
        let failed = checked(rt.alloc(), &TABLE, &said(3, SHA256), fail)?;
        assert!(rt; failed == Err(CheckFault::ReadFault), "call {fail}");
    }
    Ok(())
}
