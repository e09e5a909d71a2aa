// Searches among three rows.

ghost use Rattle.std.specs.Prelude.{◌≡◌, ◌<◌, ◌≤◌, length, IfOk};
ghost use Rattle.key_search.specs.Standing.{turns_of};

use key_search::{Outcome, Search, read_key};
use std::alloc::Global;
use std::process::Abort;
use std::test::Fail;

const ROWS: [[u8; 2]; 3] = [[0x10, 0xaa], [0x20, 0xbb], [0x30, 0xcc]];

/// A search for the row that begins with the key.
fn search_for(alloc: Global, key: &str) -> Result<Search, Fail>
    ensures rows { IfOk result (λ s. s.rows ≡ 3) }
    ensures width { IfOk result (λ s. s.width ≡ 2) }
    ensures turn { IfOk result (λ s. s.turn ≡ 0) }
{
    let key = read_key(alloc, key, 2)?;
    Ok(Search::new(alloc, 3, 2, key)?)
}

/// Asserts that a search for the key asks for these rows, one a turn, and ends like that.
fn asks_for(
    rt: &impl Abort,
    alloc: Global,
    key: &str,
    asks: &[u32],
    want: Outcome,
) -> Result<(), Fail> {
    let mut search = search_for(alloc, key)?;
    assert!(rt; search.turns() as usize == asks.len());
    for row in asks {
        assert!(rt; search.ask() == *row);
        let told = ROWS[*row as usize];
        search.tell(Some(told.as_slice()));
    }
    assert!(rt; search.end() == want);
    Ok(())
}

#[test]
fn worked_searches(rt: HostRuntime) -> Result<(), Fail> {
    asks_for(&rt, rt.alloc(), "30", &[1, 2], Outcome::Found(&ROWS[2]))?;
    asks_for(&rt, rt.alloc(), "20", &[1, 0], Outcome::Found(&ROWS[1]))?;
    asks_for(&rt, rt.alloc(), "25", &[1, 2], Outcome::Absent)?;
    asks_for(&rt, rt.alloc(), "05", &[1, 0], Outcome::Absent)
}

#[test]
fn a_row_is_lost(rt: HostRuntime) -> Result<(), Fail> {
    let mut search = search_for(rt.alloc(), "20")?;
    assert!(rt; search.turns() == 2);
    search.tell(Some(ROWS[1].as_slice()));
    search.tell(None);
    assert!(rt; search.end() == Outcome::Lost);
    Ok(())
}
