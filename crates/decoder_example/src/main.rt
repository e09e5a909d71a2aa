//! An example for another program: five answers, two of which are wrong, and the blocks that three of them agree on.
//!
//! The payloads of servers 1, 3 and 5 lie on one polynomial of degree 1 in each column, whose constants are the block
//! `4344`. Nothing but the decoder is needed: [`decide`] takes the answers, the degree, how many have to agree and the
//! width, a way to interpolate, and two counters of its steps, and gives the verdict.
#![tactic(auto)]

ghost use Rattle.std.specs.Prelude.{◌≡◌, ◌<◌};

use anyhow::Result;
use block_decoder::{Verdict, decide};
use gs_interpolate::Koetter;
use std::alloc::{AllocError, Global};
use std::marker::Brand;
use std::sync::ledger::{Blank, Ledger};
use uni_poly::steps::Steps;

/// The servers that answered, ascending.
const SERVERS: [u8; 5] = [1, 2, 3, 4, 5];

/// Their payloads of two bytes, one behind another.
const PAYLOADS: [u8; 10] = [0xcf, 0xd2, 0x00, 0x11, 0xcc, 0xe5, 0x22, 0x33, 0xc9, 0xbc];

/// The verdict on these answers, of degree 1, where three have to agree. Its steps are counted in the blanks' ledgers.
fn judge<C: Ledger, N: Ledger>(
    alloc: Global,
    columns: Blank,
    nodes: Blank,
) -> Result<Verdict, AllocError>
    requires columns { (columns.name ≡ C.name) × (columns.parts ≡ C.parts) × (0 < columns.parts) }
    requires nodes { (nodes.name ≡ N.name) × (nodes.parts ≡ N.parts) × (0 < nodes.parts) }
{
    let mut columns: Steps<C> = Steps::new(columns);
    let mut nodes: Steps<N> = Steps::new(nodes);
    let (degree, agreement, width) = (1, 3, 2);
    decide(
        alloc,
        &Koetter,
        &SERVERS,
        &PAYLOADS,
        degree,
        agreement,
        width,
        &mut columns,
        &mut nodes,
    )
}

fn main(rt: HostRuntime) -> Result<()> {
    let alloc = rt.alloc();
    match judge::<Brand, Brand>(alloc, Blank::new(1), Blank::new(1))? {
        Verdict::Listed(listing) => {
            for block in listing.blocks() {
                println!(&rt; "{}", hex::encode(alloc, block)?)?;
            }
        }
        _ => println!(&rt; "too few answers, too weak an agreement, or too costly")?,
    }
    Ok(())
}
