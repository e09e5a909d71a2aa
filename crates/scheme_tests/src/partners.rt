// The coins of another block, from which a coalition is sent the same.
ghost use Rattle.std.specs.Prelude.{◌<◌};

use chor_xor::bitmap_into;
use privacy_law::{partner, partner_list, partner_xor, partner_xor_list};
use shamir_share::query_into;
use std::alloc::{AllocError, Global};

/// What server 2 of the worked example is sent.
fn sent_to_second(coins: [u8; 2], block: u32) -> [u8; 2]
    requires { block < 2 }
{
    let mut out = [0; 2];
    query_into(&coins, 1, 2, block, 2, &mut out);
    out
}

// The worked coins: `05 07` for block 1 and `88 8a` for block 0 are the same to server 2.
#[test]
fn worked_partner(rt: HostRuntime) -> Result<(), AllocError> {
    assert!(rt; sent_to_second([0x05, 0x07], 1) == [0x0a, 0x0f]);
    assert!(rt; sent_to_second([0x88, 0x8a], 0) == [0x0a, 0x0f]);
    let changed = partner(rt.alloc(), &[0x05, 0x07], 1, 2, &[2], 1, 0)?;
    assert!(rt; changed.as_slice() == [0x88, 0x8a].as_slice());
    Ok(())
}

// For blocks 1 and 0, and for blocks 0 and 1: server 2 is sent `0a0f 0304` for either.
#[test]
fn worked_partner_of_two_blocks(rt: HostRuntime) -> Result<(), AllocError> {
    assert!(rt; sent_to_second([0x01, 0x02], 0) == [0x03, 0x04]);
    assert!(rt; sent_to_second([0x8c, 0x8f], 1) == [0x03, 0x04]);
    let coins = [0x05, 0x07, 0x01, 0x02];
    let changed = partner_list(rt.alloc(), &coins, 1, 2, &[2], &[1, 0], &[0, 1])?;
    assert!(rt; changed.as_slice() == [0x88, 0x8a, 0x8c, 0x8f].as_slice());
    Ok(())
}

// The coins of one row are added to twice.
#[test]
fn one_block_keeps_the_coins(rt: HostRuntime) -> Result<(), AllocError> {
    let changed = partner(rt.alloc(), &[0x05, 0x07], 1, 2, &[2], 1, 1)?;
    assert!(rt; changed.as_slice() == [0x05, 0x07].as_slice());
    Ok(())
}

/// The bitmap of server 2 of the worked example.
fn bitmap_of_second(coin: u8, block: u32) -> [u8; 1]
    requires { block < 2 }
{
    let mut out = [0];
    bitmap_into(&[coin], 2, 2, block, 2, &mut out);
    out
}

// The worked coins: `80` for block 1 and `40` for block 0 are the same to server 2.
#[test]
fn worked_partner_of_bitmaps(rt: HostRuntime) -> Result<(), AllocError> {
    assert!(rt; bitmap_of_second(0x80, 1) == [0xc0]);
    assert!(rt; bitmap_of_second(0x40, 0) == [0xc0]);
    let changed = partner_xor(rt.alloc(), &[0x80], 2, 2, 1, 1, 0)?;
    assert!(rt; changed.as_slice() == [0x40].as_slice());
    Ok(())
}

#[test]
fn worked_partner_of_two_bitmaps(rt: HostRuntime) -> Result<(), AllocError> {
    let changed = partner_xor_list(rt.alloc(), &[0x80, 0x80], 2, 2, 1, &[1, 0], &[0, 1])?;
    assert!(rt; changed.as_slice() == [0x40, 0x40].as_slice());
    Ok(())
}

// Nobody else is sent anything of the block.
#[test]
fn coins_stay_where_the_last_is_left_out(rt: HostRuntime) -> Result<(), AllocError> {
    let changed = partner_xor(rt.alloc(), &[0x80], 2, 2, 2, 1, 0)?;
    assert!(rt; changed.as_slice() == [0x80].as_slice());
    Ok(())
}
