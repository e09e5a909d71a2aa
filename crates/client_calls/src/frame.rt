//! The frame of a query: a header, and a vector for each block.

ghost use Rattle.std.specs.Prelude.{◌≡◌, ◌<◌, ◌≤◌, ◌*◌, length};
ghost use Rattle.wire_frames.specs.Header.{query_header};
ghost use Rattle.query_rounds.specs.Plan.{AreBlocks, need, query_params};
ghost use Rattle.query_rounds.specs.Sent.{header_to, payload_for, payload_to, queries_from, sent, session_number, vector_coins, vector_len};
ghost use Rattle.query_rounds.specs.declared.coins.TheConstants.{NUMBER_LEN};
ghost use Rattle.client_calls.specs.Asking.{IsAsking, query_size};

use crate::asking::Asking;
use byteorder::{BigEndian, ByteOrder};
use chor_xor::bitmap_into;
use query_rounds::{FetchPlan, NUMBER_LEN};
use shamir_share::query_into;
use wire_frames::{FRAME_HEADER_LEN, Scheme, write_query_header};

/// The number of the session: that in the first coins, highest first.
#[tactic(auto, unfolding(query_rounds::specs::Sent::session_number))]
fn session_number_of(coins: &[u8]) -> u64
    requires { NUMBER_LEN ≤ length coins.now }
    ensures { result ≡ session_number coins.now }
{
    BigEndian::read_u64(coins)
}

/// Writes the header of the query to server `index`, in the session that the coins number.
fn write_header(asking: &Asking, coins: &[u8], index: u8, out: &mut [u8; FRAME_HEADER_LEN])
    requires asking { IsAsking asking.now }
    requires coins { NUMBER_LEN ≤ length coins.now }
    requires index { 1 ≤ index }
    ensures { out.new ≡ query_header (header_to asking.now.plan asking.now.count coins.now index) }
{
    let params = asking.params(session_number_of(coins));
    write_query_header(&params.asked(index), out);
}

/// Writes the vector of the query to server `index` for a block, by the coins for it.
#[tactic(auto, unfolding(query_rounds::specs::Plan::query_coins, query_rounds::specs::Sent::payload_to))]
fn write_vector(asking: &Asking, index: u8, block: u32, coins: &[u8], out: &mut [u8])
    requires asking { IsAsking asking.now }
    requires first { 1 ≤ index }
    requires last { index ≤ asking.now.plan.n }
    requires block { block < asking.now.plan.r }
    requires coins { length coins.now ≡ vector_coins asking.now.plan }
    requires room { length out.old ≡ vector_len asking.now.plan }
    ensures { out.new ≡ payload_to (query_params asking.now.plan 1 0) coins.now block index }
{
    let FetchPlan { t, n, r, .. } = asking.plan;
    match asking.scheme {
        Scheme::Shamir => query_into(coins, u32::from(t), r, block, index, out),
        Scheme::Xor => bitmap_into(coins, u32::from(n), r, block, index, out),
    }
}

/// Writes the payload of the query to server `index`: a vector for each block, each by coins of its own.
fn write_payload(asking: &Asking, blocks: &[u32], coins: &[u8], index: u8, out: &mut [u8])
    requires asking { IsAsking asking.now }
    requires blocks { AreBlocks asking.now.plan blocks.now }
    requires coins { length coins.now ≡ length blocks.now * vector_coins asking.now.plan }
    requires first { 1 ≤ index }
    requires last { index ≤ asking.now.plan.n }
    requires room { length out.old ≡ length blocks.now * vector_len asking.now.plan }
    ensures { out.new ≡ payload_for (query_params asking.now.plan 1 0) coins.now blocks.now index }
{
    let own = asking.block_coins();
    let size = asking.scheme.payload_len(asking.plan.r);
    for i in 0..blocks.len() {
        let own_coins = &coins[i * own..(i + 1) * own];
        let vector = &mut out[i * size..(i + 1) * size];
        write_vector(asking, index, blocks[i], own_coins, vector);
    }
}

/// Writes the frame that server `index` is sent for these blocks, by these coins, as many as it takes.
pub(crate) fn write_frame(
    asking: &Asking,
    blocks: &[u32],
    coins: &[u8],
    index: u8,
    frame: &mut [u8],
)
    requires asking { IsAsking asking.now }
    requires blocks { AreBlocks asking.now.plan blocks.now }
    requires count { asking.now.count ≡ length blocks.now }
    requires coins { length coins.now ≡ need asking.now.plan (length blocks.now) }
    requires first { 1 ≤ index }
    requires last { index ≤ asking.now.plan.n }
    requires room { length frame.old ≡ query_size asking.now.plan (length blocks.now) }
    ensures { frame.new ≡ sent asking.now.plan blocks.now coins.now index }
{
    let Some((header, payload)) = frame.split_first_chunk_mut() else {
        unreachable!()
    };
    write_header(asking, coins, index, header);
    write_payload(asking, blocks, &coins[NUMBER_LEN..], index, payload);
}
