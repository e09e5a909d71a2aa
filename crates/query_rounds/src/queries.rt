//! What each server is sent.

ghost use Rattle.std.specs.Prelude.{◌≡◌, ◌*◌, ◌<◌, ◌≤◌, length, map, string_bytes, IfOk};
ghost use Rattle.port_trait.specs.Number.{COINS};
ghost use Rattle.port_trait.specs.Moves.{Touches};
ghost use Rattle.quantity_limits.specs.declared.TheConstants.{MOST_BLOCKS, MOST_SERVERS};
ghost use Rattle.wire_frames.specs.Limits.{IsInRange};
ghost use Rattle.query_rounds.specs.Plan.{AreBlocks, IsPlan, params_of, query_params};
ghost use Rattle.query_rounds.specs.Queries.{request_of};
ghost use Rattle.query_rounds.specs.Request.{request};
ghost use Rattle.query_rounds.specs.Sent.{address_at, frame_len, header_of, payload_of, payload_to, queries_from};
ghost use Rattle.query_rounds.specs.Sent.{reply_len, sent, session_number, vector_coins, vector_len};
ghost use Rattle.query_rounds.specs.Tossed.{TakesOwnCoins};

use crate::coins::{NUMBER_LEN, session_number_of, take_coins};
use crate::plan::{FetchFault, FetchPlan};
use chor_xor::bitmap_into;
use port_trait::Ports;
use shamir_share::query_into;
use std::alloc::{AllocError, Global};
use std::marker::Model;
use wire_frames::{
    FRAME_HEADER_LEN, Scheme, SessionParams, answer_len, query_len, write_query_header,
};

/// What the servers are asked: a plan, its scheme, the blocks, the address of each server, and the coins for them, which are zeros
/// until they are taken.
pub struct Queries<'a> {
    plan: FetchPlan,
    scheme: Scheme,
    blocks: &'a [u32],
    addresses: &'a [String],
    coins: Vec<u8>,
}

impl<'a> Model for Queries<'a> {
    ghost use Rattle.std.specs.Prelude.{map, string_bytes};
    ghost use Rattle.query_rounds.specs.Queries.{Queries, AreQueries};

    ghost Value = { Queries };

    ghost view = { λ q. record {
      plan = q.plan;
      blocks = q.blocks.now;
      addresses = map string_bytes q.addresses.now;
      coins = q.coins.items;
    } };

    ghost invariant = { λ q. AreQueries (record {
      plan = q.plan;
      blocks = q.blocks.now;
      addresses = map string_bytes q.addresses.now;
      coins = q.coins.items;
    }) q.scheme };
}

impl<'a> Drop for Queries<'a> {
    /// Clears the coins, so that they aren't left in memory.
    fn drop(self) {
        let Queries {
            plan: _,
            scheme: _,
            blocks: _,
            addresses: _,
            mut coins,
        } = self;
        coins.fill(0);
    }
}

impl<'a> Queries<'a> {
    /// Room for the coins of a plan, for these blocks, of which the servers with these addresses are asked.
    ///
    /// # Errors
    ///
    /// `AllocError` for want of memory.
    pub(crate) fn with_room(
        alloc: Global,
        plan: &FetchPlan,
        blocks: &'a [u32],
        addresses: &'a [String],
    ) -> Result<Queries<'a>, AllocError>
        requires plan { IsPlan plan.now }
        requires blocks { AreBlocks plan.now blocks.now }
        requires addresses { length addresses.now ≡ plan.now.n }
        ensures { IfOk result (λ q. request_of q ≡ request plan.now blocks.now (map string_bytes addresses.now)) }
    {
        let scheme = plan.scheme();
        Ok(Queries {
            plan: *plan,
            scheme,
            blocks,
            addresses,
            coins: vec![in alloc; 0; plan.coins_len(scheme, blocks.len() as u8)]?,
        })
    }

    /// Takes the coins from Coins, which is open.
    ///
    /// # Errors
    ///
    /// `CoinsFault` and `CoinsEnded`, as [`take_coins`].
    pub(crate) fn take_coins<P: Ports>(&mut self, ports: &mut P) -> Result<(), FetchFault>
        ensures request { request_of self.new ≡ request_of self.old }
        ensures taken { TakesOwnCoins self.new result (P.world ports.old) (P.world ports.new) }
        ensures others { Touches COINS (P.world ports.old) (P.world ports.new) }
    {
        take_coins(ports, &mut self.coins)
    }

    /// The plan by which they are asked.
    pub fn plan(&self) -> FetchPlan
        ensures is { result ≡ self.now.plan }
        ensures is_plan { IsPlan self.now.plan }
    {
        self.plan
    }

    /// The number of servers.
    pub(crate) fn servers(&self) -> u8
        ensures is { result ≡ self.now.plan.n }
        ensures few { result ≤ MOST_SERVERS }
    {
        self.plan.n
    }

    /// The address of the server at a place, counted from 0.
    pub(crate) fn address(&self, place: u8) -> &str
        requires { place < self.now.plan.n }
        ensures { result.now ≡ address_at self.now place }
    {
        &self.addresses[usize::from(place)]
    }

    /// The rows that are asked for.
    pub fn blocks(&self) -> &[u32]
        ensures is { result.now ≡ self.now.blocks }
        ensures may_be_asked { AreBlocks self.now.plan self.now.blocks }
    {
        self.blocks
    }

    /// How many they are.
    pub(crate) fn count(&self) -> u8
        ensures is { result ≡ length self.now.blocks }
        ensures some { 1 ≤ result }
        ensures few { result ≤ MOST_BLOCKS }
    {
        self.blocks.len() as u8
    }

    /// The numbers of the session, but for its number, which is 0.
    pub(crate) fn params(&self) -> SessionParams
        ensures is { result ≡ params_of self.now.plan (length self.now.blocks) 0 }
        ensures range { IsInRange (params_of self.now.plan (length self.now.blocks) 0) }
    {
        self.plan.params(self.count())
    }

    /// The number of the session.
    pub(crate) fn session_number(&self) -> u64
        ensures { result ≡ session_number self.now.coins }
    {
        session_number_of(&self.coins)
    }

    /// The coins behind the number of the session.
    pub fn query_coins(&self) -> &[u8]
        ensures is { result.now ≡ queries_from self.now.coins }
        ensures size { length (queries_from self.now.coins) ≡ length self.now.blocks * vector_coins self.now.plan }
    {
        &self.coins[NUMBER_LEN..]
    }

    /// How many bytes the frame has that a server is sent.
    pub(crate) fn frame_len(&self) -> usize
        ensures { result ≡ frame_len (request_of self.now) }
    {
        query_len(self.scheme, self.count(), self.plan.r)
    }

    /// How many bytes a server answers, at most.
    pub(crate) fn answer_len(&self) -> usize
        ensures { result ≡ reply_len (request_of self.now) }
    {
        answer_len(self.count(), self.plan.s)
    }

    /// Writes the header of the query to server `index`.
    fn write_header(&self, index: u8, out: &mut [u8; FRAME_HEADER_LEN])
        requires { 1 ≤ index }
        ensures { out.new ≡ header_of self.now index }
    {
        let params = SessionParams {
            session: self.session_number(),
            ..self.params()
        };
        write_query_header(&params.asked(index), out);
    }

    /// Writes the vector of the query to server `index` for a block, by the coins for it.
    #[tactic(auto, unfolding(crate::specs::Plan::query_coins, crate::specs::Sent::payload_to))]
    fn write_vector(&self, index: u8, block: u32, coins: &[u8], out: &mut [u8])
        requires first { 1 ≤ index }
        requires last { index ≤ self.now.plan.n }
        requires block { block < self.now.plan.r }
        requires coins { length coins.now ≡ vector_coins self.now.plan }
        requires room { length out.old ≡ vector_len self.now.plan }
        ensures { out.new ≡ payload_to (query_params self.now.plan 1 0) coins.now block index }
    {
        let FetchPlan { t, n, r, .. } = self.plan;
        match self.scheme {
            Scheme::Shamir => query_into(coins, u32::from(t), r, block, index, out),
            Scheme::Xor => bitmap_into(coins, u32::from(n), r, block, index, out),
        }
    }

    /// Writes the payload of the query to server `index`: a vector for each block.
    fn write_payload(&self, index: u8, out: &mut [u8])
        requires first { 1 ≤ index }
        requires last { index ≤ self.now.plan.n }
        requires room { length out.old ≡ length self.now.blocks * vector_len self.now.plan }
        ensures { out.new ≡ payload_of self.now index }
    {
        let coins = self.query_coins();
        let own = self.plan.query_coins(self.scheme);
        let size = self.scheme.payload_len(self.plan.r);
        for i in 0..usize::from(self.count()) {
            let own_coins = &coins[i * own..(i + 1) * own];
            let vector = &mut out[i * size..(i + 1) * size];
            self.write_vector(index, self.blocks[i], own_coins, vector);
        }
    }

    /// Writes the frame that server `index` is sent.
    pub(crate) fn write_frame(&self, index: u8, frame: &mut [u8])
        requires first { 1 ≤ index }
        requires last { index ≤ self.now.plan.n }
        requires room { length frame.old ≡ frame_len (request_of self.now) }
        ensures { frame.new ≡ sent self.now.plan self.now.blocks self.now.coins index }
    {
        let Some((header, payload)) = frame.split_first_chunk_mut() else {
            unreachable!()
        };
        self.write_header(index, header);
        self.write_payload(index, payload);
    }
}
