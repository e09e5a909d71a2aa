//! The servers of a workload, in memory.

ghost use Rattle.std.specs.Prelude.{◌≡◌, ◌+◌, ◌*◌, ◌≤◌, [], ◌∷◌, ◌++◌, length, take, drop, vec_len, IfOk, OnOk};
ghost use Rattle.std.specs.List.{range_with_len};
ghost use Rattle.drawn_workload.specs.Servers.{HasAnswered, IsRoomFor, answers_in, payloads_len, servers_of};
ghost use Rattle.drawn_workload.specs.Workload.{all_answers, honest_payload, payload};

use crate::order::{NUMBER_LEN, Workload, WorkloadOrder};
use crate::stream::draw;
use block_decoder::ServerAnswers;
use block_matrix::Matrix;
use server_product::{OpenGate, product_into};
use shamir_share::query_into;
use std::alloc::{AllocError, Global};
use std::marker::Model;
use std::thread::Threads;

/// The servers of a workload, with what is drawn for them. Contracts see the workload and the number of workers.
#[derive(Drop)]
struct Servers {
    load: Workload,
    workers: u8,
    matrix: Matrix,
    coins: Vec<u8>,
    // The payloads of the liars, one after another.
    lies: Vec<u8>,
}

impl Model for Servers {
    ghost use Rattle.drawn_workload.specs.WorkloadOrder.{IsRunnable};
    ghost use Rattle.drawn_workload.specs.Servers.{IsDrawn, Servers};

    ghost Value = { Servers };

    ghost view = { λ s. record { load = s.load; workers = s.workers } };

    ghost invariant = { λ s. IsRunnable s.load s.workers × IsDrawn s.load s.matrix s.coins.items s.lies.items };
}

impl Servers {
    /// Draws the database, the number of the session, the coins and the lies, one after the other. They are drawn at
    /// once, and then parted; the database stays where it was drawn to.
    fn draw(alloc: Global, order: &WorkloadOrder) -> Result<Servers, AllocError>
        ensures { IfOk result (λ servers. servers ≡ servers_of order.now) }
    {
        let load = order.load;
        let width = load.width as usize;
        let cells = load.rows as usize * width;
        let tosses = load.rows as usize * usize::from(load.degree);
        let lying = usize::from(load.liars) * width;
        let mut database = draw(alloc, load.seed, cells + NUMBER_LEN + tosses + lying)?;
        let mut coins = database.split_off(cells + NUMBER_LEN)?;
        let lies = coins.split_off(tosses)?;
        database.truncate(cells);
        let Ok(matrix) = Matrix::from_bytes(alloc, database, load.width) else {
            return Err(AllocError);
        };
        Ok(Servers {
            load,
            workers: order.workers,
            matrix,
            coins,
            lies,
        })
    }

    /// Writes what an honest server answers: the product of the query that it is sent, and the database.
    fn answer_honestly<R: Threads + Sync>(
        &self,
        rt: &R,
        index: u8,
        query: &mut [u8],
        scratch: &mut [u8],
        out: &mut [u8],
    )
        requires index { 1 ≤ index }
        requires query { length query.old ≡ self.now.load.rows }
        requires scratch { length scratch.old ≡ self.now.workers * self.now.load.width }
        requires room { length out.old ≡ self.now.load.width }
        ensures { out.new ≡ honest_payload self.now.load index }
    {
        let load = self.load;
        let block = (load.seed % u64::from(load.rows)) as u32;
        let degree = u32::from(load.degree);
        query_into(&self.coins, degree, load.rows, block, index, query);
        product_into(
            rt,
            &self.matrix,
            query,
            self.workers,
            scratch,
            &OpenGate,
            out,
        );
    }

    /// Writes what a server answers.
    fn answer_into<R: Threads + Sync>(
        &self,
        rt: &R,
        index: u8,
        query: &mut [u8],
        scratch: &mut [u8],
        out: &mut [u8],
    )
        requires index { 1 ≤ index }
        requires server { index ≤ self.now.load.servers }
        requires query { length query.old ≡ self.now.load.rows }
        requires scratch { length scratch.old ≡ self.now.workers * self.now.load.width }
        requires room { length out.old ≡ self.now.load.width }
        ensures { out.new ≡ payload self.now.load index }
    {
        let load = self.load;
        let honest = load.servers - load.liars;
        if index <= honest {
            self.answer_honestly(rt, index, query, scratch, out);
            return;
        }
        let liar = usize::from(index - honest - 1);
        out.copy_from_slice(payload_at(&self.lies, load.width as usize, liar));
    }

    /// Answers as each server does, one after the other in the same room.
    fn answer_each<R: Threads + Sync>(
        &self,
        rt: &R,
        alloc: Global,
        room: &mut Room,
    ) -> Result<ServerAnswers, AllocError>
        requires room { IsRoomFor self.now (vec_len room.old.query) (vec_len room.old.sums) (vec_len room.old.answer) }
        ensures { IfOk result (HasAnswered self.now.load self.now.load.servers) }
    {
        let mut answers = no_answers(alloc, self.load)?;
        'servers: for place in 0..self.load.servers {
            let index = place + 1;
            self.answer_into(rt, index, &mut room.query, &mut room.sums, &mut room.answer);
            append_answer(&mut answers, index, &room.answer)?;
        }
        Ok(answers)
    }
}

/// The memory in which the servers answer, one after the other: for the query that a server is sent, for the sums of its
/// workers, and for its answer.
#[derive(Drop)]
struct Room {
    query: Vec<u8>,
    sums: Vec<u8>,
    answer: Vec<u8>,
}

impl Room {
    /// Takes as much as each server of a workload needs.
    fn for_order(alloc: Global, order: &WorkloadOrder) -> Result<Room, AllocError>
        ensures { IfOk result (λ room.
            IsRoomFor (servers_of order.now) (vec_len room.query) (vec_len room.sums) (vec_len room.answer)) }
    {
        let width = order.load.width as usize;
        Ok(Room {
            query: vec![in alloc; 0; order.load.rows as usize]?,
            sums: vec![in alloc; 0; usize::from(order.workers) * width]?,
            answer: vec![in alloc; 0; width]?,
        })
    }
}

/// No answers yet, with room for those of all servers.
fn no_answers(alloc: Global, load: Workload) -> Result<ServerAnswers, AllocError>
    ensures { IfOk result (HasAnswered load 0) }
{
    let count = usize::from(load.servers);
    Ok(ServerAnswers {
        indices: Vec::with_capacity(alloc, count)?,
        payloads: Vec::with_capacity(alloc, count * load.width as usize)?,
    })
}

/// Puts a server's answer behind those of the servers before it.
fn append_answer(answers: &mut ServerAnswers, index: u8, payload: &[u8]) -> Result<(), AllocError>
    ensures indices { OnOk result (answers.new.indices.items ≡ answers.old.indices.items ++ index ∷ []) }
    ensures payloads { OnOk result (answers.new.payloads.items ≡ answers.old.payloads.items ++ payload.now) }
{
    answers.indices.push(index)?;
    answers.payloads.extend_from_slice(payload)
}

/// The payload at a place, counted from 0, among those that lie one after another.
fn payload_at(payloads: &[u8], width: usize, place: usize) -> &[u8]
    requires { place * width + width ≤ length payloads.now }
    ensures { result.now ≡ take width (drop (place * width) payloads.now) }
{
    &payloads[place * width..place * width + width]
}

/// Draws a workload, and answers as all its servers do, the honest ones by so many workers: the index of each server, from
/// 1 on, and their payloads one after another, each of as many bytes as a row has.
///
/// # Errors
///
/// `AllocError` where there is no memory for what is drawn, for a query, for the sums of the workers or for the
/// answers.
pub fn answer_all<R: Threads + Sync>(
    rt: &R,
    alloc: Global,
    order: &WorkloadOrder,
) -> Result<ServerAnswers, AllocError>
    ensures indices { IfOk result (λ all. all.indices.items ≡ range_with_len 1 order.now.load.servers) }
    ensures size { IfOk result (λ all. vec_len all.payloads ≡ payloads_len order.now.load) }
    ensures answers { IfOk result (λ all. answers_in order.now.load all ≡ all_answers order.now.load) }
{
    let servers = Servers::draw(alloc, order)?;
    let mut room = Room::for_order(alloc, order)?;
    servers.answer_each(rt, alloc, &mut room)
}
