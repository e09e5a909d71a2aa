//! A workload by its numbers, and what is to be done with it.

use std::marker::Model;

/// How many bytes the number of a session takes in the stream, as in the header of a query.
pub(crate) const NUMBER_LEN: usize = 8;

/// The numbers of a workload. All that is drawn comes from the seed: a database of so many rows, each of so many bytes;
/// the coins of a fetch of degree `degree` from that many servers, of which `agree` have to agree; and what `liars` of
/// the servers, the last ones, answer. The block that is asked for is the seed modulo the number of rows.
#[derive(Clone, Copy)]
pub struct Workload {
    /// The seed of the stream.
    pub seed: u64,
    /// How many rows the database has.
    pub rows: u32,
    /// How many bytes a row has, and so an answer.
    pub width: u32,
    /// How many servers there are.
    pub servers: u8,
    /// The degree of the polynomials whose values the servers are sent.
    pub degree: u8,
    /// How many servers have to agree on a block.
    pub agree: u8,
    /// How many of the servers lie.
    pub liars: u8,
}

/// A workload, how many workers sum its rows, and whether the decoder interpolates by elimination, which is the slower
/// way to the same lists.
///
/// The numbers of the workload are those of a session of Shamir's scheme, at most all of its servers lie, and there are
/// from 1 to [`MOST_WORKERS`](wire_frames::MOST_WORKERS) workers.
#[derive(Drop)]
pub struct WorkloadOrder {
    /// The numbers of the workload.
    pub load: Workload,
    /// How many workers sum the rows of each server.
    pub workers: u8,
    /// Whether the decoder interpolates by elimination.
    pub slow: bool,
}

impl Model for WorkloadOrder {
    ghost use Rattle.drawn_workload.specs.WorkloadOrder.{IsRunnable, WorkloadOrder};

    ghost Value = { WorkloadOrder };

    ghost view = { λ o. record { load = o.load; workers = o.workers; slow = o.slow } };

    ghost invariant = { λ o. IsRunnable o.load o.workers };
}
