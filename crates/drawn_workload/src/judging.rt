//! The verdict on a workload.

ghost use Rattle.std.specs.Prelude.{IfOk};
ghost use Rattle.drawn_workload.specs.Counters.{IsOwn};
ghost use Rattle.drawn_workload.specs.Judged.{IsDecidedOn};

use crate::order::WorkloadOrder;
use crate::servers::answer_all;
use block_decoder::{Verdict, decide};
use gs_interpolate::{Elimination, Koetter};
use interpolation::Interpolate;
use std::alloc::{AllocError, Global};
use std::marker::Brand;
use std::sync::ledger::{Blank, Ledger};
use std::thread::Threads;
use uni_poly::steps::Steps;

/// Judges the answers of a workload by a way to interpolate, with counters of columns and of nodes that nobody reads,
/// made of the blanks.
fn judge_uncounted<I: Interpolate, C: Ledger, N: Ledger, R: Threads + Sync>(
    rt: &R,
    alloc: Global,
    way: &I,
    cols: Blank,
    nodes: Blank,
    order: &WorkloadOrder,
) -> Result<Verdict, AllocError>
    requires cols { IsOwn cols C.name C.parts }
    requires nodes { IsOwn nodes N.name N.parts }
    ensures { IfOk result (IsDecidedOn order.now.load) }
{
    let load = order.load;
    let answers = answer_all(rt, alloc, order)?;
    let mut cols: Steps<C> = Steps::new(cols);
    let mut nodes: Steps<N> = Steps::new(nodes);
    decide(
        alloc,
        way,
        &answers.indices,
        &answers.payloads,
        u32::from(load.degree),
        u32::from(load.agree),
        load.width,
        &mut cols,
        &mut nodes,
    )
}

/// Draws a workload, answers as all its servers do, and judges the answers by Koetter's algorithm, or by elimination
/// where the slower way is ordered.
///
/// # Errors
///
/// `AllocError` where there is no memory for the answers or for the verdict on them.
pub fn judge_answers<R: Threads + Sync>(
    rt: &R,
    alloc: Global,
    order: &WorkloadOrder,
) -> Result<Verdict, AllocError>
    ensures { IfOk result (IsDecidedOn order.now.load) }
{
    let (cols, nodes) = (Blank::new(1), Blank::new(1));
    if order.slow {
        judge_uncounted::<Elimination, Brand, Brand, R>(rt, alloc, &Elimination, cols, nodes, order)
    } else {
        judge_uncounted::<Koetter, Brand, Brand, R>(rt, alloc, &Koetter, cols, nodes, order)
    }
}
