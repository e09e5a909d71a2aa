//! The command `selfrun`.

ghost use Rattle.std.specs.Prelude.{◌≡◌, ◌≤◌, ◌++◌, string_bytes, IfOk};
ghost use Rattle.std.specs.List.{concat};
ghost use Rattle.port_trait.specs.Number.{OUTPUT};
ghost use Rattle.port_trait.specs.Moves.{Touches};
ghost use Rattle.port_trait.specs.Written.{Written};
ghost use Rattle.block_decoder.specs.Text.{text};
ghost use Rattle.commands.specs.SelfrunOutcome.{IsStrong, IsVerdictOn, SelfrunEnds, ending};
ghost use Rattle.commands.specs.SelfrunOutcome.{line_of_numbers, numbers_line, words_of_decoding, words_of_servers};

use crate::report::status_by;
use crate::status::Status;
use block_decoder::{Verdict, bound, write_verdict};
use column_lists::plan;
use drawn_workload::{Workload, WorkloadOrder, judge_answers};
use port_trait::{Failed, Port, Ports, write_all};
use std::alloc::{AllocError, Global};
use std::thread::Threads;

/// Judges the answers of a workload. Where enough of its servers are honest, the row that is asked for is found.
fn judge_workload<R: Threads + Sync>(
    rt: &R,
    alloc: Global,
    order: &WorkloadOrder,
) -> Result<Verdict, AllocError>
    ensures { IfOk result (IsVerdictOn order.now.load) }
{
    // A use of a field tells the proof that the numbers are in their ranges.
    let _ = &order.load;
    judge_answers(rt, alloc, order)
}

/// The numbers of the servers, each behind its name.
fn format_servers(alloc: Global, load: &Workload) -> Result<String, AllocError>
    ensures { IfOk result (λ text. string_bytes text ≡ concat (words_of_servers load.now)) }
{
    let n = load.servers;
    let t = load.degree;
    let h = load.agree;
    format!(in alloc; "selfrun n {n} k {n} t {t} h {h}")
}

/// How many of them lie, and two numbers of the decoder.
fn format_decoding(
    alloc: Global,
    load: &Workload,
    cost: u64,
    bound: u32,
) -> Result<String, AllocError>
    ensures { IfOk result (λ text. string_bytes text ≡ concat (words_of_decoding load.now cost bound)) }
{
    let liars = load.liars;
    format!(in alloc; " liars {liars} cost {cost} bound {bound}\n")
}

/// The line of the numbers.
fn format_line(alloc: Global, load: &Workload, cost: u64, bound: u32) -> Result<String, AllocError>
    ensures { IfOk result (λ line. string_bytes line ≡ numbers_line load.now cost bound) }
{
    let mut line = format_servers(alloc, load)?;
    line.push_str(&format_decoding(alloc, load, cost, bound)?)?;
    Ok(line)
}

/// The same of a workload whose agreement is strong enough to list blocks.
fn format_numbers(alloc: Global, order: &WorkloadOrder) -> Result<String, AllocError>
    requires { IsStrong order.now.load }
    ensures { IfOk result (λ line. string_bytes line ≡ line_of_numbers order.now.load) }
{
    let load = &order.load;
    let n = u32::from(load.servers);
    let t = u32::from(load.degree);
    let h = u32::from(load.agree);
    format_line(alloc, load, plan(n, t, h).cost, bound(n, t, h))
}

/// What follows the text of the verdict: the line of the numbers where it lists blocks, also none, and nothing else.
fn format_ending(
    alloc: Global,
    order: &WorkloadOrder,
    verdict: &Verdict,
) -> Result<String, AllocError>
    requires { IsVerdictOn order.now.load verdict.now }
    ensures { IfOk result (λ text. string_bytes text ≡ ending order.now.load verdict.now) }
{
    match verdict {
        Verdict::Listed(_) => format_numbers(alloc, order),
        _ => Ok(String::new(alloc)),
    }
}

/// Writes the text of the verdict, and then the ending.
fn write_report<P: Ports>(ports: &mut P, verdict: &Verdict, ending: &str) -> Result<(), Failed>
    ensures written { Written OUTPUT (text verdict.now ++ ending.now) result (P.world ports.old) (P.world ports.new) }
    ensures others { Touches OUTPUT (P.world ports.old) (P.world ports.new) }
{
    write_verdict(ports, verdict)?;
    if ending.is_empty() {
        return Ok(());
    }
    write_all(ports, Port::Output, ending.as_bytes())
}

/// Runs the servers of a workload in memory, judges their answers, and writes the text of the verdict, and after a
/// listing the line of the numbers. Nothing is written until all of it is there.
pub(crate) fn run_workload<R: Threads + Sync, P: Ports>(
    rt: &R,
    alloc: Global,
    order: &WorkloadOrder,
    ports: &mut P,
) -> Status
    ensures ends { SelfrunEnds order.now.load result (P.world ports.old) (P.world ports.new) }
    ensures others { Touches OUTPUT (P.world ports.old) (P.world ports.new) }
{
    let Ok(verdict) = judge_workload(rt, alloc, order) else {
        return Status::Memory;
    };
    let Ok(ending) = format_ending(alloc, order, &verdict) else {
        return Status::Memory;
    };
    match write_report(ports, &verdict, &ending) {
        Ok(()) => status_by(&verdict),
        Err(Failed) => Status::WriteFault,
    }
}
