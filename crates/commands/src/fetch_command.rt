//! The command `fetch`.

ghost use Rattle.std.specs.Prelude.{◌≡◌, ◌<◌, length};
ghost use Rattle.std.specs.Option.{option_copied};
ghost use Rattle.port_trait.specs.Number.{RECORD};
ghost use Rattle.port_trait.specs.Moves.{Touches};
ghost use Rattle.wire_frames.specs.Session.{Transcript};
ghost use Rattle.block_decoder.specs.Report.{Agreement};
ghost use Rattle.query_rounds.specs.Gathered.{TouchesLinks};
ghost use Rattle.drawn_workload.specs.Counters.{IsOwn};
ghost use Rattle.commands.specs.FetchOutcome.{FetchEnds, FetchesBeside, Keeps, Reports, TouchesFetch, TouchesFiles};
ghost use Rattle.commands.specs.FetchOutcome.{with_none};
ghost use Rattle.commands.specs.Said.{IsReportOf};

use crate::orders::FetchOrder;
use crate::report::report_whole;
use crate::status::Status;
use block_decoder::{Report, Verdict};
use fetch_client::{FetchFault, fetch, fetch_report};
use gs_interpolate::Koetter;
use port_trait::{Failed, Port, Ports};
use std::alloc::Global;
use std::marker::Brand;
use std::sync::ledger::{Blank, Ledger};
use uni_poly::steps::Steps;
use wire_frames::{Session, write_session};

/// What a fetch answered, with no report.
fn without_report(
    fetched: Result<(Session, Verdict), FetchFault>,
) -> Result<(Session, Verdict, Option<Report>), FetchFault>
    ensures { result ≡ with_none fetched }
{
    match fetched {
        Ok((session, verdict)) => Ok((session, verdict, None)),
        Err(fault) => Err(fault),
    }
}

/// Fetches the blocks, with a report where one is wanted, and counts the columns and the nodes of its decoding.
fn fetch_counted<C: Ledger, N: Ledger, P: Ports>(
    alloc: Global,
    order: &FetchOrder,
    ports: &mut P,
    cols: &mut Steps<C>,
    nodes: &mut Steps<N>,
) -> Result<(Session, Verdict, Option<Report>), FetchFault>
    ensures fetched { FetchesBeside order.now result (P.world ports.old) (P.world ports.new) }
    ensures others { TouchesLinks order.now.plan.n (P.world ports.old) (P.world ports.new) }
{
    let (plan, blocks, addresses) = (&order.plan, order.blocks, order.addresses);
    if order.report {
        fetch_report(alloc, &Koetter, plan, blocks, addresses, ports, cols, nodes)
    } else {
        without_report(fetch(alloc, &Koetter, plan, blocks, addresses, ports, cols, nodes))
    }
}

/// The same, with counters of columns and of nodes that nobody reads, made of the blanks.
fn fetch_uncounted<C: Ledger, N: Ledger, P: Ports>(
    alloc: Global,
    cols: Blank,
    nodes: Blank,
    order: &FetchOrder,
    ports: &mut P,
) -> Result<(Session, Verdict, Option<Report>), FetchFault>
    requires cols { IsOwn cols C.name C.parts }
    requires nodes { IsOwn nodes N.name N.parts }
    ensures fetched { FetchesBeside order.now result (P.world ports.old) (P.world ports.new) }
    ensures others { TouchesLinks order.now.plan.n (P.world ports.old) (P.world ports.new) }
{
    let mut cols: Steps<C> = Steps::new(cols);
    let mut nodes: Steps<N> = Steps::new(nodes);
    fetch_counted(alloc, order, ports, &mut cols, &mut nodes)
}

/// Records the session in the file of this name, where one is given.
fn record_session<P: Ports>(
    ports: &mut P,
    keep: Option<&str>,
    session: &Session,
) -> Result<(), Failed>
    requires { length session.now.records ≡ session.now.params.n }
    ensures keeps { Keeps (option_copied keep.entry) session.now result (P.world ports.old) (P.world ports.new) }
    ensures others { Touches RECORD (P.world ports.old) (P.world ports.new) }
{
    let Some(name) = keep else {
        return Ok(());
    };
    ports.open(Port::Record, name)?;
    write_session(ports, session)
}

/// Records the session, and then writes the text of its verdict, and behind it, where there is one, that of the report.
fn report_session<P: Ports>(
    ports: &mut P,
    keep: Option<&str>,
    session: &Session,
    verdict: &Verdict,
    report: &Option<Report>,
) -> Status
    requires all { length session.now.records ≡ session.now.params.n }
    requires report { IsReportOf session.now report.now }
    ensures reports { Reports (option_copied keep.entry) (session.now, verdict.now, report.now) result
        (P.world ports.old) (P.world ports.new) }
    ensures others { TouchesFiles (P.world ports.old) (P.world ports.new) }
{
    match record_session(ports, keep, session) {
        Ok(()) => report_whole(ports, session, verdict, report),
        Err(Failed) => Status::WriteFault,
    }
}

/// Fetches blocks: reads the coins from their file, asks every server, records the session where a file for it is
/// named, and writes the verdict's text, and behind it, where it is wanted, that of the report.
pub(crate) fn fetch_block<P: Ports>(alloc: Global, order: &FetchOrder, ports: &mut P) -> Status
    ensures ends { FetchEnds order.now result (P.world ports.old) (P.world ports.new) }
    ensures others { TouchesFetch order.now.plan.n (P.world ports.old) (P.world ports.new) }
{
    let Ok(()) = ports.open(Port::Coins, order.coins) else {
        return Status::ReadFault;
    };
    let (cols, nodes) = (Blank::new(1), Blank::new(1));
    match fetch_uncounted::<Brand, Brand, P>(alloc, cols, nodes, order, ports) {
        Ok((session, verdict, found)) => {
            report_session(ports, order.keep, &session, &verdict, &found)
        }
        Err(fault) => fault.into(),
    }
}
