//! The command `replay`.

ghost use Rattle.std.specs.Prelude.{◌≡◌, ◌<◌, true, false};
ghost use Rattle.port_trait.specs.Number.{INPUT};
ghost use Rattle.port_trait.specs.Moves.{Touches};
ghost use Rattle.replay.specs.Replayed.{Judged, JudgedWhole, ReadTo};
ghost use Rattle.drawn_workload.specs.Counters.{IsOwn};
ghost use Rattle.commands.specs.ReplayOutcome.{ReplayEnds, ReplayOutcome, TouchesStreams};

use crate::orders::ReplayOrder;
use crate::report::{report, report_whole};
use crate::status::Status;
use block_decoder::{Report, Verdict};
use gs_interpolate::Koetter;
use port_trait::{Port, Ports};
use replay::{ReplayFault, replay, replay_report};
use std::alloc::Global;
use std::marker::Brand;
use std::sync::ledger::{Blank, Ledger};
use uni_poly::steps::Steps;
use wire_frames::Session;

/// Judges the session in Input, with counters of columns and of nodes that nobody reads, made of the blanks.
fn replay_uncounted<C: Ledger, N: Ledger, P: Ports>(
    alloc: Global,
    cols: Blank,
    nodes: Blank,
    ports: &mut P,
) -> Result<Verdict, ReplayFault>
    requires cols { IsOwn cols C.name C.parts }
    requires nodes { IsOwn nodes N.name N.parts }
    ensures replayed { ReadTo Judged result (P.world ports.old) (P.world ports.new) }
    ensures others { Touches INPUT (P.world ports.old) (P.world ports.new) }
{
    let mut cols: Steps<C> = Steps::new(cols);
    let mut nodes: Steps<N> = Steps::new(nodes);
    replay(alloc, &Koetter, ports, &mut cols, &mut nodes)
}

/// The same, with the session, and the report beside the verdict.
fn replay_whole_uncounted<C: Ledger, N: Ledger, P: Ports>(
    alloc: Global,
    cols: Blank,
    nodes: Blank,
    ports: &mut P,
) -> Result<(Session, Verdict, Option<Report>), ReplayFault>
    requires cols { IsOwn cols C.name C.parts }
    requires nodes { IsOwn nodes N.name N.parts }
    ensures replayed { ReadTo JudgedWhole result (P.world ports.old) (P.world ports.new) }
    ensures others { Touches INPUT (P.world ports.old) (P.world ports.new) }
{
    let mut cols: Steps<C> = Steps::new(cols);
    let mut nodes: Steps<N> = Steps::new(nodes);
    replay_report(alloc, &Koetter, ports, &mut cols, &mut nodes)
}

/// Judges the session in the file of this name, `-` for standard input, and writes the verdict's text.
fn replay_plain<P: Ports>(alloc: Global, name: &str, ports: &mut P) -> Status
    ensures ends { ReplayEnds name.now false result (P.world ports.old) (P.world ports.new) }
    ensures others { TouchesStreams (P.world ports.old) (P.world ports.new) }
{
    let Ok(()) = ports.open(Port::Input, name) else {
        return Status::ReadFault;
    };
    match replay_uncounted::<Brand, Brand, P>(alloc, Blank::new(1), Blank::new(1), ports) {
        Ok(verdict) => report(ports, &verdict),
        Err(fault) => fault.into(),
    }
}

/// The same, and writes the text of the report behind that of the verdict.
fn replay_whole<P: Ports>(alloc: Global, name: &str, ports: &mut P) -> Status
    ensures ends { ReplayEnds name.now true result (P.world ports.old) (P.world ports.new) }
    ensures others { TouchesStreams (P.world ports.old) (P.world ports.new) }
{
    let Ok(()) = ports.open(Port::Input, name) else {
        return Status::ReadFault;
    };
    match replay_whole_uncounted::<Brand, Brand, P>(alloc, Blank::new(1), Blank::new(1), ports) {
        Ok((session, verdict, found)) => report_whole(ports, &session, &verdict, &found),
        Err(fault) => fault.into(),
    }
}

/// Judges the session in a file, `-` for standard input, and writes the verdict's text, and behind it, where it is wanted, that
/// of the report.
pub(crate) fn replay_file<P: Ports>(alloc: Global, order: &ReplayOrder, ports: &mut P) -> Status
    ensures ends { ReplayEnds order.now.file order.now.report result (P.world ports.old) (P.world ports.new) }
    ensures others { TouchesStreams (P.world ports.old) (P.world ports.new) }
{
    if order.report {
        replay_whole(alloc, order.file, ports)
    } else {
        replay_plain(alloc, order.file, ports)
    }
}
