//! The verdict, told, and who agrees.

ghost use Rattle.std.specs.Prelude.{◌≡◌, ◌++◌};
ghost use Rattle.port_trait.specs.Number.{OUTPUT};
ghost use Rattle.port_trait.specs.Moves.{Touches};
ghost use Rattle.port_trait.specs.Written.{Written};
ghost use Rattle.block_decoder.specs.Reported.{IsSessionReport};
ghost use Rattle.block_decoder.specs.Text.{report_text, text};
ghost use Rattle.commands.specs.Table.{status_of};
ghost use Rattle.commands.specs.Said.{IsReportOf, Tells, whole_text};

use crate::status::Status;
use block_decoder::{Report, Verdict, write_report, write_verdict};
use port_trait::{Failed, Ports};
use wire_frames::Session;

/// The status that a verdict is.
pub(crate) fn status_by(verdict: &Verdict) -> Status
    ensures { result ≡ status_of verdict.now }
{
    match verdict {
        Verdict::Listed(listing) => match listing.len() {
            0 => Status::NoBlock,
            1 => Status::One,
            _ => Status::Several,
        },
        Verdict::TooFew { k, h } => Status::TooFew { k: *k, h: *h },
        Verdict::TooWeak { k, t, h } => Status::TooWeak {
            k: *k,
            t: *t,
            h: *h,
        },
        Verdict::TooCostly { cost } => Status::TooCostly { cost: *cost },
    }
}

/// Writes the text of the verdict to Output.
pub(crate) fn report<P: Ports>(ports: &mut P, verdict: &Verdict) -> Status
    ensures told { Tells (text verdict.now) verdict.now result (P.world ports.old) (P.world ports.new) }
    ensures others { Touches OUTPUT (P.world ports.old) (P.world ports.new) }
{
    match write_verdict(ports, verdict) {
        Ok(()) => status_by(verdict),
        Err(Failed) => Status::WriteFault,
    }
}

/// Writes the text of the verdict, and behind it that of the report.
fn write_both<P: Ports>(
    ports: &mut P,
    session: &Session,
    verdict: &Verdict,
    report: &Report,
) -> Result<(), Failed>
    requires { IsSessionReport session.now report.now }
    ensures written { Written OUTPUT (text verdict.now ++ report_text session.now report.now) result
        (P.world ports.old) (P.world ports.new) }
    ensures others { Touches OUTPUT (P.world ports.old) (P.world ports.new) }
{
    write_verdict(ports, verdict)?;
    write_report(ports, report, session)
}

/// Writes the text of the verdict on a session, and behind it, where there is one, that of the report.
fn write_whole<P: Ports>(
    ports: &mut P,
    session: &Session,
    verdict: &Verdict,
    report: &Option<Report>,
) -> Result<(), Failed>
    requires { IsReportOf session.now report.now }
    ensures written { Written OUTPUT (whole_text session.now verdict.now report.now) result
        (P.world ports.old) (P.world ports.new) }
    ensures others { Touches OUTPUT (P.world ports.old) (P.world ports.new) }
{
    match report {
        Some(report) => write_both(ports, session, verdict, report),
        None => write_verdict(ports, verdict),
    }
}

/// Writes the text of the verdict on a session to Output, and behind it, where there is one, that of the report.
pub(crate) fn report_whole<P: Ports>(
    ports: &mut P,
    session: &Session,
    verdict: &Verdict,
    report: &Option<Report>,
) -> Status
    requires { IsReportOf session.now report.now }
    ensures told { Tells (whole_text session.now verdict.now report.now) verdict.now result
        (P.world ports.old) (P.world ports.new) }
    ensures others { Touches OUTPUT (P.world ports.old) (P.world ports.new) }
{
    match write_whole(ports, session, verdict, report) {
        Ok(()) => status_by(verdict),
        Err(Failed) => Status::WriteFault,
    }
}
