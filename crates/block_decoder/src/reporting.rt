//! Writes the text of a report, in pieces, with no memory taken.

ghost use Rattle.std.specs.Prelude.{◌≡◌, flat_map, map};
ghost use Rattle.port_trait.specs.Number.{OUTPUT};
ghost use Rattle.port_trait.specs.Moves.{Touches};
ghost use Rattle.block_decoder.specs.Reported.{IsSessionReport};
ghost use Rattle.block_decoder.specs.Text.{agree_line, agree_lines, line_of, number_words, report_text};
ghost use Rattle.block_decoder.specs.Writing.{Writes};

use crate::agreements::{Agreement, Report};
use crate::liars::write_liars;
use crate::write::{write_hex, write_number};
use port_trait::{Failed, Port, Ports, write_all};
use wire_frames::Session;

/// Numbers of servers in decimal, each after a space.
fn write_indices<P: Ports>(ports: &mut P, indices: &[u8]) -> Result<(), Failed>
    ensures written { Writes (number_words indices.now) result (P.world ports.old) (P.world ports.new) }
    ensures others { Touches OUTPUT (P.world ports.old) (P.world ports.new) }
{
    for index in indices {
        write_number(ports, u64::from(*index))?;
    }
    Ok(())
}

/// The line of an agreement.
fn write_agreement<P: Ports>(ports: &mut P, agreement: &Agreement) -> Result<(), Failed>
    ensures written { Writes (agree_line agreement.now) result (P.world ports.old) (P.world ports.new) }
    ensures others { Touches OUTPUT (P.world ports.old) (P.world ports.new) }
{
    write_all(ports, Port::Output, b"agree ")?;
    write_hex(ports, agreement.block())?;
    write_indices(ports, agreement.indices())?;
    write_all(ports, Port::Output, b"\n")
}

/// The lines of agreements.
fn write_agreements<P: Ports>(ports: &mut P, all: &[Agreement]) -> Result<(), Failed>
    ensures written { Writes (agree_lines all.now) result (P.world ports.old) (P.world ports.new) }
    ensures others { Touches OUTPUT (P.world ports.old) (P.world ports.new) }
{
    for agreement in all {
        write_agreement(ports, agreement)?;
    }
    Ok(())
}

/// Writes the text of the report on a session to Output, in pieces; it takes no memory.
///
/// Each agreement is a line, as `agree 4344 1 2 3`: its block in lower-case hexadecimal, and the numbers of the servers
/// whose answers agree on it, in decimal. Where there is one, and `2h > k + t` for the session's k usable answers, so
/// that there can be no other, the line `liars 4` follows, with the numbers of the servers whose usable answers are not
/// among those; where all are, it is `liars` alone.
///
/// # Errors
///
/// `Failed` exactly where the count of Output rose; then Output took a proper prefix of the text.
pub fn write_report<P: Ports>(
    ports: &mut P,
    report: &Report,
    session: &Session,
) -> Result<(), Failed>
    requires { IsSessionReport session.now report.now }
    ensures written { Writes (report_text session.now report.now) result (P.world ports.old) (P.world ports.new) }
    ensures others { Touches OUTPUT (P.world ports.old) (P.world ports.new) }
{
    write_agreements(ports, report.agreements())?;
    write_liars(ports, session, report.agreements())
}
