//! Writes the text of what a look-up came to.

ghost use Rattle.std.specs.Prelude.{◌≡◌, codes};
ghost use Rattle.port_trait.specs.Number.{OUTPUT};
ghost use Rattle.port_trait.specs.Moves.{Touches};
ghost use Rattle.block_decoder.specs.Writing.{Writes};
ghost use Rattle.key_fetches.specs.Text.{absent_line, end_text, found_line};

use crate::looked_up::{Ending, LookUp};
use block_decoder::{write_block, write_verdict};
use port_trait::{Failed, Port, Ports, write_all};

/// The word `found`, and the row in hexadecimal, on a line.
fn write_found<P: Ports>(ports: &mut P, row: &[u8]) -> Result<(), Failed>
    ensures written { Writes (found_line row.now) result (P.world ports.old) (P.world ports.new) }
    ensures others { Touches OUTPUT (P.world ports.old) (P.world ports.new) }
{
    write_all(ports, Port::Output, b"found ")?;
    write_block(ports, row)
}

/// Writes the text of what a look-up came to to Output, in pieces; it takes no memory.
///
/// For the first verdict that did not list exactly one block it is the text of that verdict, as
/// [`write_verdict`] writes it. Else it is `found`, a space, the row in lower-case hexadecimal, and a newline; or
/// `absent` and a newline.
///
/// # Errors
///
/// `Failed` exactly where the count of Output rose; then Output took a proper prefix of the text.
pub fn write_end<P: Ports>(ports: &mut P, look_up: &LookUp) -> Result<(), Failed>
    ensures written { Writes (end_text look_up.now) result (P.world ports.old) (P.world ports.new) }
    ensures others { Touches OUTPUT (P.world ports.old) (P.world ports.new) }
{
    match look_up.end() {
        Ending::Unlisted(verdict) => write_verdict(ports, verdict),
        Ending::Found(row) => write_found(ports, row),
        Ending::Absent => write_all(ports, Port::Output, b"absent\n"),
    }
}
