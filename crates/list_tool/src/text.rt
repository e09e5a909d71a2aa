//! What is written of keys.

ghost use Rattle.std.specs.Prelude.{◌≡◌, length};
ghost use Rattle.port_trait.specs.Number.{OUTPUT};
ghost use Rattle.port_trait.specs.Moves.{Touches};
ghost use Rattle.port_trait.specs.Written.{Written};
ghost use Rattle.list_finds.specs.Answers.{answer_of};
ghost use Rattle.list_tool.specs.Pending.{Puts};
ghost use Rattle.list_tool.specs.Text.{line_of, present_line, text_of, value_text};

use crate::pending::Pending;
use list_finds::{Answer, Finds};
use list_keys::Keys;
use port_trait::{Failed, Ports};

/// How values are written.
#[derive(Clone, Copy, Debug, PartialEq, Eq)]
pub enum ValueText {
    /// Not at all: the list has none.
    Nothing,
    /// As they are.
    Bytes,
    /// In lower-case hexadecimal.
    Hexadecimal,
}

/// How values of at most so many bytes are written, in hexadecimal where it is asked for.
pub(crate) fn value_text(most: usize, hex: bool) -> ValueText
    ensures { result ≡ value_text most hex }
{
    if most == 0 {
        ValueText::Nothing
    } else if hex {
        ValueText::Hexadecimal
    } else {
        ValueText::Bytes
    }
}

/// Puts the line of a key that the list has with this value, in hexadecimal.
fn put_hexadecimal<P: Ports>(
    pending: &mut Pending,
    ports: &mut P,
    key: &[u8],
    value: &[u8],
) -> Result<(), Failed>
    ensures puts { Puts (present_line ValueText.Hexadecimal key.now value.now) result pending.old pending.new
        (P.world ports.old) (P.world ports.new) }
    ensures others { Touches OUTPUT (P.world ports.old) (P.world ports.new) }
{
    pending.put_all(ports, &[b"present\t", key, b"\t"])?;
    pending.put_hexadecimal(ports, value)?;
    pending.put(ports, b"\n")
}

/// Puts the line of a key that the list has with this value.
fn put_present<P: Ports>(
    pending: &mut Pending,
    ports: &mut P,
    values: ValueText,
    key: &[u8],
    value: &[u8],
) -> Result<(), Failed>
    ensures puts { Puts (present_line values key.now value.now) result pending.old pending.new
        (P.world ports.old) (P.world ports.new) }
    ensures others { Touches OUTPUT (P.world ports.old) (P.world ports.new) }
{
    match values {
        ValueText::Nothing => pending.put_all(ports, &[b"present\t", key, b"\n"]),
        ValueText::Bytes => { pending.put_all(ports, &[b"present\t", key, b"\t", value, b"\n"]) }
        ValueText::Hexadecimal => put_hexadecimal(pending, ports, key, value),
    }
}

/// Puts the line of a key.
fn put_line<P: Ports>(
    pending: &mut Pending,
    ports: &mut P,
    values: ValueText,
    key: &[u8],
    answer: Answer<&[u8]>,
) -> Result<(), Failed>
    ensures puts { Puts (line_of values key.now (answer_of answer.entry)) result pending.old pending.new
        (P.world ports.old) (P.world ports.new) }
    ensures others { Touches OUTPUT (P.world ports.old) (P.world ports.new) }
{
    match answer {
        Answer::Unknown => pending.put_all(ports, &[b"unknown\t", key, b"\n"]),
        Answer::Broken => pending.put_all(ports, &[b"unknown\t", key, b"\n"]),
        Answer::Absent => pending.put_all(ports, &[b"absent\t", key, b"\n"]),
        Answer::Present(value) => put_present(pending, ports, values, key, value),
    }
}

/// Writes the lines of all keys, in their order, many at once; it takes no memory.
///
/// # Errors
///
/// `Failed` exactly where the count of Output rose; then Output took a proper prefix of the text.
pub(crate) fn write_answers<P: Ports>(
    ports: &mut P,
    values: ValueText,
    keys: &Keys,
    finds: &Finds,
) -> Result<(), Failed>
    requires { length keys.now ≡ length finds.now.answers }
    ensures written { Written OUTPUT (text_of values keys.now finds.now.answers) result
        (P.world ports.old) (P.world ports.new) }
    ensures others { Touches OUTPUT (P.world ports.old) (P.world ports.new) }
{
    let mut pending = Pending::new();
    'places: for place in 0..finds.len() {
        put_line(
            &mut pending,
            ports,
            values,
            keys.key(place),
            finds.answer(place),
        )?;
    }
    pending.flush(ports)
}
