//! The lines of texts, cut at every place.
ghost use Rattle.std.specs.Prelude.{◌<◌, ◌≤◌};
ghost use Rattle.list_keys.specs.Form.{AreTerms, IsForm};

use list_keys::{Form, LineFault, LineReader, LinesFault, Terms};
use pir_ports::{MemPorts, Port};
use std::alloc::{AllocError, Global};

/// Ports whose Input holds a text; a call moves at most `cut` bytes, and the call with the number `fail` fails.
fn holding(alloc: Global, cut: usize, fail: u8, text: &[u8]) -> Result<MemPorts, AllocError>
    requires { 0 < cut }
{
    let mut ports = MemPorts::new(alloc, cut, &[u64::from(fail)], 0, 0)?;
    ports.put(alloc, Port::Input, text)?;
    Ok(ports)
}

/// Whether the next line has this key and this value.
fn comes(lines: &mut LineReader, ports: &mut MemPorts, key: &[u8], value: &[u8]) -> bool {
    lines.read_line(ports) == Ok(true) && lines.key() == key && lines.value() == value
}

/// Whether these are the lines of a text, in their order, and there are no more.
fn are_lines(
    alloc: Global,
    cut: usize,
    text: &[u8],
    terms: Terms,
    wanted: &[(&[u8], &[u8])],
) -> Result<bool, AllocError>
    requires cut { 0 < cut }
    requires terms { AreTerms terms }
{
    let mut ports = holding(alloc, cut, 0, text)?;
    let mut lines = LineReader::new(alloc, terms)?;
    for (key, value) in wanted {
        if !comes(&mut lines, &mut ports, *key, *value) {
            return Ok(false);
        }
    }
    Ok(lines.read_line(&mut ports) == Ok(false) && lines.number() as usize == wanted.len())
}

/// Keys with values of at most five bytes.
fn with_values() -> Terms
    ensures { AreTerms result }
{
    Terms {
        form: Form::KeyAndValue { most: 5 },
        most: 3,
    }
}

/// Keys alone, of this form.
fn keys_alone(form: Form) -> Terms
    requires { IsForm form }
    ensures { AreTerms result }
{
    Terms { form, most: 3 }
}

#[test]
fn lines_come_in_any_cut(rt: HostRuntime) -> Result<(), AllocError> {
    for cut in 1..=27 {
        let three = [
            (b"alpha".as_slice(), b"one".as_slice()),
            (b"beta".as_slice(), b"".as_slice()),
            (b"gamma".as_slice(), b"three".as_slice()),
        ];
        let text = b"alpha\tone\nbeta\t\ngamma\tthree";
        assert!(rt;
            are_lines(rt.alloc(), cut, text, with_values(), &three)?,
            "cut {cut}"
        );
    }
    Ok(())
}

#[test]
fn the_last_line_may_lack_its_end(rt: HostRuntime) -> Result<(), AllocError> {
    let alloc = rt.alloc();
    let one = [(b"a\tb".as_slice(), b"".as_slice())];
    let terms = keys_alone(Form::Key);
    assert!(rt; are_lines(alloc, 1, b"a\tb", terms, &one)?);
    assert!(rt; are_lines(alloc, 1, b"a\tb\n", terms, &one)?);
    assert!(rt;
        are_lines(
            alloc,
            1,
            b"a\t\tb",
            with_values(),
            &[(b"a".as_slice(), b"\tb".as_slice())]
        )?
    );
    Ok(())
}

/// What is said behind so many good lines.
fn said_behind(
    alloc: Global,
    cut: usize,
    good: u32,
    text: &[u8],
    terms: Terms,
) -> Result<Result<bool, LinesFault>, AllocError>
    requires cut { 0 < cut }
    requires terms { AreTerms terms }
{
    let mut ports = holding(alloc, cut, 0, text)?;
    let mut lines = LineReader::new(alloc, terms)?;
    for _line in 0..good {
        let said = lines.read_line(&mut ports);
        if said != Ok(true) {
            return Ok(said);
        }
    }
    Ok(lines.read_line(&mut ports))
}

/// Whether the line of this number is the first with a fault, and it is this one, in any cut.
fn is_first(
    alloc: Global,
    number: u32,
    fault: LineFault,
    text: &[u8],
    terms: Terms,
) -> Result<bool, AllocError>
    requires some { 1 ≤ number }
    requires terms { AreTerms terms }
{
    for cut in 1..=9 {
        let said = said_behind(alloc, cut, number - 1, text, terms)?;
        if said != Err(LinesFault::Refused { number, fault }) {
            return Ok(false);
        }
    }
    Ok(true)
}

#[test]
fn the_first_fault_is_told(rt: HostRuntime) -> Result<(), AllocError> {
    let alloc = rt.alloc();
    let key = keys_alone(Form::Key);
    let untabbed = keys_alone(Form::KeyWithoutTab);
    assert!(rt; is_first(alloc, 2, LineFault::EmptyKey, b"alpha\n\nbeta\n", key)?);
    assert!(rt;
        is_first(
            alloc,
            4,
            LineFault::TooMany { most: 3 },
            b"a\nb\nc\n\n",
            key
        )?
    );
    assert!(rt; is_first(alloc, 2, LineFault::HasTab, b"a\nb\t\n\n", untabbed)?);
    assert!(rt; is_first(alloc, 1, LineFault::NoTab, b"alpha\n\n", with_values())?);
    assert!(rt; is_first(alloc, 2, LineFault::EmptyKey, b"a\t\n\tb", with_values())?);
    assert!(rt;
        is_first(
            alloc,
            1,
            LineFault::LongValue { most: 5 },
            b"a\tabcdef\nb",
            with_values()
        )?
    );
    Ok(())
}

#[test]
fn no_bytes_are_no_line(rt: HostRuntime) -> Result<(), AllocError> {
    let terms = keys_alone(Form::Key);
    assert!(rt; said_behind(rt.alloc(), 1, 0, b"", terms)? == Err(LinesFault::NoLine));
    Ok(())
}

/// What is said of a key of so many bytes.
fn said_of_key(alloc: Global, count: usize) -> Result<Result<bool, LinesFault>, AllocError> {
    let text = vec![in alloc; b'a'; count]?;
    said_behind(alloc, 60000, 0, text.as_slice(), keys_alone(Form::Key))
}

#[test]
fn long_keys_are_refused(rt: HostRuntime) -> Result<(), AllocError> {
    let long = Err(LinesFault::Refused {
        number: 1,
        fault: LineFault::LongKey,
    });
    assert!(rt; said_of_key(rt.alloc(), 65535)? == Ok(true));
    assert!(rt; said_of_key(rt.alloc(), 65536)? == long);
    assert!(rt; said_of_key(rt.alloc(), 200000)? == long);
    Ok(())
}

/// What two reads say where the call with the number `fail` fails, of pieces of two bytes.
fn said_twice(
    alloc: Global,
    fail: u8,
) -> Result<(Result<bool, LinesFault>, Result<bool, LinesFault>), AllocError> {
    let mut ports = holding(alloc, 2, fail, b"a\nb\n")?;
    let mut lines = LineReader::new(alloc, keys_alone(Form::Key))?;
    Ok((lines.read_line(&mut ports), lines.read_line(&mut ports)))
}

#[test]
fn a_failed_call_is_told(rt: HostRuntime) -> Result<(), AllocError> {
    let alloc = rt.alloc();
    let failed = Err(LinesFault::ReadFault);
    assert!(rt; said_twice(alloc, 9)? == (Ok(true), Ok(true)));
    assert!(rt; said_twice(alloc, 2)? == (Ok(true), failed));
    assert!(rt; said_twice(alloc, 1)?.0 == failed);
    Ok(())
}

/// Whether each line of a text ends with a carriage return.
fn all_return(alloc: Global, text: &[u8]) -> Result<bool, AllocError> {
    let mut ports = holding(alloc, 3, 0, text)?;
    let mut lines = LineReader::new(alloc, keys_alone(Form::Key))?;
    let _ = lines.read_line(&mut ports);
    let _ = lines.read_line(&mut ports);
    Ok(lines.all_end_with_return())
}

#[test]
fn carriage_returns_belong_to_keys(rt: HostRuntime) -> Result<(), AllocError> {
    let alloc = rt.alloc();
    let two = [
        (b"a\r".as_slice(), b"".as_slice()),
        (b"b\r".as_slice(), b"".as_slice()),
    ];
    assert!(rt; are_lines(alloc, 2, b"a\r\nb\r\n", keys_alone(Form::Key), &two)?);
    assert!(rt; all_return(alloc, b"a\r\nb\r\n")?);
    assert!(rt; !all_return(alloc, b"a\r\nb\n")?);
    Ok(())
}
