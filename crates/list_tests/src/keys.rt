//! The keys of a text.
ghost use Rattle.list_keys.specs.Form.{IsForm};

use list_keys::{Form, Keys, LineFault, LinesFault};
use pir_ports::{MemPorts, Port};
use std::alloc::{AllocError, Global};

/// Whether the keys of a text are these two, or why there are none.
fn are_keys(
    alloc: Global,
    text: &[u8],
    form: Form,
    one: &[u8],
    other: &[u8],
) -> Result<Result<bool, LinesFault>, AllocError>
    requires { IsForm form }
{
    let mut ports = MemPorts::new(alloc, 5, &[], 0, 0)?;
    ports.put(alloc, Port::Input, text)?;
    match Keys::read(alloc, &mut ports, form) {
        Ok(keys) => Ok(Ok(keys.len() == 2 && keys.key(0) == one && keys.key(1) == other)),
        Err(fault) => Ok(Err(fault)),
    }
}

/// Whether a line with this fault, of number 3, is told in this sentence.
fn is_told(alloc: Global, fault: LineFault, sentence: &str) -> Result<bool, AllocError> {
    let text = LinesFault::Refused { number: 3, fault }.to_string(alloc)?;
    Ok(text.as_str() == sentence)
}

#[test]
fn faults_are_told_with_their_line(rt: HostRuntime) -> Result<(), AllocError> {
    for (fault, sentence) in [
        (LineFault::EmptyKey, "line 3: the key is empty"),
        (
            LineFault::LongKey,
            "line 3: the key is too long: at most 65535 bytes are allowed",
        ),
        (
            LineFault::NoTab,
            "line 3: there is no tab between a key and a value",
        ),
        (LineFault::HasTab, "line 3: the key has a tab"),
        (
            LineFault::LongValue { most: 5 },
            "line 3: the value is too long: at most 5 bytes are allowed",
        ),
        (
            LineFault::TooMany { most: 2 },
            "line 3: there are too many lines: at most 2 are allowed",
        ),
    ] {
        assert!(rt; is_told(rt.alloc(), fault, sentence)?, "{sentence}");
    }
    Ok(())
}

#[test]
fn keys_are_those_of_all_lines(rt: HostRuntime) -> Result<(), AllocError> {
    let alloc = rt.alloc();
    let refused = Err(LinesFault::Refused {
        number: 1,
        fault: LineFault::HasTab,
    });
    assert!(rt; are_keys(alloc, b"alpha\nbeta", Form::Key, b"alpha", b"beta")? == Ok(true));
    assert!(rt; are_keys(alloc, b"a\tb\nc\n", Form::Key, b"a\tb", b"c")? == Ok(true));
    assert!(rt; are_keys(alloc, b"a\tb\nc\n", Form::KeyWithoutTab, b"", b"")? == refused);
    assert!(rt; are_keys(alloc, b"", Form::Key, b"", b"")? == Err(LinesFault::NoLine));
    Ok(())
}
