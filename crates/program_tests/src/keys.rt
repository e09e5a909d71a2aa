// Keys, as texts spell them.

use key_search::{KeyFault, read_key};
use std::test::Fail;

#[test]
fn digits_of_either_case(rt: HostRuntime) -> Result<(), Fail> {
    for (text, bytes) in [
        ("10", [0x10].as_slice()),
        ("10aa", [0x10, 0xaa].as_slice()),
        ("aFfA", [0xaf, 0xfa].as_slice()),
    ] {
        assert!(rt; read_key(rt.alloc(), text, 2)?.as_slice() == bytes);
    }
    Ok(())
}

#[test]
fn texts_that_are_no_key(rt: HostRuntime) {
    for (text, fault) in [
        ("1g", KeyFault::NotHex),
        ("123", KeyFault::NotHex),
        ("", KeyFault::NotHex),
        ("112233", KeyFault::TooLong { max: 2 }),
        ("11223g", KeyFault::NotHex),
    ] {
        assert!(rt; matches!(read_key(rt.alloc(), text, 2), Err(found) if found == fault));
    }
}

#[test]
fn faults_have_texts(rt: HostRuntime) -> Result<(), Fail> {
    for (fault, text) in [
        (
            KeyFault::NotHex,
            "the key is not a number of bytes in hexadecimal digits",
        ),
        (
            KeyFault::TooLong { max: 2 },
            "the key has more than 2 bytes",
        ),
        (KeyFault::Memory, "no memory"),
    ] {
        assert!(rt; format!(in rt.alloc(); "{fault}")?.as_str() == text);
    }
    Ok(())
}
