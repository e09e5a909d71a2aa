// The names that ports in memory were opened with, and the words of children.
use pir_ports::{Failed, MemPorts, Port, Ports};
use std::alloc::{AllocError, Global};

/// Opens the ports in turn, and tells whether each call succeeds that should. The second fails by its number. There is
/// room for three names of nine bytes.
fn open_in_turn(ports: &mut MemPorts) -> bool {
    ports.open(Port::Input, "one") == Ok(())
        && ports.open(Port::Input, "failing") == Err(Failed)
        && ports.open(Port::Link(9), "two") == Ok(())
        && ports.open(Port::Input, "four") == Err(Failed)
        && ports.open(Port::Input, "six") == Ok(())
        && ports.open(Port::Output, "") == Err(Failed)
}

/// Whether the names of the calls that succeeded stand in their order, each at its port.
fn names_stand(ports: &MemPorts) -> bool {
    ports.opened_as(Port::Input, 0) == Some(b"one".as_slice())
        && ports.opened_as(Port::Input, 1) == Some(b"six".as_slice())
        && ports.opened_as(Port::Input, 2) == None
        && ports.opened_as(Port::Link(9), 0) == Some(b"two".as_slice())
        && ports.opened_as(Port::Link(9), 1) == None
        && ports.opened_as(Port::Output, 0) == None
}

#[test]
fn names_are_kept_in_order(rt: HostRuntime) -> Result<(), AllocError> {
    let mut ports = MemPorts::new(rt.alloc(), 1, &[2], 3, 9)?;
    assert!(rt; open_in_turn(&mut ports));
    assert!(rt; names_stand(&ports));
    Ok(())
}

/// The words one by one.
fn words_of(alloc: Global, texts: &[&str]) -> Result<Vec<String>, AllocError> {
    let mut words = Vec::new(alloc);
    for text in texts {
        words.push(String::from_str(alloc, *text)?)?;
    }
    Ok(words)
}

/// Whether a start with these words succeeds.
fn starts(
    alloc: Global,
    ports: &mut MemPorts,
    child: u8,
    texts: &[&str],
) -> Result<bool, AllocError> {
    let words = words_of(alloc, texts)?;
    Ok(ports.start_child(child, &words).is_ok())
}

/// Starts children in turn, and tells whether each start succeeds that should. One name was kept before; room for eight
/// words of 30 bytes was there at first, and the second call of all fails.
fn start_in_turn(alloc: Global, ports: &mut MemPorts) -> Result<bool, AllocError> {
    Ok(
        !starts(alloc, ports, 1, &["failing", "by", "number"])?
            && starts(alloc, ports, 2, &["serve", "--listen", "here"])?
            // Room for three words is left, and a start counts one word more than it has.
            && !starts(alloc, ports, 3, &["one", "two", "three"])?
            // Room for twelve bytes is left.
            && !starts(alloc, ports, 4, &["thirteen byte"])?
            && starts(alloc, ports, 255, &["five", "six"])?
            && !starts(alloc, ports, 5, &[])?,
    )
}

/// Whether the words of the starts that succeeded stand in their order.
fn words_stand(ports: &MemPorts) -> bool {
    ports.started_word(0, 0) == Some(b"serve".as_slice())
        && ports.started_word(0, 1) == Some(b"--listen".as_slice())
        && ports.started_word(0, 2) == Some(b"here".as_slice())
        && ports.started_word(0, 3) == None
        && ports.started_word(1, 0) == Some(b"five".as_slice())
        && ports.started_word(1, 1) == Some(b"six".as_slice())
        && ports.started_word(1, 2) == None
        && ports.started_word(2, 0) == None
}

#[test]
fn words_of_starts_are_kept_in_order(rt: HostRuntime) -> Result<(), AllocError> {
    let mut ports = MemPorts::new(rt.alloc(), 1, &[2], 8, 30)?;
    assert!(rt; ports.open(Port::Link(1), "a") == Ok(()));
    assert!(rt; start_in_turn(rt.alloc(), &mut ports)?);
    assert!(rt; words_stand(&ports));
    assert!(rt; ports.opened_as(Port::Link(1), 0) == Some(b"a".as_slice()));
    Ok(())
}
