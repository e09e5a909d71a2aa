//! The ports of the system on real files, sockets and children. What is done on ports stands in functions over any ports,
//! and one function makes the ports of the system, so that little is proved of these alone.

ghost use Rattle.std.specs.Prelude.{◌<◌, ◌≢◌, length};
ghost use Rattle.port_trait.specs.Number.{GUEST, number};

use os_ports::{OsPorts, System};
use port_trait::{Filled, Port, Ports, read_exactly, write_all};
use std::alloc::{AllocError, Global};
use std::io::{Print, Read, Write};
use std::net::{Ipv4Addr, Net, OpenListener, TcpListener, TcpStream};
use std::os::unix::fs::MetadataExt;
use std::rt::{Env, Files};
use std::test::Fail;
use std::{env, fs, io, process};

/// Ports whose children can be ended.
trait ParentPorts: Ports {
    fn end_all(&mut self);
}

impl<R: System> ParentPorts for OsPorts<R> {
    fn end_all(&mut self) {
        self.end_children();
    }
}

/// Whether the file takes this text, written as this port.
fn takes<P: Ports>(ports: &mut P, port: Port, path: &str, text: &[u8]) -> bool
    requires some { 0 < length text.now }
    requires named { number port ≢ GUEST }
{
    ports.open(port, path).is_ok() && write_all(ports, port, text).is_ok()
}

/// Whether the file holds `last` and no more, read as this port.
fn reads_last<P: Ports>(ports: &mut P, port: Port, path: &str) -> bool
    requires { number port ≢ GUEST }
{
    let mut text = [0; 4];
    ports.open(port, path).is_ok()
        && read_exactly(ports, port, &mut text) == Filled::Full
        && text == *b"last"
        && ports.take(port, &mut text) == Ok(0)
}

/// Whether no other than its owner may read the file.
fn is_its_owners<R: Files>(rt: &R, path: &str) -> io::Result<bool> {
    Ok(fs::metadata(rt, path)?.mode() % 0o100 == 0)
}

/// A path among the files that don't last, at which there is none.
fn free_path(rt: HostRuntime) -> io::Result<String> {
    let name = format!(in rt.alloc(); "os-ports-{}", process::id(rt.process()))?;
    let path = env::temp_dir(&rt)?.join(rt.alloc(), name.as_str())?;
    Ok(path.into_string())
}

/// Whether a record at the path is read back. The second `open` of Record makes the file anew.
fn reads_record<P: Ports>(ports: &mut P, path: &str) -> bool {
    ports.open(Port::Coins, path).is_err()
        && takes(ports, Port::Record, path, b"the first text")
        && takes(ports, Port::Record, path, b"last")
        && reads_last(ports, Port::Coins, path)
        && reads_last(ports, Port::Database, path)
}

/// Whether a share at the path is read back. Another share, which can't be made at the same path, closes it all the same; nor
/// can one be made at the path of the database.
fn reads_share<P: Ports>(ports: &mut P, path: &str) -> bool {
    takes(ports, Port::Share(1), path, b"the first text")
        && ports.open(Port::Share(2), path).is_err()
        && ports.give(Port::Share(1), b"more").is_err()
        && takes(ports, Port::Share(1), path, b"last")
        && reads_last(ports, Port::Database, path)
        && ports.open(Port::Share(1), path).is_err()
        && reads_last(ports, Port::Coins, path)
}

/// Whether a record or a share at a path where there was no file is read back, and no other than its owner may read it. The
/// file is removed.
fn keeps_file<P: Ports>(rt: HostRuntime, ports: &mut P, is_share: bool) -> io::Result<bool> {
    let path = free_path(rt)?;
    let well = if is_share {
        reads_share(ports, &path)
    } else {
        reads_record(ports, &path)
    };
    let owned = is_its_owners(&rt, &path);
    fs::remove_file(&rt, &path)?;
    Ok(well && owned?)
}

/// Whether the links with these numbers are opened at the address, in this order.
fn opens_links<P: Ports>(ports: &mut P, links: &[u8], address: &str) -> bool {
    for link in links {
        if ports.open(Port::Link(*link), address).is_err() {
            return false;
        }
    }
    true
}

/// Whether the link carries a query to the server and an answer back, after which the server closes the stream.
fn carries<P: Ports, S: Read + Write + Drop>(
    ports: &mut P,
    link: u8,
    mut server: S,
) -> io::Result<bool> {
    if write_all(ports, Port::Link(link), b"query").is_err() {
        return Ok(false);
    }
    let mut text = [0; 5];
    server.read_exact(&mut text)?;
    server.write_all(b"answer")?;
    drop(server);
    let mut answer = [0; 7];
    let filled = read_exactly(ports, Port::Link(link), &mut answer);
    Ok(text == *b"query" && filled == Filled::Ended(6) && answer == *b"answer\0")
}

/// Whether the other side closed the stream.
fn is_closed<S: Read + Drop>(mut stream: S) -> io::Result<bool> {
    Ok(stream.read(&mut [0; 1])? == 0)
}

/// The stream to the next who comes in.
fn next_stream<L: OpenListener>(door: &L) -> io::Result<L::Stream> {
    Ok(door.accept()?.0)
}

/// Whether links to the listener at the address carry bytes both ways. Both stay open; the second `open` of link 1 closes its
/// first stream.
fn links_carry<L: OpenListener, P: Ports>(
    door: &L,
    ports: &mut P,
    address: &str,
) -> io::Result<bool>
where
    L::Stream: Read + Write + Drop,
{
    Ok(
        opens_links(ports, &[1, 255, 1], address)
            && is_closed(next_stream(door)?)?
            && carries(ports, 255, next_stream(door)?)?
            && carries(ports, 1, next_stream(door)?)?,
    )
}

/// The same with a listener on loopback.
fn links_carry_on_loopback<R: Net + AllocGlobal, P: Ports>(
    rt: &R,
    ports: &mut P,
) -> io::Result<bool> {
    let door = TcpListener::bind(rt, (Ipv4Addr::LOCALHOST, 0))?;
    let address = format!(in rt.alloc(); "{}", door.local_addr()?)?;
    links_carry(&door, ports, &address)
}

/// Whether the next guest comes in over this stream, is read, and is given a reply.
fn meets<P: Ports, S: Write>(ports: &mut P, stream: &mut S) -> io::Result<bool> {
    stream.write_all(b"query!")?;
    let mut text = [0; 6];
    Ok(
        ports.next_guest().is_ok()
            && read_exactly(ports, Port::Guest, &mut text) == Filled::Full
            && text == *b"query!"
            && write_all(ports, Port::Guest, b"reply").is_ok(),
    )
}

/// Whether the stream of the guest ended after its reply.
fn is_let_go<S: Read + Drop>(mut stream: S) -> io::Result<bool> {
    let mut text = [0; 5];
    stream.read_exact(&mut text)?;
    Ok(text == *b"reply" && is_closed(stream)?)
}

/// An address on loopback at which nobody listens: that of a listener that is gone.
fn free_address<R: Net + AllocGlobal>(rt: &R) -> io::Result<String> {
    let door = TcpListener::bind(rt, (Ipv4Addr::LOCALHOST, 0))?;
    Ok(format!(in rt.alloc(); "{}", door.local_addr()?)?)
}

/// Whether two guests come in at the address. The stream to the first ends, since the second is in.
fn meets_two_at<R: Net, P: Ports>(rt: &R, ports: &mut P, address: &str) -> io::Result<bool> {
    let mut first = TcpStream::connect(rt, address)?;
    let well = meets(ports, &mut first)?;
    let mut second = TcpStream::connect(rt, address)?;
    Ok(well && meets(ports, &mut second)? && is_let_go(first)?)
}

/// The same at an address of its own.
fn meets_two<R: Net + AllocGlobal, P: Ports>(rt: &R, ports: &mut P) -> io::Result<bool> {
    let address = free_address(rt)?;
    Ok(ports.open(Port::Door, &address).is_ok() && meets_two_at(rt, ports, &address)?)
}

// What this executable is told to run in a child: the one test, by its full name.
const CHILD_TEST: &str = "system::be_a_child_if_asked";

/// Lets one guest in at this place, and gives it back two bytes. Whether all of it went well, or no guest came any more, or
/// the guest said nothing.
fn echoes<P: Ports>(ports: &mut P) -> bool {
    let mut text = [0; 2];
    if ports.next_guest().is_err() {
        return true;
    }
    match read_exactly(ports, Port::Guest, &mut text) {
        Filled::Full => write_all(ports, Port::Guest, &text).is_ok(),
        _ => true,
    }
}

/// The word of this process with this number, after its name and that of the test; the empty word where there is none.
fn word_at<R: Env + AllocGlobal>(rt: &R, i: usize) -> io::Result<String> {
    match env::args(rt)?.nth(i.wrapping_add(2)) {
        Some(word) => Ok(word),
        None => Ok(String::new(rt.alloc())),
    }
}

/// Listens at the place, says the line, and meets one guest. Whether all of it went well.
fn is_a_child<R: Print, P: Ports>(rt: &R, ports: &mut P, line: &str, place: &str) -> bool {
    ports.open(Port::Door, place).is_ok() && println!(rt; "{line}").is_ok() && echoes(ports)
}

/// Whether this process was not asked to be a child, or is one well: of the words after the name of the test it says the
/// first, lets one guest in at the second, and gives it back two bytes. The last word is where the guest is told to come.
fn is_a_child_if_asked<R: Env + Print + AllocGlobal, P: Ports>(
    rt: &R,
    ports: &mut P,
) -> io::Result<bool> {
    let line = word_at(rt, 0)?;
    let place = word_at(rt, 1)?;
    Ok(line.is_empty() || is_a_child(rt, ports, &line, &place))
}

/// These words as a child takes them.
fn words_of(alloc: Global, texts: [&str; 4]) -> Result<Vec<String>, AllocError> {
    let mut words = Vec::new(alloc);
    for text in texts {
        words.push(String::from_str(alloc, text)?)?;
    }
    Ok(words)
}

/// Whether a child starts that runs this test, says this line, and lets one guest in at this place, where the guest is told
/// to come to the address.
fn starts<P: Ports>(
    alloc: Global,
    ports: &mut P,
    test: &str,
    line: &str,
    place: &str,
    address: &str,
) -> bool {
    match words_of(alloc, [test, line, place, address]) {
        Ok(words) => ports.start_child(1, &words).is_ok(),
        Err(_) => false,
    }
}

/// Where children let their guests in: one that will be asked, one that a link is opened to and no more, one that no link
/// reaches, and one that doesn't say it is ready.
#[derive(Drop)]
struct Places {
    asked: String,
    linked: String,
    alone: String,
    unready: String,
}

/// Four places at which nobody listens.
fn free_places<R: Net + AllocGlobal>(rt: &R) -> io::Result<Places> {
    Ok(Places {
        asked: free_address(rt)?,
        linked: free_address(rt)?,
        alone: free_address(rt)?,
        unready: free_address(rt)?,
    })
}

/// Starts a child at each of the places, one that can't be reached, and one that ends. Whether each call ends as it should.
fn starts_all<P: Ports>(alloc: Global, ports: &mut P, places: &Places) -> bool {
    let (asked, linked) = (places.asked.as_str(), places.linked.as_str());
    let (alone, unready) = (places.alone.as_str(), places.unready.as_str());
    let nowhere = "127.0.0.1:0";
    starts(alloc, ports, CHILD_TEST, "ready", asked, asked)
        && starts(alloc, ports, CHILD_TEST, "ready", linked, linked)
        && starts(alloc, ports, CHILD_TEST, "ready", alone, alone)
        && starts(alloc, ports, CHILD_TEST, "ready", nowhere, "no port")
        && !starts(alloc, ports, CHILD_TEST, "really", unready, unready)
        && !starts(alloc, ports, "no test", "ready", nowhere, "no port")
}

/// Whether the child at the first place answers, and one at the second is reached.
fn answers<P: Ports>(ports: &mut P, asked: &str, linked: &str) -> bool {
    let mut text = [0; 2];
    ports.open(Port::Link(1), asked).is_ok()
        && write_all(ports, Port::Link(1), b"hi").is_ok()
        && ports.open(Port::Link(2), linked).is_ok()
        && read_exactly(ports, Port::Link(1), &mut text) == Filled::Full
        && text == *b"hi"
}

/// Starts all children, and asks the first. Whether each call ends as it should.
fn starts_and_asks<P: Ports>(alloc: Global, ports: &mut P, places: &Places) -> bool {
    starts_all(alloc, ports, places) && answers(ports, &places.asked, &places.linked)
}

/// Whether nobody listens at the address.
fn is_left<P: Ports>(ports: &mut P, address: &str) -> bool {
    ports.open(Port::Link(3), address).is_err()
}

/// Whether nobody listens at any of the places.
fn all_are_left<P: Ports>(ports: &mut P, places: &Places) -> bool {
    is_left(ports, &places.asked)
        && is_left(ports, &places.linked)
        && is_left(ports, &places.alone)
        && is_left(ports, &places.unready)
}

/// Whether children start and answer as they should, and none is left behind.
fn leaves_no_child<R: Net + AllocGlobal, P: ParentPorts>(
    rt: &R,
    ports: &mut P,
) -> io::Result<bool> {
    let places = free_places(rt)?;
    let well = starts_and_asks(rt.alloc(), ports, &places);
    ports.end_all();
    let left = all_are_left(ports, &places);
    Ok(well && left)
}

/// Whether none of the ports can be read.
fn none_is_read<P: Ports>(ports: &mut P, all: &[Port]) -> bool {
    for port in all {
        if ports.take(*port, &mut [0; 1]).is_ok() {
            return false;
        }
    }
    true
}

/// Whether none of the ports can be written.
fn none_is_written<P: Ports>(ports: &mut P, all: &[Port]) -> bool {
    for port in all {
        if ports.give(*port, b"a").is_ok() {
            return false;
        }
    }
    true
}

/// Whether nothing can be opened in a way that isn't the port's.
fn none_is_opened<P: Ports>(ports: &mut P) -> bool {
    ports.open(Port::Output, "-").is_err()
        && ports.open(Port::Door, "no port").is_err()
        && ports.open(Port::Link(1), "no port").is_err()
        && ports.open(Port::Child(1), "-").is_err()
        && ports.next_guest().is_err()
}

#[rattlefmt::skip]
const CLOSED: [Port; 9] = [
    Port::Input, Port::Database, Port::Coins, Port::Record, Port::Door, Port::Guest, Port::Link(1), Port::Child(1),
    Port::Share(1),
];

/// Whether what is closed or used in another way fails.
fn all_fails<P: Ports>(ports: &mut P) -> bool {
    none_is_opened(ports)
        && none_is_read(ports, &CLOSED)
        && none_is_read(ports, &[Port::Output])
        && none_is_written(ports, &CLOSED)
}

/// What is tried on the ports.
#[derive(Clone, Copy)]
enum Trial {
    Record,
    Share,
    Links,
    Guests,
    Child,
    Children,
    Misuse,
}

/// Whether it goes well.
fn goes_well<P: ParentPorts>(rt: HostRuntime, ports: &mut P, trial: Trial) -> io::Result<bool> {
    match trial {
        Trial::Record => keeps_file(rt, ports, false),
        Trial::Share => keeps_file(rt, ports, true),
        Trial::Links => links_carry_on_loopback(&rt, ports),
        Trial::Guests => meets_two(&rt, ports),
        Trial::Child => is_a_child_if_asked(&rt, ports),
        Trial::Children => leaves_no_child(&rt, ports),
        Trial::Misuse => Ok(all_fails(ports)),
    }
}

/// Whether it goes well on these ports, which are let go.
fn goes_well_on<P: ParentPorts + Drop>(
    rt: HostRuntime,
    mut ports: P,
    trial: Trial,
) -> io::Result<bool> {
    goes_well(rt, &mut ports, trial)
}

/// Whether it goes well on the ports of the system.
fn goes_well_here(rt: HostRuntime, trial: Trial) -> io::Result<bool> {
    let ports = OsPorts::new(&rt)?;
    goes_well_on(rt, ports, trial)
}

#[test]
fn a_record_is_read_back(rt: HostRuntime) -> Result<(), Fail> {
    assert!(rt; goes_well_here(rt, Trial::Record)?);
    Ok(())
}

#[test]
fn a_share_is_read_back(rt: HostRuntime) -> Result<(), Fail> {
    assert!(rt; goes_well_here(rt, Trial::Share)?);
    Ok(())
}

#[test]
fn links_carry_bytes_both_ways(rt: HostRuntime) -> Result<(), Fail> {
    assert!(rt; goes_well_here(rt, Trial::Links)?);
    Ok(())
}

#[test]
fn guests_come_in_one_after_another(rt: HostRuntime) -> Result<(), Fail> {
    assert!(rt; goes_well_here(rt, Trial::Guests)?);
    Ok(())
}

// No test of its own, but what a child runs.
#[test]
fn be_a_child_if_asked(rt: HostRuntime) -> Result<(), Fail> {
    assert!(rt; goes_well_here(rt, Trial::Child)?);
    Ok(())
}

#[test]
fn no_child_is_left_behind(rt: HostRuntime) -> Result<(), Fail> {
    assert!(rt; goes_well_here(rt, Trial::Children)?);
    Ok(())
}

#[test]
fn what_is_closed_or_used_in_another_way_fails(rt: HostRuntime) -> Result<(), Fail> {
    assert!(rt; goes_well_here(rt, Trial::Misuse)?);
    Ok(())
}
