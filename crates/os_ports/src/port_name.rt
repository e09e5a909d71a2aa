// The names of ports in words.
use port_trait::Port;
use std::fmt::{self, Display, Formatter, Write};

/// A port as a text calls it: `coins`, `link 3`.
#[derive(Clone, Copy)]
pub struct PortName(pub Port);

// What kind of port it is, and which of its kind.
fn words(port: Port) -> (&'static str, Option<u8>) {
    match port {
        Port::Input => ("input", None),
        Port::Output => ("output", None),
        Port::Database => ("database", None),
        Port::Coins => ("coins", None),
        Port::Record => ("record", None),
        Port::Door => ("door", None),
        Port::Guest => ("guest", None),
        Port::Link(i) => ("link", Some(i)),
        Port::Child(i) => ("child", Some(i)),
        Port::Share(i) => ("share", Some(i)),
    }
}

impl Display for PortName {
    fn fmt<W: Write>(&self, f: &mut Formatter<W>) -> fmt::Result {
        match words(self.0) {
            (kind, None) => f.write_str(kind),
            (kind, Some(i)) => write!(f, "{kind} {i}"),
        }
    }
}
