// Why calls on ports failed, for whoever asks.
use crate::port_name::PortName;
use crate::standard_error::StandardError;
use port_trait::Port;
use std::alloc::{AllocError, Global};
use std::collections::BTreeMap;
use std::io::{self, Eprint};
use std::net::{Net, SocketAddr};

/// Says on standard error why a call failed, where that is asked for: with the port, the file or address that it was opened
/// by, and the system's words. Nothing that a port hands out or takes is ever said. A line is dropped that would be waited
/// for, so that nobody who leaves standard error full stops a server.
#[derive(Drop)]
pub struct Explainer {
    // Where that is asked for.
    error: Option<StandardError>,
    alloc: Global,
    // By the ports' numbers, what each was last opened by.
    names: BTreeMap<usize, String>,
    guest: Option<SocketAddr>,
}

impl Explainer {
    /// No port was opened so far.
    pub fn new<R: Net + AllocGlobal>(rt: &R, is_asked: bool) -> Self {
        let alloc = rt.alloc();
        Explainer {
            error: if is_asked {
                Some(StandardError::watch(rt))
            } else {
                None
            },
            alloc,
            names: BTreeMap::new(alloc),
            guest: None,
        }
    }

    /// A call to open the port by this name ended so. Where there is no memory to keep the name, the lines to come lack it.
    pub fn note_opened(&mut self, p: Port, name: &str, opened: &io::Result<()>) {
        if opened.is_ok() && self.error.is_some() {
            let _ = self.keep(p, name);
        }
    }

    /// The guest who is in came from this address.
    pub fn note_guest(&mut self, address: SocketAddr) {
        self.guest = Some(address);
    }

    fn keep(&mut self, p: Port, name: &str) -> Result<(), AllocError> {
        let name = String::from_str(self.alloc, name)?;
        self.names.insert(p.number(), name)?;
        Ok(())
    }

    // What the port was last opened by.
    fn name_of(&self, p: Port) -> Option<&str> {
        Some(self.names.get(&p.number())?.as_str())
    }

    // Whether a line is asked for and taken at once.
    fn has_room(&mut self) -> bool {
        match &mut self.error {
            Some(error) => error.has_room(),
            None => false,
        }
    }

    /// Says that a call on the port failed with this error, where that is asked for. A name is that of a call which has
    /// one of its own, as opening has.
    pub fn explain<R: Eprint>(&mut self, rt: &R, p: Port, name: Option<&str>, error: &io::Error) {
        if self.has_room() {
            let port = PortName(p);
            // A line that can't be written is lost: the failed call is counted all the same.
            let _ = match (name.or(self.name_of(p)), self.guest) {
                (None, Some(guest)) if p == Port::Guest => eprintln!(rt;
                    "pir: {port} {guest}: {error}"
                ),
                (Some(name), _) => eprintln!(rt; "pir: {port} {name}: {error}"),
                (None, _) => eprintln!(rt; "pir: {port}: {error}"),
            };
        }
    }
}
