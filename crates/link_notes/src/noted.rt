//! Ports that note what each link gave, for whoever asks why a run ended as it did.
ghost use Rattle.std.specs.Prelude.{◌≡◌, [], None, string_bytes};
ghost use Rattle.std.specs.Option.{option_copied, option_map};

use crate::exchange::Exchange;
use port_trait::{Failed, Port, Ports};
use std::alloc::{AllocError, Global};

/// What is noted of a run's calls: what went over each link since it was last opened, the first address without a port that
/// couldn't be opened, and the file of the session that is read or recorded.
#[derive(Drop)]
pub struct Notes {
    alloc: Global,
    exchanges: Vec<Exchange>,
    portless: Option<String>,
    session_file: Option<String>,
}

/// Whether an address ends with a colon and the digits of a port.
fn has_port(address: &str) -> bool {
    match address.rsplit_once(':') {
        Some((_, port)) => !port.is_empty() && port.bytes().all(|digit| digit.is_ascii_digit()),
        None => false,
    }
}

impl Notes {
    /// Nothing is noted so far.
    pub fn new(alloc: Global) -> Self
        ensures links { result.exchanges.items ≡ [] }
        ensures names { (result.portless ≡ None) × (result.session_file ≡ None) }
    {
        Notes {
            alloc,
            exchanges: Vec::new(alloc),
            portless: None,
            session_file: None,
        }
    }

    /// What went over each link that was opened.
    pub(crate) fn exchanges(&self) -> &[Exchange]
        ensures { result.now ≡ self.now.exchanges.items }
    {
        &self.exchanges
    }

    /// The first address without a port that couldn't be opened.
    pub(crate) fn portless(&self) -> Option<&str>
        ensures { option_copied result ≡ option_map string_bytes self.now.portless }
    {
        Some(self.portless.as_ref()?.as_str())
    }

    /// The file of the session that is read or recorded.
    pub(crate) fn session_file(&self) -> Option<&str>
        ensures { option_copied result ≡ option_map string_bytes self.now.session_file }
    {
        Some(self.session_file.as_ref()?.as_str())
    }

    // What went over the link, where it was opened.
    fn exchange(&mut self, link: u8) -> Option<&mut Exchange> {
        for exchange in &mut self.exchanges {
            if exchange.link() == link {
                return Some(exchange);
            }
        }
        None
    }

    // A link was opened: what went over it before is forgotten.
    fn start(&mut self, link: u8) -> Result<(), AllocError> {
        match self.exchange(link) {
            Some(exchange) => *exchange = Exchange::new(link),
            None => self.exchanges.push(Exchange::new(link))?,
        }
        Ok(())
    }

    // A port was opened by this name, or couldn't be. Where there is no memory, it isn't noted.
    fn note_opened(&mut self, p: Port, name: &str, is_open: bool) -> Result<(), AllocError> {
        match p {
            Port::Link(_) | Port::Door if !is_open => {
                if self.portless.is_none() && !has_port(name) {
                    self.portless = Some(String::from_str(self.alloc, name)?);
                }
            }
            Port::Link(link) => self.start(link)?,
            Port::Input | Port::Record if is_open => {
                self.session_file = Some(String::from_str(self.alloc, name)?);
            }
            _ => {}
        }
        Ok(())
    }

    // The link handed out a prefix of these bytes, or a call failed.
    fn note_taken(&mut self, p: Port, into: &[u8], taken: Result<usize, Failed>) {
        let Port::Link(link) = p else {
            return;
        };
        let Some(exchange) = self.exchange(link) else {
            return;
        };
        match taken {
            Ok(count) if count <= into.len() => exchange.add_answer(&into[..count]),
            _ => exchange.fail(),
        }
    }

    // The link took a prefix of these bytes, or a call failed.
    fn note_given(&mut self, p: Port, piece: &[u8], given: Result<usize, Failed>) {
        let Port::Link(link) = p else {
            return;
        };
        let Some(exchange) = self.exchange(link) else {
            return;
        };
        match given {
            Ok(count) if count <= piece.len() => exchange.add_query(&piece[..count]),
            _ => exchange.fail(),
        }
    }
}

/// Ports that hand each call on to others. Where that is asked for, they note what each link gave.
#[derive(Drop)]
pub struct NotedPorts<P: Drop> {
    /// The ports that each call is handed on to.
    pub ports: P,
    /// What is noted, where that is asked for.
    pub notes: Option<Notes>,
}

impl<P: Ports + Drop> Ports for NotedPorts<P> {
    ghost world = { λ s. P.world s.ports };

    fn open(&mut self, p: Port, name: &str) -> Result<(), Failed> {
        let opened = self.ports.open(p, name);
        if let Some(notes) = &mut self.notes {
            let _ = notes.note_opened(p, name, opened.is_ok());
        }
        opened
    }

    fn take(&mut self, p: Port, into: &mut [u8]) -> Result<usize, Failed> {
        let taken = self.ports.take(p, into);
        if let Some(notes) = &mut self.notes {
            notes.note_taken(p, into, taken);
        }
        taken
    }

    fn give(&mut self, p: Port, piece: &[u8]) -> Result<usize, Failed> {
        let given = self.ports.give(p, piece);
        if let Some(notes) = &mut self.notes {
            notes.note_given(p, piece, given);
        }
        given
    }

    fn next_guest(&mut self) -> Result<(), Failed> {
        self.ports.next_guest()
    }

    fn start_child(&mut self, i: u8, words: &[String]) -> Result<(), Failed> {
        self.ports.start_child(i, words)
    }
}
