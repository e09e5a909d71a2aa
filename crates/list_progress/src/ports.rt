//! Ports that show how far a run is.

ghost use Rattle.std.specs.Prelude.{◌≡◌};

use crate::line::Line;
use crate::progress::{Progress, Stage};
use port_trait::{Failed, Port, Ports};
use std::io::Eprint;
use std::time::Clock;

/// What is shown of a run, and where.
#[derive(Drop)]
struct Shown<R: Drop> {
    progress: Progress,
    line: Line<R>,
    // Whether a person types what standard input has.
    is_typed: bool,
    // Whether keys are looked for: then lines are theirs.
    is_search: bool,
}

impl<R: Clock + Eprint + AllocGlobal + Drop> Shown<R> {
    /// Shows how far the run is, where it is time for that.
    fn show(&mut self) {
        self.line.show(&self.progress);
    }

    /// The port is about to be opened by this name. Lines that a person types, and those of keys, are counted alone.
    fn note_opening(&mut self, p: Port, name: &str) {
        match p {
            Port::Database => self.is_search = true,
            Port::Input => {
                if !(self.is_search || self.is_typed && name == "-") {
                    self.progress.enter(Stage::Reading);
                }
            }
            Port::Record => self.progress.enter(Stage::Writing),
            Port::Link(1) => self.progress.begin_query(),
            _ => {}
        }
        self.show();
    }

    /// The port is about to be read.
    fn note_taking(&mut self, p: Port) {
        if let Port::Link(_) = p {
            self.show();
        }
    }

    /// The port handed out a prefix of these bytes.
    fn note_taken(&mut self, p: Port, into: &[u8], count: usize) {
        if p == Port::Input && count <= into.len() {
            self.progress.add_lines(&into[..count]);
            self.show();
        }
    }

    /// The port is about to be given a piece. What is written for a person to read comes where the line was.
    fn note_giving(&mut self, p: Port, piece: &[u8]) {
        match p {
            Port::Link(1) => {
                self.progress.add_frame(piece);
                self.show();
            }
            Port::Output => self.end(),
            _ => {}
        }
    }

    /// The port took a prefix of a piece.
    fn note_given(&mut self, p: Port, piece: &[u8], count: usize) {
        if p == Port::Record {
            self.progress.add_rows(piece, count);
            self.show();
        }
    }

    /// Clears the line. Nothing more is shown.
    fn end(&mut self) {
        self.progress.enter(Stage::Quiet);
        self.line.clear();
    }
}

/// Ports that hand each call on to others. Where somebody looks, they show how far the run is by what passes them.
#[derive(Drop)]
pub struct ProgressPorts<P: Drop, R: Drop> {
    /// The ports that each call is handed on to.
    pub ports: P,
    // Where somebody looks.
    shown: Option<Shown<R>>,
}

impl<P: Drop, R: Clock + Eprint + AllocGlobal + Drop> ProgressPorts<P, R> {
    /// Ports that show nothing.
    pub fn without_line(ports: P) -> Self
        ensures { result.ports ≡ ports }
    {
        ProgressPorts { ports, shown: None }
    }

    /// Ports that show how far the run is, on the terminal at standard error of this runtime. `is_typed` says whether
    /// standard input is a terminal too: its lines aren't shown then, since a person types them there.
    pub fn with_line(ports: P, rt: R, is_typed: bool) -> Self
        ensures { result.ports ≡ ports }
    {
        let shown = Shown {
            progress: Progress::new(),
            line: Line::new(rt),
            is_typed,
            is_search: false,
        };
        ProgressPorts {
            ports,
            shown: Some(shown),
        }
    }

    /// Clears the line. Nothing more is shown.
    pub fn end_line(&mut self)
        ensures { self.new.ports ≡ self.old.ports }
    {
        if let Some(shown) = &mut self.shown {
            shown.end();
        }
    }
}

impl<P, R> Ports for ProgressPorts<P, R>
where
    P: Ports + Drop,
    R: Clock + Eprint + AllocGlobal + Drop,
{
    ghost world = { λ s. P.world s.ports };

    fn open(&mut self, p: Port, name: &str) -> Result<(), Failed> {
        if let Some(shown) = &mut self.shown {
            shown.note_opening(p, name);
        }
        self.ports.open(p, name)
    }

    fn take(&mut self, p: Port, into: &mut [u8]) -> Result<usize, Failed> {
        if let Some(shown) = &mut self.shown {
            shown.note_taking(p);
        }
        let taken = self.ports.take(p, into);
        if let (Some(shown), Ok(count)) = (&mut self.shown, taken) {
            shown.note_taken(p, into, count);
        }
        taken
    }

    fn give(&mut self, p: Port, piece: &[u8]) -> Result<usize, Failed> {
        if let Some(shown) = &mut self.shown {
            shown.note_giving(p, piece);
        }
        let given = self.ports.give(p, piece);
        if let (Some(shown), Ok(count)) = (&mut self.shown, given) {
            shown.note_given(p, piece, count);
        }
        given
    }

    fn next_guest(&mut self) -> Result<(), Failed> {
        self.ports.next_guest()
    }

    fn start_child(&mut self, i: u8, words: &[String]) -> Result<(), Failed> {
        self.ports.start_child(i, words)
    }
}
