//! The cases of a file.

use crate::bytes::{Names, is_plain, read_bytes};
use crate::case::Case;
use crate::fault::Fault;
use crate::lines::{Line, split_word};
use crate::setup_lines::read_setup;
use std::alloc::{AllocError, Global};
use std::collections::BTreeMap;

/// A line that can't be read, counted from 0 among those of its file, and why.
#[derive(Drop)]
pub struct Unread {
    pub line: usize,
    pub fault: Fault,
}

/// The cases of a file, the lines of it that can't be read, and the bytes that have names so far.
#[derive(Drop)]
pub struct Reader {
    pub cases: Vec<Case>,
    pub unread: Vec<Unread>,
    names: Names,
    /// Whether the last case goes on.
    open: bool,
}

impl Reader {
    /// A reader that has read nothing yet.
    pub fn new(alloc: Global) -> Self {
        Reader {
            cases: Vec::new(alloc),
            unread: Vec::new(alloc),
            names: BTreeMap::new(alloc),
            open: false,
        }
    }

    /// Reads the lines of a file.
    pub fn read(&mut self, alloc: Global, lines: &[Line]) -> Result<(), AllocError> {
        for (i, line) in lines.iter().enumerate() {
            if let Err(fault) = self.read_line(alloc, line) {
                self.unread.push(Unread { line: i, fault })?;
            }
        }
        Ok(())
    }

    /// Reads one line.
    fn read_line(&mut self, alloc: Global, line: &Line) -> Result<(), Fault> {
        let (word, rest) = split_word(line.text.as_str());
        match word {
            "case" => self.begin(alloc, line.number, rest),
            "bytes" => self.name(alloc, rest),
            _ => self.go_on(alloc, word, rest),
        }
    }

    /// Begins a case.
    fn begin(&mut self, alloc: Global, line: usize, name: &str) -> Result<(), Fault> {
        let name = String::from_str(alloc, name)?;
        self.cases.push(Case::new(alloc, line, name))?;
        self.open = true;
        Ok(())
    }

    /// Gives bytes the name at the head of the text.
    fn name(&mut self, alloc: Global, text: &str) -> Result<(), Fault> {
        self.open = false;
        let (name, rest) = split_word(text);
        if is_plain(name) {
            return Err(Fault::Form("a name isn't an even number of hexadecimal digits"));
        }
        let bytes = read_bytes(alloc, &self.names, rest)?;
        self.names.insert(String::from_str(alloc, name)?, bytes)?;
        Ok(())
    }

    /// Reads a line of the last case.
    fn go_on(&mut self, alloc: Global, word: &str, rest: &str) -> Result<(), Fault> {
        match self.cases.last_mut() {
            Some(case) if self.open => {
                let read = read_setup(alloc, &self.names, case, word, rest);
                case.sound = case.sound && read.is_ok();
                read
            }
            _ => Err(Fault::Form("this line stands in no case")),
        }
    }
}
