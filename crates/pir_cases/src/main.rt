//! pir_cases FILE ..: runs the cases of these files.
#![tactic(auto)]

mod comparing;
mod families;
mod findings;
mod reach;
mod running;
mod shown_words;
mod tables;
mod watched;

use anyhow::{Context, Result};
use case_files::case::Case;
use case_files::lines::{Line, lines_of};
use case_files::reading::Reader;
use families::try_case;
use std::alloc::Global;
use std::process::ExitCode;
use std::thread::Threads;
use std::{env, fs, io};
use tables::answer;

/// How many cases there were, and how many of them failed.
#[derive(Clone, Copy)]
struct Tally {
    cases: u64,
    failed: u64,
}

impl Tally {
    /// Counts one case more.
    fn count(&mut self, failed: bool) {
        self.cases = self.cases.saturating_add(1);
        self.failed = self.failed.saturating_add(u64::from(failed));
    }
}

/// Runs a case, and prints what is otherwise than expected. `true` if something is.
fn run_case<R: Print + Threads + Sync>(
    rt: &R,
    alloc: Global,
    file: &str,
    case: &Case,
) -> io::Result<bool> {
    let line = case.line;
    let name = case.name.as_str();
    match try_case(rt, alloc, case) {
        Ok(found) => {
            for difference in &found.list {
                println!(rt; "{file}:{line}: {name}: {difference}")?;
            }
            Ok(!found.list.is_empty())
        }
        Err(fault) => {
            println!(rt; "{file}:{line}: {name}: {fault}")?;
            Ok(true)
        }
    }
}

/// Runs the cases of one file.
fn run_file<R: Print + Threads + Sync>(
    rt: &R,
    alloc: Global,
    file: &str,
    lines: &[Line],
    tally: &mut Tally,
) -> Result<()> {
    let mut reader = Reader::new(alloc);
    reader.read(alloc, lines)?;
    for unread in &reader.unread {
        tally.count(true);
        if let Some(line) = lines.get(unread.line) {
            println!(rt;
                "{file}:{}: can't be read: {} ({})",
                line.number, line.text, unread.fault
            )?;
        }
    }
    for case in &reader.cases {
        if case.sound {
            tally.count(run_case(rt, alloc, file, case)?);
        }
    }
    Ok(())
}

/// Goes over a row of a table, `WORDS => ANSWER`, and prints what is otherwise than expected. `true` if something is.
fn run_row<R: Print>(rt: &R, alloc: Global, file: &str, mark: &str, line: &Line) -> Result<bool> {
    let number = line.number;
    let Some((row, wanted)) = line.text.split_once("=>") else {
        println!(rt;
            "{file}:{number}: can't be read: {} (a row has `=>`)",
            line.text
        )?;
        return Ok(true);
    };
    let seen = answer(alloc, mark, row)?;
    let wanted = wanted.trim();
    if seen.as_str() != wanted {
        println!(rt; "{file}:{number}: {row}: {seen} where {wanted} is expected")?;
    }
    Ok(seen.as_str() != wanted)
}

/// Goes over a table of words.
fn run_table<R: Print>(
    rt: &R,
    alloc: Global,
    file: &str,
    lines: &[Line],
    tally: &mut Tally,
) -> Result<()> {
    let mut mark = "";
    for line in lines {
        match line.text.strip_prefix("mark $ ") {
            Some(words) => mark = words,
            None => tally.count(run_row(rt, alloc, file, mark, line)?),
        }
    }
    Ok(())
}

fn main(rt: HostRuntime) -> Result<ExitCode> {
    let alloc = rt.alloc();
    let mut tally = Tally {
        cases: 0,
        failed: 0,
    };
    for file in env::args(&rt)?.skip(1) {
        let file = file.as_str();
        let text = fs::read_to_string(&rt, file).context(format_args!("{file}"))?;
        let lines = lines_of(alloc, text.as_str())?;
        if file.ends_with(".words") {
            run_table(&rt, alloc, file, &lines, &mut tally)?;
        } else {
            run_file(&rt, alloc, file, &lines, &mut tally)?;
        }
    }
    println!(rt; "{} cases, {} failed", tally.cases, tally.failed)?;
    Ok(ExitCode::from(u8::from(tally.failed > 0)))
}
