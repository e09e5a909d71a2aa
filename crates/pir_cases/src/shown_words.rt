//! Commands, as a table of words writes them.

use pir_words::Asked;
use std::fmt;
use std::fmt::{Formatter, Write};

/// A command with its values; each text stands between `<` and `>`.
#[derive(Clone, Copy)]
pub struct Shown<'a>(pub &'a Asked);

impl fmt::Display for Shown<'_> {
    fn fmt<W: Write>(&self, f: &mut Formatter<W>) -> fmt::Result {
        match self.0 {
            Asked::Replay { file, report } => replay(f, file.as_str(), *report),
            Asked::Fetch { .. } => fetch(f, self.0),
            Asked::Serve { .. } => serve(f, self.0),
            Asked::Selfrun { .. } => selfrun(f, self.0),
            Asked::Demo { .. } => demo(f, self.0),
            Asked::Lookup { .. } => lookup(f, self.0),
            Asked::Split { .. } => split(f, self.0),
            Asked::Front { .. } => front(f, self.0),
        }
    }
}

/// Writes a name and a number.
fn number<W: Write>(f: &mut Formatter<W>, name: &str, value: u64) -> fmt::Result {
    write!(f, "{name} {value}")
}

/// Writes a name and a text.
fn text<W: Write>(f: &mut Formatter<W>, name: &str, value: &str) -> fmt::Result {
    write!(f, "{name} <{value}>")
}

/// Writes the shape of a database, with the block that is fetched.
fn shape<W: Write>(f: &mut Formatter<W>, rows: u32, width: u32) -> fmt::Result {
    write!(f, " rows {rows} width {width}")
}

/// Writes the blocks that are fetched, with commas between them.
fn numbers<W: Write>(f: &mut Formatter<W>, blocks: &[u32]) -> fmt::Result {
    let mut before = " block ";
    for block in blocks {
        write!(f, "{before}{block}")?;
        before = ",";
    }
    Ok(())
}

/// Writes a degree and an agreement.
fn agreement<W: Write>(f: &mut Formatter<W>, degree: u8, agree: u8) -> fmt::Result {
    write!(f, " degree {degree} agree {agree}")
}

/// Writes ` report` where one is wanted.
fn wanted<W: Write>(f: &mut Formatter<W>, report: bool) -> fmt::Result {
    if report {
        f.write_str(" report")
    } else {
        Ok(())
    }
}

/// Writes `replay` with its values.
fn replay<W: Write>(f: &mut Formatter<W>, file: &str, report: bool) -> fmt::Result {
    text(f, "replay", file)?;
    wanted(f, report)
}

/// Writes `fetch` with its values.
fn fetch<W: Write>(f: &mut Formatter<W>, asked: &Asked) -> fmt::Result {
    let Asked::Fetch {
        scheme,
        rows,
        width,
        blocks,
        degree,
        tau,
        agree,
        coins,
        keep,
        report,
        addresses,
        ..
    } = asked
    else {
        return Ok(());
    };
    number(f, "fetch scheme", u64::from(*scheme))?;
    shape(f, *rows, *width)?;
    numbers(f, blocks.as_slice())?;
    agreement(f, *degree, *agree)?;
    if *tau > 0 {
        number(f, " tau", u64::from(*tau))?;
    }
    text(f, " coins", coins.as_str())?;
    match keep {
        Some(name) => text(f, " record", name.as_str())?,
        None => f.write_str(" record -")?,
    }
    wanted(f, *report)?;
    f.write_str(" from ")?;
    for address in addresses.as_slice() {
        write!(f, "<{address}>")?;
    }
    Ok(())
}

/// Writes `serve` with its values.
fn serve<W: Write>(f: &mut Formatter<W>, asked: &Asked) -> fmt::Result {
    let Asked::Serve {
        scheme,
        database,
        width,
        conns,
        listen,
        workers,
    } = asked
    else {
        return Ok(());
    };
    number(f, "serve scheme", u64::from(*scheme))?;
    text(f, " database", database.as_str())?;
    number(f, " width", u64::from(*width))?;
    number(f, " conns", u64::from(*conns))?;
    text(f, " listen", listen.as_str())?;
    number(f, " workers", u64::from(*workers))
}

/// Writes `selfrun` with its values.
fn selfrun<W: Write>(f: &mut Formatter<W>, asked: &Asked) -> fmt::Result {
    let Asked::Selfrun {
        seed,
        rows,
        width,
        servers,
        degree,
        agree,
        liars,
        workers,
        slow,
    } = asked
    else {
        return Ok(());
    };
    number(f, "selfrun seed", *seed)?;
    shape(f, *rows, *width)?;
    number(f, " servers", u64::from(*servers))?;
    agreement(f, *degree, *agree)?;
    number(f, " liars", u64::from(*liars))?;
    number(f, " workers", u64::from(*workers))?;
    if *slow { f.write_str(" slow") } else { Ok(()) }
}

/// Writes `demo` with its values.
fn demo<W: Write>(f: &mut Formatter<W>, asked: &Asked) -> fmt::Result {
    let Asked::Demo {
        port,
        database,
        rows,
        width,
        block,
        servers,
        degree,
        agree,
        coins,
    } = asked
    else {
        return Ok(());
    };
    number(f, "demo port", u64::from(*port))?;
    text(f, " database", database.as_str())?;
    shape(f, *rows, *width)?;
    number(f, " block", u64::from(*block))?;
    number(f, " servers", u64::from(*servers))?;
    agreement(f, *degree, *agree)?;
    text(f, " coins", coins.as_str())
}

/// Writes `lookup` with its values, the key in hexadecimal.
fn lookup<W: Write>(f: &mut Formatter<W>, asked: &Asked) -> fmt::Result {
    let Asked::Lookup {
        rows,
        width,
        key,
        degree,
        agree,
        coins,
        addresses,
    } = asked
    else {
        return Ok(());
    };
    f.write_str("lookup")?;
    shape(f, *rows, *width)?;
    f.write_str(" key ")?;
    for byte in key.as_slice() {
        write!(f, "{byte:02x}")?;
    }
    agreement(f, *degree, *agree)?;
    text(f, " coins", coins.as_str())?;
    f.write_str(" from ")?;
    for address in addresses.as_slice() {
        write!(f, "<{address}>")?;
    }
    Ok(())
}

/// Writes `split` with its values.
fn split<W: Write>(f: &mut Formatter<W>, asked: &Asked) -> fmt::Result {
    let Asked::Split {
        database,
        width,
        servers,
        tau,
        into,
        coins,
    } = asked
    else {
        return Ok(());
    };
    text(f, "split database", database.as_str())?;
    number(f, " width", u64::from(*width))?;
    number(f, " servers", u64::from(*servers))?;
    number(f, " tau", u64::from(*tau))?;
    text(f, " into", into.as_str())?;
    text(f, " coins", coins.as_str())
}

/// Writes `front` with its values.
fn front<W: Write>(f: &mut Formatter<W>, asked: &Asked) -> fmt::Result {
    let Asked::Front {
        rows,
        width,
        shard,
        conns,
        listen,
        addresses,
    } = asked
    else {
        return Ok(());
    };
    f.write_str("front")?;
    shape(f, *rows, *width)?;
    number(f, " shard", u64::from(*shard))?;
    number(f, " conns", u64::from(*conns))?;
    text(f, " listen", listen.as_str())?;
    f.write_str(" over ")?;
    for address in addresses.as_slice() {
        write!(f, "<{address}>")?;
    }
    Ok(())
}
