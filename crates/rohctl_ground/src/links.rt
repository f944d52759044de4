//! The links file, from the path to the concentrator, as rohcd takes it. Its faults are printed.

use crate::ending::{Ending, STREAM};
use crate::printable::printed;
use rohc_concentrator::{Concentrator, SetupFault};
use rohc_faults::{Finding, all_faults, findings, no_toml, write_sentence};
use rohc_links::{Links, LinksFault, read_links};
use rohc_text::Reason;
use std::alloc::{AllocError, Global};
use std::io::{Read, Write};
use std::rt::Files;
use std::{fs, io};
use toml::Table;

/// The longest links file, in octets.
const LONGEST_FILE: u64 = 1_048_576;

/// How many faults of a refused links file are printed.
const MOST_FAULTS: usize = 3;

/// Reads a text, up to the limit and no further.
fn text_of<S: Read + Drop>(alloc: Global, source: S) -> Result<String, Reason> {
    let mut octets = Vec::new(alloc);
    let mut limited = source.take(LONGEST_FILE + 1);
    limited
        .read_to_end(&mut octets)
        .map_err(|error| Reason::of(&error))?;
    if octets.len() as u64 > LONGEST_FILE {
        return Err(Reason::TooLong(LONGEST_FILE));
    }
    String::from_utf8(octets).map_err(|_| Reason::NotUtf8)
}

/// The text of a file; `-` is standard input.
pub fn text_at<R: Files + Input + AllocGlobal>(rt: &R, path: &str) -> Result<String, Reason> {
    if path == STREAM {
        return text_of(rt.alloc(), rt.reader());
    }
    let file = fs::open(rt, path).map_err(|error| Reason::of(&error))?;
    text_of(rt.alloc(), file)
}

/// The text of the links file; `-` is standard input.
pub fn links_text<'a, R>(rt: &R, path: &'a str) -> Result<String, Ending<'a>>
where
    R: Files + Input + AllocGlobal,
{
    match text_at(rt, path) {
        Ok(text) => Ok(text),
        Err(Reason::Memory) => Err(Ending::Memory),
        Err(reason) => Err(Ending::LinksUnread(path, reason)),
    }
}

/// Writes the first faults of a links file, and how many more there are.
fn write_first<W: Write>(out: &mut W, path: &str, all: &[Finding<'_>]) -> io::Result<()> {
    for finding in all.iter().take(MOST_FAULTS) {
        write!(out, "rohctl: ")?;
        write_sentence(out, path, finding)?;
    }
    let more = all.len().saturating_sub(MOST_FAULTS);
    if more > 0 {
        writeln!(out, "rohctl: {path}: {more} more; 'rohctl links' shows all")?;
    }
    Ok(())
}

/// The first faults of a TOML document, as lines.
fn table_lines(
    alloc: Global,
    path: &str,
    text: &str,
    table: &Table,
) -> Result<Vec<u8>, AllocError> {
    let faults = all_faults(alloc, table)?;
    let all = findings(alloc, text, table, &faults)?;
    let mut lines = Vec::new(alloc);
    match write_first(&mut lines, path, all.as_slice()) {
        Ok(()) => Ok(lines),
        Err(_) => Err(AllocError),
    }
}

/// The first faults of a text, as lines.
fn fault_lines(alloc: Global, path: &str, text: &str) -> Result<Vec<u8>, AllocError> {
    match toml::table_from_str(alloc, text) {
        Ok(table) => table_lines(alloc, path, text, &table),
        Err(error) if error.is_memory() => Err(AllocError),
        Err(error) => {
            let mut lines = Vec::new(alloc);
            match write_first(&mut lines, path, &[no_toml(text, &error)]) {
                Ok(()) => Ok(lines),
                Err(_) => Err(AllocError),
            }
        }
    }
}

/// Prints the first faults of a refused text. Returns how the run ends.
fn refused<R: Eprint + AllocGlobal>(rt: &R, path: &str, text: &str) -> Ending<'static> {
    let Ok(path) = printed(rt.alloc(), path) else {
        return Ending::Memory;
    };
    let Ok(lines) = fault_lines(rt.alloc(), path.as_str(), text) else {
        return Ending::Memory;
    };
    let _ = match String::from_utf8(lines) {
        Ok(lines) => eprint!(rt; "{lines}"),
        Err(_) => eprintln!(rt; "rohctl: {path}: the links file is refused"),
    };
    Ending::LinksFile
}

/// The links of a file that rohcd takes.
pub fn good_links<'a, R>(rt: &R, path: &'a str) -> Result<Links, Ending<'a>>
where
    R: Files + Input + Eprint + AllocGlobal,
{
    let text = links_text(rt, path)?;
    let links = match read_links(rt.alloc(), text.as_str()) {
        Ok(links) => links,
        Err(LinksFault::NoMemory) => return Err(Ending::Memory),
        Err(_) => return Err(refused(rt, path, text.as_str())),
    };
    match Concentrator::new(rt.alloc(), links.settings()) {
        Ok(_) => Ok(links),
        Err(SetupFault::NoMemory) => Err(Ending::Memory),
        Err(_) => Err(refused(rt, path, text.as_str())),
    }
}

/// A concentrator with the links of the file, without a record.
pub fn concentrator_of<'a, R>(rt: &R, path: &'a str) -> Result<Concentrator, Ending<'a>>
where
    R: Files + Input + Eprint + AllocGlobal,
{
    let links = good_links(rt, path)?;
    Concentrator::new(rt.alloc(), links.settings()).map_err(|_| Ending::Memory)
}
