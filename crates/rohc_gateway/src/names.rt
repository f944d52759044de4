//! What the gateway file says of links: their names and limits, and numbers that the links file doesn't have.

use crate::lines::Lines;
use crate::links_file::NoLinks;
use crate::regular::write_unread;
use crate::setup::A_FILE;
use rohc_concentrator::Concentrator;
use rohc_disk::RealDisk;
use rohc_gateway_file::{LinkNote, Options, Reading, read_config, write_place};
use rohc_loop::read_text;
use rohc_station::LinkLimits;
use rohc_text::{Reason, write_json_text};
use std::alloc::Global;
use std::io::{ErrorKind, Write};
use std::rt::Files;
use std::{fmt, io};

/// The name of the fault for a gateway file that a reload refuses.
const BAD_FILE: &str = "GatewayFile";

/// The error for lack of memory.
fn no_memory() -> io::Error {
    io::Error::from(ErrorKind::OutOfMemory)
}

/// What a gateway file that was read says of links; `None` if it has faults, which the lines say.
fn judged(
    file: &str,
    reading: Reading<'_>,
    lines: &mut Lines,
) -> io::Result<Option<Vec<LinkNote>>> {
    for fault in &reading.faults {
        fault.write(lines, file)?;
    }
    if !reading.faults.is_empty() {
        return Ok(None);
    }
    let config = reading.config;
    Ok(Some(config.notes))
}

/// What a gateway file with this text says of links; `None` if it is refused, which the lines say.
fn notes_in(
    alloc: Global,
    file: &str,
    text: &str,
    options: &Options<'_>,
    lines: &mut Lines,
) -> io::Result<Option<Vec<LinkNote>>> {
    match read_config(alloc, file, text, options) {
        Ok(reading) => judged(file, reading, lines),
        Err(unread) => {
            unread.write(lines, file, text)?;
            Ok(None)
        }
    }
}

/// Reads what the gateway file says of links; `None` if it is refused, which the lines say. Lack of memory is the error.
fn notes_of<R: Files + AllocGlobal>(
    rt: &R,
    file: &str,
    options: &Options<'_>,
    lines: &mut Lines,
) -> io::Result<Option<Vec<LinkNote>>> {
    match read_text(&mut RealDisk::of(rt), rt.alloc(), file) {
        Ok(text) => notes_in(rt.alloc(), file, text.as_str(), options, lines),
        Err(Reason::Memory) => Err(no_memory()),
        Err(reason) => {
            write_unread(rt, lines, file, reason, A_FILE)?;
            Ok(None)
        }
    }
}

/// Reads what the gateway file says of links, for a reload.
pub(crate) fn read_notes<R: Files + AllocGlobal>(
    rt: &R,
    file: &str,
    options: &Options<'_>,
) -> Result<Vec<LinkNote>, NoLinks> {
    let mut lines = Lines::new(rt.alloc());
    match notes_of(rt, file, options, &mut lines) {
        Ok(Some(notes)) => Ok(notes),
        Ok(None) => Err(NoLinks::Refused(BAD_FILE, lines)),
        Err(_) => Err(NoLinks::Memory),
    }
}

/// The name of a link, if it has one.
pub(crate) fn name_of(notes: &[LinkNote], link: u16) -> Option<&str> {
    for note in notes {
        if note.number == link
            && let Some(name) = &note.name
        {
            return Some(name.as_str());
        }
    }
    None
}

/// The limits of a link; none if the file doesn't name it.
pub(crate) fn limits_of(notes: &[LinkNote], link: u16) -> LinkLimits {
    for note in notes {
        if note.number == link {
            return LinkLimits {
                new_contexts: note.new_contexts_per_second,
                feedback: note.feedback_per_second,
                payload: note.payload,
            };
        }
    }
    LinkLimits::none()
}

/// A link as the log shows it: its number, and its name if it has one.
#[derive(Clone, Copy)]
pub(crate) struct Shown<'a> {
    pub(crate) link: u16,
    pub(crate) name: Option<&'a str>,
}

impl fmt::Display for Shown<'_> {
    fn fmt<W: fmt::Write>(&self, f: &mut fmt::Formatter<W>) -> fmt::Result {
        let Shown { link, name } = *self;
        match name {
            Some(name) => write!(f, "link {link} ({name})"),
            None => write!(f, "link {link}"),
        }
    }
}

/// Writes a line for each table [[link]] of the gateway file at this path whose number the links file doesn't have.
pub(crate) fn write_unknown_links<W: Write>(
    out: &mut W,
    file: &str,
    notes: &[LinkNote],
    concentrator: &Concentrator,
) -> io::Result<()> {
    for note in notes {
        let (number, table) = (note.number, note.table);
        if !concentrator.tables().contains_key(&number) {
            write_place(out, file, note.place)?;
            writeln!(
                out,
                "link table {table}: link {number} is not in the links file"
            )?;
        }
    }
    Ok(())
}

/// Writes a text as the value of a label of Prometheus.
fn write_label<W: Write>(out: &mut W, text: &str) -> io::Result<()> {
    for character in text.chars() {
        match character {
            '"' => write!(out, "\\\"")?,
            '\\' => write!(out, "\\\\")?,
            _ => write!(out, "{character}")?,
        }
    }
    Ok(())
}

/// Writes the metric that shows the names of the links that have one.
pub(crate) fn write_link_info<W: Write>(
    out: &mut W,
    notes: &[LinkNote],
    concentrator: &Concentrator,
) -> io::Result<()> {
    let metric = "polorowan_link_info";
    writeln!(out, "# HELP {metric} The names of links.")?;
    writeln!(out, "# TYPE {metric} gauge")?;
    for note in notes {
        if let Some(name) = &note.name
            && concentrator.tables().contains_key(&note.number)
        {
            write!(out, "{metric}{{link=\"{}\",name=\"", note.number)?;
            write_label(out, name.as_str())?;
            writeln!(out, "\"}} 1")?;
        }
    }
    Ok(())
}

/// Writes the names of links as the members of an object.
pub(crate) fn write_names<W: Write>(out: &mut W, notes: &[LinkNote]) -> io::Result<()> {
    let mut comma = "";
    for note in notes {
        if let Some(name) = &note.name {
            write!(out, "{comma}\"{}\":", note.number)?;
            write_json_text(out, name.as_str())?;
            comma = ",";
        }
    }
    Ok(())
}
