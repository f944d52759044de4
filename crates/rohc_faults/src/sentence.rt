//! The faults of a links file as lines for a reader.

use crate::file::all_faults;
use crate::finding::{Finding, Wrong, findings, no_toml};
use rohc_text::{write_quoted, write_toml_reason, write_value};
use std::alloc::Global;
use std::io;
use std::io::{ErrorKind, Write};
use toml::Value;

/// Writes where a fault is. An entry whose link has another entry too is named by its place.
fn write_place<W: Write>(out: &mut W, path: &str, finding: &Finding<'_>) -> io::Result<()> {
    write!(out, "{path}:")?;
    if let Some(line) = finding.line {
        write!(out, "{line}:")?;
    }
    match (finding.entry, finding.link, finding.wrong) {
        (0, _, _) => write!(out, " "),
        (entry, _, Wrong::Twice { .. }) => write!(out, " entry {entry}: "),
        (_, Some(link), _) => write!(out, " link {link}: "),
        (entry, None, _) => write!(out, " entry {entry}: "),
    }
}

/// Writes that a name is no key.
fn write_unknown<W: Write>(
    out: &mut W,
    finding: &Finding<'_>,
    near: Option<&'static str>,
) -> io::Result<()> {
    write!(out, "unknown key ")?;
    write_quoted(out, finding.name)?;
    match near {
        Some(near) => write!(out, "; did you mean {near}?"),
        None => write!(out, "; expected {}", finding.may),
    }
}

/// Writes that another entry has the number.
fn write_used<W: Write>(
    out: &mut W,
    link: Option<u16>,
    earlier: usize,
    free: Option<u16>,
) -> io::Result<()> {
    let link = link.unwrap_or(0);
    write!(out, "link number {link} is already used by entry {earlier}")?;
    match free {
        Some(free) => write!(out, "; {free} is free"),
        None => write!(out, "; expected a number of its own"),
    }
}

/// Writes which value a key has, and what is expected.
fn write_unfit<W: Write>(out: &mut W, finding: &Finding<'_>) -> io::Result<()> {
    write!(out, "{} is ", finding.name)?;
    match finding.value {
        None => write!(out, "missing")?,
        value => write_value(out, value)?,
    }
    write!(out, "; expected {}", finding.may)
}

/// Writes how many entries there are.
fn write_count<W: Write>(out: &mut W, finding: &Finding<'_>) -> io::Result<()> {
    match finding.value {
        Some(Value::Array(values)) => {
            write!(out, "{} has {} tables", finding.name, values.len())?
        }
        _ => write!(out, "{} is missing", finding.name)?,
    }
    write!(out, "; expected {}", finding.may)
}

/// Writes what is wrong.
fn write_wrong<W: Write>(out: &mut W, finding: &Finding<'_>) -> io::Result<()> {
    match finding.wrong {
        Wrong::NoToml { text, error } => write_toml_reason(out, text, &error),
        Wrong::Unknown(near) => write_unknown(out, finding, near),
        Wrong::Newer => {
            write!(
                out,
                "version 1 has no key {}; expected version = 2",
                finding.name
            )
        }
        Wrong::Twice { earlier, free } => write_used(out, finding.link, earlier, free),
        Wrong::OneTable => write!(out, "[link] is one table; write [[link]] before each link"),
        Wrong::Unfit | Wrong::Beyond => write_unfit(out, finding),
        Wrong::Count => write_count(out, finding),
    }
}

/// Writes a fault as a line for a reader.
pub fn write_sentence<W: Write>(out: &mut W, path: &str, finding: &Finding<'_>) -> io::Result<()> {
    write_place(out, path, finding)?;
    write_wrong(out, finding)?;
    writeln!(out)
}

/// Writes all faults of the text of a links file, a line for each.
pub fn write_faults<W: Write>(
    alloc: Global,
    out: &mut W,
    path: &str,
    text: &str,
) -> io::Result<()> {
    match toml::table_from_str(alloc, text) {
        Ok(table) => {
            let faults = all_faults(alloc, &table)?;
            for finding in &findings(alloc, text, &table, &faults)? {
                write_sentence(out, path, finding)?;
            }
            Ok(())
        }
        Err(error) if error.is_memory() => Err(io::Error::from(ErrorKind::OutOfMemory)),
        Err(error) => write_sentence(out, path, &no_toml(text, &error)),
    }
}
