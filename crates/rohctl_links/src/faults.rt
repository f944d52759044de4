//! The subcommand `links`: all faults of a links file, or what a good one sets.

use crate::settings::{write_links, write_links_json};
use rohc_concentrator::{Concentrator, SetupFault};
use rohc_faults::{Finding, Wrong, all_faults, findings, no_toml, write_sentence};
use rohc_links::{Links, LinksFault, read_links};
use rohctl_ground::{Ending, Printable, links_text, printed, unprinted, write_quoted, write_value};
use std::alloc::{AllocError, Global};
use std::io;
use std::io::{BufWriter, Write};
use std::rt::Files;
use toml::{Table, Value};

/// What rohcd would say of a links file: its links, or the name of its fault.
#[derive(Drop)]
enum Verdict {
    Taken(Links),
    Refused(&'static str),
}

/// What rohcd would say of the text, by the same two calls.
fn verdict_on(alloc: Global, text: &str) -> Result<Verdict, Ending<'static>> {
    let links = match read_links(alloc, text) {
        Ok(links) => links,
        Err(LinksFault::NoMemory) => return Err(Ending::Memory),
        Err(fault) => return Ok(Verdict::Refused(fault.name())),
    };
    match Concentrator::new(alloc, links.settings()) {
        Ok(_) => Ok(Verdict::Taken(links)),
        Err(SetupFault::NoMemory) => Err(Ending::Memory),
        Err(fault) => Ok(Verdict::Refused(fault.name())),
    }
}

/// The word of JSON for what is wrong.
fn word(wrong: Wrong<'_>) -> &'static str {
    match wrong {
        Wrong::Unknown(_) | Wrong::Newer => "unknown",
        Wrong::Unfit | Wrong::OneTable => "unfit",
        Wrong::Beyond => "beyond",
        Wrong::Twice { .. } => "twice",
        Wrong::NoToml { .. } => "no_toml",
        Wrong::Count => "count",
    }
}

/// Writes what stands at a key as a value of JSON.
fn write_json_value<W: Write>(out: &mut W, value: Option<&Value>) -> io::Result<()> {
    match value {
        None => write!(out, "null"),
        Some(Value::String(_) | Value::Integer(_) | Value::Boolean(_)) => write_value(out, value),
        Some(_) => {
            write!(out, "\"")?;
            write_value(out, value)?;
            write!(out, "\"")
        }
    }
}

/// Writes a number, or that it isn't known.
fn write_number<W: Write>(out: &mut W, number: Option<u64>) -> io::Result<()> {
    match number {
        Some(number) => write!(out, "{number}"),
        None => write!(out, "null"),
    }
}

/// Writes the members that say where a fault is.
fn write_place_members<W: Write>(out: &mut W, finding: &Finding<'_>) -> io::Result<()> {
    write!(out, "{{\"line\":")?;
    write_number(out, finding.line.map(|line| line as u64))?;
    write!(out, ",\"entry\":{},\"link\":", finding.entry)?;
    write_number(out, finding.link.map(u64::from))
}

/// Writes the members that say what is wrong.
fn write_wrong_members<W: Write>(out: &mut W, finding: &Finding<'_>) -> io::Result<()> {
    write!(out, ",\"key\":")?;
    write_quoted(out, finding.name)?;
    write!(out, ",\"fault\":\"{}\",\"stands\":", word(finding.wrong))?;
    write_json_value(out, finding.value)?;
    write!(out, ",\"may\":")?;
    write_quoted(out, finding.may)
}

/// Writes a fault as an object.
fn write_object<W: Write>(out: &mut W, finding: &Finding<'_>) -> io::Result<()> {
    write_place_members(out, finding)?;
    write_wrong_members(out, finding)?;
    match finding.wrong {
        Wrong::Unknown(Some(near)) => writeln!(out, ",\"nearest\":\"{near}\"}}"),
        _ => writeln!(out, ",\"nearest\":null}}"),
    }
}

/// Writes all faults, and last the one name that rohcd would give.
fn write_faults<W: Write>(
    out: &mut W,
    path: &str,
    all: &[Finding<'_>],
    name: &str,
    json: bool,
) -> io::Result<()> {
    for finding in all {
        if json {
            write_object(out, finding)?;
        } else {
            write_sentence(out, path, finding)?;
        }
    }
    if json {
        writeln!(out, "{{\"name\":\"{name}\"}}")
    } else {
        writeln!(out, "rohcd: links file: {name}")
    }
}

/// Writes all faults of a TOML document that is refused.
fn write_table<W: Write>(
    out: &mut W,
    alloc: Global,
    path: &str,
    text: &str,
    table: &Table,
    name: &str,
    json: bool,
) -> Result<(), Ending<'static>> {
    let faults = all_faults(alloc, table).map_err(|_| Ending::Memory)?;
    if faults.is_none() {
        return Err(Ending::Differs);
    }
    let all = findings(alloc, text, table, &faults).map_err(|_| Ending::Memory)?;
    write_faults(out, path, all.as_slice(), name, json).map_err(|error| unprinted(&error))
}

/// Writes all faults of a refused text.
fn write_refused<W: Write>(
    out: &mut W,
    alloc: Global,
    path: &str,
    text: &str,
    name: &str,
    json: bool,
) -> Result<Ending<'static>, Ending<'static>> {
    let path = printed(alloc, path).map_err(|_| Ending::Memory)?;
    let path = path.as_str();
    match toml::table_from_str(alloc, text) {
        Ok(table) => write_table(out, alloc, path, text, &table, name, json)?,
        Err(error) if error.is_memory() => return Err(Ending::Memory),
        Err(error) => {
            let written = write_faults(out, path, &[no_toml(text, &error)], name, json);
            written.map_err(|error| unprinted(&error))?;
        }
    }
    Ok(Ending::Findings)
}

/// Whether no fault is told of the text.
fn is_faultless(alloc: Global, text: &str) -> Result<bool, AllocError> {
    match toml::table_from_str(alloc, text) {
        Ok(table) => Ok(all_faults(alloc, &table)?.is_none()),
        Err(error) if error.is_memory() => Err(AllocError),
        Err(_) => Ok(false),
    }
}

/// Checks that no fault is told of a text that rohcd takes, and writes what its links are.
fn write_taken<W: Write>(
    out: &mut W,
    alloc: Global,
    text: &str,
    links: &Links,
    json: bool,
) -> Result<Ending<'static>, Ending<'static>> {
    match is_faultless(alloc, text) {
        Ok(true) => {}
        Ok(false) => return Err(Ending::Differs),
        Err(_) => return Err(Ending::Memory),
    }
    let written = if json {
        write_links_json(out, links)
    } else {
        write_links(out, links)
    };
    match written {
        Ok(()) => Ok(Ending::Good),
        Err(error) => Err(unprinted(&error)),
    }
}

/// Writes all faults of the text, or what it sets.
fn write_verdict<W: Write>(
    out: &mut W,
    alloc: Global,
    path: &str,
    text: &str,
    json: bool,
) -> Result<Ending<'static>, Ending<'static>> {
    match verdict_on(alloc, text)? {
        Verdict::Taken(links) => write_taken(out, alloc, text, &links, json),
        Verdict::Refused(name) => write_refused(out, alloc, path, text, name, json),
    }
}

/// Writes the object of one of several files.
fn write_file_object<W: Write>(out: &mut W, path: &str, good: bool) -> io::Result<()> {
    write!(out, "{{\"file\":")?;
    write_quoted(out, path)?;
    writeln!(out, ",\"good\":{good}}}")
}

/// Writes of one of several files all faults, or that it is good.
fn write_brief<W: Write>(
    out: &mut W,
    alloc: Global,
    path: &str,
    text: &str,
    json: bool,
) -> Result<Ending<'static>, Ending<'static>> {
    let verdict = verdict_on(alloc, text)?;
    let good = matches!(&verdict, Verdict::Taken(_));
    let written = match (json, good) {
        (true, good) => write_file_object(out, path, good),
        (false, true) => writeln!(out, "{}: good", Printable(path)),
        (false, false) => Ok(()),
    };
    written.map_err(|error| unprinted(&error))?;
    match verdict {
        Verdict::Taken(_) if is_faultless(alloc, text).map_err(|_| Ending::Memory)? => {
            Ok(Ending::Good)
        }
        Verdict::Taken(_) => Err(Ending::Differs),
        Verdict::Refused(name) => write_refused(out, alloc, path, text, name, json),
    }
}

/// Prints why a file can't be read, if that is the ending. Any other ending stays.
fn print_unread<'a, R: Eprint>(rt: &R, ending: Ending<'a>) -> Result<Ending<'a>, Ending<'a>> {
    if !matches!(&ending, Ending::LinksUnread(_, _)) {
        return Err(ending);
    }
    let _ = eprint!(rt; "{ending}");
    Ok(Ending::LinksFile)
}

/// Writes of one of several files what is wrong, or that it is good. Prints why it can't be read, if it can't.
fn write_one<'a, R, W>(
    rt: &R,
    out: &mut W,
    path: &'a str,
    json: bool,
) -> Result<Ending<'a>, Ending<'a>>
where
    R: Files + Input + Eprint + AllocGlobal,
    W: Write,
{
    match links_text(rt, path) {
        Ok(text) => write_brief(out, rt.alloc(), path, text.as_str(), json),
        Err(ending) => print_unread(rt, ending),
    }
}

/// Writes of each file what is wrong, or that it is good. Returns the ending of the worst.
fn write_each<'a, R, W>(
    rt: &R,
    out: &mut W,
    paths: &[&'a str],
    json: bool,
) -> Result<Ending<'a>, Ending<'a>>
where
    R: Files + Input + Eprint + AllocGlobal,
    W: Write,
{
    let mut worst = Ending::Good;
    for path in paths.iter().copied() {
        let ending = write_one(rt, out, path, json)?;
        if ending.status() > worst.status() {
            worst = ending;
        }
    }
    Ok(worst)
}

/// Tells all faults of the links file, or what it sets; of several files all faults, or that it is good.
pub fn run_links<'a, R>(rt: &R, paths: &[&'a str], json: bool) -> Result<Ending<'a>, Ending<'a>>
where
    R: Files + Input + Print + Eprint + AllocGlobal,
{
    let Ok(mut out) = BufWriter::new(rt.alloc(), io::writer(rt)) else {
        return Err(Ending::Memory);
    };
    let ending = match paths {
        [path] => {
            let text = links_text(rt, path)?;
            write_verdict(&mut out, rt.alloc(), path, text.as_str(), json)?
        }
        paths => write_each(rt, &mut out, paths, json)?,
    };
    match out.flush() {
        Ok(()) => Ok(ending),
        Err(error) => Err(unprinted(&error)),
    }
}
