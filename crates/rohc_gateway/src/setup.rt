//! What a gateway starts from: its file, its links and its saved contexts.

use crate::lines::Lines;
use crate::links_file::{NoLinks, read_links_file};
use crate::lock::Locks;
use crate::outputs::write_overwritten;
use crate::regular::{write_linked, write_no_folders, write_unread};
use crate::restoring::{Back, move_aside, restore_newest};
use crate::saves::SavePaths;
use crate::time::Time;
use rohc_concentrator::{Concentrator, SetupFault};
use rohc_disk::RealDisk;
use rohc_gateway_file::{Config, Group, LogFormat, Options, Reading, read_config};
use rohc_links::Links;
use rohc_loop::{Before, read_text};
use rohc_text::Reason;
use std::alloc::Global;
use std::fs::File;
use std::io::{self, ErrorKind, Write};
use std::rt::Files;
use std::time::Clock;

/// What is expected where no gateway file can be read.
pub(crate) const A_FILE: &str =
    "expected a gateway file that this user can read (man rohc-gateway)";

/// The system's list of groups (group(5)).
const GROUPS: &str = "/etc/group";

/// How a start is made.
#[derive(Clone, Copy, PartialEq, Eq)]
pub(crate) enum Manner {
    /// To look whether all is well.
    Check,
    /// To run from what was saved.
    Run,
    /// To run without it.
    Fresh,
}

/// What a gateway starts from.
#[derive(Drop)]
pub(crate) struct Start {
    pub(crate) config: Config,
    pub(crate) links: Links,
    pub(crate) concentrator: Concentrator,
    /// How many contexts were restored, whether they are stale, and when they were saved, if any were.
    pub(crate) contexts: u64,
    pub(crate) is_stale: bool,
    pub(crate) before: Option<Before>,
    /// The time of the run.
    pub(crate) time: Time,
    /// Where the saves stand, if there is a state file.
    pub(crate) paths: Option<SavePaths>,
    /// What may be wrong with the saves that stand, and which were moved aside.
    pub(crate) remarks: Lines,
    /// The locks, which no check takes.
    pub(crate) locks: Locks,
}

/// Why a gateway doesn't start.
#[derive(Drop)]
pub(crate) enum NoStart {
    /// Something is wrong, which the lines say, to be logged in this format.
    Wrong(Lines, LogFormat),
    /// There is no memory.
    Memory,
}

/// The error for lack of memory.
fn no_memory() -> io::Error {
    io::Error::from(ErrorKind::OutOfMemory)
}

/// What a gateway file with this text sets; `None` if it is refused.
fn config_in<R: Files + AllocGlobal>(
    rt: &R,
    file: &str,
    text: &str,
    options: &Options<'_>,
    lines: &mut Lines,
) -> io::Result<Option<Config>> {
    match read_config(rt.alloc(), file, text, options) {
        Ok(reading) => Ok(Some(judged(rt, file, reading, lines)?)),
        Err(unread) => {
            unread.write(lines, file, text)?;
            Ok(None)
        }
    }
}

/// The system's list of groups; empty if it can't be read.
fn group_list<R: Files + AllocGlobal>(rt: &R) -> String {
    match read_text(&mut RealDisk::of(rt), rt.alloc(), GROUPS) {
        Ok(list) => list,
        Err(_) => String::new(rt.alloc()),
    }
}

/// What was read of a gateway file, without a state file that is something else or a symbolic link. The lines say what is wrong.
fn judged<R: Files + AllocGlobal>(
    rt: &R,
    file: &str,
    mut reading: Reading<'_>,
    lines: &mut Lines,
) -> io::Result<Config> {
    if let Some(Group::Named(_)) = &reading.config.control_group {
        let list = group_list(rt);
        reading.number_group(list.as_str(), GROUPS)?;
    }
    for fault in &reading.faults {
        fault.write(lines, file)?;
    }
    write_no_folders(rt, lines, file, &reading)?;
    let is_other = write_overwritten(rt, lines, file, &reading)?
        || write_linked(rt, lines, file, &reading)?;
    let mut config = reading.config;
    if is_other {
        config.state = None;
    }
    Ok(config)
}

/// Reads the gateway file; `None` if it is refused.
fn config_of<R: Files + AllocGlobal>(
    rt: &R,
    file: &str,
    options: &Options<'_>,
    lines: &mut Lines,
) -> io::Result<Option<Config>> {
    // A shell gives what a command writes as a FIFO: rohc-gateway check <(COMMAND).
    match read_text(&mut RealDisk::waiting(rt), rt.alloc(), file) {
        Ok(text) => config_in(rt, file, text.as_str(), options, lines),
        Err(Reason::Memory) => Err(no_memory()),
        Err(reason) => {
            write_unread(rt, lines, file, reason, A_FILE)?;
            Ok(None)
        }
    }
}

/// Adds why the links aren't accepted. Lack of memory is the error.
fn add_refused(lines: &mut Lines, refused: &NoLinks) -> io::Result<()> {
    match refused {
        NoLinks::Memory => Err(no_memory()),
        NoLinks::Refused(_, why) => lines.write_all(why.as_str().as_bytes()),
    }
}

/// The links with their concentrator.
fn read_links<R: Files + AllocGlobal>(
    rt: &R,
    path: &str,
) -> Result<(Links, Concentrator), NoLinks> {
    let (text, links) = read_links_file(rt, path)?;
    match Concentrator::new(rt.alloc(), links.settings()) {
        Ok(concentrator) => Ok((links, concentrator)),
        Err(SetupFault::NoMemory) => Err(NoLinks::Memory),
        Err(fault) => Err(NoLinks::refused(rt.alloc(), path, text.as_str(), fault.name())),
    }
}

/// Reads the links file; `None` if it is refused.
fn links_of<R: Files + AllocGlobal>(
    rt: &R,
    path: &str,
    lines: &mut Lines,
) -> io::Result<Option<(Links, Concentrator)>> {
    match read_links(rt, path) {
        Ok(read) => Ok(Some(read)),
        Err(refused) => {
            add_refused(lines, &refused)?;
            Ok(None)
        }
    }
}

/// What is restored of the saves that stand, if it is wanted.
#[derive(Clone, Copy)]
struct Restoring<'a> {
    paths: &'a SavePaths,
    manner: Manner,
    stale_ms: u32,
}

/// What was restored, if something was. Saves that aren't wanted are moved aside; remarks say so, and which save is restored in
/// place of a newer one that is damaged. The lines say what is wrong if none can be restored.
fn back_of<R: Files + Clock + AllocGlobal>(
    rt: &R,
    restoring: &Restoring<'_>,
    links: &Links,
    remarks: &mut Lines,
    lines: &mut Lines,
) -> io::Result<Option<Back>> {
    let paths = restoring.paths;
    if restoring.manner == Manner::Fresh {
        if !move_aside(rt, paths, remarks)? {
            lines.write_all(remarks.as_str().as_bytes())?;
        }
        return Ok(None);
    }
    let back = restore_newest(rt, paths, links, restoring.stale_ms, remarks)?;
    if back.is_none() {
        lines.write_all(remarks.as_str().as_bytes())?;
    }
    Ok(back)
}

/// The locks for a start, before anything is read that another gateway may still write. A check takes none.
fn locks_for<R>(
    rt: &R,
    file: &str,
    config: &Config,
    manner: Manner,
    lines: &mut Lines,
) -> io::Result<Locks>
where
    R: Files<File = File> + AllocGlobal,
{
    if manner == Manner::Check || !lines.is_empty() {
        return Ok(Locks::none(rt.alloc()));
    }
    Locks::of(rt, file, config, lines)
}

/// Restores what was saved, if there is a state file.
fn restored_with<R: Files + Clock + AllocGlobal>(
    rt: &R,
    config: &Config,
    manner: Manner,
    links: &Links,
    remarks: &mut Lines,
    lines: &mut Lines,
) -> io::Result<(Option<SavePaths>, Option<Back>)> {
    let Some(paths) = SavePaths::of(rt.alloc(), config)? else {
        return Ok((None, None));
    };
    let restoring = Restoring {
        paths: &paths,
        manner,
        stale_ms: config.stale_ms(),
    };
    let back = back_of(rt, &restoring, links, remarks, lines)?;
    Ok((Some(paths), back))
}

/// Reads the rest of what a gateway with this file starts from. `None` if something is wrong, which the lines say.
fn start_with<R>(
    rt: &R,
    file: &str,
    config: Config,
    manner: Manner,
    lines: &mut Lines,
) -> io::Result<Option<Start>>
where
    R: Files<File = File> + Clock + AllocGlobal,
{
    let Some(path) = &config.links else {
        return Ok(None);
    };
    let Some((links, concentrator)) = links_of(rt, path.as_str(), lines)? else {
        return Ok(None);
    };
    let locks = locks_for(rt, file, &config, manner, lines)?;
    if !lines.is_empty() {
        return Ok(None);
    }
    let mut remarks = Lines::new(rt.alloc());
    let (paths, back) = restored_with(rt, &config, manner, &links, &mut remarks, lines)?;
    let (concentrator, contexts, is_stale, before, time) = match back {
        Some(back) => (
            back.concentrator,
            back.contexts,
            back.is_stale,
            Some(back.before),
            Some(back.time),
        ),
        None => (concentrator, 0, false, None, Time::begin(rt, None)?),
    };
    let Some(time) = time else {
        return Ok(None);
    };
    Ok(Some(Start {
        config,
        links,
        concentrator,
        contexts,
        is_stale,
        before,
        time,
        paths,
        remarks,
        locks,
    }))
}

/// Reads all that a gateway starts from. `None` if something is wrong, which the lines say. The format becomes that of the
/// gateway file.
fn start_of<R>(
    rt: &R,
    file: &str,
    options: &Options<'_>,
    manner: Manner,
    lines: &mut Lines,
    format: &mut LogFormat,
) -> io::Result<Option<Start>>
where
    R: Files<File = File> + Clock + AllocGlobal,
{
    match config_of(rt, file, options, lines)? {
        Some(config) => {
            *format = config.log_format;
            start_with(rt, file, config, manner, lines)
        }
        None => Ok(None),
    }
}

/// Reads all that a gateway starts from.
pub(crate) fn read_start<R>(
    rt: &R,
    file: &str,
    options: &Options<'_>,
    manner: Manner,
) -> Result<Start, NoStart>
where
    R: Files<File = File> + Clock + AllocGlobal,
{
    let mut lines = Lines::new(rt.alloc());
    let mut format = options.log_format.unwrap_or(LogFormat::Text);
    let Ok(start) = start_of(rt, file, options, manner, &mut lines, &mut format) else {
        return Err(NoStart::Memory);
    };
    if !lines.is_empty() {
        return Err(NoStart::Wrong(lines, format));
    }
    start.ok_or(NoStart::Wrong(lines, format))
}
