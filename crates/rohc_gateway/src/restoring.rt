//! What a start takes of the saves that stand: the newest one that is whole.

use crate::lines::Lines;
use crate::regular::{is_longer, write_unread};
use crate::saves::SavePaths;
use crate::time::Time;
use rohc_concentrator::Concentrator;
use rohc_disk::RealDisk;
use rohc_links::Links;
use rohc_loop::{Before, LONGEST_STATE, is_stale, read_state};
use rohc_saved::{Restored, SavedFault, restore, restore_fallen, saved_moment};
use rohc_text::{Reason, shown_word};
use rohc_world::Disk;
use std::alloc::Global;
use std::io::{self, ErrorKind, Write};
use std::rt::Files;
use std::time::Clock;

/// What starts a gateway in spite of its saves.
const FRESH: &str = "run --fresh starts without it";

/// What is expected where no save can be read.
const A_STATE_FILE: &str = "expected a state file that this user can read, or none";

/// How many octets of a save tell its moment.
const FRONT: usize = 32;

/// A save that stands.
#[derive(Clone, Copy)]
struct Save<'a> {
    path: &'a str,
    before: Before,
}

/// What was restored.
#[derive(Drop)]
pub(crate) struct Back {
    pub(crate) concentrator: Concentrator,
    pub(crate) contexts: u64,
    /// When it was saved.
    pub(crate) before: Before,
    /// Whether its contexts fell, since they are stale.
    pub(crate) is_stale: bool,
    /// The time of the run that goes on from it.
    pub(crate) time: Time,
}

/// The error for lack of memory.
fn no_memory() -> io::Error {
    io::Error::from(ErrorKind::OutOfMemory)
}

/// Writes why the octets of a save are refused.
fn write_unsaved<W: Write>(out: &mut W, fault: &SavedFault) -> io::Result<()> {
    match fault {
        SavedFault::NotSaved => write!(out, "it is not a state file"),
        SavedFault::Version { place } => write!(out, "it has an unknown version, at octet {place}"),
        SavedFault::Short { place } => write!(out, "it is cut off, at octet {place}"),
        SavedFault::Long { place } => write!(out, "octets follow its end, at octet {place}"),
        SavedFault::Digest { .. } => write!(out, "it is damaged: its digest does not match"),
        SavedFault::BadLink { place }
        | SavedFault::BadContext { place }
        | SavedFault::BadOrder { place } => write!(out, "it has a bad value, at octet {place}"),
        SavedFault::Settings(_) | SavedFault::NoMemory => write!(out, "{fault}"),
    }
}

/// Writes a line that says why a save is refused.
fn write_refused<W: Write>(out: &mut W, path: &str, fault: &SavedFault) -> io::Result<()> {
    write!(out, "{}: ", shown_word(path))?;
    write_unsaved(out, fault)?;
    writeln!(
        out,
        "; expected a complete state file of this version ({FRESH})"
    )
}

/// The first octets of a file; fewer if it has fewer.
fn front_of<D: Disk>(disk: &mut D, path: &str, front: &mut [u8; FRONT]) -> Result<usize, Reason> {
    if let Err(trouble) = disk.open(path) {
        return Err(trouble.reason());
    }
    let size = disk.read(front);
    disk.close();
    size.map_err(|trouble| trouble.reason())
}

/// The save at a path, if one is there that tells its moment. The lines say what is wrong with one that doesn't.
fn save_at<'a, R: Files + AllocGlobal>(
    rt: &R,
    path: &'a str,
    lines: &mut Lines,
) -> io::Result<Option<Save<'a>>> {
    let mut disk = RealDisk::of(rt);
    let mut front = [0u8; FRONT];
    let read = if is_longer(rt, path, LONGEST_STATE) {
        Err(Reason::TooLong(LONGEST_STATE))
    } else {
        front_of(&mut disk, path, &mut front)
    };
    let size = match read {
        Ok(size) => size,
        Err(Reason::Missing) => return Ok(None),
        Err(reason) => {
            write_unread(rt, lines, path, reason, A_STATE_FILE)?;
            return Ok(None);
        }
    };
    match saved_moment(front.get(..size).unwrap_or(&[])) {
        Ok(moment) => Ok(Some(Save {
            path,
            before: Before {
                moment,
                modified: disk.modified(path).ok(),
            },
        })),
        Err(fault) => {
            write_refused(lines, path, &fault)?;
            Ok(None)
        }
    }
}

/// The newest of these saves, which is taken out; `None` if none is left. Of two of one moment the first is.
fn take_newest<'a>(saves: &mut [Option<Save<'a>>; 3]) -> Option<Save<'a>> {
    let mut newest: Option<(usize, Save<'a>)> = None;
    for (place, save) in saves.iter().enumerate() {
        let Some(save) = save else {
            continue;
        };
        let is_newer = match newest {
            Some((_, other)) => other.before.moment < save.before.moment,
            None => true,
        };
        if is_newer {
            newest = Some((place, *save));
        }
    }
    let (place, _) = newest?;
    saves.get_mut(place)?.take()
}

/// The contexts that these octets save, under these links; fallen, if they are stale.
fn contexts_in(
    alloc: Global,
    links: &Links,
    octets: &[u8],
    falls: bool,
) -> Result<(Concentrator, Restored), SavedFault> {
    if falls {
        restore_fallen(alloc, links.settings(), octets)
    } else {
        restore(alloc, links.settings(), octets)
    }
}

/// Restores a save; `None` if it is refused, which the lines say.
fn restored<R: Files + Clock + AllocGlobal>(
    rt: &R,
    save: Save<'_>,
    links: &Links,
    stale_ms: u32,
    lines: &mut Lines,
) -> io::Result<Option<Back>> {
    let Save { path, before } = save;
    let octets = match read_state(&mut RealDisk::of(rt), rt.alloc(), path) {
        Ok(Some(octets)) => octets,
        Ok(None) => return Ok(None),
        Err(Reason::Memory) => return Err(no_memory()),
        Err(reason) => {
            writeln!(lines, "{}: {reason}; {FRESH}", shown_word(path))?;
            return Ok(None);
        }
    };
    let Some(time) = Time::begin(rt, Some(before))? else {
        let (path, moment) = (shown_word(path), before.moment);
        writeln!(
            lines,
            "{path}: its moment is {moment}; expected one below 2^63 ({FRESH})"
        )?;
        return Ok(None);
    };
    let falls = is_stale(time.first(), before.moment, stale_ms);
    match contexts_in(rt.alloc(), links, octets.as_slice(), falls) {
        Ok((concentrator, told)) => Ok(Some(Back {
            concentrator,
            contexts: told.contexts,
            before,
            is_stale: falls,
            time,
        })),
        Err(SavedFault::NoMemory) => Err(no_memory()),
        Err(fault) => {
            write_refused(lines, path, &fault)?;
            Ok(None)
        }
    }
}

/// Restores the newest save that is whole; `None` if none is. The lines say what is wrong with those that are newer, and
/// which is restored in their place.
pub(crate) fn restore_newest<R: Files + Clock + AllocGlobal>(
    rt: &R,
    paths: &SavePaths,
    links: &Links,
    stale_ms: u32,
    lines: &mut Lines,
) -> io::Result<Option<Back>> {
    let [state, latest, kept] = paths.all();
    let mut saves = [
        save_at(rt, state, lines)?,
        save_at(rt, latest, lines)?,
        save_at(rt, kept, lines)?,
    ];
    for _ in 0..3u8 {
        let Some(save) = take_newest(&mut saves) else {
            return Ok(None);
        };
        if let Some(back) = restored(rt, save, links, stale_ms, lines)? {
            if !lines.is_empty() {
                writeln!(lines, "{}: restored instead", shown_word(save.path))?;
            }
            return Ok(Some(back));
        }
    }
    Ok(None)
}

/// Moves the saves aside that stand, each to its name with `.old` behind it. The lines say which, or why one can't be moved.
/// Returns whether all could be.
pub(crate) fn move_aside<R: Files + AllocGlobal>(
    rt: &R,
    paths: &SavePaths,
    lines: &mut Lines,
) -> io::Result<bool> {
    let mut disk = RealDisk::of(rt);
    for path in paths.all() {
        let old = format!(in rt.alloc(); "{path}.old")?;
        let (from, to) = (shown_word(path), shown_word(old.as_str()));
        match disk.rename(path, old.as_str()) {
            Ok(()) => writeln!(lines, "{from}: moved to {to}")?,
            Err(trouble) if trouble.reason() == Reason::Missing => {}
            Err(trouble) => {
                let reason = trouble.reason();
                writeln!(
                    lines,
                    "{from}: {reason}; expected that it can be moved to {to}"
                )?;
                return Ok(false);
            }
        }
    }
    Ok(true)
}
