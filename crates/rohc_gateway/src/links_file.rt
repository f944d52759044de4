//! The links file: its links, or why they aren't accepted.

use crate::lines::Lines;
use crate::regular::write_unread;
use rohc_disk::RealDisk;
use rohc_faults::write_faults;
use rohc_links::{Links, LinksFault, read_links};
use rohc_loop::read_text;
use rohc_text::Reason;
use std::alloc::Global;
use std::io;
use std::io::Write;
use std::rt::Files;

/// What is expected where no links file can be read.
const A_LINKS_FILE: &str =
    "expected a links file that this user can read (rohctl links --new writes one)";

/// Why the links of a file aren't accepted.
#[derive(Drop)]
pub(crate) enum NoLinks {
    /// The file can't be read, or has faults: the name that rohcd has for it, and a line for each.
    Refused(&'static str, Lines),
    /// There is no memory.
    Memory,
}

/// The lines that say what is wrong with the text of a links file, which is refused by this name.
fn lines_for(alloc: Global, path: &str, text: &str, name: &str) -> io::Result<Lines> {
    let mut lines = Lines::new(alloc);
    write_faults(alloc, &mut lines, path, text)?;
    if lines.is_empty() {
        writeln!(&mut lines, "{path}: {name}")?;
    }
    Ok(lines)
}

impl NoLinks {
    /// The text of a links file is refused by this name.
    pub(crate) fn refused(alloc: Global, path: &str, text: &str, name: &'static str) -> NoLinks {
        match lines_for(alloc, path, text, name) {
            Ok(lines) => NoLinks::Refused(name, lines),
            Err(_) => NoLinks::Memory,
        }
    }
}

/// The text of a links file.
fn links_text<R: Files + AllocGlobal>(rt: &R, path: &str) -> Result<String, NoLinks> {
    let reason = match read_text(&mut RealDisk::of(rt), rt.alloc(), path) {
        Ok(text) => return Ok(text),
        Err(Reason::Memory) => return Err(NoLinks::Memory),
        Err(reason) => reason,
    };
    let mut lines = Lines::new(rt.alloc());
    match write_unread(rt, &mut lines, path, reason, A_LINKS_FILE) {
        Ok(()) => Err(NoLinks::Refused("Unreadable", lines)),
        Err(_) => Err(NoLinks::Memory),
    }
}

/// Reads a links file. Returns its text, for faults that only its settings have, and its links.
pub(crate) fn read_links_file<R: Files + AllocGlobal>(
    rt: &R,
    path: &str,
) -> Result<(String, Links), NoLinks> {
    let text = links_text(rt, path)?;
    match read_links(rt.alloc(), text.as_str()) {
        Ok(links) => Ok((text, links)),
        Err(LinksFault::NoMemory) => Err(NoLinks::Memory),
        Err(fault) => Err(NoLinks::refused(rt.alloc(), path, text.as_str(), fault.name())),
    }
}
