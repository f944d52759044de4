//! Files that are none: what a gateway reads or saves must be a regular file, and what it writes needs a folder.

use crate::lines::Lines;
use crate::saves::SavePaths;
use rohc_gateway_file::{Reading, write_place};
use rohc_loop::folder_of;
use rohc_text::{Reason, shown_word};
use std::fs;
use std::io::{self, Write};
use std::os::unix::fs::FileTypeExt;
use std::rt::Files;

/// What is at a path that is neither a file nor a folder.
fn kind_at<R: Files>(rt: &R, path: &str) -> Option<&'static str> {
    let kind = fs::metadata(rt, path).ok()?.file_type();
    if kind.is_fifo() {
        Some("a FIFO")
    } else if kind.is_char_device() || kind.is_block_device() {
        Some("a device")
    } else if kind.is_socket() {
        Some("a socket")
    } else {
        None
    }
}

/// Writes why a file can't be read, and what was expected.
pub(crate) fn write_unread<R: Files>(
    rt: &R,
    lines: &mut Lines,
    path: &str,
    reason: Reason,
    expected: &str,
) -> io::Result<()> {
    let shown = shown_word(path);
    match kind_at(rt, path) {
        Some(kind) => writeln!(lines, "{shown}: it is {kind}; expected a regular file"),
        None => writeln!(lines, "{shown}: {reason}; {expected}"),
    }
}

/// Whether a file has more octets than this.
pub(crate) fn is_longer<R: Files>(rt: &R, path: &str, most: u64) -> bool {
    match fs::metadata(rt, path) {
        Ok(found) => found.len() > most,
        Err(_) => false,
    }
}

/// Whether a path is a symbolic link.
fn is_link<R: Files>(rt: &R, path: &str) -> bool {
    match fs::symlink_metadata(rt, path) {
        Ok(found) => found.file_type().is_symlink(),
        Err(_) => false,
    }
}

/// Writes which of the saves are symbolic links: a save would replace the link, and not the file that it names. Returns
/// whether one is.
pub(crate) fn write_linked<R: Files + AllocGlobal, W: Write>(
    rt: &R,
    out: &mut W,
    file: &str,
    reading: &Reading<'_>,
) -> io::Result<bool> {
    let Some(paths) = SavePaths::of(rt.alloc(), &reading.config)? else {
        return Ok(false);
    };
    let mut is_any = false;
    for path in paths.all() {
        if is_link(rt, path) {
            is_any = true;
            write_place(out, file, reading.place_of("state"))?;
            let path = shown_word(path);
            writeln!(
                out,
                "state {path} is a symbolic link, which a save would replace; expected a regular file, or none"
            )?;
        }
    }
    Ok(is_any)
}

/// What is wrong with the folder of a path, if anything is.
fn lack_of<R: Files>(rt: &R, path: &str) -> Option<&'static str> {
    match fs::metadata(rt, folder_of(path)) {
        Ok(found) if found.is_dir() => None,
        Ok(_) => Some("is not a directory"),
        Err(_) => Some("is missing"),
    }
}

/// Writes what is wrong with the folder of a path, if anything is. The path is that of this key.
fn write_lacking<R: Files, W: Write>(
    rt: &R,
    out: &mut W,
    file: &str,
    reading: &Reading<'_>,
    key: &str,
    path: &str,
) -> io::Result<()> {
    let Some(lack) = lack_of(rt, path) else {
        return Ok(());
    };
    let folder = shown_word(folder_of(path));
    write_place(out, file, reading.place_of(key))?;
    writeln!(
        out,
        "{key}: {folder} {lack}; expected a directory that this user may write"
    )
}

/// Writes which of the folders of saves and of the control socket aren't there.
pub(crate) fn write_no_folders<R: Files + AllocGlobal, W: Write>(
    rt: &R,
    out: &mut W,
    file: &str,
    reading: &Reading<'_>,
) -> io::Result<()> {
    let config = &reading.config;
    if let Some(state) = &config.state {
        write_lacking(rt, out, file, reading, "state", state.as_str())?;
    }
    if config.scratch.is_some()
        && let Some(paths) = SavePaths::of(rt.alloc(), config)?
    {
        write_lacking(rt, out, file, reading, "scratch", paths.latest())?;
    }
    match &config.control {
        Some(control) => write_lacking(rt, out, file, reading, "control", control.as_str()),
        None => Ok(()),
    }
}
