//! The locks of what only one gateway may write: its saves and its control socket. The system releases a lock when its gateway
//! ends, however it ends.

use crate::lines::Lines;
use crate::saves::SavePaths;
use rohc_gateway_file::Config;
use rohc_text::shown_word;
use std::alloc::Global;
use std::fs::{self, File, OpenOptions, TryLockError};
use std::io::{self, ErrorKind, Read, Seek, Write};
use std::os::unix::fs::MetadataExt;
use std::rt::Files;

/// The text of a lock, before the path of the gateway file.
const MARK: &str = "rohc-gateway ";

/// The longest text of a lock that is read, in octets.
const LONGEST: u64 = 8192;

/// The locks that a gateway holds.
#[derive(Drop)]
pub(crate) struct Locks {
    held: Vec<File>,
}

/// What became of a lock that was tried.
#[derive(Drop)]
enum Tried {
    /// It is held from now on, as long as this file is open.
    Taken(File),
    /// A gateway with this gateway file holds it.
    Held(String),
    /// Something else stands at its path.
    Foreign,
}

/// The path of the lock beside a file.
pub(crate) fn lock_of(alloc: Global, path: &str) -> io::Result<String> {
    Ok(format!(in alloc; "{path}.lock")?)
}

/// The gateway file that a lock names: none if it is new. `None` if the file is no lock.
fn holder_in(alloc: Global, file: &mut File) -> io::Result<Option<String>> {
    let mut octets = Vec::new(alloc);
    let _ = file.take(LONGEST).read_to_end(&mut octets)?;
    let Ok(text) = String::from_utf8(octets) else {
        return Ok(None);
    };
    let text = text.as_str();
    match text.strip_prefix(MARK) {
        Some(holder) => Ok(Some(String::from_str(alloc, holder.trim_end())?)),
        None if text.is_empty() => Ok(Some(String::new(alloc))),
        None => Ok(None),
    }
}

/// Writes a lock's holder into it.
fn write_holder(file: &mut File, holder: &str) -> io::Result<()> {
    file.rewind()?;
    file.set_len(0)?;
    file.write_all(MARK.as_bytes())?;
    file.write_all(holder.as_bytes())?;
    file.write_all(b"\n")
}

/// Opens the file of a lock: one that is there, or a new one.
fn opened_at<R: Files<File = File>>(rt: &R, path: &str, is_new: bool) -> io::Result<File> {
    let mut options = OpenOptions::new();
    let _ = options.read(true).write(true).create_new(is_new);
    options.open(rt, path)
}

/// Opens the file of a lock, which is made if it isn't there; `None` if something else is at its path, be it a symbolic
/// link. It is compared with what was found before, so that no link that comes between is followed.
fn opened<R: Files<File = File>>(rt: &R, path: &str) -> io::Result<Option<File>> {
    let found = match fs::symlink_metadata(rt, path) {
        Ok(found) if found.is_file() => found,
        Ok(_) => return Ok(None),
        Err(e) if e.kind() == ErrorKind::NotFound => return Ok(Some(opened_at(rt, path, true)?)),
        Err(e) => return Err(e),
    };
    let file = opened_at(rt, path, false)?;
    let opened = file.metadata()?;
    if (opened.dev(), opened.ino()) == (found.dev(), found.ino()) {
        Ok(Some(file))
    } else {
        Ok(None)
    }
}

/// Tries a lock for the gateway with this gateway file.
fn lock<R>(rt: &R, path: &str, holder: &str) -> io::Result<Tried>
where
    R: Files<File = File> + AllocGlobal,
{
    let Some(mut file) = opened(rt, path)? else {
        return Ok(Tried::Foreign);
    };
    let is_taken = match file.try_lock() {
        Ok(()) => true,
        Err(TryLockError::WouldBlock) => false,
        Err(TryLockError::Error(e)) => return Err(e),
    };
    let Some(other) = holder_in(rt.alloc(), &mut file)? else {
        return Ok(Tried::Foreign);
    };
    if !is_taken {
        return Ok(Tried::Held(other));
    }
    // The lock holds even if there is no room to say who holds it.
    let _ = write_holder(&mut file, holder);
    Ok(Tried::Taken(file))
}

/// Writes that another gateway holds the lock for the path of this key.
fn write_held(lines: &mut Lines, key: &str, path: &str, holder: &str) -> io::Result<()> {
    let (path, holder) = (shown_word(path), shown_word(holder));
    writeln!(
        lines,
        "{key}: {path}: locked by another gateway ({holder}); expected a {key} that no other gateway uses"
    )
}

impl Locks {
    /// No locks.
    pub(crate) fn none(alloc: Global) -> Locks {
        Locks {
            held: Vec::new(alloc),
        }
    }

    /// Takes the lock for a path of a key. The lines say why not.
    fn take<R>(
        &mut self,
        rt: &R,
        key: &str,
        path: &str,
        holder: &str,
        lines: &mut Lines,
    ) -> io::Result<()>
    where
        R: Files<File = File> + AllocGlobal,
    {
        let path = lock_of(rt.alloc(), path)?;
        match lock(rt, path.as_str(), holder) {
            Ok(Tried::Taken(file)) => Ok(self.held.push(file)?),
            Ok(Tried::Held(other)) => write_held(lines, key, path.as_str(), other.as_str()),
            Ok(Tried::Foreign) => {
                let path = shown_word(path.as_str());
                writeln!(
                    lines,
                    "{key}: {path}: not the lock of a gateway; expected no other file there"
                )
            }
            // Where no lock can be made nothing else can be written either, and that error is told then.
            Err(_) => Ok(()),
        }
    }

    /// Takes the locks of a gateway with this file. The lines say which it doesn't get, and why.
    pub(crate) fn of<R>(rt: &R, file: &str, config: &Config, lines: &mut Lines) -> io::Result<Locks>
    where
        R: Files<File = File> + AllocGlobal,
    {
        let mut locks = Locks::none(rt.alloc());
        if let Some(paths) = SavePaths::of(rt.alloc(), config)? {
            let [state, latest, _] = paths.all();
            locks.take(rt, "state", state, file, lines)?;
            if config.scratch.is_some() {
                locks.take(rt, "scratch", latest, file, lines)?;
            }
        }
        if let Some(control) = &config.control {
            locks.take(rt, "control", control.as_str(), file, lines)?;
        }
        Ok(locks)
    }
}
