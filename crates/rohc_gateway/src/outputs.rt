//! What a gateway writes must be none of what it reads: the state file, the control socket, the names beside them under
//! which both are made first, and those of their locks.

use crate::lock::lock_of;
use crate::saves::SavePaths;
use rohc_gateway_file::{Config, Reading, write_place};
use rohc_loop::folder_of;
use std::alloc::Global;
use std::io::Write;
use std::os::unix::fs::{FileTypeExt, MetadataExt};
use std::rt::Files;
use std::{fs, io};

/// The device and the number of a file or folder that is there.
fn identity<R: Files>(rt: &R, path: &str) -> Option<(u64, u64)> {
    match fs::metadata(rt, path) {
        Ok(found) => Some((found.dev(), found.ino())),
        Err(_) => None,
    }
}

/// Whether both are there and the same.
fn are_same(one: Option<(u64, u64)>, other: Option<(u64, u64)>) -> bool {
    one.is_some() && one == other
}

/// Whether something is at the path that is no socket.
fn is_no_socket<R: Files>(rt: &R, path: &str) -> bool {
    match fs::metadata(rt, path) {
        Ok(found) => !found.file_type().is_socket(),
        Err(_) => false,
    }
}

/// The name of a file in its folder.
pub(crate) fn file_name(path: &str) -> &str {
    match path.rsplit_once("/") {
        Some((_, name)) => name,
        None => path,
    }
}

/// Whether two paths lead to the same file, be it there or not.
fn lead_to_same<R: Files>(rt: &R, one: &str, other: &str) -> bool {
    let has_folder = || are_same(identity(rt, folder_of(one)), identity(rt, folder_of(other)));
    one == other
        || are_same(identity(rt, one), identity(rt, other))
        || (file_name(one) == file_name(other) && has_folder())
}

/// A file that a gateway must not write over, and what it is.
#[derive(Clone, Copy)]
struct Kept<'a> {
    what: &'static str,
    path: &'a str,
}

/// What a gateway only reads.
fn inputs_of<'a>(file: &'a str, config: &'a Config) -> [Kept<'a>; 2] {
    let links = match &config.links {
        Some(path) => path.as_str(),
        None => file,
    };
    [
        Kept {
            what: "the gateway file",
            path: file,
        },
        Kept {
            what: "the links file",
            path: links,
        },
    ]
}

/// What is written at a path and beside it.
#[derive(Drop)]
struct Output {
    /// The key of the gateway file.
    key: &'static str,
    path: String,
    beside: String,
    lock: String,
}

/// What is written at this path, by this key.
fn output_of(alloc: Global, key: &'static str, path: &str) -> io::Result<Output> {
    Ok(Output {
        key,
        path: String::from_str(alloc, path)?,
        beside: format!(in alloc; "{path}.new")?,
        lock: lock_of(alloc, path)?,
    })
}

/// Where calls are saved: at a stop, while the gateway runs, and by `rohctl keep`.
fn saves_of(alloc: Global, config: &Config) -> io::Result<Vec<Output>> {
    let mut saves = Vec::new(alloc);
    if let Some(paths) = SavePaths::of(alloc, config)? {
        let [state, latest, kept] = paths.all();
        let scratch = if config.scratch.is_some() {
            "scratch"
        } else {
            "state"
        };
        for (key, path) in [("state", state), (scratch, latest), ("state", kept)] {
            saves.push(output_of(alloc, key, path)?)?;
        }
    }
    Ok(saves)
}

impl Output {
    /// What a state file must not lose.
    fn kept(&self) -> [Kept<'_>; 2] {
        [
            Kept {
                what: "the state file",
                path: self.path.as_str(),
            },
            Kept {
                what: "the new state file",
                path: self.beside.as_str(),
            },
        ]
    }

    /// Whether something is written at a path.
    fn is_at<R: Files>(&self, rt: &R, path: &str) -> bool {
        lead_to_same(rt, self.path.as_str(), path)
            || lead_to_same(rt, self.beside.as_str(), path)
            || lead_to_same(rt, self.lock.as_str(), path)
    }

    /// The first of these files that would be written over.
    fn hit<'k, R: Files>(&self, rt: &R, kept: &[Kept<'k>]) -> Option<Kept<'k>> {
        for one in kept {
            if self.is_at(rt, one.path) {
                return Some(*one);
            }
        }
        None
    }

    /// The path that is there and no socket, if there is one.
    fn no_socket<R: Files>(&self, rt: &R) -> Option<&str> {
        if is_no_socket(rt, self.path.as_str()) {
            Some(self.path.as_str())
        } else if is_no_socket(rt, self.beside.as_str()) {
            Some(self.beside.as_str())
        } else {
            None
        }
    }
}

/// Writes that an output would write over one of these files, if it would. Returns whether it would.
fn write_hit<R: Files, W: Write>(
    rt: &R,
    out: &mut W,
    file: &str,
    reading: &Reading<'_>,
    output: &Output,
    kept: &[Kept<'_>],
) -> io::Result<bool> {
    let key = output.key;
    let Some(Kept { what, path }) = output.hit(rt, kept) else {
        return Ok(false);
    };
    write_place(out, file, reading.place_of(key))?;
    writeln!(
        out,
        "{key} would overwrite {what} {path}; expected a path of its own"
    )?;
    Ok(true)
}

/// Writes that something that is no socket is where the control socket would be, if it is.
fn write_no_socket<R: Files, W: Write>(
    rt: &R,
    out: &mut W,
    file: &str,
    reading: &Reading<'_>,
    control: &Output,
) -> io::Result<()> {
    let Some(path) = control.no_socket(rt) else {
        return Ok(());
    };
    write_place(out, file, reading.place_of(control.key))?;
    writeln!(
        out,
        "control would overwrite {path}, which is not a socket; expected the path of a new socket"
    )
}

/// Writes what the control socket would be made over, if it would: an input, a save, or something that is no socket.
fn write_control<R: Files, W: Write>(
    rt: &R,
    out: &mut W,
    file: &str,
    reading: &Reading<'_>,
    control: &Output,
    saves: &[Output],
) -> io::Result<()> {
    if write_hit(
        rt,
        out,
        file,
        reading,
        control,
        &inputs_of(file, &reading.config),
    )? {
        return Ok(());
    }
    for save in saves {
        if write_hit(rt, out, file, reading, control, &save.kept())? {
            return Ok(());
        }
    }
    write_no_socket(rt, out, file, reading, control)
}

/// Writes what the gateway of a gateway file would write over, a line for each path. Returns whether a save would be written
/// over something else.
pub(crate) fn write_overwritten<R: Files + AllocGlobal, W: Write>(
    rt: &R,
    out: &mut W,
    file: &str,
    reading: &Reading<'_>,
) -> io::Result<bool> {
    let config = &reading.config;
    let saves = saves_of(rt.alloc(), config)?;
    let inputs = inputs_of(file, config);
    let mut is_hit = false;
    for save in &saves {
        is_hit = is_hit || write_hit(rt, out, file, reading, save, &inputs)?;
    }
    if let Some(path) = &config.control {
        let control = output_of(rt.alloc(), "control", path.as_str())?;
        write_control(rt, out, file, reading, &control, saves.as_slice())?;
    }
    Ok(is_hit)
}
