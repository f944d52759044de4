//! An input that can be read twice: a file, or standard input, of which a copy is kept: a short one in memory, a long one in a
//! file that has no name any more.

use rohctl_ground::{
    Ending, Reason, STREAM, Screen, Stop, is_capture_front, open_file, open_told, unread,
};
use std::alloc::Global;
use std::env::VarError;
use std::fs::{OpenFile, OpenOptions};
use std::io::{ErrorKind, Read, Seek, Write};
use std::os::unix::fs::OpenOptionsExt;
use std::rt::{Env, Files};
use std::time::Clock;
use std::{env, fs};

/// How many octets of standard input are kept in memory at most: 1 MiB.
const SHORT: u64 = 1_048_576;

/// How many octets decide whether an input is a capture.
const FRONT: u64 = 4;

/// How many names are tried for a copy.
const TRIES: u32 = 100;

/// What messages call a copy.
const COPY: &str = "a temporary file in TMPDIR, or else in /tmp";

/// An input that can be read twice.
#[derive(Drop)]
pub enum Held<'a, F> {
    /// The file of this name.
    File(&'a str),
    /// All of standard input.
    Short(Vec<u8>),
    /// A copy of all of standard input.
    Long(F),
}

/// The folder of temporary files.
fn folder_of<R: Env + AllocGlobal>(rt: &R) -> Result<String, Stop> {
    match env::var(rt, "TMPDIR") {
        Ok(folder) if !folder.is_empty() => Ok(folder),
        Err(VarError::OutOfMemory) => Err(Stop::Memory),
        _ => format!(in rt.alloc(); "/tmp").map_err(|_| Stop::Memory),
    }
}

/// Makes a file that was not there, which only this user may read, and takes its name away: it goes with this process.
fn make_copy<R>(rt: &R) -> Result<R::File, Stop>
where
    R: Files + Env + Clock + AllocGlobal,
{
    let folder = folder_of(rt)?;
    let nanos = match rt.since_1970() {
        Ok(now) => now.as_nanos(),
        Err(_) => 0,
    };
    let mut how = OpenOptions::new();
    how.read(true).write(true).create_new(true).mode(0o600);
    for place in 0..TRIES {
        let Ok(name) = format!(in rt.alloc(); "{folder}/rohctl-{nanos}-{place}") else {
            return Err(Stop::Memory);
        };
        match how.open(rt, name.as_str()) {
            Ok(file) => {
                return match fs::remove_file(rt, name.as_str()) {
                    Ok(()) => Ok(file),
                    Err(error) => Err(Stop::Write(Reason::of(&error))),
                };
            }
            Err(error) if error.kind() == ErrorKind::AlreadyExists => {}
            Err(error) => return Err(Stop::Write(Reason::of(&error))),
        }
    }
    Err(Stop::Write(Reason::Beyond))
}

/// Reads the next octets of a source, in place of those that are kept. Returns whether there are more than fit.
fn read_piece<S: Read>(source: &mut S, kept: &mut Vec<u8>) -> Result<bool, Stop> {
    kept.clear();
    let mut limited = source.take(SHORT + 1);
    match limited.read_to_end(kept) {
        Ok(_) => Ok(kept.len() as u64 > SHORT),
        Err(error) => Err(Stop::Read(Reason::of(&error))),
    }
}

/// Copies these octets and the rest of a source into a file.
fn copy<S: Read, W: Write>(source: &mut S, kept: &mut Vec<u8>, out: &mut W) -> Result<(), Stop> {
    for _ in 0..u64::MAX {
        if let Err(error) = out.write_all(kept.as_slice()) {
            return Err(Stop::Write(Reason::of(&error)));
        }
        read_piece(source, kept)?;
        if kept.is_empty() {
            break;
        }
    }
    match out.flush() {
        Ok(()) => Ok(()),
        Err(error) => Err(Stop::Write(Reason::of(&error))),
    }
}

/// Keeps all of a source: in memory or, if that is too much, in a file.
fn keep_from<R, S: Read>(rt: &R, source: &mut S) -> Result<(Vec<u8>, Option<R::File>), Stop>
where
    R: Files + Env + Clock + AllocGlobal,
{
    let mut kept = Vec::new(rt.alloc());
    if !read_piece(source, &mut kept)? {
        return Ok((kept, None));
    }
    let mut file = make_copy(rt)?;
    copy(source, &mut kept, &mut file)?;
    Ok((kept, Some(file)))
}

/// Keeps all of standard input, whose path is this one.
fn keep<'a, R>(rt: &R, path: &'a str, screen: Screen) -> Result<Held<'a, R::File>, Ending<'a>>
where
    R: Files + Input + Env + Eprint + Clock + AllocGlobal,
{
    let mut source = open_told(rt, path, screen.error)?;
    match keep_from(rt, &mut source) {
        Ok((kept, copied)) => match copied {
            Some(file) => Ok(Held::Long(file)),
            None => Ok(Held::Short(kept)),
        },
        Err(stop) => Err(stop.ending(path, COPY)),
    }
}

/// The input of this name.
pub fn hold<'a, R>(rt: &R, path: &'a str, screen: Screen) -> Result<Held<'a, R::File>, Ending<'a>>
where
    R: Files + Input + Env + Eprint + Clock + AllocGlobal,
{
    if path == STREAM {
        keep(rt, path, screen)
    } else {
        Ok(Held::File(path))
    }
}

/// A copy, to be read from its beginning.
pub(crate) fn rewound<'a, F: OpenFile + Seek + Drop>(file: &F) -> Result<F, Ending<'a>> {
    let again = file
        .try_clone()
        .map_err(|error| unread(STREAM, Reason::of(&error)));
    let mut again = again?;
    match again.rewind() {
        Ok(()) => Ok(again),
        Err(error) => Err(unread(STREAM, Reason::of(&error))),
    }
}

/// Reads at most so many octets.
fn read_front<'a, S: Read + Drop>(
    alloc: Global,
    path: &'a str,
    source: S,
    most: u64,
) -> Result<Vec<u8>, Ending<'a>> {
    let mut front = Vec::new(alloc);
    let mut limited = source.take(most);
    match limited.read_to_end(&mut front) {
        Ok(_) => Ok(front),
        Err(error) => Err(unread(path, Reason::of(&error))),
    }
}

impl<'a, F: Read + Seek + OpenFile + Drop> Held<'a, F> {
    /// The path of the input.
    pub fn path(&self) -> &'a str {
        match self {
            Held::File(path) => path,
            Held::Short(_) | Held::Long(_) => STREAM,
        }
    }

    /// The first octets, at most so many.
    pub(crate) fn front<R>(&self, rt: &R, most: u64) -> Result<Vec<u8>, Ending<'a>>
    where
        R: Files + AllocGlobal,
    {
        match self {
            Held::File(path) => read_front(rt.alloc(), path, open_file(rt, path)?, most),
            Held::Short(octets) => read_front(rt.alloc(), STREAM, octets.as_slice(), most),
            Held::Long(file) => read_front(rt.alloc(), STREAM, rewound(file)?, most),
        }
    }

    /// Whether the input is a capture, by its first octets.
    pub fn is_capture<R: Files + AllocGlobal>(&self, rt: &R) -> Result<bool, Ending<'a>> {
        Ok(is_capture_front(self.front(rt, FRONT)?.as_slice()))
    }
}
