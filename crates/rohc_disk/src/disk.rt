//! The files of the system.

ghost use Rattle.std.specs.Prelude.{◌≡◌, None};

use crate::time::{milliseconds, time_of};
use crate::trouble::{answer_of, trouble_of};
use rohc_text::Reason;
use rohc_world::{Disk, Traced, Trouble};
use std::fs::{self, FileTimes, OpenFile, OpenOptions};
use std::io::{ErrorKind, Read, Write};
use std::rt::Files;

/// The files of the system.
#[derive(Drop)]
pub struct RealDisk<'a, R: Files> {
    rt: &'a R,
    /// The open file.
    file: Option<R::File>,
    /// Whether what is no regular file is opened too.
    opens_any: bool,
}

impl<'a, R: Files> RealDisk<'a, R> {
    /// The files of a system, with none open.
    pub fn of(rt: &'a R) -> Self
        ensures { result.file ≡ None }
    {
        RealDisk {
            rt,
            file: None,
            opens_any: false,
        }
    }

    /// The files of a system, with none open. What is no regular file is opened too: a FIFO once it has a writer.
    pub fn waiting(rt: &'a R) -> Self
        ensures { result.file ≡ None }
    {
        RealDisk {
            rt,
            file: None,
            opens_any: true,
        }
    }

    /// The files of a system, with this one open if there is one.
    pub fn with(rt: &'a R, file: Option<R::File>) -> Self
        ensures { result.file ≡ file }
    {
        RealDisk {
            rt,
            file,
            opens_any: false,
        }
    }

    /// The open file, if there is one.
    pub fn into_file(self) -> Option<R::File>
        ensures { result ≡ self.entry.file }
    {
        self.file
    }
}

/// Opens a regular file. An open of a FIFO would wait for a writer, and a device has no end.
fn open_regular<R: Files>(rt: &R, path: &str) -> Result<R::File, Trouble> {
    let found = answer_of(fs::metadata(rt, path))?;
    if found.is_dir() {
        return Err(Trouble::Failed(Reason::Directory));
    }
    if !found.is_file() {
        return Err(Trouble::Failed(Reason::Invalid));
    }
    let file = answer_of(fs::open(rt, path))?;
    if answer_of(file.metadata())?.is_file() {
        Ok(file)
    } else {
        Err(Trouble::Failed(Reason::Changed))
    }
}

/// Removes a file, if it is there.
fn remove_any<R: Files>(rt: &R, path: &str) -> Result<(), Trouble> {
    match fs::remove_file(rt, path) {
        Err(e) if e.kind() != ErrorKind::NotFound => Err(trouble_of(&e)),
        _ => Ok(()),
    }
}

/// Creates a new file in the place of one that is there. A symbolic link there is replaced, not followed.
fn create_new<R: Files>(rt: &R, path: &str) -> Result<R::File, Trouble> {
    remove_any(rt, path)?;
    let mut options = OpenOptions::new();
    let _ = options.write(true).create_new(true);
    answer_of(options.open(rt, path))
}

impl<R: Files> Traced for RealDisk<'_, R> {}

/// The trouble of a call that needs an open file.
const NO_FILE: Trouble = Trouble::Failed(Reason::Other(0));

impl<R: Files> Disk for RealDisk<'_, R> {
    fn open(&mut self, path: &str) -> Result<(), Trouble> {
        self.file = Some(if self.opens_any {
            answer_of(fs::open(self.rt, path))?
        } else {
            open_regular(self.rt, path)?
        });
        Ok(())
    }

    fn read(&mut self, buffer: &mut [u8]) -> Result<usize, Trouble> {
        match &mut self.file {
            Some(file) => match file.read(buffer) {
                Ok(size) => Ok(size),
                Err(e) => Err(trouble_of(&e)),
            },
            None => Err(NO_FILE),
        }
    }

    fn create(&mut self, path: &str) -> Result<(), Trouble> {
        self.file = Some(create_new(self.rt, path)?);
        Ok(())
    }

    fn write(&mut self, octets: &[u8]) -> Result<usize, Trouble> {
        match &mut self.file {
            Some(file) => match file.write(octets) {
                Ok(size) => Ok(size),
                Err(e) => Err(trouble_of(&e)),
            },
            None => Err(NO_FILE),
        }
    }

    fn sync(&mut self) -> Result<(), Trouble> {
        match &self.file {
            Some(file) => answer_of(file.sync_all()),
            None => Err(NO_FILE),
        }
    }

    fn close(&mut self) {
        self.file = None;
    }

    fn rename(&mut self, from: &str, to: &str) -> Result<(), Trouble> {
        answer_of(fs::rename(self.rt, from, to))
    }

    fn remove(&mut self, path: &str) -> Result<(), Trouble> {
        answer_of(fs::remove_file(self.rt, path))
    }

    fn sync_folder(&mut self, path: &str) -> Result<(), Trouble> {
        let folder = answer_of(fs::open(self.rt, path))?;
        answer_of(folder.sync_all())
    }

    fn set_modified(&mut self, date: u64) -> Result<(), Trouble> {
        match &self.file {
            Some(file) => answer_of(file.set_times(FileTimes::new().set_modified(time_of(date)))),
            None => Err(NO_FILE),
        }
    }

    fn modified(&mut self, path: &str) -> Result<u64, Trouble> {
        let data = answer_of(fs::metadata(self.rt, path))?;
        Ok(milliseconds(answer_of(data.modified())?))
    }
}
