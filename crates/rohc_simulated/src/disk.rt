//! A disk that may lose what is not synced.

ghost use Rattle.std.specs.Prelude.{◌≤◌, length, IfOk};

use crate::random::Random;
use rohc_text::Reason;
use rohc_world::Trouble;
use std::alloc::{AllocError, Global};

/// The trouble of a call that needs an open file.
const NO_FILE: Trouble = Trouble::Failed(Reason::Other(0));

/// The trouble of a path without a file.
const MISSING: Trouble = Trouble::Failed(Reason::Missing);

/// The trouble of a call without memory.
const NO_MEMORY: Trouble = Trouble::Failed(Reason::Memory);

/// The only folder.
const FOLDER: &str = ".";

/// A file.
#[derive(Drop)]
struct File {
    octets: Vec<u8>,
    /// How many of the first octets are on the device.
    synced: usize,
    /// The date of the last write.
    modified: u64,
}

/// A name, and the index of its file, if it has one: first that on the device, and then each since the last sync of the
/// folder.
#[derive(Drop)]
struct Entry {
    path: String,
    states: Vec<Option<usize>>,
}

impl Entry {
    /// The index of its file now.
    fn file(&self) -> Option<usize> {
        *self.states.as_slice().last().unwrap_or(&None)
    }
}

/// A disk with one folder, `.`, whose paths have no slash.
#[derive(Drop)]
pub struct SimulatedDisk {
    files: Vec<File>,
    entries: Vec<Entry>,
    /// The index of the open file.
    open: Option<usize>,
    /// How many of its octets were read.
    place: usize,
    alloc: Global,
}

/// What remains of a file when the power fails: the octets on the device, and of the others a first part, which may be
/// zeros.
fn remains_of(alloc: Global, file: &File, random: &mut Random) -> Result<File, AllocError> {
    let unsynced = file.octets.len().saturating_sub(file.synced) as u64;
    let kept = random.below(unsynced.saturating_add(1).max(1)) as usize;
    let are_zeros = random.happens(2);
    let mut octets = Vec::new(alloc);
    for (index, octet) in file.octets.as_slice().iter().enumerate() {
        if index >= file.synced.saturating_add(kept) {
            break;
        }
        let is_lost = are_zeros && index >= file.synced;
        octets.push(if is_lost { 0 } else { *octet })?;
    }
    let synced = octets.len();
    Ok(File {
        octets,
        synced,
        modified: file.modified,
    })
}

impl SimulatedDisk {
    /// An empty disk.
    pub fn new(alloc: Global) -> SimulatedDisk {
        SimulatedDisk {
            files: Vec::new(alloc),
            entries: Vec::new(alloc),
            open: None,
            place: 0,
            alloc,
        }
    }

    /// The index of the file of a path.
    fn file_of(&self, path: &str) -> Option<usize> {
        for entry in self.entries.as_slice() {
            if entry.path.as_str() == path {
                return entry.file();
            }
        }
        None
    }

    /// Changes which file a path has.
    fn set_file(&mut self, path: &str, file: Option<usize>) -> Result<(), AllocError> {
        for entry in self.entries.as_mut_slice() {
            if entry.path.as_str() == path {
                entry.states.push(file)?;
                return Ok(());
            }
        }
        let mut states = Vec::new(self.alloc);
        states.push(None)?;
        states.push(file)?;
        let path = String::from_str(self.alloc, path)?;
        self.entries.push(Entry { path, states })?;
        Ok(())
    }

    /// The octets of a file. `None` if there is none.
    pub fn octets_of(&self, path: &str) -> Option<&[u8]> {
        Some(self.files.get(self.file_of(path)?)?.octets.as_slice())
    }

    /// Opens a file, to be read.
    pub fn open(&mut self, path: &str) -> Result<(), Trouble> {
        let Some(file) = self.file_of(path) else {
            return Err(MISSING);
        };
        self.open = Some(file);
        self.place = 0;
        Ok(())
    }

    /// Reads at most this many octets of the open file into the buffer.
    pub fn read(&mut self, buffer: &mut [u8], most: usize) -> Result<usize, Trouble>
        ensures { IfOk result (λ size. size ≤ length buffer.new) }
    {
        let Some(file) = self.open else {
            return Err(NO_FILE);
        };
        let Some(file) = self.files.get(file) else {
            return Err(NO_FILE);
        };
        let rest = file.octets.as_slice().get(self.place..).unwrap_or(&[]);
        let size = rest.len().min(buffer.len()).min(most);
        buffer[..size].copy_from_slice(&rest[..size]);
        self.place = self.place.saturating_add(size);
        Ok(size)
    }

    /// Sets the date of the last write to the open file.
    pub fn set_modified(&mut self, date: u64) -> Result<(), Trouble> {
        let Some(file) = self.open else {
            return Err(NO_FILE);
        };
        match self.files.get_mut(file) {
            Some(file) => {
                file.modified = date;
                Ok(())
            }
            None => Err(NO_FILE),
        }
    }

    /// The date of the last write to a file.
    pub fn modified(&self, path: &str) -> Result<u64, Trouble> {
        let Some(file) = self.file_of(path) else {
            return Err(MISSING);
        };
        match self.files.get(file) {
            Some(file) => Ok(file.modified),
            None => Err(MISSING),
        }
    }

    /// Opens an empty file, to be written, at this date.
    pub fn create(&mut self, path: &str, date: u64) -> Result<(), Trouble> {
        let file = File {
            octets: Vec::new(self.alloc),
            synced: 0,
            modified: date,
        };
        let index = self.files.len();
        self.files.push(file).map_err(|_| NO_MEMORY)?;
        self.set_file(path, Some(index)).map_err(|_| NO_MEMORY)?;
        self.open = Some(index);
        Ok(())
    }

    /// Appends at most this many octets to the open file, at this date.
    pub fn write(&mut self, octets: &[u8], most: usize, date: u64) -> Result<usize, Trouble>
        ensures { IfOk result (λ size. size ≤ length octets.now) }
    {
        let Some(file) = self.open else {
            return Err(NO_FILE);
        };
        let Some(file) = self.files.get_mut(file) else {
            return Err(NO_FILE);
        };
        let size = octets.len().min(most);
        file.modified = date;
        match file.octets.extend_from_slice(&octets[..size]) {
            Ok(()) => Ok(size),
            Err(_) => Err(NO_MEMORY),
        }
    }

    /// Puts the octets of the open file on the device.
    pub fn sync(&mut self) -> Result<(), Trouble> {
        let Some(file) = self.open else {
            return Err(NO_FILE);
        };
        let Some(file) = self.files.get_mut(file) else {
            return Err(NO_FILE);
        };
        file.synced = file.octets.len();
        Ok(())
    }

    /// Closes the open file.
    pub fn close(&mut self) {
        self.open = None;
    }

    /// Renames a file.
    pub fn rename(&mut self, from: &str, to: &str) -> Result<(), Trouble> {
        let Some(file) = self.file_of(from) else {
            return Err(MISSING);
        };
        self.set_file(to, Some(file)).map_err(|_| NO_MEMORY)?;
        self.set_file(from, None).map_err(|_| NO_MEMORY)
    }

    /// Removes a file.
    pub fn remove(&mut self, path: &str) -> Result<(), Trouble> {
        match self.file_of(path) {
            Some(_) => self.set_file(path, None).map_err(|_| NO_MEMORY),
            None => Err(MISSING),
        }
    }

    /// Puts the names on the device.
    pub fn sync_folder(&mut self, path: &str) -> Result<(), Trouble> {
        if path != FOLDER {
            return Err(MISSING);
        }
        for entry in self.entries.as_mut_slice() {
            let file = entry.file();
            entry.states.clear();
            entry.states.push(file).map_err(|_| NO_MEMORY)?;
        }
        Ok(())
    }

    /// The disk after the power failed. Each name has one of the files that it had since the last sync of the folder.
    pub fn after_power_failure(&self, random: &mut Random) -> Result<SimulatedDisk, AllocError> {
        let mut disk = SimulatedDisk::new(self.alloc);
        for entry in self.entries.as_slice() {
            let count = (entry.states.len() as u64).max(1);
            let kept = random.below(count) as usize;
            let Some(Some(file)) = entry.states.get(kept) else {
                continue;
            };
            let Some(file) = self.files.get(*file) else {
                continue;
            };
            disk.restore(entry.path.as_str(), remains_of(self.alloc, file, random)?)?;
        }
        Ok(disk)
    }

    /// Puts a file on the device, with its name.
    fn restore(&mut self, path: &str, file: File) -> Result<(), AllocError> {
        let index = self.files.len();
        self.files.push(file)?;
        let mut states = Vec::new(self.alloc);
        states.push(Some(index))?;
        let path = String::from_str(self.alloc, path)?;
        self.entries.push(Entry { path, states })?;
        Ok(())
    }
}
