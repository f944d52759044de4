//! An outside over a simulated disk.

use crate::disk::SimulatedDisk;
use crate::random::Random;
use rohc_text::Reason;
use rohc_world::{Clocks, Disk, Journal, Traced, Trouble, World};

/// The trouble of each call of a process that was killed.
const KILLED: Trouble = Trouble::Failed(Reason::Other(0));

/// How often something happens: once in this many calls, or never if it is 0.
#[derive(Clone, Copy)]
pub struct Chances {
    /// A call fails, and does nothing.
    pub failure: u64,
    /// A read or a write moves only a part.
    pub part: u64,
    /// The system's clock jumps.
    pub jump: u64,
}

/// An outside in memory. From the call `end` on each call fails and does nothing, as if the process had been killed.
#[derive(Drop)]
pub struct Simulated {
    pub disk: SimulatedDisk,
    pub random: Random,
    pub chances: Chances,
    /// How many calls there were.
    pub calls: u64,
    pub end: u64,
    /// The call that fails with `NoSpace`; 0 if none does.
    pub fails: u64,
    date: u64,
    uptime: u64,
}

impl Simulated {
    /// An outside over a disk.
    pub fn new(disk: SimulatedDisk, random: Random, chances: Chances, end: u64) -> Simulated {
        Simulated {
            disk,
            random,
            chances,
            calls: 0,
            end,
            fails: 0,
            date: 1_700_000_000_000,
            uptime: 0,
        }
    }

    /// A call. It may fail.
    fn call(&mut self) -> Result<(), Trouble> {
        self.calls = self.calls.saturating_add(1);
        if self.calls > self.end {
            return Err(KILLED);
        }
        if self.calls == self.fails {
            return Err(Trouble::Failed(Reason::NoSpace));
        }
        if !self.random.happens(self.chances.failure) {
            return Ok(());
        }
        Err(match self.random.below(3) {
            0 => Trouble::Failed(Reason::NoSpace),
            1 => Trouble::Failed(Reason::ReadOnly),
            _ => Trouble::Failed(Reason::Other(5)),
        })
    }

    /// Up to a fifth of a second passes.
    fn pass(&mut self) {
        let passed = self.random.below(200);
        self.date = self.date.saturating_add(passed);
        self.uptime = self.uptime.saturating_add(passed);
    }

    /// How many octets a read or a write of this many moves at most.
    fn part_of(&mut self, size: usize) -> usize {
        if self.random.happens(self.chances.part) {
            self.random.below((size as u64).saturating_add(1).max(1)) as usize
        } else {
            size
        }
    }
}

impl Traced for Simulated {}

impl Disk for Simulated {
    fn open(&mut self, path: &str) -> Result<(), Trouble> {
        self.call()?;
        self.disk.open(path)
    }

    fn read(&mut self, buffer: &mut [u8]) -> Result<usize, Trouble> {
        self.call()?;
        let most = self.part_of(buffer.len()).max(1);
        self.disk.read(buffer, most)
    }

    fn create(&mut self, path: &str) -> Result<(), Trouble> {
        self.call()?;
        self.disk.create(path, self.date)
    }

    fn write(&mut self, octets: &[u8]) -> Result<usize, Trouble> {
        self.call()?;
        let most = self.part_of(octets.len());
        self.disk.write(octets, most, self.date)
    }

    fn sync(&mut self) -> Result<(), Trouble> {
        self.call()?;
        self.disk.sync()
    }

    fn close(&mut self) {
        if self.call().is_ok() {
            self.disk.close();
        }
    }

    fn rename(&mut self, from: &str, to: &str) -> Result<(), Trouble> {
        self.call()?;
        self.disk.rename(from, to)
    }

    fn remove(&mut self, path: &str) -> Result<(), Trouble> {
        self.call()?;
        self.disk.remove(path)
    }

    fn sync_folder(&mut self, path: &str) -> Result<(), Trouble> {
        self.call()?;
        self.disk.sync_folder(path)
    }

    fn set_modified(&mut self, date: u64) -> Result<(), Trouble> {
        self.call()?;
        self.disk.set_modified(date)
    }

    fn modified(&mut self, path: &str) -> Result<u64, Trouble> {
        self.call()?;
        self.disk.modified(path)
    }
}

impl Clocks for Simulated {
    fn date(&mut self) -> Result<u64, Trouble> {
        self.call()?;
        self.pass();
        if self.random.happens(self.chances.jump) {
            self.date = self.random.next() % (1 << 42);
        }
        Ok(self.date)
    }

    fn uptime(&mut self) -> Result<u64, Trouble> {
        self.call()?;
        self.pass();
        Ok(self.uptime)
    }
}

impl Journal for Simulated {
    fn log(&mut self, line: &[u8]) -> Result<(), Trouble> {
        let _ = line;
        self.call()
    }
}

impl World for Simulated {}
