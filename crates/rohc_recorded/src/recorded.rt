//! The record of an outside.

ghost use Rattle.std.specs.Prelude.{◌≡◌, [], ◌∷◌, Some};
ghost use Rattle.rohc_world.specs.Acts.{AddsActs};
ghost use Rattle.rohc_recorded.specs.Recording.{act_of, acts_of};

use crate::event::{Event, copied};
use rohc_world::{Clocks, Disk, Journal, Traced, Trouble, World};
use std::alloc::Global;

/// Another outside, with a record of its calls. Without memory for a call the record is `None` from then on.
#[derive(Drop)]
pub struct Recorded<W> {
    pub inner: W,
    pub events: Option<Vec<Event>>,
    pub alloc: Global,
}

/// Adds an event to a record. The result is `None` without memory.
fn noted(events: Option<Vec<Event>>, event: Event) -> Option<Vec<Event>>
    ensures { AddsActs (acts_of events) (acts_of result) (act_of event ∷ []) }
{
    let mut all = events?;
    match all.push(event) {
        Ok(()) => Some(all),
        Err(_) => None,
    }
}

impl<W: Traced> Recorded<W> {
    ghost use Rattle.std.specs.Prelude.{[], ◌∷◌, ◌≡◌, Some};
    ghost use Rattle.rohc_world.specs.Acts.{AddsActs};
    ghost use Rattle.rohc_recorded.specs.Recording.{act_of, acts_of};

    /// An outside that is recorded from now on.
    pub fn new(alloc: Global, inner: W) -> Recorded<W>
        ensures { acts_of result.events ≡ Some [] }
    {
        Recorded {
            inner,
            events: Some(Vec::new(alloc)),
            alloc,
        }
    }

    /// Adds an event to the record.
    fn note(&mut self, event: Event)
        ensures { AddsActs (acts_of self.old.events) (acts_of self.new.events) (act_of event ∷ []) }
    {
        self.events = noted(self.events.take(), event);
    }
}

impl<W: Traced> Traced for Recorded<W> {
    ghost use Rattle.rohc_recorded.specs.Recording.{acts_of};

    ghost acts = { λ r. acts_of r.events };
}

impl<W: Disk> Disk for Recorded<W> {
    fn open(&mut self, path: &str) -> Result<(), Trouble> {
        let result = self.inner.open(path);
        match copied(self.alloc, path.as_bytes()) {
            Some(path) => self.note(Event::Opened(path, result)),
            None => self.events = None,
        }
        result
    }

    fn read(&mut self, buffer: &mut [u8]) -> Result<usize, Trouble> {
        let result = self.inner.read(buffer);
        match result {
            Ok(size) => match copied(self.alloc, &buffer[..size]) {
                Some(octets) => self.note(Event::Read(Ok(octets))),
                None => self.events = None,
            },
            Err(trouble) => self.note(Event::Read(Err(trouble))),
        }
        result
    }

    fn create(&mut self, path: &str) -> Result<(), Trouble> {
        let result = self.inner.create(path);
        match copied(self.alloc, path.as_bytes()) {
            Some(path) => self.note(Event::Created(path, result)),
            None => self.events = None,
        }
        result
    }

    fn write(&mut self, octets: &[u8]) -> Result<usize, Trouble> {
        let result = self.inner.write(octets);
        match copied(self.alloc, octets) {
            Some(octets) => self.note(Event::Wrote(octets, result)),
            None => self.events = None,
        }
        result
    }

    fn sync(&mut self) -> Result<(), Trouble> {
        let result = self.inner.sync();
        self.note(Event::Synced(result));
        result
    }

    fn close(&mut self) {
        self.inner.close();
        self.note(Event::Closed);
    }

    fn rename(&mut self, from: &str, to: &str) -> Result<(), Trouble> {
        let result = self.inner.rename(from, to);
        match (
            copied(self.alloc, from.as_bytes()),
            copied(self.alloc, to.as_bytes()),
        ) {
            (Some(from), Some(to)) => self.note(Event::Renamed(from, to, result)),
            _ => self.events = None,
        }
        result
    }

    fn remove(&mut self, path: &str) -> Result<(), Trouble> {
        let result = self.inner.remove(path);
        match copied(self.alloc, path.as_bytes()) {
            Some(path) => self.note(Event::Removed(path, result)),
            None => self.events = None,
        }
        result
    }

    fn sync_folder(&mut self, path: &str) -> Result<(), Trouble> {
        let result = self.inner.sync_folder(path);
        match copied(self.alloc, path.as_bytes()) {
            Some(path) => self.note(Event::SyncedFolder(path, result)),
            None => self.events = None,
        }
        result
    }

    fn set_modified(&mut self, date: u64) -> Result<(), Trouble> {
        let result = self.inner.set_modified(date);
        self.note(Event::SetModified(date, result));
        result
    }

    fn modified(&mut self, path: &str) -> Result<u64, Trouble> {
        let result = self.inner.modified(path);
        match copied(self.alloc, path.as_bytes()) {
            Some(path) => self.note(Event::Modified(path, result)),
            None => self.events = None,
        }
        result
    }
}

impl<W: Clocks> Clocks for Recorded<W> {
    fn date(&mut self) -> Result<u64, Trouble> {
        let result = self.inner.date();
        self.note(Event::Dated(result));
        result
    }

    fn uptime(&mut self) -> Result<u64, Trouble> {
        let result = self.inner.uptime();
        self.note(Event::Timed(result));
        result
    }
}

impl<W: Journal> Journal for Recorded<W> {
    fn log(&mut self, line: &[u8]) -> Result<(), Trouble> {
        let result = self.inner.log(line);
        match copied(self.alloc, line) {
            Some(line) => self.note(Event::Logged(line, result)),
            None => self.events = None,
        }
        result
    }
}

impl<W: World> World for Recorded<W> {}
