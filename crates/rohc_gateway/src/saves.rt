//! The saves of a gateway that runs: they go on from wake to wake, and no datagram waits for one.

use crate::answers::Reply;
use crate::connection::Progress;
use crate::gateway::{Gateway, UNSAVED};
use crate::outputs::file_name;
use rohc_disk::RealDisk;
use rohc_gateway_file::{Config, Level};
use rohc_loop::{Unwritten, folder_of};
use rohc_running::{Begin, Progress as Step, RunningSave};
use std::alloc::{AllocError, Global};
use std::fs::{self, File};
use std::io;
use std::rt::Files;
use std::time::Clock;

/// Where the saves of a gateway stand.
#[derive(Drop)]
pub(crate) struct SavePaths {
    /// That of a stop.
    state: String,
    /// The newest one of a run that is whole.
    latest: String,
    /// Its copy, which `rohctl keep` writes.
    kept: String,
}

impl SavePaths {
    /// Those of a gateway; `None` if it has no state file.
    pub(crate) fn of(alloc: Global, config: &Config) -> Result<Option<SavePaths>, AllocError> {
        let Some(path) = &config.state else {
            return Ok(None);
        };
        let state = path.as_str();
        let folder = match &config.scratch {
            Some(folder) => folder.as_str().trim_end_matches('/'),
            None => folder_of(state),
        };
        let name = file_name(state);
        Ok(Some(SavePaths {
            state: String::from_str(alloc, state)?,
            latest: format!(in alloc; "{folder}/{name}.latest")?,
            kept: format!(in alloc; "{state}.kept")?,
        }))
    }

    /// All of them; first that of a stop.
    pub(crate) fn all(&self) -> [&str; 3] {
        [
            self.state.as_str(),
            self.latest.as_str(),
            self.kept.as_str(),
        ]
    }

    /// That of the newest save of a run.
    pub(crate) fn latest(&self) -> &str {
        self.latest.as_str()
    }
}

/// Which save a connection waits for.
#[derive(Clone, Copy, PartialEq, Eq)]
pub(crate) enum Wanted {
    /// The one that begins next.
    Next,
    /// The one under way.
    Current,
}

/// The saves of a run.
#[derive(Drop)]
pub(crate) struct Saves {
    pub(crate) paths: SavePaths,
    running: RunningSave,
    /// The file of the save under way.
    file: Option<File>,
    /// When it began.
    begun: Begin,
    /// Whether a request waits for the next one.
    is_wanted: bool,
}

impl Saves {
    /// The saves of a run that begins. `None` if there is no memory.
    pub(crate) fn new(alloc: Global, paths: SavePaths) -> Option<Saves> {
        let running = RunningSave::new(alloc, paths.latest())?;
        Some(Saves {
            paths,
            running,
            file: None,
            begun: Begin { moment: 0, date: 0 },
            is_wanted: false,
        })
    }

    /// Whether a save is under way.
    pub(crate) fn is_busy(&self) -> bool {
        self.running.is_busy()
    }
}

/// A path from the root on, as any other program can use it.
fn absolute<R: Files + AllocGlobal>(rt: &R, path: &str) -> io::Result<String> {
    if path.starts_with('/') {
        return Ok(String::from_str(rt.alloc(), path)?);
    }
    let folder = fs::canonicalize(rt, folder_of(path))?;
    Ok(format!(in rt.alloc(); "{}/{}", folder.display(), file_name(path))?)
}

impl Gateway<'_> {
    /// Whether a save is under way, so that the next wake should come at once.
    pub(crate) fn is_saving(&self) -> bool {
        match &self.saves {
            Some(saves) => saves.is_busy(),
            None => false,
        }
    }

    /// Saves soon, as the connection at a place asked.
    pub(crate) fn await_save<R: AllocGlobal>(&mut self, rt: &R, place: usize) -> Progress {
        let Some(saves) = &mut self.saves else {
            let text = "there is no state file; expected the key state in the gateway file";
            return match Reply::fault(rt.alloc(), 409, "NoState", text) {
                Ok(reply) => self.send_answer(rt.alloc(), place, &reply),
                Err(_) => Progress::Ended,
            };
        };
        saves.is_wanted = true;
        if let Some(Some(connection)) = self.connections.get_mut(place) {
            connection.await_save(Wanted::Next);
        }
        Progress::Waits
    }

    /// Whether a save is due at a moment, or asked for.
    fn is_save_due(&self, moment: u64) -> bool {
        match &self.saves {
            Some(saves) if saves.is_wanted => true,
            Some(_) => self.frame.config.save_seconds.is_some() && moment >= self.next_save,
            None => false,
        }
    }

    /// Goes on with the save under way, by one piece; without one, begins one that is due.
    pub(crate) fn save_on<R>(&mut self, rt: &R, moment: u64)
    where
        R: Files<File = File> + Clock + Eprint + AllocGlobal,
    {
        if self.is_saving() {
            self.save_piece(rt);
        } else if self.is_save_due(moment) {
            self.begin_save(rt, moment);
        }
    }

    /// Begins a save. It is the one that requests wait for.
    fn begin_save<R>(&mut self, rt: &R, moment: u64)
    where
        R: Files<File = File> + Clock + Eprint + AllocGlobal,
    {
        let seconds = u64::from(self.frame.config.save_seconds.unwrap_or(0));
        self.next_save = moment.saturating_add(seconds.saturating_mul(1000));
        let date = self.time.date(rt);
        let begun = Begin { moment, date };
        for slot in self.connections.iter_mut() {
            if let Some(connection) = slot
                && connection.awaits_save(Wanted::Next)
            {
                connection.await_save(Wanted::Current);
            }
        }
        let Some(saves) = &mut self.saves else {
            return;
        };
        saves.is_wanted = false;
        saves.begun = begun;
        let mut disk = RealDisk::of(rt);
        let concentrator = self.service.station.concentrator();
        let begins = saves
            .running
            .begin(&mut disk, rt.alloc(), concentrator, begun);
        saves.file = disk.into_file();
        if let Err(unwritten) = begins {
            self.end_save(rt, Err(unwritten));
        }
    }

    /// Goes on with the save under way by one piece.
    fn save_piece<R>(&mut self, rt: &R)
    where
        R: Files<File = File> + Clock + Eprint + AllocGlobal,
    {
        let Some(saves) = &mut self.saves else {
            return;
        };
        let mut disk = RealDisk::with(rt, saves.file.take());
        let concentrator = self.service.station.concentrator();
        let step = saves.running.go_on(&mut disk, rt.alloc(), concentrator);
        saves.file = disk.into_file();
        match step {
            Ok(Step::Goes) => {}
            Ok(Step::Ends(octets)) => self.end_save(rt, Ok(octets)),
            Err(unwritten) => self.end_save(rt, Err(unwritten)),
        }
    }

    /// Gives up the save under way, if there is one.
    pub(crate) fn give_up_save<R>(&mut self, rt: &R)
    where
        R: Files<File = File>,
    {
        if let Some(saves) = &mut self.saves {
            let mut disk = RealDisk::with(rt, saves.file.take());
            saves.running.stop(&mut disk);
        }
    }

    /// Counts a save that ended, and answers the requests that waited for it.
    fn end_save<R>(&mut self, rt: &R, ended: Result<u64, Unwritten>)
    where
        R: Clock + Eprint + AllocGlobal,
    {
        let begun = match &self.saves {
            Some(saves) => saves.begun,
            None => return,
        };
        self.count_save(ended.is_ok(), begun);
        if let Err(unwritten) = &ended {
            self.log_unsaved(rt, unwritten);
        }
        for place in 0..self.connections.len() {
            let is_awaited = match self.connections.get(place) {
                Some(Some(connection)) => connection.awaits_save(Wanted::Current),
                _ => false,
            };
            if is_awaited {
                self.answer_save(rt, place, &ended);
            }
        }
    }

    /// Answers a request for a save that ended.
    fn answer_save<R>(&mut self, rt: &R, place: usize, ended: &Result<u64, Unwritten>)
    where
        R: Clock + AllocGlobal,
    {
        let moment = self.now(rt);
        if let Some(Some(connection)) = self.connections.get_mut(place) {
            connection.end_wait(moment);
        }
        self.end_request(rt.alloc(), place, save_reply(rt.alloc(), ended));
    }

    /// Counts a save that began then.
    pub(crate) fn count_save(&mut self, is_done: bool, begun: Begin) {
        let figures = &mut self.figures;
        if is_done {
            figures.saves = figures.saves.saturating_add(1);
            figures.last_save = begun.date;
            figures.saved = begun.moment;
        } else {
            figures.failed_saves = figures.failed_saves.saturating_add(1);
        }
    }

    /// Answers with two paths: that of this run's newest save, and that of its copy.
    pub(crate) fn keep<R: Files + AllocGlobal>(&self, rt: &R) -> io::Result<Reply> {
        let alloc = rt.alloc();
        let Some(saves) = &self.saves else {
            let text = "there is no state file; expected the key state in the gateway file";
            return Reply::fault(alloc, 409, "NoState", text);
        };
        let [_, latest, kept] = saves.paths.all();
        let (latest, kept) = (absolute(rt, latest)?, absolute(rt, kept)?);
        Reply::text(format!(in alloc; "{latest}\n{kept}\n"))
    }

    /// Counts a copy of the newest save, or that one failed.
    pub(crate) fn kept<R: Clock + Eprint + AllocGlobal>(
        &mut self,
        rt: &R,
        failed: bool,
    ) -> io::Result<Reply> {
        if failed {
            self.figures.failed_copies = self.figures.failed_copies.saturating_add(1);
            let text = "a copy of the newest save failed (rohctl keep says why)";
            self.frame.log.say(rt, Level::Error, text);
        } else {
            self.figures.last_kept = self.time.date(rt);
        }
        Reply::object(200, format!(in rt.alloc(); "{{\"kept\":{}}}\n", !failed))
    }
}

/// The answer to a request for a save that ended.
pub(crate) fn save_reply(alloc: Global, ended: &Result<u64, Unwritten>) -> io::Result<Reply> {
    match ended {
        Ok(octets) => Reply::object(200, format!(in alloc; "{{\"saved\":{octets}}}\n")),
        Err(unwritten) => {
            let text = format!(in alloc; "{unwritten}; {UNSAVED}")?;
            Reply::fault(alloc, 500, "Save", text.as_str())
        }
    }
}
