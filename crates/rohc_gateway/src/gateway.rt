//! A gateway: a station behind its sockets.

use crate::answers::{Kind, MOST_FAULTS, REFUSED, Reply};
use crate::connection::{Connection, Progress};
use crate::drops::Drops;
use crate::expiry::Expiry;
use crate::front::{Bound, SocketFront};
use crate::late::Late;
use crate::lines::Lines;
use crate::links_file::{NoLinks, read_links_file};
use crate::long::topic_of;
use crate::manager::Manager;
use crate::moving::{Awaited, awaits, forget, waits, write_moves};
use crate::names::{Shown, limits_of, name_of, read_notes, write_names, write_unknown_links};
use crate::saves::{Saves, save_reply};
use crate::sockets::MOST_CONNECTIONS;
use crate::stop::{Stop, is_asked_by};
use crate::streams::Viewers;
use crate::time::Time;
use rohc_concentrator::NoLink;
use rohc_disk::RealDisk;
use rohc_gateway_file::{Build, Config, Level, LinkNote, Log, Options, VERSION, civil_at};
use rohc_loop::{Step, Unwritten, replace_file};
use rohc_running::Begin;
use rohc_station::{
    Asked, CallList, Duty, GatewayFigures, Port, Preview, ReloadFault, ReloadReport, Request,
    RequestFault, Scan, Service, Wish,
};
use std::alloc::Global;
use std::fmt::Display;
use std::fs::{self, File};
use std::io;
use std::io::Write;
use std::rt::Files;
use std::time::Clock;

/// What follows when a save fails.
pub(crate) const UNSAVED: &str = "the gateway continues, and the file of the last save stays";

/// Writes the members of an object that have a time in milliseconds since 1970, as a number and as a text. The time 0 is
/// none.
fn write_time<W: Write>(out: &mut W, name: &str, moment: u64) -> io::Result<()> {
    write!(out, ",\"{name}\":{moment},\"{name}_text\":")?;
    if moment == 0 {
        return write!(out, "null");
    }
    let time = civil_at(moment);
    write!(out, "\"{time}\"")
}

/// What a gateway was started with.
#[derive(Clone, Copy)]
pub(crate) struct Frame<'a> {
    pub(crate) log: Log<'a>,
    pub(crate) build: Build<'a>,
    /// The gateway file.
    pub(crate) file: &'a str,
    pub(crate) options: Options<'a>,
    pub(crate) config: &'a Config,
}

/// A gateway.
#[derive(Drop)]
pub(crate) struct Gateway<'a> {
    pub(crate) frame: Frame<'a>,
    /// What the gateway file says of links.
    pub(crate) notes: Vec<LinkNote>,
    pub(crate) service: Service,
    pub(crate) figures: GatewayFigures,
    /// What the system drops.
    pub(crate) drops: Drops,
    pub(crate) manager: Manager,
    /// What is sent later.
    pub(crate) late: Late,
    pub(crate) time: Time,
    /// The saves of the run, if there is a state file.
    pub(crate) saves: Option<Saves>,
    /// When the contexts are to be saved next.
    pub(crate) next_save: u64,
    /// The request to move a link that waits.
    pub(crate) awaited: Option<Awaited>,
    /// The stop that was asked for.
    pub(crate) stop: Option<Stop>,
    /// Which links are looked through next for contexts that have expired.
    pub(crate) expiry: Expiry,
    /// What the streams want to see.
    pub(crate) wish: Wish,
    /// A file that is open for nothing. A stop closes it before it saves, so that it can open a file even if connections use all
    /// others.
    pub(crate) spare: Option<File>,
    /// Whether it was told to stop.
    pub(crate) is_stopped: bool,
    /// The place of the connection that asked for a reload.
    pub(crate) reload: Option<usize>,
    /// Whether the gateway file was read again, and the ports don't follow it yet.
    pub(crate) is_reloaded: bool,
    /// The connections, by their tokens.
    pub(crate) connections: Vec<Option<Connection>>,
    /// The place of the connection whose long answer goes on next.
    pub(crate) turn: usize,
}

/// A file that a reload refuses.
#[derive(Clone, Copy)]
struct Refused<'a> {
    /// The name of the fault.
    name: &'a str,
    path: &'a str,
    /// The command that shows all faults of such a file.
    shows: &'static str,
}

/// Logs the first faults of a file that a reload refuses, and what follows.
fn log_refused<R: Clock + Eprint + AllocGlobal>(
    rt: &R,
    log: Log<'_>,
    refused: Refused<'_>,
    faults: &str,
) {
    let Refused { name, path, shows } = refused;
    for line in faults.lines().take(MOST_FAULTS) {
        log.say(rt, Level::Warning, line);
    }
    if faults.lines().count() > MOST_FAULTS {
        let text = format_args!("{shows} {path} shows more");
        log.say(rt, Level::Warning, text);
    }
    let text = format_args!("reload refused: {name}; {REFUSED}");
    log.say(rt, Level::Warning, text);
}

impl Gateway<'_> {
    /// Logs what began or ended as asked.
    fn note<R: Clock + Eprint + AllocGlobal, D: Display + Drop>(&self, rt: &R, text: D) {
        self.frame.log.say(rt, Level::Info, text);
    }

    /// Logs what became of a link.
    pub(crate) fn note_link<R: Clock + Eprint + AllocGlobal, D: Display + Drop>(
        &self,
        rt: &R,
        level: Level,
        link: u16,
        text: D,
    ) {
        let name = name_of(self.notes.as_slice(), link);
        let shown = Shown { link, name };
        self.frame
            .log
            .say(rt, level, format_args!("{shown} {text}"));
    }

    /// Refuses a file at a reload, and says why.
    fn refuse_file<R: Clock + Eprint + AllocGlobal>(
        &self,
        rt: &R,
        refused: Refused<'_>,
        lines: &Lines,
    ) -> io::Result<Reply> {
        log_refused(rt, self.frame.log, refused, lines.as_str());
        Reply::links_refused(rt.alloc(), refused.name, refused.path, lines.as_str())
    }

    /// Logs which tables of the gateway file name no link.
    pub(crate) fn log_unknown_links<R: Clock + Eprint + AllocGlobal>(&self, rt: &R) {
        let mut lines = Lines::new(rt.alloc());
        let (file, concentrator) = (self.frame.file, self.service.station.concentrator());
        // Without memory for all lines those are logged that are whole.
        let _ = write_unknown_links(&mut lines, file, self.notes.as_slice(), concentrator);
        for line in lines.as_str().lines() {
            self.frame.log.say(rt, Level::Warning, line);
        }
    }

    /// Logs why the contexts aren't saved.
    pub(crate) fn log_unsaved<R: Clock + Eprint + AllocGlobal>(
        &self,
        rt: &R,
        unwritten: &Unwritten,
    ) {
        let text = format_args!("save failed: {unwritten}; {UNSAVED}");
        self.frame.log.say(rt, Level::Error, text);
    }

    /// Says that a reload had no memory.
    fn refuse_for_memory<R: Clock + Eprint + AllocGlobal>(&self, rt: &R) -> io::Result<Reply> {
        let text = "out of memory; new links may be missing until a reload succeeds";
        self.frame
            .log
            .say(rt, Level::Error, format_args!("reload refused: {text}"));
        Reply::fault(rt.alloc(), 500, "NoMemory", text)
    }

    /// The moment that it is now.
    pub(crate) fn now<R: Clock>(&mut self, rt: &R) -> u64 {
        self.time.now(rt)
    }

    /// Logs that the system's clock was set, if it was since the last look.
    pub(crate) fn note_step<R: Clock + Eprint + AllocGlobal>(&mut self, rt: &R, moment: u64) {
        let (way, by) = match self.time.step(rt, moment) {
            Some(Step::Ahead(by)) => ("ahead", by),
            Some(Step::Back(by)) => ("back", by),
            None => return,
        };
        let text = format_args!(
            "the system's clock was set {way} by {} s; calls, saves and limits are not affected",
            by.saturating_add(500) / 1000
        );
        self.frame.log.say(rt, Level::Warning, text);
    }

    /// Whether the next wake should come at once, since something goes on by pieces.
    pub(crate) fn is_busy(&self) -> bool {
        self.is_saving() || self.is_late() || self.is_expiring()
    }

    /// How datagrams are answered now.
    pub(crate) fn duty(&self) -> Duty {
        Duty {
            is_draining: self.figures.draining,
            is_numbered: self.frame.config.numbered_feedback,
        }
    }

    /// Serves the datagrams that wait at a socket, but at most so many. Returns whether more may wait.
    pub(crate) fn serve<R: Clock>(&mut self, rt: &R, bound: Bound<'_>, port: Port) -> bool {
        let duty = self.duty();
        let clocks = self.time.clocks(rt);
        let (moments, outbox) = (&mut self.time.moments, &mut self.late.outbox);
        let mut front = SocketFront::new(clocks, Some(bound), moments, outbox);
        let mut viewers = Viewers {
            connections: self.connections.as_mut_slice(),
            wish: self.wish,
        };
        let left = self.service.serve(&mut front, &mut viewers, duty, port);
        let failed = self.figures.failed_receives;
        self.figures.failed_receives = failed.saturating_add(front.failed);
        left
    }

    /// The contexts as they are saved at this moment.
    pub(crate) fn state(&self, alloc: Global, moment: u64) -> Result<Vec<u8>, Unwritten> {
        let mut octets = Vec::new(alloc);
        match self.service.station.save(moment, &mut octets) {
            Ok(_) => Ok(octets),
            Err(_) => Err(Unwritten::Memory),
        }
    }

    /// Saves the contexts whole to the state file, which is on the device then; `None` if there is no state file. Returns how
    /// many octets were saved.
    fn save<R: Files + Clock + AllocGlobal>(&mut self, rt: &R) -> Result<Option<u64>, Unwritten> {
        let Some(path) = &self.frame.config.state else {
            return Ok(None);
        };
        let (moment, date) = (self.now(rt), self.time.date(rt));
        let saved = match self.state(rt.alloc(), moment) {
            Ok(octets) => {
                let (mut disk, text) = (RealDisk::of(rt), octets.as_slice());
                replace_file(&mut disk, rt.alloc(), path.as_str(), text, date).map(
                    |_| octets.len() as u64,
                )
            }
            Err(unwritten) => Err(unwritten),
        };
        self.count_save(saved.is_ok(), Begin { moment, date });
        saved.map(Some)
    }

    /// Reads the tables [[link]] of the gateway file and the links file again. If one of the files is refused, nothing
    /// changes.
    pub(crate) fn reload<R: Files + Clock + Eprint + AllocGlobal>(
        &mut self,
        rt: &R,
    ) -> io::Result<Reply> {
        let Frame { file, options, .. } = self.frame;
        match read_notes(rt, file, &options) {
            Ok(notes) => self.reload_links(rt, notes),
            Err(NoLinks::Refused(name, lines)) => {
                let (path, shows) = (file, "rohc-gateway check");
                self.refuse_file(rt, Refused { name, path, shows }, &lines)
            }
            Err(NoLinks::Memory) => self.refuse_for_memory(rt),
        }
    }

    /// Reads the links file again. If it is accepted, the gateway file says this of its links.
    fn reload_links<R: Files + Clock + Eprint + AllocGlobal>(
        &mut self,
        rt: &R,
        notes: Vec<LinkNote>,
    ) -> io::Result<Reply> {
        let config = self.frame.config;
        let path = match &config.links {
            Some(path) => path.as_str(),
            None => "",
        };
        match self.reload_from(rt, path) {
            Ok(report) => {
                self.notes = notes;
                self.is_reloaded = true;
                self.set_limits();
                self.end_records(rt.alloc(), "reload");
                self.log_reloaded(rt, &report);
                Reply::reloaded(rt.alloc(), &report)
            }
            Err(NoLinks::Refused(name, lines)) => {
                let shows = "rohctl links";
                self.refuse_file(rt, Refused { name, path, shows }, &lines)
            }
            Err(NoLinks::Memory) => self.refuse_for_memory(rt),
        }
    }

    /// Gives each link the limits of its table in the gateway file, or none.
    pub(crate) fn set_limits(&mut self) {
        let service = &mut self.service;
        for place in 0..service.station.counters().len() {
            if let Some((link, _)) = service.station.counters().get_index(place) {
                let link = *link;
                let limits = limits_of(self.notes.as_slice(), link);
                service.station.set_limits(link, limits);
            }
        }
    }

    /// Logs what a reload did.
    fn log_reloaded<R: Clock + Eprint + AllocGlobal>(&self, rt: &R, report: &ReloadReport) {
        let text = format_args!(
            "reloaded: {} added, {} changed, {} removed, {} contexts removed",
            report.added, report.changed, report.removed, report.contexts_gone
        );
        self.note(rt, text);
        self.log_unknown_links(rt);
    }

    /// Accepts the links of the file at this path in place of those that are there.
    fn reload_from<R: Files + AllocGlobal>(
        &mut self,
        rt: &R,
        path: &str,
    ) -> Result<ReloadReport, NoLinks> {
        let alloc = rt.alloc();
        let (text, links) = read_links_file(rt, path)?;
        self.note_withheld();
        let service = &mut self.service;
        match service.station.reload(alloc, links) {
            Ok(report) => Ok(report),
            Err(ReloadFault::Settings(fault)) => {
                Err(NoLinks::refused(alloc, path, text.as_str(), fault.name()))
            }
            Err(ReloadFault::NoMemory) => Err(NoLinks::Memory),
        }
    }

    /// What the station would do with the links of the file at this path.
    fn preview_of<R: Files + AllocGlobal>(&self, rt: &R, path: &str) -> Result<Preview, NoLinks> {
        let alloc = rt.alloc();
        let (text, links) = read_links_file(rt, path)?;
        match self.service.station.preview(alloc, &links) {
            Ok(preview) => Ok(preview),
            Err(ReloadFault::Settings(fault)) => {
                Err(NoLinks::refused(alloc, path, text.as_str(), fault.name()))
            }
            Err(ReloadFault::NoMemory) => Err(NoLinks::Memory),
        }
    }

    /// Shows what a reload would do. Neither file changes anything.
    fn preview<R: Files + AllocGlobal>(&self, rt: &R) -> io::Result<Reply> {
        let alloc = rt.alloc();
        let Frame { file, options, .. } = self.frame;
        let links = match &self.frame.config.links {
            Some(path) => path.as_str(),
            None => "",
        };
        let (path, found) = match read_notes(rt, file, &options) {
            Ok(_) => (links, self.preview_of(rt, links)),
            Err(fault) => (file, Err(fault)),
        };
        match found {
            Ok(preview) => Reply::previewed(alloc, &preview),
            Err(NoLinks::Refused(name, lines)) => {
                Reply::links_refused(alloc, name, path, lines.as_str())
            }
            Err(NoLinks::Memory) => Reply::fault(alloc, 500, "NoMemory", "out of memory"),
        }
    }

    /// Saves, and stops. If the contexts can't be saved, the gateway continues.
    pub(crate) fn save_and_stop<R: Files + Clock + Eprint + AllocGlobal>(
        &mut self,
        rt: &R,
    ) -> io::Result<Reply> {
        let alloc = rt.alloc();
        self.spare = None;
        let saved = match self.save(rt) {
            Ok(saved) => saved,
            Err(unwritten) => {
                self.log_unsaved(rt, &unwritten);
                return save_reply(alloc, &Err(unwritten));
            }
        };
        self.is_stopped = true;
        self.end_records(alloc, "stop");
        let text = match saved {
            Some(octets) => format!(in alloc; "{{\"stopped\":true,\"saved\":{octets}}}\n"),
            None => format!(in alloc; "{{\"stopped\":true,\"saved\":null}}\n"),
        };
        Reply::object(200, text)
    }

    /// Keeps a file open for the save of a stop, if none is.
    pub(crate) fn keep_spare<R: Files<File = File>>(&mut self, rt: &R) {
        if self.spare.is_none() {
            self.spare = fs::open(rt, "/").ok();
        }
    }

    /// Forgets the records of a link, or that of one CID.
    fn reset<R: AllocGlobal>(&mut self, rt: &R, link: u16, cid: Option<u16>) -> io::Result<Reply> {
        let alloc = rt.alloc();
        let service = &mut self.service;
        match service.station.reset(link, cid) {
            Ok(gone) => {
                self.end_records(alloc, "reset");
                Reply::object(200, format!(in alloc; "{{\"gone\":{gone}}}\n"))
            }
            Err(NoLink) => Reply::no_link(alloc, link),
        }
    }

    /// Takes no new call from now on.
    fn drain<R: Clock + Eprint + AllocGlobal>(&mut self, rt: &R) -> io::Result<Reply> {
        self.figures.draining = true;
        self.note(rt, "draining: no new call is accepted");
        Reply::object(200, format!(in rt.alloc(); "{{\"draining\":true}}\n"))
    }

    /// Takes new calls again.
    fn resume<R: Clock + Eprint + AllocGlobal>(&mut self, rt: &R) -> io::Result<Reply> {
        self.figures.draining = false;
        self.note(rt, "resumed: new calls are accepted again");
        Reply::object(200, format!(in rt.alloc(); "{{\"draining\":false}}\n"))
    }

    /// Writes what the limits of all links did.
    fn write_limited<W: Write>(&self, out: &mut W) -> io::Result<()> {
        let (mut contexts, mut feedback) = (0u64, 0u64);
        for (_, of_link) in self.service.station.counters() {
            contexts = contexts.saturating_add(of_link.limiter.contexts_limited);
            feedback = feedback.saturating_add(of_link.limiter.feedback_limited);
        }
        write!(
            out,
            ",\"contexts_limited\":{contexts},\"feedback_limited\":{feedback}"
        )
    }

    /// Writes the last links that datagrams named and that aren't there, the newest last.
    fn write_unknown_links<W: Write>(&self, out: &mut W) -> io::Result<()> {
        write!(out, ",\"unknown_links\":[")?;
        let mut comma = "";
        for unknown in self.service.station.unknown_links() {
            write!(
                out,
                "{comma}{{\"link\":{},\"datagrams\":{}}}",
                unknown.number, unknown.packets
            )?;
            comma = ",";
        }
        write!(out, "]")
    }

    /// Writes the status in a few numbers, those of contexts as they were looked at, and the names of links.
    pub(crate) fn write_status<W: Write>(&self, out: &mut W, scan: &Scan) -> io::Result<()> {
        let states = scan.states();
        let contexts = states
            .no
            .saturating_add(states.fixed)
            .saturating_add(states.full);
        write!(
            out,
            "{{\"version\":\"{VERSION}\",\"links\":{},\"contexts\":{contexts},\"expired\":{},\"draining\":{},\"streams\":{}",
            self.service.station.concentrator().tables().len(),
            states.expired,
            self.figures.draining,
            self.stream_count()
        )?;
        write_time(out, "started", self.figures.started)?;
        write_time(out, "saved", self.figures.last_save)?;
        self.write_limited(out)?;
        self.write_unknown_links(out)?;
        write_moves(out, &self.service.moves)?;
        let Build { sources, logic } = self.frame.build;
        write!(
            out,
            ",\"sources\":\"{sources}\",\"logic\":\"{logic}\",\"names\":{{"
        )?;
        write_names(out, self.notes.as_slice())?;
        writeln!(out, "}}}}")
    }

    /// Whether the links file has a link.
    pub(crate) fn has_link(&self, link: u16) -> bool {
        self.service
            .station
            .concentrator()
            .tables()
            .contains_key(&link)
    }

    /// The calls, as they are at this moment.
    pub(crate) fn call_list(&self, now: u64) -> CallList<'_> {
        CallList {
            station: &self.service.station,
            now,
            has_timed: self.frame.config.timed_port.is_some(),
        }
    }

    /// Does what is asked, and answers.
    fn answer<R>(&mut self, rt: &R, request: Request) -> io::Result<Reply>
    where
        R: Files + Clock + Eprint + AllocGlobal,
    {
        match request {
            Request::Reset { link, cid } => self.reset(rt, link, cid),
            Request::Drain => self.drain(rt),
            Request::Resume => self.resume(rt),
            Request::Keep => self.keep(rt),
            Request::Kept { failed } => self.kept(rt, failed),
            Request::Hold { link, off: false } => self.hold(rt, link),
            Request::Hold { link, off: true } => self.hold_off(rt, link),
            Request::Export { link, .. } => self.export_off(rt, link),
            Request::Import { link } => Reply::no_link(rt.alloc(), link),
            Request::Ready => Reply::object(200, format!(in rt.alloc(); "{{\"ready\":true}}\n")),
            Request::Preview => self.preview(rt),
            Request::Stop
            | Request::Save
            | Request::Reload
            | Request::Status
            | Request::Metrics
            | Request::Page
            | Request::Top
            | Request::State
            | Request::Contexts { .. }
            | Request::Calls { .. }
            | Request::Follow { .. }
            | Request::Record { .. } => Reply::refused(rt.alloc(), RequestFault::NotFound),
        }
    }

    /// The short answer to what a connection asks for. The metrics port shows whether the gateway is ready, and nothing else that
    /// is short.
    fn reply_to<R>(&mut self, rt: &R, asked: Asked, is_control: bool) -> io::Result<Reply>
    where
        R: Files + Clock + Eprint + AllocGlobal,
    {
        let alloc = rt.alloc();
        match asked {
            Asked::Whole(Request::Ready) => self.answer(rt, Request::Ready),
            Asked::Whole(request) if is_control => self.answer(rt, request),
            Asked::Whole(_) => Reply::refused(alloc, RequestFault::NotFound),
            Asked::Faulty(fault) => Reply::refused(alloc, fault),
            Asked::Unfinished => Reply::refused(alloc, RequestFault::BadRequest),
        }
    }

    /// Begins to answer what the connection at a place asks for.
    fn begin_answer<R>(&mut self, rt: &R, place: usize, asked: Asked, is_control: bool) -> Progress
    where
        R: Files + Clock + Eprint + AllocGlobal,
    {
        if let Asked::Whole(request) = asked
            && let Some(topic) = topic_of(request, is_control)
        {
            return self.begin_long(rt, place, topic);
        }
        match self.reply_to(rt, asked, is_control) {
            Ok(reply) => self.send_answer(rt.alloc(), place, &reply),
            Err(_) => Progress::Ended,
        }
    }

    /// Goes on with the connection at a place, and lets it go if it has ended.
    pub(crate) fn go_on<R>(&mut self, rt: &R, place: usize)
    where
        R: Files + Clock + Eprint + AllocGlobal,
    {
        if awaits(self.awaited, place) || is_asked_by(self.stop, place) {
            return;
        }
        let Some(Some(connection)) = self.connections.get_mut(place) else {
            return;
        };
        if connection.is_waiting() {
            return;
        }
        let is_control = connection.is_control();
        let progress = match connection.go_on() {
            Progress::Asks(Asked::Whole(Request::Stop)) if is_control => self.await_stop(rt, place),
            Progress::Asks(Asked::Whole(Request::Save)) if is_control => self.await_save(rt, place),
            Progress::Asks(Asked::Whole(Request::Reload)) if is_control => {
                self.reload = Some(place);
                Progress::Waits
            }
            Progress::Asks(Asked::Whole(request)) if is_control && waits(request) => {
                self.await_datagrams(rt, place, request)
            }
            Progress::Asks(
                Asked::Whole(request @ (Request::Follow { .. } | Request::Record { .. })),
            ) if is_control => self.begin_stream(rt, place, request),
            Progress::Asks(asked) => self.begin_answer(rt, place, asked, is_control),
            progress => progress,
        };
        if let Progress::Ended = progress {
            self.free(place);
        }
    }

    /// Answers the request of the connection at a place, if there was memory for the answer.
    pub(crate) fn end_request(&mut self, alloc: Global, place: usize, reply: io::Result<Reply>) {
        let progress = match reply {
            Ok(reply) => self.send_answer(alloc, place, &reply),
            Err(_) => Progress::Ended,
        };
        if let Progress::Ended = progress {
            self.free(place);
        }
    }

    /// Lets the connection at a place go, and forgets its request if it waits.
    pub(crate) fn free(&mut self, place: usize) {
        forget(&mut self.awaited, place);
        if let Some(slot) = self.connections.get_mut(place) {
            *slot = None;
        }
    }

    /// Sends the answer of the connection at a place.
    pub(crate) fn send_answer(&mut self, alloc: Global, place: usize, reply: &Reply) -> Progress {
        match self.connections.get_mut(place) {
            Some(Some(connection)) => connection.answer(alloc, reply),
            _ => Progress::Ended,
        }
    }

    /// Lets connections go that have taken too long.
    pub(crate) fn drop_late(&mut self, moment: u64) {
        for (place, slot) in self.connections.iter_mut().enumerate() {
            if let Some(connection) = slot {
                if connection.is_late(moment) {
                    forget(&mut self.awaited, place);
                    *slot = None;
                }
            }
        }
    }

    /// The first place without a connection. Those of the control socket and those of the metrics port are
    /// apart, so that neither takes the other's.
    pub(crate) fn free_place(&self, is_control: bool) -> Option<usize> {
        let places = if is_control {
            0..MOST_CONNECTIONS / 2
        } else {
            MOST_CONNECTIONS / 2..MOST_CONNECTIONS
        };
        for place in places {
            if let Some(None) = self.connections.get(place) {
                return Some(place);
            }
        }
        None
    }
}
