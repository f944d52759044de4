//! `run`: from the gateway file to a stop.

use crate::connection::{Connection, Stream};
use crate::drops::Drops;
use crate::expiry::Expiry;
use crate::gateway::{Frame, Gateway};
use crate::late::Late;
use crate::lines::Lines;
use crate::manager::Manager;
use crate::saves::{SavePaths, Saves};
use crate::setup::{Manner, NoStart, Start, read_start};
use crate::sockets::{
    CONTROL, LINKS, METRICS, MOST_CONNECTIONS, PLAIN, Sockets, TIMED, remove_control,
};
use crate::time::Time;
use mio::net::{TcpListener, UnixListener};
use mio::{Events, Poll, Token};
use rohc_concentrator::Concentrator;
use rohc_gateway_file::{Build, Config, Ending, Level, LinkNote, Log, Options};
use rohc_links::Links;
use rohc_loop::Before;
use rohc_station::{GatewayFigures, Port, Service, Station, Wish};
use rohc_text::Reason;
use std::alloc::{AllocError, Global};
use std::fs::File;
use std::net::Net;
use std::rt::Files;
use std::time::{Clock, Duration, Instant};
use std::{io, mem};

/// The longest wait for something to come, in milliseconds.
const LONGEST_WAIT: u64 = 1000;

/// How many connections are accepted at a wake and socket.
const MOST_ACCEPTED: u32 = 64;

/// What a gateway runs in: what it was built from, and the service manager that started it.
#[derive(Clone, Copy)]
pub(crate) struct Host<'a> {
    pub(crate) build: Build<'a>,
    pub(crate) manager: Manager,
}

/// Where more may wait. A socket tells that something came only once.
#[derive(Clone, Copy, Default)]
struct Waiting {
    plain: bool,
    timed: bool,
    links: bool,
    control: bool,
    metrics: bool,
    /// A reader of a stream takes more.
    streams: bool,
    /// A long answer isn't whole yet, or a reader of an answer takes more.
    answers: bool,
    /// A connection couldn't be accepted, as when this process can open no more files. The next wake tries again.
    is_refused: bool,
}

impl Waiting {
    /// Whether a datagram may wait.
    fn is_datagram(self) -> bool {
        self.plain || self.timed || self.links
    }

    /// Whether something may wait anywhere.
    fn is_any(self) -> bool {
        self.is_datagram() || self.control || self.metrics || self.streams || self.answers
    }
}

/// The places of connections, of which there are none.
fn empty_places(alloc: Global) -> Result<Vec<Option<Connection>>, AllocError> {
    let mut places = Vec::new(alloc);
    for _ in 0..MOST_CONNECTIONS {
        places.push(None)?;
    }
    Ok(places)
}

/// What a gateway counts that begins.
fn figures_of<R: Clock>(
    rt: &R,
    time: &mut Time,
    config: &Config,
    before: Option<Before>,
) -> GatewayFigures {
    let mut figures = GatewayFigures::default();
    figures.started = time.date(rt);
    figures.begun = time.now(rt);
    figures.has_state = config.state.is_some();
    if let Some(before) = before {
        figures.last_save = before.modified.unwrap_or(figures.started);
        figures.saved = before.moment;
    }
    figures
}

/// What a gateway takes memory for once, at its start.
#[derive(Drop)]
struct Room {
    manager: Manager,
    late: Late,
    saves: Option<Saves>,
    connections: Vec<Option<Connection>>,
}

/// A gateway over what it starts from.
fn gateway_of<'a>(
    frame: Frame<'a>,
    time: Time,
    figures: GatewayFigures,
    notes: Vec<LinkNote>,
    service: Service,
    room: Room,
) -> Gateway<'a> {
    let Room {
        manager,
        late,
        saves,
        connections,
    } = room;
    let seconds = u64::from(frame.config.save_seconds.unwrap_or(0));
    Gateway {
        frame,
        notes,
        service,
        saves,
        next_save: figures.begun.saturating_add(seconds * 1000),
        figures,
        drops: Drops::default(),
        manager,
        late,
        time,
        awaited: None,
        stop: None,
        expiry: Expiry::default(),
        wish: Wish::Nothing,
        spare: None,
        is_stopped: false,
        reload: None,
        is_reloaded: false,
        connections,
        turn: 0,
    }
}

/// Takes a connection, if there is room for it. Otherwise it is closed.
fn take_connection<R: Clock + AllocGlobal>(
    rt: &R,
    gateway: &mut Gateway<'_>,
    poll: &Poll,
    stream: Stream,
) {
    let Some(place) = gateway.free_place(stream.is_control()) else {
        return;
    };
    let mut stream = stream;
    if stream.watch(poll, Token(place)).is_err() {
        return;
    }
    let moment = gateway.now(rt);
    if let Some(slot) = gateway.connections.get_mut(place) {
        *slot = Some(Connection::new(rt.alloc(), stream, moment));
    }
}

/// What comes of looking for connections.
#[derive(Clone, Copy)]
enum Accepted {
    /// More may wait.
    More,
    /// None waits.
    All,
    /// One waits that couldn't be accepted.
    Refused,
}

impl Accepted {
    /// What an error means.
    fn ended_by(error: &io::Error) -> Accepted {
        match error.kind() {
            io::ErrorKind::WouldBlock => Accepted::All,
            _ => Accepted::Refused,
        }
    }
}

/// Takes the connections that wait on the control socket, but at most so many.
fn accept_control<R: Clock + AllocGlobal>(
    rt: &R,
    gateway: &mut Gateway<'_>,
    poll: &Poll,
    listener: &UnixListener,
) -> Accepted {
    for _ in 0..MOST_ACCEPTED {
        match listener.accept() {
            Ok((stream, _)) => take_connection(rt, gateway, poll, Stream::Control(stream)),
            Err(e) => return Accepted::ended_by(&e),
        }
    }
    Accepted::More
}

/// Takes the connections that wait on the metrics port, but at most so many.
fn accept_metrics<R: Clock + AllocGlobal>(
    rt: &R,
    gateway: &mut Gateway<'_>,
    poll: &Poll,
    listener: &TcpListener,
) -> Accepted {
    for _ in 0..MOST_ACCEPTED {
        match listener.accept() {
            Ok((stream, _)) => take_connection(rt, gateway, poll, Stream::Metrics(stream)),
            Err(e) => return Accepted::ended_by(&e),
        }
    }
    Accepted::More
}

/// Takes the connections that wait, a batch from each socket. Notes where more may wait.
fn accept_waiting<R: Clock + AllocGlobal>(
    rt: &R,
    gateway: &mut Gateway<'_>,
    sockets: &Sockets,
    waiting: Waiting,
    left: &mut Waiting,
) {
    if let Some(listener) = &sockets.control
        && (waiting.control || waiting.is_refused)
    {
        match accept_control(rt, gateway, &sockets.poll, listener) {
            Accepted::More => left.control = true,
            Accepted::All => {}
            Accepted::Refused => left.is_refused = true,
        }
    }
    if let Some(listener) = &sockets.metrics
        && (waiting.metrics || waiting.is_refused)
    {
        match accept_metrics(rt, gateway, &sockets.poll, listener) {
            Accepted::More => left.metrics = true,
            Accepted::All => {}
            Accepted::Refused => left.is_refused = true,
        }
    }
}

/// Reloads, if that was asked for. Ports are opened and closed as the gateway file says now, before the answer; one that can't
/// be opened is logged, and tried again at the next reload.
fn reload_as_asked<R>(
    rt: &R,
    gateway: &mut Gateway<'_>,
    sockets: &mut Sockets,
    waiting: &mut Waiting,
)
where
    R: Files + Net + Clock + Eprint + AllocGlobal,
{
    let Some(place) = gateway.reload.take() else {
        return;
    };
    gateway.manager.tell("RELOADING=1\n");
    let reply = gateway.reload(rt);
    if gateway.is_reloaded {
        gateway.is_reloaded = false;
        waiting.links = true;
        let wanted = gateway.frame.config.receive_buffer;
        if let Err(fault) = sockets.follow(rt, wanted, gateway.notes.as_slice()) {
            gateway.frame.log.say(rt, Level::Error, fault);
        }
    }
    gateway.manager.tell("READY=1\n");
    gateway.end_request(rt.alloc(), place, reply);
}

/// Does what an event calls for.
fn handle<R>(
    rt: &R,
    gateway: &mut Gateway<'_>,
    sockets: &mut Sockets,
    waiting: &mut Waiting,
    token: Token,
)
where
    R: Files + Net + Clock + Eprint + AllocGlobal,
{
    if token == PLAIN {
        waiting.plain = true;
    } else if token == TIMED {
        waiting.timed = true;
    } else if token == CONTROL {
        waiting.control = true;
    } else if token == METRICS {
        waiting.metrics = true;
    } else if let Some(port) = token.0.checked_sub(LINKS) {
        waiting.links = true;
        sockets.note_link(port);
    } else {
        gateway.go_on(rt, token.0);
        reload_as_asked(rt, gateway, sockets, waiting);
    }
}

/// Takes the datagrams that wait at the links' own ports, a batch from each. Returns whether more may wait.
fn take_at_links<R: Clock>(rt: &R, gateway: &mut Gateway<'_>, sockets: &mut Sockets) -> bool {
    let mut left = false;
    for one in sockets.links.iter_mut() {
        if one.is_waiting {
            let bound = one.bound();
            one.is_waiting = gateway.serve(rt, bound, Port::Link(one.link));
            left = left || one.is_waiting;
        }
    }
    left
}

/// Takes the datagrams and the connections that wait, a batch from each socket. Returns where more may wait.
fn take_waiting<R: Clock + Eprint + AllocGlobal>(
    rt: &R,
    gateway: &mut Gateway<'_>,
    sockets: &mut Sockets,
    waiting: Waiting,
) -> Waiting {
    let mut left = Waiting::default();
    if let Some(bound) = sockets.of_all(false) {
        left.plain = waiting.plain && gateway.serve(rt, bound, Port::Plain);
    }
    if let Some(bound) = sockets.of_all(true) {
        left.timed = waiting.timed && gateway.serve(rt, bound, Port::Timed);
    }
    left.links = waiting.links && take_at_links(rt, gateway, sockets);
    accept_waiting(rt, gateway, sockets, waiting, &mut left);
    left
}

/// Looks for datagrams at all sockets.
fn look_everywhere(sockets: &mut Sockets, waiting: &mut Waiting) {
    waiting.plain = true;
    waiting.timed = true;
    waiting.links = true;
    for one in sockets.links.iter_mut() {
        one.is_waiting = true;
    }
}

/// Notes how long a wake took.
fn note_wake<R: Clock>(rt: &R, gateway: &mut Gateway<'_>, woken: Option<Instant>) {
    let Some(woken) = woken else {
        return;
    };
    if let Ok(took) = woken.elapsed(rt) {
        let took = u64::try_from(took.as_micros()).unwrap_or(u64::MAX);
        gateway.figures.longest_wake = gateway.figures.longest_wake.max(took);
    }
}

/// One wake: what came is done, and a save goes on by one piece.
fn wake<R>(
    rt: &R,
    gateway: &mut Gateway<'_>,
    sockets: &mut Sockets,
    events: &mut Events,
    waiting: &mut Waiting,
) -> io::Result<()>
where
    R: Files<File = File> + Net + Clock + Eprint + AllocGlobal,
{
    let timeout = if waiting.is_any() || gateway.is_busy() {
        Duration::ZERO
    } else {
        let every = gateway.manager.every.unwrap_or(LONGEST_WAIT);
        Duration::from_millis(every.min(LONGEST_WAIT))
    };
    sockets.poll.poll(events, Some(timeout))?;
    let woken = Instant::now(rt).ok();
    gateway.figures.wakes = gateway.figures.wakes.saturating_add(1);
    for event in events.iter() {
        handle(rt, gateway, sockets, waiting, event.token());
    }
    if gateway.awaited.is_some() || gateway.stop.is_some() {
        look_everywhere(sockets, waiting);
    }
    *waiting = take_waiting(rt, gateway, sockets, *waiting);
    gateway.send_late(sockets);
    gateway.go_on_moving(rt, sockets, !waiting.is_datagram());
    let moment = gateway.now(rt);
    gateway.stop_in_time(rt, moment, !waiting.is_datagram() && !gateway.is_late());
    waiting.streams = gateway.pour_streams(rt.alloc(), moment);
    waiting.answers = gateway.go_on_answers(rt, moment);
    if gateway.is_stopped {
        return Ok(());
    }
    gateway.keep_spare(rt);
    gateway.note_step(rt, moment);
    gateway.drop_late(moment);
    gateway.save_on(rt, moment);
    gateway.expire_on(moment);
    gateway.note_drops(rt, sockets, moment);
    gateway.manager.go_on(moment);
    gateway.figures.lost_lines = gateway.frame.log.lost.count();
    note_wake(rt, gateway, woken);
    Ok(())
}

/// Serves until it is told to stop.
fn serve<R>(rt: &R, gateway: &mut Gateway<'_>, sockets: &mut Sockets) -> io::Result<()>
where
    R: Files<File = File> + Net + Clock + Eprint + AllocGlobal,
{
    let mut events = Events::with_capacity(rt.alloc(), 64)?;
    let mut waiting = Waiting::default();
    for _ in 0..u64::MAX {
        if gateway.is_stopped {
            return Ok(());
        }
        match wake(rt, gateway, sockets, &mut events, &mut waiting) {
            Err(e) if e.kind() != io::ErrorKind::Interrupted => return Err(e),
            _ => {}
        }
    }
    Ok(())
}

/// Tells how a run ended.
fn tell_end<R: Clock + Eprint + AllocGlobal>(
    rt: &R,
    log: Log<'_>,
    served: io::Result<()>,
) -> Result<Ending, Ending> {
    match served {
        Ok(()) => {
            log.say(rt, Level::Info, "stopped");
            Ok(Ending::Good)
        }
        Err(e) => {
            let reason = Reason::of(&e);
            let text = format_args!("waiting for datagrams failed: {reason}");
            log.say(rt, Level::Error, text);
            Err(Ending::Socket)
        }
    }
}

/// Opens the sockets, or says which one can't be opened, and why.
fn opened<R>(rt: &R, log: Log<'_>, config: &Config, notes: &[LinkNote]) -> Result<Sockets, Ending>
where
    R: Files + Net + Clock + Eprint + AllocGlobal,
{
    match Sockets::open(rt, config, notes) {
        Ok(sockets) => Ok(sockets),
        Err(fault) => {
            log.say(rt, Level::Error, fault);
            Err(Ending::Socket)
        }
    }
}

/// Says how many octets of datagrams may wait at each socket, and what to do if that is less than was asked for.
fn say_receive_buffer<R: Clock + Eprint + AllocGlobal>(
    rt: &R,
    log: Log<'_>,
    wanted: u32,
    got: u32,
) {
    if got >= wanted {
        let text = format_args!("receive buffers: {got} octets");
        return log.say(rt, Level::Info, text);
    }
    let text = format_args!(
        "receive buffers: {got} octets; expected {wanted} (sysctl -w net.core.rmem_max={wanted}, then start again)"
    );
    log.say(rt, Level::Warning, text);
}

/// Says what was restored.
fn say_started<R: Clock + Eprint + AllocGlobal>(rt: &R, gateway: &Gateway<'_>, back: Told) {
    let log = gateway.frame.log;
    let links = gateway.service.station.concentrator().tables().len();
    let Told {
        contexts,
        stale_for,
    } = back;
    let text = format_args!("started: {links} links, {contexts} contexts restored");
    log.say(rt, Level::Info, text);
    if let Some(age) = stale_for {
        let text = format_args!(
            "they are stale, saved {age} ms ago: each accepts only packets with a check of 7 bits or more until one is delivered (stale_ms)"
        );
        log.say(rt, Level::Warning, text);
    }
}

/// What is told of the contexts that were restored: how many, and how old they are if they are stale, in milliseconds.
#[derive(Clone, Copy)]
struct Told {
    contexts: u64,
    stale_for: Option<u64>,
}

/// Runs a gateway from its sockets on.
fn run_from<R>(rt: &R, gateway: &mut Gateway<'_>, back: Told) -> Result<Ending, Ending>
where
    R: Files<File = File> + Net + Clock + Eprint + AllocGlobal,
{
    let Frame { config, log, .. } = gateway.frame;
    let mut sockets = opened(rt, log, config, gateway.notes.as_slice())?;
    say_started(rt, gateway, back);
    say_receive_buffer(rt, log, config.receive_buffer, sockets.receive_buffer);
    gateway.log_unknown_links(rt);
    gateway.manager.tell("READY=1\n");
    let served = serve(rt, gateway, &mut sockets);
    gateway.manager.tell("STOPPING=1\n");
    gateway.give_up_save(rt);
    if let Some(path) = &config.control {
        let _ = remove_control(rt, path.as_str());
    }
    tell_end(rt, log, served)
}

/// Takes the memory that a run needs from its start on.
fn room_of<R: AllocGlobal>(rt: &R, manager: Manager, paths: Option<SavePaths>) -> Option<Room> {
    let saves = match paths {
        Some(paths) => Some(Saves::new(rt.alloc(), paths)?),
        None => None,
    };
    Some(Room {
        manager,
        late: Late::new(rt.alloc()).ok()?,
        saves,
        connections: empty_places(rt.alloc()).ok()?,
    })
}

/// The service of a gateway with these contexts and links.
fn service_of(alloc: Global, concentrator: Concentrator, links: Links) -> Option<Service> {
    let station = Station::new(alloc, concentrator, links).ok()?;
    Service::new(alloc, station).ok()
}

/// Runs a gateway from what was read.
fn run_read<R>(
    rt: &R,
    log: Log<'_>,
    host: Host<'_>,
    file: &str,
    options: &Options<'_>,
    start: Start,
) -> Result<Ending, Ending>
where
    R: Files<File = File> + Net + Clock + Eprint + AllocGlobal,
{
    let Start {
        mut config,
        links,
        concentrator,
        contexts,
        is_stale,
        before,
        mut time,
        paths,
        remarks,
        locks: _locks,
    } = start;
    say_lines(rt, log, Level::Warning, &remarks);
    let figures = figures_of(rt, &mut time, &config, before);
    let room = room_of(rt, host.manager, paths).ok_or(Ending::Memory)?;
    let service = service_of(rt.alloc(), concentrator, links).ok_or(Ending::Memory)?;
    let notes = mem::replace(&mut config.notes, Vec::new(rt.alloc()));
    let frame = Frame {
        log,
        build: host.build,
        file,
        options: *options,
        config: &config,
    };
    let stale_for = match before {
        Some(before) if is_stale => Some(time.first().saturating_sub(before.moment)),
        _ => None,
    };
    let told = Told {
        contexts,
        stale_for,
    };
    let mut gateway = gateway_of(frame, time, figures, notes, service, room);
    gateway.set_limits();
    run_from(rt, &mut gateway, told)
}

/// Says these lines.
fn say_lines<R: Clock + Eprint + AllocGlobal>(rt: &R, log: Log<'_>, level: Level, lines: &Lines) {
    for line in lines.as_str().lines() {
        log.say(rt, level, line);
    }
}

/// Runs a gateway until it is told to stop. The log has the format of the gateway file from then on.
pub(crate) fn run<R>(
    rt: &R,
    log: &mut Log<'_>,
    host: Host<'_>,
    file: &str,
    options: &Options<'_>,
    manner: Manner,
) -> Result<Ending, Ending>
where
    R: Files<File = File> + Net + Clock + Eprint + AllocGlobal,
{
    log.format = options.log_format.unwrap_or(log.format);
    match read_start(rt, file, options, manner) {
        Ok(start) => {
            log.format = start.config.log_format;
            run_read(rt, *log, host, file, options, start)
        }
        Err(NoStart::Wrong(lines, format)) => {
            log.format = format;
            say_lines(rt, *log, Level::Error, &lines);
            Ok(Ending::Refused)
        }
        Err(NoStart::Memory) => Err(Ending::Memory),
    }
}
