//! A link that is moved to another gateway, or from one: requests hold, export and import.

use crate::answers::{Kind, Reply};
use crate::connection::{Connection, Progress};
use crate::front::{Bound, SocketFront};
use crate::gateway::Gateway;
use crate::sockets::Sockets;
use rohc_gateway_file::Level;
use rohc_saved::{LinkFault, Restored, saved_moment};
use rohc_station::{Held, Moves, Request};
use std::alloc::Global;
use std::io;
use std::io::Write;
use std::rt::Files;
use std::time::Clock;

/// How far the moments of two gateways may be apart when a link moves, in milliseconds.
const MOST_APART: u64 = 1000;

/// A request that is done once the datagrams were taken that waited when it came.
#[derive(Clone, Copy)]
pub(crate) struct Awaited {
    /// The place of its connection.
    place: usize,
    request: Request,
}

/// Whether a request waits until datagrams were taken.
pub(crate) fn waits(request: Request) -> bool {
    matches!(
        request,
        Request::Export { off: false, .. } | Request::Import { .. }
    )
}

/// Whether the request of the connection at a place waits.
pub(crate) fn awaits(awaited: Option<Awaited>, place: usize) -> bool {
    match awaited {
        Some(awaited) => awaited.place == place,
        None => false,
    }
}

/// Forgets the request of a connection that has ended.
pub(crate) fn forget(awaited: &mut Option<Awaited>, place: usize) {
    if awaits(*awaited, place) {
        *awaited = None;
    }
}

/// Writes which links are moved, as members of an object.
pub(crate) fn write_moves<W: Write>(out: &mut W, moves: &Moves) -> io::Result<()> {
    match moves.held() {
        Some(held) => {
            let (link, count) = (held.link(), held.count());
            let (octets, dropped) = (held.octets(), held.dropped());
            write!(
                out,
                ",\"held\":{{\"link\":{link},\"datagrams\":{count},\"octets\":{octets},\"dropped\":{dropped}}}"
            )?;
        }
        None => write!(out, ",\"held\":null")?,
    }
    write!(out, ",\"exported\":[")?;
    for (place, link) in moves.away().iter().enumerate() {
        let comma = if place == 0 { "" } else { "," };
        write!(out, "{comma}{link}")?;
    }
    let dropped = moves.dropped();
    write!(out, "],\"exported_dropped\":{dropped}")
}

/// Why a link can't go on from these octets at this moment, if they were saved at another one. Faults of the octets are told by
/// the import.
fn apart(alloc: Global, octets: &[u8], now: u64) -> io::Result<Option<String>> {
    match saved_moment(octets) {
        Ok(moment) if moment.abs_diff(now) > MOST_APART => Ok(Some(format!(in alloc;
            "was exported at moment {moment}, and this gateway is at {now}; expected at most {MOST_APART} ms between them; the link is still held"
        )?)),
        _ => Ok(None),
    }
}

/// The body of the request of the connection at a place, if there is one.
fn body_of(connections: &[Option<Connection>], place: usize) -> Option<&[u8]> {
    match connections.get(place) {
        Some(Some(connection)) => Some(connection.body()),
        _ => None,
    }
}

impl Gateway<'_> {
    /// Refuses to move a link as asked.
    fn refuse_move(&self, alloc: Global, name: &str, link: u16, reason: &str) -> io::Result<Reply> {
        let text = format!(in alloc; "link {link} {reason}")?;
        Reply::fault(alloc, 409, name, text.as_str())
    }

    /// How many contexts a link has; `None` if it isn't there.
    fn contexts_on(&self, link: u16) -> Option<usize> {
        let records = self.service.station.concentrator().tables().get(&link)?;
        Some(records.contexts.len())
    }

    /// Keeps the datagrams of a link from now on, until its contexts are imported.
    pub(crate) fn hold<R: Clock + Eprint + AllocGlobal>(
        &mut self,
        rt: &R,
        link: u16,
    ) -> io::Result<Reply> {
        let alloc = rt.alloc();
        let Some(contexts) = self.contexts_on(link) else {
            return Reply::no_link(alloc, link);
        };
        if let Some(held) = self.service.moves.held() {
            let reason = "is held already (rohctl import, or rohctl hold --off)";
            return self.refuse_move(alloc, "Held", held.link(), reason);
        }
        if contexts > 0 {
            let reason = "has contexts here; expected none (rohctl reset --link removes them)";
            return self.refuse_move(alloc, "HasContexts", link, reason);
        }
        let service = &mut self.service;
        service.moves.hold(alloc, link)?;
        let text = "is held: its datagrams wait for an import";
        self.note_link(rt, Level::Info, link, text);
        Reply::object(
            200,
            format!(in alloc; "{{\"link\":{link},\"held\":true}}\n"),
        )
    }

    /// Holds a link no longer, and drops its datagrams.
    pub(crate) fn hold_off<R: Clock + Eprint + AllocGlobal>(
        &mut self,
        rt: &R,
        link: u16,
    ) -> io::Result<Reply> {
        let alloc = rt.alloc();
        let service = &mut self.service;
        let held = if service.moves.is_held(link) {
            service.moves.release()
        } else {
            None
        };
        let Some(held) = held else {
            return self.refuse_move(alloc, "NotHeld", link, "is not held");
        };
        let dropped = held.dropped().saturating_add(held.count() as u64);
        let text = format_args!("is no longer held: {dropped} datagrams dropped");
        self.note_link(rt, Level::Warning, link, text);
        let text = format!(in alloc; "{{\"link\":{link},\"held\":false,\"dropped\":{dropped}}}\n");
        Reply::object(200, text)
    }

    /// Shows what is saved of a link, and drops its datagrams from now on. Its contexts stay, unused.
    fn export<R: Clock + Eprint + AllocGlobal>(&mut self, rt: &R, link: u16) -> io::Result<Reply> {
        let alloc = rt.alloc();
        let Some(contexts) = self.contexts_on(link) else {
            return Reply::no_link(alloc, link);
        };
        if self.service.moves.is_held(link) {
            return self.refuse_move(alloc, "Held", link, "is held here, so it has no contexts");
        }
        let moment = self.now(rt);
        let mut body = Vec::new(alloc);
        if self
            .service
            .station
            .export(link, moment, &mut body)
            .is_err()
        {
            return Reply::fault(alloc, 500, "NoMemory", "out of memory; nothing changed");
        }
        let service = &mut self.service;
        service.moves.export(link)?;
        let text = format_args!("exported, {contexts} contexts: its datagrams are dropped");
        self.note_link(rt, Level::Info, link, text);
        Ok(Reply {
            status: 200,
            kind: Kind::State,
            body,
        })
    }

    /// Takes the datagrams of an exported link again.
    pub(crate) fn export_off<R: Clock + Eprint + AllocGlobal>(
        &mut self,
        rt: &R,
        link: u16,
    ) -> io::Result<Reply> {
        let alloc = rt.alloc();
        if !self.service.moves.is_away(link) {
            return self.refuse_move(alloc, "NotExported", link, "is not exported");
        }
        let service = &mut self.service;
        service.moves.take_back(link);
        let text = "is no longer exported: its datagrams are accepted";
        self.note_link(rt, Level::Info, link, text);
        Reply::object(
            200,
            format!(in alloc; "{{\"link\":{link},\"exported\":false}}\n"),
        )
    }

    /// Refuses what was exported. The link is still held.
    fn refuse_import(&self, alloc: Global, link: u16, fault: LinkFault) -> io::Result<Reply> {
        let text = format!(in alloc; "link {link}: {fault}; the link is still held")?;
        let (status, name) = match fault {
            LinkFault::NoMemory => (500, "NoMemory"),
            _ => (409, "Import"),
        };
        Reply::fault(alloc, status, name, text.as_str())
    }

    /// Answers the datagrams that were held, since their contexts are here, and holds the link no longer.
    fn answer_held<R: Clock + Eprint + AllocGlobal>(
        &mut self,
        rt: &R,
        held: &Held,
        restored: &Restored,
        bound: Option<Bound<'_>>,
    ) -> io::Result<Reply> {
        let link = held.link();
        let duty = self.duty();
        let clocks = self.time.clocks(rt);
        let (moments, outbox) = (&mut self.time.moments, &mut self.late.outbox);
        let mut front = SocketFront::new(clocks, bound, moments, outbox);
        front.lift_limit();
        self.service.answer_held(&mut front, duty, held);
        let (contexts, count, dropped) = (restored.contexts, held.count(), held.dropped());
        let text = format_args!(
            "imported, {contexts} contexts: {count} held datagrams answered, {dropped} dropped"
        );
        self.note_link(rt, Level::Info, link, text);
        let text = format!(in rt.alloc();
            "{{\"link\":{link},\"contexts\":{contexts},\"answered\":{count},\"dropped\":{dropped}}}\n"
        );
        Reply::object(200, text)
    }

    /// Goes on with the calls of a link that is held, from the body of the request of the connection at a place.
    fn import<R: Clock + Eprint + AllocGlobal>(
        &mut self,
        rt: &R,
        place: usize,
        link: u16,
        bound: Option<Bound<'_>>,
    ) -> io::Result<Reply> {
        let alloc = rt.alloc();
        if !self.service.moves.is_held(link) {
            let reason = "is not held; expected rohctl hold --link before";
            return self.refuse_move(alloc, "NotHeld", link, reason);
        }
        let now = self.now(rt);
        let Some(body) = body_of(self.connections.as_slice(), place) else {
            return Reply::no_link(alloc, link);
        };
        if let Some(reason) = apart(alloc, body, now)? {
            return self.refuse_move(alloc, "Moment", link, reason.as_str());
        }
        let service = &mut self.service;
        let restored = match service.station.import(alloc, link, body) {
            Ok(restored) => restored,
            Err(fault) => return self.refuse_import(alloc, link, fault),
        };
        self.end_records(alloc, "import");
        let service = &mut self.service;
        match service.moves.release() {
            Some(held) => self.answer_held(rt, &held, &restored, bound),
            None => Reply::no_link(alloc, link),
        }
    }

    /// Does a request of the connection at a place once the datagrams were taken that wait now.
    pub(crate) fn await_datagrams<R: AllocGlobal>(
        &mut self,
        rt: &R,
        place: usize,
        request: Request,
    ) -> Progress {
        if self.awaited.is_none() {
            self.awaited = Some(Awaited { place, request });
            return Progress::Waits;
        }
        let text = "another link is being exported or imported; expected its end (try again)";
        match Reply::fault(rt.alloc(), 409, "Busy", text) {
            Ok(reply) => self.send_answer(rt.alloc(), place, &reply),
            Err(_) => Progress::Ended,
        }
    }

    /// Does the request that waits, if one does. `is_drained` is whether no datagram waits in a socket.
    pub(crate) fn go_on_moving<R>(&mut self, rt: &R, sockets: &Sockets, is_drained: bool)
    where
        R: Files + Clock + Eprint + AllocGlobal,
    {
        let Some(Awaited { place, request }) = self.awaited else {
            return;
        };
        let reply = match request {
            Request::Import { link } => self.import(rt, place, link, sockets.any()),
            Request::Export { link, .. } if is_drained => self.export(rt, link),
            _ => return,
        };
        self.awaited = None;
        let progress = match reply {
            Ok(reply) => self.send_answer(rt.alloc(), place, &reply),
            Err(_) => Progress::Ended,
        };
        if let Progress::Ended = progress {
            self.free(place);
        }
    }
}
