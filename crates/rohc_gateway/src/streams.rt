//! The streams of a gateway: a call that is followed, and a record.

use crate::answers::Reply;
use crate::connection::{Connection, Progress};
use crate::gateway::Gateway;
use crate::stream::{Counts, Flow, HEAD, Theme};
use rohc_station::{Observer, Request, RequestFault, Seen, Taken, Wish};
use std::alloc::Global;
use std::io;
use std::io::Write;
use std::time::Clock;

/// The most streams at once. Other requests at the control socket need connections too.
const MOST_STREAMS: usize = 4;

/// What comes of a request for a stream.
#[derive(Drop)]
enum Begun {
    /// The stream, and when it ends.
    Flow(Flow, u64),
    Refused(Reply),
}

/// The readers of the streams, who see datagrams and what comes of them.
#[derive(Drop)]
pub(crate) struct Viewers<'a> {
    pub(crate) connections: &'a mut [Option<Connection>],
    /// What they want to see.
    pub(crate) wish: Wish,
}

impl Observer for Viewers<'_> {
    fn wish(&self) -> Wish {
        self.wish
    }

    fn see(&mut self, seen: &Seen<'_>, taken: &Taken<'_>) {
        for slot in self.connections.iter_mut() {
            if let Some(connection) = slot
                && let Some(flow) = &mut connection.flow
            {
                flow.see(seen, taken);
            }
        }
    }
}

impl Gateway<'_> {
    /// How many feedback elements a link, or all, withheld.
    fn withheld(&self, only: Option<u16>) -> u64 {
        let mut withheld = 0u64;
        for (link, counts) in self.service.station.counters() {
            if only.is_none_or(|only| only == *link) {
                withheld = withheld.saturating_add(counts.limiter.feedback_limited);
            }
        }
        withheld
    }

    /// Notes what the streams want to see.
    fn note_streams(&mut self) {
        let mut wish = Wish::Nothing;
        for slot in &self.connections {
            if let Some(connection) = slot
                && let Some(flow) = &connection.flow
            {
                wish = match wish {
                    Wish::Ahead => Wish::Ahead,
                    _ => flow.wish(),
                };
            }
        }
        self.wish = wish;
    }

    /// How many streams there are.
    pub(crate) fn stream_count(&self) -> usize {
        let mut count = 0usize;
        for slot in &self.connections {
            if let Some(connection) = slot
                && connection.flow.is_some()
            {
                count = count.saturating_add(1);
            }
        }
        count
    }

    /// The head of a record: that of the answer, how many octets the saved contexts have, and these.
    fn record_front(&self, alloc: Global, moment: u64) -> io::Result<Vec<u8>> {
        let mut front = Vec::new(alloc);
        front.write_all(HEAD)?;
        match self.state(alloc, moment) {
            Ok(state) => {
                writeln!(&mut front, "{{\"state\":{}}}", state.len())?;
                front.write_all(state.as_slice())?;
                Ok(front)
            }
            Err(_) => Err(io::Error::from(io::ErrorKind::OutOfMemory)),
        }
    }

    /// Begins a record of one link, or of all links, that lasts this many seconds.
    fn record_of(
        &self,
        alloc: Global,
        moment: u64,
        link: Option<u16>,
        seconds: u16,
    ) -> io::Result<Begun> {
        let end = moment.saturating_add(u64::from(seconds).saturating_mul(1000));
        let withheld = self.withheld(link);
        let counts = Counts {
            arrivals: 0,
            turned_away: 0,
            too_short: 0,
            withheld_before: withheld,
            withheld,
        };
        let front = self.record_front(alloc, moment)?;
        let flow = Flow::new(alloc, Theme::Record { link, end, counts }, front)?;
        Ok(Begun::Flow(flow, end))
    }

    /// The stream that is asked for.
    fn stream_of<R: Clock + AllocGlobal>(&mut self, rt: &R, request: Request) -> io::Result<Begun> {
        let alloc = rt.alloc();
        let moment = self.now(rt);
        let named = match request {
            Request::Follow { link, .. } => Some(link),
            Request::Record { link, .. } => link,
            _ => None,
        };
        if let Some(link) = named
            && !self.has_link(link)
        {
            return Ok(Begun::Refused(Reply::no_link(alloc, link)?));
        }
        if self.stream_count() >= MOST_STREAMS {
            let text = "there are 4 streams already; expected fewer (end a rohctl watch or record)";
            return Ok(Begun::Refused(Reply::fault(alloc, 409, "Busy", text)?));
        }
        match request {
            Request::Record { link, seconds } => self.record_of(alloc, moment, link, seconds),
            Request::Follow { link, cid } => {
                let head = Vec::from_slice(alloc, HEAD)?;
                let flow = Flow::new(alloc, Theme::Call { link, cid }, head)?;
                Ok(Begun::Flow(flow, u64::MAX))
            }
            _ => Ok(Begun::Refused(Reply::refused(alloc, RequestFault::BadRequest)?)),
        }
    }

    /// Begins the stream that the connection at a place asks for, or refuses it.
    pub(crate) fn begin_stream<R: Clock + AllocGlobal>(
        &mut self,
        rt: &R,
        place: usize,
        request: Request,
    ) -> Progress {
        let progress = match self.stream_of(rt, request) {
            Ok(Begun::Flow(flow, end)) => match self.connections.get_mut(place) {
                Some(Some(connection)) => connection.begin_flow(rt.alloc(), flow, end),
                _ => Progress::Ended,
            },
            Ok(Begun::Refused(reply)) => self.send_answer(rt.alloc(), place, &reply),
            Err(_) => Progress::Ended,
        };
        self.note_streams();
        progress
    }

    /// Notes how much feedback was withheld up to now, in each record.
    pub(crate) fn note_withheld(&mut self) {
        for place in 0..self.connections.len() {
            let only = match self.connections.get(place) {
                Some(Some(connection)) => match &connection.flow {
                    Some(flow) => match flow.theme {
                        Theme::Record { link, .. } => link,
                        Theme::Call { .. } => continue,
                    },
                    None => continue,
                },
                _ => continue,
            };
            let now = self.withheld(only);
            if let Some(Some(connection)) = self.connections.get_mut(place)
                && let Some(flow) = &mut connection.flow
                && let Theme::Record { counts, .. } = &mut flow.theme
            {
                counts.withheld = counts.withheld.max(now);
            }
        }
    }

    /// Whether the time of a record is over.
    fn has_due(&self, moment: u64) -> bool {
        for slot in &self.connections {
            if let Some(connection) = slot
                && let Some(flow) = &connection.flow
                && let Theme::Record { end, .. } = flow.theme
                && end <= moment
            {
                return true;
            }
        }
        false
    }

    /// Ends each record for this reason.
    pub(crate) fn end_records(&mut self, alloc: Global, why: &str) {
        if self.wish == Wish::Nothing {
            return;
        }
        self.note_withheld();
        for slot in self.connections.iter_mut() {
            if let Some(connection) = slot
                && let Some(flow) = &mut connection.flow
            {
                // Without memory for its last line the record ends without one when its time is over.
                let _ = flow.end_record(alloc, why);
            }
        }
    }

    /// Ends the records whose time is over, and writes as much of each stream as its reader takes. Returns whether more can
    /// be written at once.
    pub(crate) fn pour_streams(&mut self, alloc: Global, moment: u64) -> bool {
        if self.wish == Wish::Nothing {
            return false;
        }
        if self.has_due(moment) {
            self.note_withheld();
        }
        let mut left = false;
        for slot in self.connections.iter_mut() {
            let Some(connection) = slot else {
                continue;
            };
            let Some(flow) = &mut connection.flow else {
                continue;
            };
            if let Theme::Record { end, .. } = flow.theme
                && end <= moment
            {
                let _ = flow.end_record(alloc, "time");
            }
            match connection.pour() {
                Progress::Goes => left = true,
                Progress::Ended => *slot = None,
                _ => {}
            }
        }
        self.note_streams();
        left
    }
}
