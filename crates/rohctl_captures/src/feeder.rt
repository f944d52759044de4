//! Who sends arrivals to the timed port of a gateway on this host, no faster than the gateway takes them.

use crate::queue::{Queue, queue_in};
use crate::timed::put_timed;
use mio::{Events, Poll};
use rohctl_ground::{Line, Reason, Stop, Taker, open_file};
use std::io::{self, Read};
use std::net::{Ipv4Addr, Net, UdpSocket};
use std::rt::Files;
use std::time::{Clock, Duration, Instant, SystemTime};
use std::{fmt, str};

/// The list of the sockets.
const SOCKETS: &str = "/proc/net/udp";

/// The file with the octets of a socket's queue.
const ROOM: &str = "/proc/sys/net/core/rmem_default";

/// The octets of a queue where that file can't be read.
const USUAL_ROOM: u64 = 212_992;

/// How many octets are sent between two looks at the queue, as the kernel counts them.
const BETWEEN: u64 = 49_152;

/// What the kernel counts for a datagram beside its octets, at most.
const BESIDE: u64 = 1024;

/// Up to this size the kernel rounds a datagram up to a power of two.
const ROUNDED: u64 = 16_384;

/// How many looks come right after one another, before a wait between them.
const EAGER: u32 = 16;

/// How many looks a full queue gets, a millisecond apart: a minute.
const MOST_LOOKS: u32 = 60_000;

/// The longest packet in a datagram, in octets: 65507 less the link and the moment.
const LONGEST: usize = 65_497;

/// Why sending ended early.
#[derive(Clone, Copy, PartialEq, Eq)]
pub(crate) enum Fault {
    /// No socket is on the port.
    NoSocket,
    /// The queue stayed full.
    Stuck,
    /// The list of the sockets can't be read.
    Unread(Reason),
    /// A datagram can't be sent, or there is no socket to send it from.
    Unsent(Reason),
    /// The clock can't be read.
    NoClock,
    /// There is no memory.
    Memory,
}

impl fmt::Display for Fault {
    fn fmt<W: fmt::Write>(&self, f: &mut fmt::Formatter<W>) -> fmt::Result {
        match self {
            Fault::NoSocket => {
                f.write_str("no socket is on it; expected the timed_port of a running gateway")
            }
            Fault::Stuck => f.write_str(
                "its queue stayed full for a minute; expected a gateway that reads it (rohctl status)",
            ),
            Fault::Unread(reason) => write!(f, "cannot read {SOCKETS}: {reason}"),
            Fault::Unsent(reason) => write!(f, "cannot send to it: {reason}"),
            Fault::NoClock => f.write_str("cannot read the clock"),
            Fault::Memory => f.write_str("out of memory"),
        }
    }
}

/// When arrivals are sent, and which moment they have.
#[derive(Clone, Copy, PartialEq, Eq)]
pub(crate) struct Timing {
    /// The pace in thousandths of their own; without it they are sent as fast as they are taken.
    pub(crate) pace: Option<u64>,
    /// Whether they have the present moment.
    pub(crate) now: bool,
}

/// Who sends arrivals to a port.
#[derive(Drop)]
pub(crate) struct Feeder<'a, R> {
    rt: &'a R,
    socket: UdpSocket,
    poll: Poll,
    events: Events,
    port: u16,
    timing: Timing,
    start: Instant,
    /// The moment of the first arrival.
    first: Option<u64>,
    datagram: Vec<u8>,
    list: Vec<u8>,
    /// The octets that surely fit into the queue.
    room: u64,
    /// How many octets were sent since the queue was looked at.
    since: u64,
    /// The drops before the first datagram.
    dropped: u64,
    /// The datagrams that were sent.
    pub(crate) sent: u64,
    /// Their octets.
    pub(crate) octets: u64,
    /// The lines that are no arrivals, and packets that are too long.
    pub(crate) left_out: u64,
    /// Why sending ended early.
    pub(crate) fault: Option<Fault>,
}

/// The octets of a file, in place of what is in the buffer.
fn read_whole<R: Files>(rt: &R, path: &str, buffer: &mut Vec<u8>) -> Result<(), Fault> {
    buffer.clear();
    let Ok(mut file) = open_file(rt, path) else {
        return Err(Fault::Unread(Reason::Missing));
    };
    match file.read_to_end(buffer) {
        Ok(_) => Ok(()),
        Err(error) => Err(Fault::Unread(Reason::of(&error))),
    }
}

/// What a datagram of so many octets takes in a queue, at most.
fn cost_of(size: u64) -> u64 {
    size.saturating_add(size.min(ROUNDED))
        .saturating_add(BESIDE)
}

/// The octets of a socket's queue on this host.
fn queue_size<R: Files + AllocGlobal>(rt: &R) -> u64 {
    let mut text = Vec::new(rt.alloc());
    if read_whole(rt, ROOM, &mut text).is_err() {
        return USUAL_ROOM;
    }
    match str::from_utf8(text.as_slice()) {
        Ok(text) => text.trim_end().parse().unwrap_or(USUAL_ROOM),
        Err(_) => USUAL_ROOM,
    }
}

/// The octets that surely fit into such a queue: a quarter may have been read, and is counted still.
fn room_of<R: Files + AllocGlobal>(rt: &R) -> u64 {
    queue_size(rt) / 4 * 3
}

/// After how many milliseconds an arrival is sent, at a pace in thousandths of its own.
fn due_after(pace: u64, first: u64, moment: u64) -> u64 {
    let behind = moment.saturating_sub(first);
    match behind.saturating_mul(1000).checked_div(pace) {
        Some(due) => due,
        None => 0,
    }
}

/// The present moment, in milliseconds since 1970.
fn present<R: Clock>(rt: &R) -> Result<u64, Fault> {
    let Ok(now) = SystemTime::now(rt) else {
        return Err(Fault::NoClock);
    };
    match now.duration_since(SystemTime::UNIX_EPOCH) {
        Ok(since) => Ok(
            since
                .as_secs()
                .saturating_mul(1000)
                .saturating_add(u64::from(since.subsec_millis())),
        ),
        Err(_) => Err(Fault::NoClock),
    }
}

/// A socket to send from, what waits, and the time at which sending begins.
fn tools_of<R>(rt: &R) -> io::Result<(UdpSocket, Poll, Events, Instant)>
where
    R: Net + Clock + AllocGlobal,
{
    let socket = UdpSocket::bind(rt, (Ipv4Addr::LOCALHOST, 0))?;
    let poll = Poll::new(rt)?;
    let events = Events::with_capacity(rt.alloc(), 1)?;
    Ok((socket, poll, events, Instant::now(rt)?))
}

impl<'a, R: Files + Net + Clock + AllocGlobal> Feeder<'a, R> {
    /// Nothing was sent yet. A socket has to be on the port.
    pub(crate) fn new(rt: &'a R, port: u16, timing: Timing) -> Result<Self, Fault> {
        let (socket, poll, events, start) = tools_of(rt).map_err(|error| Fault::Unsent(Reason::of(
            &error,
        )))?;
        let mut feeder = Feeder {
            rt,
            socket,
            poll,
            events,
            port,
            timing,
            start,
            first: None,
            datagram: Vec::new(rt.alloc()),
            list: Vec::new(rt.alloc()),
            room: room_of(rt),
            since: 0,
            dropped: 0,
            sent: 0,
            octets: 0,
            left_out: 0,
            fault: None,
        };
        feeder.dropped = feeder.look()?.drops;
        Ok(feeder)
    }

    /// What waits on the port.
    fn look(&mut self) -> Result<Queue, Fault> {
        read_whole(self.rt, SOCKETS, &mut self.list)?;
        let list = str::from_utf8(self.list.as_slice()).unwrap_or("");
        queue_in(list, self.port).ok_or(Fault::NoSocket)
    }

    /// Waits for so many milliseconds, or a little less.
    fn rest(&mut self, millis: u64) {
        let _ = self
            .poll
            .poll(&mut self.events, Some(Duration::from_millis(millis)));
    }

    /// Waits until no more than this waits on the port. Returns what was dropped.
    fn wait_until(&mut self, limit: u64) -> Result<u64, Fault> {
        for turn in 0..MOST_LOOKS {
            let queue = self.look()?;
            if queue.octets <= limit {
                return Ok(queue.drops);
            }
            if turn >= EAGER {
                self.rest(1);
            }
        }
        Err(Fault::Stuck)
    }

    /// Waits until there is room for a datagram of so many octets.
    fn wait_for_room(&mut self, size: u64) -> Result<(), Fault> {
        let cost = cost_of(size);
        self.since = self.since.saturating_add(cost);
        if self.since > BETWEEN {
            let _ = self.wait_until(self.room.saturating_sub(cost.max(BETWEEN)))?;
            self.since = cost;
        }
        Ok(())
    }

    /// Waits until an arrival of this moment is due.
    fn wait_for(&mut self, pace: u64, moment: u64) -> Result<(), Fault> {
        let first = self.first.unwrap_or(moment);
        self.first = Some(first);
        let due = due_after(pace, first, moment);
        for _ in 0..u64::MAX {
            let Ok(elapsed) = self.start.elapsed(self.rt) else {
                return Err(Fault::NoClock);
            };
            let passed = elapsed
                .as_secs()
                .saturating_mul(1000)
                .saturating_add(u64::from(elapsed.subsec_millis()));
            if passed >= due {
                return Ok(());
            }
            self.rest(due.saturating_sub(passed).min(1000));
        }
        Ok(())
    }

    /// Sends an arrival when it is due and there is room for it.
    fn send(&mut self, link: u16, moment: u64, packet: &[u8]) -> Result<(), Fault> {
        if let Some(pace) = self.timing.pace {
            self.wait_for(pace, moment)?;
        }
        let moment = if self.timing.now {
            present(self.rt)?
        } else {
            moment
        };
        put_timed(&mut self.datagram, link, moment, packet).map_err(|_| Fault::Memory)?;
        let size = self.datagram.len() as u64;
        self.wait_for_room(size)?;
        let to = (Ipv4Addr::LOCALHOST, self.port);
        if let Err(error) = self.socket.send_to(self.datagram.as_slice(), to) {
            return Err(Fault::Unsent(Reason::of(&error)));
        }
        self.sent = self.sent.saturating_add(1);
        self.octets = self.octets.saturating_add(size);
        Ok(())
    }

    /// Waits until all was taken. Returns how many datagrams the socket dropped since the beginning.
    pub(crate) fn finish(&mut self) -> Result<u64, Fault> {
        let drops = self.wait_until(0)?;
        Ok(drops.saturating_sub(self.dropped))
    }
}

impl<R: Files + Net + Clock + AllocGlobal> Taker for Feeder<'_, R> {
    /// Sends an arrival. Any other line has no datagram.
    fn take(&mut self, _number: u64, line: Line<'_>) -> Result<(), Stop> {
        match line {
            Line::Arrive {
                link,
                moment,
                packet,
            } if packet.len() <= LONGEST => {
                let Err(fault) = self.send(link, moment, packet) else {
                    return Ok(());
                };
                self.fault = Some(fault);
                Err(Stop::Write(Reason::Other(0)))
            }
            _ => {
                self.left_out = self.left_out.saturating_add(1);
                Ok(())
            }
        }
    }
}
