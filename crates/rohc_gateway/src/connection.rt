//! A connection: one request, and its answer.

use crate::answers::{Kind, Outgoing, Reply};
use crate::long::Long;
use crate::saves::Wanted;
use crate::stream::{Flow, HEAD};
use mio::net::{TcpStream, UnixStream};
use mio::{Interest, Poll, Token};
use rohc_station::{Asked, Request, RequestFault, body_in, is_head, read_request};
use std::alloc::Global;
use std::io;
use std::io::{ErrorKind, Read, Write};

/// The longest head of a request, in octets.
const LONGEST_HEAD: usize = 8_192;

/// The longest body of a request, in octets: what is saved of 16,384 contexts takes less.
const LONGEST_BODY: u32 = 2_097_152;

/// How many reads of 1,024 octets bring the longest head and body.
const MOST_READS: u32 = 4_096;

/// How long a connection may take, in milliseconds.
const LONGEST_TIME: u64 = 10_000;

/// How many pieces of a stream or an answer are written before datagrams are looked at again.
const MOST_PIECES: u32 = 16;

/// How long a reader may take for what waits at the end of a stream, in milliseconds.
const LAST_WAIT: u64 = 60_000;

/// A stream to a peer.
#[derive(Drop)]
pub(crate) enum Stream {
    /// On the metrics port.
    Metrics(TcpStream),
    /// On the control socket.
    Control(UnixStream),
}

impl Stream {
    /// Waits for the stream to be readable or writable.
    pub(crate) fn watch(&mut self, poll: &Poll, token: Token) -> io::Result<()> {
        let both = Interest::READABLE | Interest::WRITABLE;
        match self {
            Stream::Metrics(stream) => poll.registry().register(stream, token, both),
            Stream::Control(stream) => poll.registry().register(stream, token, both),
        }
    }

    /// Whether it is on the control socket.
    pub(crate) fn is_control(&self) -> bool {
        match self {
            Stream::Control(_) => true,
            Stream::Metrics(_) => false,
        }
    }

    /// Reads what has come.
    fn read(&mut self, buffer: &mut [u8]) -> io::Result<usize> {
        match self {
            Stream::Metrics(stream) => stream.read(buffer),
            Stream::Control(stream) => stream.read(buffer),
        }
    }

    /// Writes what fits.
    fn write(&mut self, octets: &[u8]) -> io::Result<usize> {
        match self {
            Stream::Metrics(stream) => stream.write(octets),
            Stream::Control(stream) => stream.write(octets),
        }
    }
}

/// How far a connection is.
#[derive(Clone, Copy)]
pub(crate) enum Progress {
    /// It waits for its peer.
    Waits,
    /// It asks for something.
    Asks(Asked),
    /// More can be written at once.
    Goes,
    /// It has ended.
    Ended,
}

/// A connection.
#[derive(Drop)]
pub(crate) struct Connection {
    stream: Stream,
    /// What has come of the request: its head, and its body if it has one.
    head: Vec<u8>,
    /// The request whose body isn't whole yet, if there is such a one.
    unfinished: Option<Request>,
    /// Where the body begins and ends.
    body: (usize, usize),
    /// A long answer that isn't whole yet.
    pub(crate) long: Option<Long>,
    answer: Option<Outgoing>,
    /// Whether its peer may take more of the answer now.
    is_writable: bool,
    /// What is streamed in place of an answer.
    pub(crate) flow: Option<Flow>,
    /// The save that it waits for.
    wanted: Option<Wanted>,
    end: u64,
}

impl Connection {
    /// A connection that began at this moment.
    pub(crate) fn new(alloc: Global, stream: Stream, moment: u64) -> Connection {
        Connection {
            stream,
            head: Vec::new(alloc),
            unfinished: None,
            body: (0, 0),
            long: None,
            answer: None,
            is_writable: false,
            flow: None,
            wanted: None,
            end: moment.saturating_add(LONGEST_TIME),
        }
    }

    /// Whether the connection is on the control socket.
    pub(crate) fn is_control(&self) -> bool {
        self.stream.is_control()
    }

    /// Whether the connection has taken too long.
    pub(crate) fn is_late(&self, moment: u64) -> bool {
        self.end <= moment
    }

    /// Waits for a save, however long it takes.
    pub(crate) fn await_save(&mut self, wanted: Wanted) {
        self.wanted = Some(wanted);
        self.end = u64::MAX;
    }

    /// Whether it waits for this save.
    pub(crate) fn awaits_save(&self, wanted: Wanted) -> bool {
        self.wanted == Some(wanted)
    }

    /// Whether it waits for a save.
    pub(crate) fn is_waiting(&self) -> bool {
        self.wanted.is_some()
    }

    /// Waits no longer. The answer may take as long as that of a connection that begins at this moment.
    pub(crate) fn end_wait(&mut self, moment: u64) {
        self.wanted = None;
        self.end = moment.saturating_add(LONGEST_TIME);
    }

    /// Goes on: reads the request, or writes the rest of the answer.
    pub(crate) fn go_on(&mut self) -> Progress {
        if self.long.is_some() {
            // A peer may end what it sends behind its request, so only a write tells that it has gone.
            Progress::Waits
        } else if self.flow.is_some() {
            self.read_end()
        } else if self.answer.is_some() {
            self.write_rest()
        } else {
            self.read_more()
        }
    }

    /// Takes the next octets of the request, and tells what it asks for.
    fn take(&mut self, octets: &[u8]) -> Progress {
        if self.head.extend_from_slice(octets).is_err() {
            return Progress::Ended;
        }
        if self.unfinished.is_some() {
            return self.take_body();
        }
        match read_request(self.head.as_slice()) {
            Asked::Whole(request @ Request::Import { .. }) if self.is_control() => {
                self.begin_body(request)
            }
            Asked::Unfinished if self.head.len() < LONGEST_HEAD => Progress::Waits,
            Asked::Unfinished => Progress::Asks(Asked::Faulty(RequestFault::TooLarge)),
            asked => Progress::Asks(asked),
        }
    }

    /// Waits for the body of a request.
    fn begin_body(&mut self, request: Request) -> Progress {
        match body_in(self.head.as_slice()) {
            Some(body) if body.size <= LONGEST_BODY => {
                self.body = (body.start, body.start.saturating_add(body.size as usize));
                self.unfinished = Some(request);
                self.take_body()
            }
            Some(_) => Progress::Asks(Asked::Faulty(RequestFault::TooLarge)),
            None => Progress::Asks(Asked::Faulty(RequestFault::BadRequest)),
        }
    }

    /// Returns the request whose body was awaited, once all of the body is here.
    fn take_body(&mut self) -> Progress {
        let (_, end) = self.body;
        match self.unfinished {
            Some(request) if end <= self.head.len() => {
                self.unfinished = None;
                Progress::Asks(Asked::Whole(request))
            }
            _ => Progress::Waits,
        }
    }

    /// The body of the request, as far as it has come.
    pub(crate) fn body(&self) -> &[u8] {
        let (start, end) = self.body;
        self.head.get(start..end).unwrap_or(&[])
    }

    /// Reads what has come, and tells what it asks for.
    fn read_more(&mut self) -> Progress {
        let mut buffer = [0u8; 1024];
        for _ in 0..MOST_READS {
            let size = match self.stream.read(&mut buffer) {
                Ok(0) => return Progress::Ended,
                Ok(size) => size,
                Err(e) if e.kind() == ErrorKind::WouldBlock => return Progress::Waits,
                Err(_) => return Progress::Ended,
            };
            match self.take(buffer.get(..size).unwrap_or(&[])) {
                Progress::Waits => {}
                progress => return progress,
            }
        }
        Progress::Ended
    }

    /// Looks whether the reader of a stream has ended the connection.
    fn read_end(&mut self) -> Progress {
        let mut buffer = [0u8; 1024];
        for _ in 0..16u8 {
            match self.stream.read(&mut buffer) {
                Ok(0) => return Progress::Ended,
                Ok(_) => {}
                Err(e) if e.kind() == ErrorKind::WouldBlock => return Progress::Waits,
                Err(_) => return Progress::Ended,
            }
        }
        Progress::Ended
    }

    /// Streams from now on, until a moment at which the connection ends whatever waits. HEAD only gets the head.
    pub(crate) fn begin_flow(&mut self, alloc: Global, flow: Flow, end: u64) -> Progress {
        if !is_head(self.head.as_slice()) {
            self.flow = Some(flow);
            self.end = end.saturating_add(LAST_WAIT);
            return self.pour();
        }
        match Vec::from_slice(alloc, HEAD) {
            Ok(head) => self.send(Outgoing::of(alloc, head)),
            Err(_) => Progress::Ended,
        }
    }

    /// Makes a long answer from now on, however long that takes.
    pub(crate) fn begin_long(&mut self, long: Long) {
        self.long = Some(long);
        self.end = u64::MAX;
    }

    /// Writes to the stream until its reader takes no more, or until 16 pieces are written.
    pub(crate) fn pour(&mut self) -> Progress {
        let Some(flow) = &mut self.flow else {
            return Progress::Waits;
        };
        for _ in 0..MOST_PIECES {
            let next = flow.next();
            if next.is_empty() {
                return if flow.is_over() {
                    Progress::Ended
                } else {
                    Progress::Waits
                };
            }
            match self.stream.write(next) {
                Ok(0) => return Progress::Ended,
                Ok(size) => flow.wrote(size),
                Err(e) if e.kind() == ErrorKind::WouldBlock => return Progress::Waits,
                Err(_) => return Progress::Ended,
            }
        }
        Progress::Goes
    }

    /// Whether the peer may take more of an answer now.
    pub(crate) fn can_write(&self) -> bool {
        self.is_writable && self.answer.is_some()
    }

    /// Writes as much of the answer as the peer takes now, but at most 16 pieces.
    pub(crate) fn write_rest(&mut self) -> Progress {
        self.is_writable = true;
        let Some(answer) = &mut self.answer else {
            return Progress::Ended;
        };
        for _ in 0..MOST_PIECES {
            let next = answer.next();
            if next.is_empty() {
                return Progress::Ended;
            }
            match self.stream.write(next) {
                Ok(0) => return Progress::Ended,
                Ok(size) => answer.wrote(size),
                Err(e) if e.kind() == ErrorKind::WouldBlock => {
                    self.is_writable = false;
                    return Progress::Waits;
                }
                Err(_) => return Progress::Ended,
            }
        }
        Progress::Goes
    }

    /// Sends an answer, if there was memory for it.
    fn send(&mut self, outgoing: io::Result<Outgoing>) -> Progress {
        match outgoing {
            Ok(outgoing) => {
                self.answer = Some(outgoing);
                self.write_rest()
            }
            Err(_) => Progress::Ended,
        }
    }

    /// Answers, without a body if the method is HEAD.
    pub(crate) fn answer(&mut self, alloc: Global, reply: &Reply) -> Progress {
        let is_head = is_head(self.head.as_slice());
        self.send(Outgoing::short(alloc, reply, is_head))
    }

    /// Answers with these blocks, without them if the method is HEAD. It may take as long as the answer of a connection that
    /// begins at this moment.
    pub(crate) fn answer_blocks(
        &mut self,
        alloc: Global,
        kind: Kind,
        blocks: Vec<Vec<u8>>,
        moment: u64,
    ) -> Progress {
        self.end = moment.saturating_add(LONGEST_TIME);
        let is_head = is_head(self.head.as_slice());
        self.send(Outgoing::long(alloc, kind, blocks, is_head))
    }
}
