//! A stream at the control socket: lines for a reader who takes them until he ends the connection, or the gateway does.
//!
//! The gateway never waits for a reader. Lines wait in a room that never grows; one that has no room there is left out and
//! counted, and the reader is shown how many were.

use rohc_gateway_file::civil_at;
use rohc_station::{Ahead, Backlog, Seen, Taken, Timed, Wish, sn_in, write_arrival};
use std::alloc::{AllocError, Global};
use std::io::Write;
use std::{fmt, io};

/// How many octets of lines wait for a reader who follows a call.
const FOLLOW_ROOM: usize = 262_144;

/// How many octets of lines wait for a reader who records.
const RECORD_ROOM: usize = 8_388_608;

/// How many octets are written at once.
const PIECE: usize = 65_536;

/// The longest line, in octets: an arrival of 65,535 octets.
const LONGEST_LINE: usize = 131_200;

/// The head of a stream's answer. Its body ends with the connection.
pub(crate) const HEAD: &[u8] =
    b"HTTP/1.1 200 OK\r\nContent-Type: text/plain; charset=utf-8\r\nConnection: close\r\n\r\n";

/// What a record counts.
#[derive(Clone, Copy)]
pub(crate) struct Counts {
    /// Packets that were recorded, or left out since the reader was slow.
    pub(crate) arrivals: u64,
    /// Datagrams that were turned away.
    pub(crate) turned_away: u64,
    /// Datagrams that were too short.
    pub(crate) too_short: u64,
    /// How many feedback elements the links had withheld when the record began, and have withheld now.
    pub(crate) withheld_before: u64,
    pub(crate) withheld: u64,
}

/// What a stream shows.
#[derive(Clone, Copy)]
pub(crate) enum Theme {
    /// Each packet of a call, as text for people.
    Call {
        link: u16,
        cid: u16,
    },
    /// The packets of a link or of all, as lines of a script, and what was left out.
    Record {
        link: Option<u16>,
        /// When it ends.
        end: u64,
        counts: Counts,
    },
}

/// What became of a packet, as a line for people shows it.
#[derive(Clone, Copy)]
struct Became<'a> {
    taken: &'a Taken<'a>,
}

impl fmt::Display for Became<'_> {
    fn fmt<W: fmt::Write>(&self, f: &mut fmt::Formatter<W>) -> fmt::Result {
        let Became { taken } = *self;
        let feedback = match &taken.sends.feedback {
            Some(element) => element.len(),
            None => 0,
        };
        match (&taken.sends.packet, taken.refusal) {
            (Some(packet), _) => {
                let size = packet.head.len().saturating_add(packet.payload.len());
                write!(f, "delivered {size}, feedback {feedback}")
            }
            (None, Some(refusal)) => write!(f, "refused {refusal}, feedback {feedback}"),
            (None, None) if taken.sends.refused => f.write_str("turned away"),
            (None, None) => write!(f, "nothing delivered, feedback {feedback}"),
        }
    }
}

/// A packet of a call that is followed, as a line for people.
#[derive(Clone, Copy)]
struct Shown<'a> {
    is_timed: bool,
    arrival: Timed<'a>,
    ahead: Ahead,
    taken: &'a Taken<'a>,
}

impl fmt::Display for Shown<'_> {
    fn fmt<W: fmt::Write>(&self, f: &mut fmt::Formatter<W>) -> fmt::Result {
        let Shown { arrival, ahead, .. } = *self;
        if self.is_timed {
            write!(f, "{}", arrival.moment)?;
        } else {
            let time = civil_at(arrival.moment);
            let thousandth = arrival.moment % 1000;
            let (hour, minute, second) = (time.hour, time.minute, time.second);
            write!(f, "{hour:02}:{minute:02}:{second:02}.{thousandth:03}")?;
        }
        let (format, octets) = (ahead.format, arrival.packet.len());
        let became = Became { taken: self.taken };
        write!(f, " {format}, {octets} octets: {became}")?;
        if let Some(sn) = sn_in(&self.taken.sends.packet) {
            write!(f, ", SN {sn}")?;
        }
        match ahead.attempt {
            Some(attempt) => write!(f, ", attempt {attempt} of 3"),
            None => Ok(()),
        }
    }
}

/// A stream.
#[derive(Drop)]
pub(crate) struct Flow {
    pub(crate) theme: Theme,
    backlog: Backlog,
    /// How many left out lines a reader who follows a call was shown.
    told: u64,
    /// A line that is made.
    line: Vec<u8>,
    /// The octets that are written next.
    piece: Vec<u8>,
    /// How many of them are ready, and how many of these are written.
    ready: usize,
    written: usize,
    /// The last line, once the stream ends.
    last: Option<Vec<u8>>,
    /// Whether no line follows.
    is_closed: bool,
}

impl Flow {
    /// A stream that begins with these octets.
    pub(crate) fn new(alloc: Global, theme: Theme, front: Vec<u8>) -> Result<Flow, AllocError> {
        let room = match theme {
            Theme::Call { .. } => FOLLOW_ROOM,
            Theme::Record { .. } => RECORD_ROOM,
        };
        let ready = front.len();
        Ok(Flow {
            theme,
            backlog: Backlog::new(alloc, room)?,
            told: 0,
            line: Vec::with_capacity(alloc, LONGEST_LINE)?,
            piece: front,
            ready,
            written: 0,
            last: None,
            is_closed: false,
        })
    }

    /// What it wants to see.
    pub(crate) fn wish(&self) -> Wish {
        match self.theme {
            Theme::Call { .. } => Wish::Ahead,
            Theme::Record { .. } => Wish::Arrivals,
        }
    }

    /// Ends the stream with this line, behind those that wait.
    pub(crate) fn close(&mut self, last: Vec<u8>) {
        if !self.is_closed {
            self.is_closed = true;
            self.last = Some(last);
        }
    }

    /// Makes a line of a packet of a call. Before it stands how many were left out since the last one that had room.
    fn make_shown(&mut self, shown: &Shown<'_>) -> io::Result<()> {
        self.line.clear();
        let left_out = self.backlog.left_out().saturating_sub(self.told);
        if left_out > 0 {
            writeln!(
                &mut self.line,
                "left out: {left_out} packets, since they were read too slowly"
            )?;
        }
        writeln!(&mut self.line, "{shown}")
    }

    /// Shows a packet of a call.
    fn show(&mut self, shown: &Shown<'_>) {
        if self.make_shown(shown).is_ok() {
            let before = self.backlog.left_out();
            self.backlog.put(self.line.as_slice());
            if self.backlog.left_out() == before {
                self.told = before;
            }
        }
    }

    /// Records a packet.
    fn record(&mut self, arrival: &Timed<'_>) {
        // The line has room for the longest packet, so that no memory is asked for.
        if write_arrival(&mut self.line, arrival).is_ok() {
            self.backlog.put(self.line.as_slice());
        }
    }

    /// Takes a datagram and what came of it.
    pub(crate) fn see(&mut self, seen: &Seen<'_>, taken: &Taken<'_>) {
        if self.is_closed {
            return;
        }
        let mut theme = self.theme;
        match (&mut theme, &seen.arrival) {
            (Theme::Call { link, cid }, Some(arrival)) => {
                if let Some(ahead) = seen.ahead
                    && arrival.link == *link
                    && ahead.cid == Some(*cid)
                {
                    self.show(&Shown {
                        is_timed: seen.is_timed,
                        arrival: *arrival,
                        ahead,
                        taken,
                    });
                }
            }
            (Theme::Record { link, counts, .. }, Some(arrival)) => {
                if link.is_some_and(|link| link != arrival.link) {
                    return;
                }
                if taken.sends.refused && taken.refusal.is_none() {
                    counts.turned_away = counts.turned_away.saturating_add(1);
                } else {
                    counts.arrivals = counts.arrivals.saturating_add(1);
                    self.record(arrival);
                }
            }
            (Theme::Record { counts, .. }, None) => {
                counts.too_short = counts.too_short.saturating_add(1);
            }
            (Theme::Call { .. }, None) => {}
        }
        self.theme = theme;
    }

    /// The last line of a record that ends for this reason.
    pub(crate) fn end_record(&mut self, alloc: Global, why: &str) -> io::Result<()> {
        let Theme::Record { counts, .. } = self.theme else {
            return Ok(());
        };
        let left_out = self.backlog.left_out();
        let recorded = counts.arrivals.saturating_sub(left_out);
        let withheld = counts.withheld.saturating_sub(counts.withheld_before);
        let mut last = Vec::new(alloc);
        writeln!(
            &mut last,
            "{{\"ended\":\"{why}\",\"recorded\":{recorded},\"left_out\":{left_out},\"turned_away\":{},\"too_short\":{},\"withheld\":{withheld}}}",
            counts.turned_away, counts.too_short
        )?;
        self.close(last);
        Ok(())
    }

    /// Makes the next octets ready, if all before them are written: of the lines that wait, or behind them the last line.
    fn refill(&mut self) {
        if self.written < self.ready {
            return;
        }
        if self.piece.len() != PIECE {
            self.piece.truncate(PIECE);
            self.piece.shrink_to_fit();
            for _ in self.piece.len()..PIECE {
                if self.piece.push(0).is_err() {
                    break;
                }
            }
        }
        self.written = 0;
        self.ready = self.backlog.take(self.piece.as_mut_slice());
        if self.ready == 0
            && let Some(last) = self.last.take()
        {
            self.ready = last.len();
            self.piece = last;
        }
    }

    /// The octets that are to be written now.
    pub(crate) fn next(&mut self) -> &[u8] {
        self.refill();
        self.piece.get(self.written..self.ready).unwrap_or(&[])
    }

    /// Notes how many of these octets were written.
    pub(crate) fn wrote(&mut self, count: usize) {
        self.written = self.written.saturating_add(count);
    }

    /// Whether nothing is to be written any more.
    pub(crate) fn is_over(&self) -> bool {
        self.is_closed
            && self.last.is_none()
            && self.written >= self.ready
            && self.backlog.is_empty()
    }
}
