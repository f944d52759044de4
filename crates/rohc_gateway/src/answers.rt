//! Answers over HTTP/1.1 (RFC 9112).

use rohc_station::{Loss, Preview, ReloadReport, RequestFault};
use rohc_text::write_json_text;
use std::alloc::{AllocError, Global};
use std::io;
use std::io::Write;

/// How many faults of a links file are shown and logged.
pub(crate) const MOST_FAULTS: usize = 20;

/// How many octets are written at once.
const MOST_WRITTEN: usize = 65_536;

/// What follows when a links file is refused.
pub(crate) const REFUSED: &str =
    "the gateway continues with the old links; its next start will refuse this file";

/// What kind of content a body is.
#[derive(Clone, Copy)]
pub(crate) enum Kind {
    /// One object of JSON.
    Object,
    /// One object of JSON per line.
    Lines,
    /// The text format of Prometheus.
    Metrics,
    /// A text for people.
    Text,
    /// A page for people.
    Page,
    /// The contexts as they are saved.
    State,
}

impl Kind {
    /// The media type.
    fn name(self) -> &'static str {
        match self {
            Kind::Object => "application/json",
            Kind::Lines => "application/x-ndjson",
            Kind::Metrics => "text/plain; version=0.0.4; charset=utf-8",
            Kind::Text => "text/plain; charset=utf-8",
            Kind::Page => "text/html; charset=utf-8",
            Kind::State => "application/octet-stream",
        }
    }
}

/// The words of a status (RFC 9110 15).
fn phrase(status: u16) -> &'static str {
    match status {
        200 => "OK",
        400 => "Bad Request",
        404 => "Not Found",
        405 => "Method Not Allowed",
        409 => "Conflict",
        413 => "Content Too Large",
        _ => "Internal Server Error",
    }
}

/// Writes a member of an object that has links with the number of contexts that each would lose. Returns their sum.
fn write_losses<W: Write>(out: &mut W, name: &str, losses: &[Loss]) -> io::Result<u64> {
    write!(out, ",\"{name}\":[")?;
    let mut gone = 0u64;
    for (place, loss) in losses.iter().enumerate() {
        let comma = if place == 0 { "" } else { "," };
        let Loss { link, contexts } = *loss;
        write!(
            out,
            "{comma}{{\"link\":{link},\"contexts_gone\":{contexts}}}"
        )?;
        gone = gone.saturating_add(contexts);
    }
    write!(out, "]")?;
    Ok(gone)
}

/// An answer: its status and its body.
#[derive(Drop)]
pub(crate) struct Reply {
    pub(crate) status: u16,
    pub(crate) kind: Kind,
    pub(crate) body: Vec<u8>,
}

impl Reply {
    /// One object of JSON, if there was memory for its text.
    pub(crate) fn object(status: u16, text: Result<String, AllocError>) -> io::Result<Reply> {
        let body = text?.into_bytes();
        Ok(Reply {
            status,
            kind: Kind::Object,
            body,
        })
    }

    /// A text, if there was memory for it.
    pub(crate) fn text(text: Result<String, AllocError>) -> io::Result<Reply> {
        let body = text?.into_bytes();
        Ok(Reply {
            status: 200,
            kind: Kind::Text,
            body,
        })
    }

    /// A fault of this name, with a text for a reader.
    pub(crate) fn fault(alloc: Global, status: u16, name: &str, text: &str) -> io::Result<Reply> {
        let mut body = Vec::new(alloc);
        write!(&mut body, "{{\"fault\":\"{name}\",\"text\":")?;
        write_json_text(&mut body, text)?;
        writeln!(&mut body, "}}")?;
        Ok(Reply {
            status,
            kind: Kind::Object,
            body,
        })
    }

    /// A fault of a request.
    pub(crate) fn refused(alloc: Global, fault: RequestFault) -> io::Result<Reply> {
        Reply::fault(alloc, fault.status(), fault.name(), fault.text())
    }

    /// A request for a link that the links file doesn't have.
    pub(crate) fn no_link(alloc: Global, link: u16) -> io::Result<Reply> {
        let text = format!(in alloc; "link {link} is not in the links file")?;
        Reply::fault(alloc, 404, "NoLink", text.as_str())
    }

    /// A links file that is refused by this name: its first faults, how many more it has, and what follows.
    pub(crate) fn links_refused(
        alloc: Global,
        name: &str,
        file: &str,
        faults: &str,
    ) -> io::Result<Reply> {
        let mut body = Vec::new(alloc);
        write!(&mut body, "{{\"fault\":\"{name}\",\"file\":")?;
        write_json_text(&mut body, file)?;
        write!(&mut body, ",\"text\":[")?;
        for (place, line) in faults.lines().take(MOST_FAULTS).enumerate() {
            let comma = if place == 0 { "" } else { "," };
            write!(&mut body, "{comma}")?;
            write_json_text(&mut body, line)?;
        }
        let more = faults.lines().count().saturating_sub(MOST_FAULTS);
        writeln!(&mut body, "],\"more\":{more},\"note\":\"{REFUSED}\"}}")?;
        Ok(Reply {
            status: 409,
            kind: Kind::Object,
            body,
        })
    }

    /// What a reload did.
    pub(crate) fn reloaded(alloc: Global, report: &ReloadReport) -> io::Result<Reply> {
        let text = format!(in alloc;
            "{{\"added\":{},\"changed\":{},\"removed\":{},\"contexts_gone\":{}}}\n",
            report.added, report.changed, report.removed, report.contexts_gone
        );
        Reply::object(200, text)
    }

    /// What a reload would do.
    pub(crate) fn previewed(alloc: Global, preview: &Preview) -> io::Result<Reply> {
        let mut body = Vec::new(alloc);
        write!(&mut body, "{{\"added\":[")?;
        for (place, link) in preview.added.iter().enumerate() {
            let comma = if place == 0 { "" } else { "," };
            write!(&mut body, "{comma}{link}")?;
        }
        write!(&mut body, "]")?;
        let changed = write_losses(&mut body, "changed", preview.changed.as_slice())?;
        let removed = write_losses(&mut body, "removed", preview.removed.as_slice())?;
        let gone = changed.saturating_add(removed);
        writeln!(&mut body, ",\"contexts_gone\":{gone}}}")?;
        Ok(Reply {
            status: 200,
            kind: Kind::Object,
            body,
        })
    }
}

/// The head of an answer with a body of so many octets.
fn head_of(alloc: Global, status: u16, kind: Kind, size: usize) -> io::Result<Vec<u8>> {
    let mut text = Vec::new(alloc);
    write!(
        &mut text,
        "HTTP/1.1 {status} {}\r\nContent-Type: {}\r\nContent-Length: {size}\r\nConnection: close\r\n\r\n",
        phrase(status),
        kind.name()
    )?;
    Ok(text)
}

/// The octets of an answer that wait to be sent.
#[derive(Drop)]
pub(crate) struct Outgoing {
    blocks: Vec<Vec<u8>>,
    /// How many blocks are sent, and how many octets of the next.
    place: usize,
    sent: usize,
}

impl Outgoing {
    /// The octets of one block.
    pub(crate) fn of(alloc: Global, block: Vec<u8>) -> io::Result<Outgoing> {
        let mut blocks = Vec::new(alloc);
        blocks.push(block)?;
        Ok(Outgoing {
            blocks,
            place: 0,
            sent: 0,
        })
    }

    /// A short answer; `is_head` leaves out its body.
    pub(crate) fn short(alloc: Global, reply: &Reply, is_head: bool) -> io::Result<Outgoing> {
        let mut text = head_of(alloc, reply.status, reply.kind, reply.body.len())?;
        if !is_head {
            text.extend_from_slice(reply.body.as_slice())?;
        }
        Outgoing::of(alloc, text)
    }

    /// A long answer, whose body is in blocks; `is_head` leaves it out.
    pub(crate) fn long(
        alloc: Global,
        kind: Kind,
        blocks: Vec<Vec<u8>>,
        is_head: bool,
    ) -> io::Result<Outgoing> {
        let mut size = 0usize;
        for block in &blocks {
            size = size.saturating_add(block.len());
        }
        let mut outgoing = Outgoing::of(alloc, head_of(alloc, 200, kind, size)?)?;
        if !is_head {
            for block in blocks {
                outgoing.blocks.push(block)?;
            }
        }
        Ok(outgoing)
    }

    /// The octets that are to be written now, at most `MOST_WRITTEN`; none if all are sent.
    pub(crate) fn next(&self) -> &[u8] {
        let rest = match self.blocks.get(self.place) {
            Some(block) => block.get(self.sent..).unwrap_or(&[]),
            None => &[],
        };
        rest.get(..MOST_WRITTEN).unwrap_or(rest)
    }

    /// Notes how many of these octets were written.
    pub(crate) fn wrote(&mut self, count: usize) {
        self.sent = self.sent.saturating_add(count);
        if let Some(block) = self.blocks.get_mut(self.place)
            && block.len() <= self.sent
        {
            block.clear();
            block.shrink_to_fit();
            self.place = self.place.saturating_add(1);
            self.sent = 0;
        }
    }
}
