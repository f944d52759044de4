//! `trace`: each line of a script with its number, and its answers behind it.

use rohc_trace::{TraceFault, trace};
use rohctl_ground::{
    CAPTURE, Ending, Printable, STREAM, Screen, concentrator_of, input_name, is_capture_front,
    make_target, open_told,
};
use std::io::{self, Write};
use std::rt::Files;
use std::time::Clock;

/// The answer to a line that is no event, behind the newline of the line before.
const BAD: &[u8] = b"\n- - refused ";

/// Whether answers to lines that are no events were written.
#[derive(Drop)]
struct Noticed {
    /// How many octets of `BAD` were written last.
    matched: usize,
    /// Whether there was such an answer.
    bad: bool,
}

impl Noticed {
    /// Takes octets that were written.
    fn notice(&mut self, octets: &[u8]) {
        for octet in octets {
            self.matched = match BAD.get(self.matched) {
                Some(wanted) if wanted == octet => self.matched.saturating_add(1),
                _ if *octet == b'\n' => 1,
                _ => 0,
            };
            self.bad = self.bad || self.matched == BAD.len();
        }
    }
}

/// A writer that notices answers to lines that are no events.
#[derive(Drop)]
struct Noticing<W: Write + Drop> {
    writer: W,
    noticed: Noticed,
}

impl<W: Write + Drop> Write for Noticing<W> {
    ghost contents = { λ noticing. W.contents noticing.writer };

    fn write(&mut self, buf: &[u8]) -> io::Result<usize> {
        let count = self.writer.write(buf)?;
        self.noticed.notice(buf.get(..count).unwrap_or(&[]));
        Ok(count)
    }

    fn flush(&mut self) -> io::Result<()> {
        self.writer.flush()
    }
}

/// Prints why a script may have lines that are no events: it is a capture, or they end with a carriage return.
fn hint<R: Eprint>(rt: &R, script: &str, is_capture: bool, has_carriage: bool) {
    let name = Printable(input_name(script));
    let _ = if is_capture {
        eprintln!(rt; "rohctl: {name}: {CAPTURE}")
    } else if has_carriage {
        eprintln!(rt; "rohctl: {name}: lines end with a carriage return; remove it: tr -d '\\r'")
    } else {
        Ok(())
    };
}

/// The ending for a trace that came to its end: whether each line was an event.
fn end_of(bad: bool) -> Ending<'static> {
    if bad { Ending::Findings } else { Ending::Good }
}

/// Traces the script of a file, with the links of another.
pub fn run_trace<'a, R>(
    rt: &R,
    links: &'a str,
    script: &'a str,
    screen: Screen,
) -> Result<Ending<'a>, Ending<'a>>
where
    R: Files + Input + Print + Eprint + Clock + AllocGlobal,
{
    let mut concentrator = concentrator_of(rt, links)?;
    let mut lines = open_told(rt, script, screen.error && !screen.output)?;
    let mut out = Noticing {
        writer: make_target(rt, STREAM)?,
        noticed: Noticed {
            matched: 0,
            bad: false,
        },
    };
    let traced = trace(rt.alloc(), &mut concentrator, &mut lines, &mut out);
    let flushed = out.flush();
    match traced {
        Ok(()) if flushed.is_ok() => {
            if out.noticed.bad {
                hint(
                    rt,
                    script,
                    is_capture_front(lines.front()),
                    lines.has_carriage(),
                );
            }
            Ok(end_of(out.noticed.bad))
        }
        Ok(()) | Err(TraceFault::Write) => Err(out.writer.unwritten(STREAM)),
        Err(TraceFault::Read) => Err(lines.unread(script)),
        Err(TraceFault::NoMemory) => Err(Ending::Memory),
    }
}
