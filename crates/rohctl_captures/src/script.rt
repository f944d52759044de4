//! The subcommand `script`: a capture as a script, and back.

use crate::again::{take_all, take_held};
use crate::annotated::Annotator;
use crate::bulk::{capture_end, refuse_terminal};
use crate::carriage::{Carriage, sender_in};
use crate::datagrams::{Before, Datagrams};
use crate::framing_words::{ether_type_of, framing_of};
use crate::held::{Held, hold};
use crate::lines_out::{Lines, write_line};
use crate::narrow::{Narrow, Times, Which, unshown_end};
use crate::nothing::nothing_end;
use crate::part::{Looking, Writing};
use crate::rules::{RuleWords, check_links, rules_of};
use crate::source::Rest;
use crate::unmatched::no_frame;
use indexmap::IndexMap;
use rohc_capture::{Capture, Format, Record, Rule, write_head};
use rohc_concentrator::Concentrator;
use rohc_decompress::BulkFault;
use rohc_links::Links;
use rohctl_ground::{
    Ending, Misuse, Nothing, Reason, Screen, Stop, Written, good_links, is_capture_front,
    keep_apart, make_target, open_told, read_script, target_of, unread,
};
use std::alloc::Global;
use std::io;
use std::io::{Read, Write};
use std::rt::{Env, Files};
use std::time::Clock;

/// The longest packet of a script, in octets.
const LONGEST_PACKET: usize = 65_535;

/// What is asked of `script`.
#[derive(Clone, Copy)]
pub struct Script<'a> {
    /// What is read: a capture or, back, a script.
    pub input: &'a str,
    /// What is written: a script or, back, a capture.
    pub output: &'a str,
    /// Which link a frame belongs to.
    pub rules: RuleWords<'a>,
    /// Who sent the packets that arrive: an Ethernet or an IPv4 address. What others sent is told apart.
    pub from: Option<&'a str>,
    /// The script of what others sent, if it is asked for.
    pub other: Option<&'a str>,
    /// A list with the frame of each line of the script, if it is asked for.
    pub lines: Option<&'a str>,
    /// Whether a script is turned into a capture.
    pub back: bool,
    /// The form of a capture that is written.
    pub format: Format,
    /// Which packets are written, if not all.
    pub part: Option<Part<'a>>,
}

/// Which packets of an input are written, and with which links file it is decoded to know them.
#[derive(Clone, Copy)]
pub struct Part<'a> {
    pub links: &'a str,
    /// How long the payloads of links are, as LINK=N with commas between them.
    pub payload: Option<&'a str>,
    pub which: Which,
    /// Between which times packets are written.
    pub times: Times,
}

/// Where the lines go.
#[derive(Drop)]
struct Outputs<S: Write + Drop, O: Write + Drop, L: Write + Drop> {
    lines: Lines<S, L>,
    other: O,
    /// The packets so far, of any sender.
    packets: u64,
}

impl<S: Write + Drop, O: Write + Drop, L: Write + Drop> Outputs<S, O, L> {
    /// Writes a packet that arrived, in the frame with this number.
    fn arrived(&mut self, frame: u64, record: &Record, link: u16, packet: &[u8]) -> io::Result<()> {
        let from = (frame, Some(record.place));
        self.lines
            .arrived(from, link, record.nanos / 1_000_000, packet)
    }

    /// Flushes all.
    fn flush(&mut self) -> io::Result<()> {
        self.lines.flush()?;
        self.other.flush()
    }
}

/// Turns a capture into lines. The error is that of the capture, or of a writer.
fn run_frames<R, S, O, L>(
    capture: &mut Capture<R>,
    wanted: &Carriage<'_>,
    out: &mut Outputs<S, O, L>,
) -> Result<(), BulkFault>
where
    R: Read,
    S: Write + Drop,
    O: Write + Drop,
    L: Write + Drop,
{
    for frame in 1..u64::MAX {
        let Some(record) = capture.next()? else {
            return Ok(());
        };
        let octets = capture.frame();
        let Some((link, packet)) = wanted.packet_of(&record, octets) else {
            continue;
        };
        if packet.len() > LONGEST_PACKET {
            continue;
        }
        out.packets = out.packets.saturating_add(1);
        let written = if wanted.is_sent(&record, octets) {
            out.arrived(frame, &record, link, packet)
        } else {
            write_line(&mut out.other, link, record.nanos / 1_000_000, packet)
        };
        written.map_err(|_| BulkFault::Write)?;
        if !capture.is_ahead() {
            out.flush().map_err(|_| BulkFault::Write)?;
        }
    }
    Ok(())
}

/// The files that lines go to.
fn outputs_of<'a, 'p, R: Files + Print + AllocGlobal>(
    rt: &'a R,
    asked: &Script<'p>,
) -> Result<Outputs<Written<'a, R>, Written<'a, R>, Written<'a, R>>, Ending<'p>> {
    let script = make_target(rt, asked.output)?;
    let other = target_of(rt, asked.other)?;
    let list = target_of(rt, asked.lines)?;
    let lines = Lines {
        script,
        list,
        lines: 0,
    };
    Ok(Outputs {
        lines,
        other,
        packets: 0,
    })
}

/// The ending for a write of one of the outputs that failed.
fn unwritten_end<'a, R: Files + Print>(
    asked: &Script<'a>,
    out: &Outputs<Written<'_, R>, Written<'_, R>, Written<'_, R>>,
) -> Ending<'a> {
    match (asked.other, asked.lines) {
        (Some(path), _) if out.other.has_failed() => out.other.unwritten(path),
        (_, Some(path)) if out.lines.list.has_failed() => out.lines.list.unwritten(path),
        _ => out.lines.script.unwritten(asked.output),
    }
}

/// Turns the wanted packets of a capture into a script.
fn run_by<'a, R>(
    rt: &R,
    asked: &Script<'a>,
    wanted: &Carriage<'_>,
    screen: Screen,
) -> Result<Ending<'a>, Ending<'a>>
where
    R: Files + Input + Print + Eprint + Env + Clock + AllocGlobal,
{
    let mut input = open_told(rt, asked.input, screen.error)?;
    keep_apart(
        rt,
        &[asked.input],
        &[Some(asked.output), asked.other, asked.lines],
    )?;
    let mut out = outputs_of(rt, asked)?;
    let ran = match Capture::new(rt.alloc(), &mut input) {
        Ok(mut capture) => run_frames(&mut capture, wanted, &mut out),
        Err(fault) => Err(BulkFault::Capture(fault)),
    };
    let flushed = out.flush().is_ok();
    match ran {
        Ok(()) if flushed && out.packets == 0 => {
            Err(no_frame(rt, asked.input, input.front(), &wanted.framing))
        },
        Ok(()) if flushed => Ok(Ending::Good),
        Err(BulkFault::Capture(fault)) if flushed => {
            Err(capture_end(asked.input, fault, input.unread(asked.input)))
        }
        _ => Err(unwritten_end::<R>(asked, &out)),
    }
}

/// Turns a capture into a script.
fn run_forth<'a, R>(rt: &R, asked: &Script<'a>, screen: Screen) -> Result<Ending<'a>, Ending<'a>>
where
    R: Files + Input + Print + Eprint + Env + Clock + AllocGlobal,
{
    let sender = sender_in(asked.from)?;
    let rules = rules_of(rt.alloc(), &asked.rules)?;
    let wanted = Carriage {
        rules: rules.as_slice(),
        framing: framing_of(&asked.rules)?,
        sender,
    };
    run_by(rt, asked, &wanted, screen)
}

/// The records of a capture with these octets before each packet, before the first.
fn datagrams_of<'a, 'p, R: Files + Print + AllocGlobal>(
    rt: &'a R,
    asked: &Script<'p>,
    before: Before,
) -> Result<Datagrams<Written<'a, R>>, Ending<'p>> {
    let mut out = make_target(rt, asked.output)?;
    match write_head(&mut out, asked.format, before.link_type()) {
        Ok(()) => Ok(Datagrams {
            out,
            format: asked.format,
            before,
            left_out: 0,
            written: false,
            arrivals: 0,
            resets: 0,
        }),
        Err(_) => Err(out.unwritten(asked.output)),
    }
}

/// Prints how many lines have no datagram, if there are some.
fn tell_left_out<R: Eprint>(rt: &R, left_out: u64) {
    if left_out > 0 {
        let lines = if left_out == 1 { "line" } else { "lines" };
        let _ = eprintln!(rt;
            "skipped {left_out} {lines} (not arrivals, or too long for a capture)"
        );
    }
}

/// Why no line of a script has a datagram.
fn nothing_of<W: Write + Drop>(
    datagrams: &Datagrams<W>,
    is_capture: bool,
    carriage: bool,
) -> Nothing {
    let lines = datagrams.left_out;
    if lines == 0 {
        Nothing::Empty
    } else if is_capture {
        Nothing::Capture
    } else if datagrams.arrivals > 0 {
        Nothing::Beyond
    } else if datagrams.resets > 0 {
        Nothing::NoPacket
    } else {
        Nothing::NoEvent { lines, carriage }
    }
}

/// The port that datagrams are sent to.
fn port_of<'a>(asked: &Script<'a>) -> Result<u16, Ending<'a>> {
    let expected =
        "with --back the port of the datagrams, 0 to 65535, or --ethertype for Ethernet frames";
    match asked.rules.port {
        Some(given) => given.parse().map_err(|_| {
            Ending::Misuse(Misuse::Value {
                word: "--port",
                given,
                expected,
            })
        }),
        None => Err(Ending::Misuse(Misuse::Missing {
            word: "--port",
            expected,
        })),
    }
}

/// What stands before each packet: an Ethernet header if an EtherType is given, or else the headers of a datagram.
fn before_of<'a>(asked: &Script<'a>) -> Result<Before, Ending<'a>> {
    match ether_type_of(&asked.rules)? {
        Some(ether_type) => Ok(Before::Ethernet(ether_type)),
        None => Ok(Before::Port(port_of(asked)?)),
    }
}

/// Turns a script into a capture of Ethernet frames, or of datagrams, each with the number of its link in front.
fn run_back<'a, R>(rt: &R, asked: &Script<'a>, screen: Screen) -> Result<Ending<'a>, Ending<'a>>
where
    R: Files + Input + Print + Eprint + Env + Clock + AllocGlobal,
{
    let before = before_of(asked)?;
    refuse_terminal(asked.output, screen)?;
    let mut lines = open_told(rt, asked.input, screen.error)?;
    keep_apart(rt, &[asked.input], &[Some(asked.output)])?;
    let mut datagrams = datagrams_of(rt, asked, before)?;
    let ran = read_script(rt.alloc(), &mut lines, &mut datagrams);
    let flushed = datagrams.out.flush();
    if datagrams.written {
        tell_left_out(rt, datagrams.left_out);
    }
    match ran {
        Ok(()) if flushed.is_ok() && !datagrams.written => {
            let is_capture = is_capture_front(lines.front());
            let nothing = nothing_of(&datagrams, is_capture, lines.has_carriage());
            Err(Ending::Nothing(asked.input, nothing))
        }
        Ok(()) if flushed.is_ok() => Ok(Ending::Good),
        Ok(()) | Err(Stop::Write(_)) => Err(datagrams.out.unwritten(asked.output)),
        Err(stop) => Err(stop.ending(asked.input, asked.output)),
    }
}

/// The rules for a capture, each of a link that is there; a script has none.
fn rules_for<'a, R>(
    rt: &R,
    asked: &Script<'a>,
    part: &Part<'a>,
    held: &Held<'a, R::File>,
    concentrator: &Concentrator,
) -> Result<Option<Vec<Rule>>, Ending<'a>>
where
    R: Files + AllocGlobal,
{
    if !held.is_capture(rt)? {
        return Ok(None);
    }
    let rules = rules_of(rt.alloc(), &asked.rules)?;
    check_links(concentrator, part.links, rules.as_slice())?;
    Ok(Some(rules))
}

/// A concentrator with these links, without a record.
fn fresh<'a>(alloc: Global, links: &Links) -> Result<Concentrator, Ending<'a>> {
    Concentrator::new(alloc, links.settings()).map_err(|_| Ending::Memory)
}

/// An input of which a part is written, and how it is read.
#[derive(Drop)]
struct Opened<'h, 'p, F> {
    held: &'h Held<'p, F>,
    /// Only a capture has one.
    carriage: Option<Carriage<'h>>,
    links: &'h Links,
    /// Which packets are shown, before the first one.
    narrow: Narrow,
    screen: Screen,
}

/// Looks where each call of a part begins.
fn look<'h, 'p, R, A>(
    rt: &R,
    opened: &Opened<'h, 'p, R::File>,
    annotator: &'h A,
) -> Result<(Looking<'h, A>, Rest), Ending<'p>>
where
    R: Files + Eprint + Clock + AllocGlobal,
    A: Annotator,
{
    let alloc = rt.alloc();
    let mut looking = Looking {
        annotator,
        concentrator: fresh(alloc, opened.links)?,
        narrow: opened.narrow,
        calls: IndexMap::new(alloc),
        resets: IndexMap::new(alloc),
        events: 0,
        bad: 0,
    };
    let rest = take_all(
        rt,
        opened.held,
        opened.carriage,
        opened.screen,
        &mut looking,
    )?;
    Ok((looking, rest))
}

/// Writes the part in which the calls begin as `looking` found.
fn write_part<'h, 'p, R, A>(
    rt: &'h R,
    asked: &Script<'p>,
    opened: &Opened<'h, 'p, R::File>,
    looking: Looking<'h, A>,
) -> Result<Ending<'p>, Ending<'p>>
where
    R: Files + Print + Eprint + Clock + AllocGlobal,
    A: Annotator,
{
    let out = Lines {
        script: make_target(rt, asked.output)?,
        list: target_of(rt, asked.lines)?,
        lines: 0,
    };
    let mut writing = Writing {
        annotator: looking.annotator,
        concentrator: fresh(rt.alloc(), opened.links)?,
        narrow: opened.narrow,
        calls: looking.calls,
        links: IndexMap::new(rt.alloc()),
        out,
        place: None,
    };
    let taken = take_held(
        rt,
        opened.held,
        opened.carriage,
        opened.screen,
        &mut writing,
    );
    let flushed = writing.out.flush();
    if let Some(path) = asked.lines
        && writing.out.list.has_failed()
    {
        return Err(writing.out.list.unwritten(path));
    }
    if writing.out.script.has_failed() || flushed.is_err() {
        return Err(writing.out.script.unwritten(asked.output));
    }
    match taken {
        Err(stop) => Err(stop.ending(asked.input, asked.output)),
        Ok(Rest { fault: None, .. }) => Ok(Ending::Good),
        Ok(
            Rest {
                fault: Some(fault),
                ..
            },
        ) => Err(capture_end(asked.input, fault, unread(asked.input, Reason::Other(0)))),
    }
}

/// Writes a part of an input, if there is something to write.
fn run_opened<'h, 'p, R, A>(
    rt: &'h R,
    asked: &Script<'p>,
    opened: &Opened<'h, 'p, R::File>,
    annotator: &'h A,
) -> Result<Ending<'p>, Ending<'p>>
where
    R: Files + Print + Eprint + Clock + AllocGlobal,
    A: Annotator,
{
    let (looking, rest) = look(rt, opened, annotator)?;
    if rest.fault.is_none() && looking.events == 0 {
        return Err(nothing_end(rt, opened.held, opened.carriage, looking.bad));
    }
    if rest.fault.is_none() && looking.narrow.shown() == 0 {
        return Err(unshown_end(rt, asked.input, &looking.narrow));
    }
    write_part(rt, asked, opened, looking)
}

/// Turns a part of a capture or of a script into a script.
fn run_part<'a, R, A>(
    rt: &R,
    asked: &Script<'a>,
    part: &Part<'a>,
    annotator: &A,
    screen: Screen,
) -> Result<Ending<'a>, Ending<'a>>
where
    R: Files + Input + Print + Eprint + Env + Clock + AllocGlobal,
    A: Annotator,
{
    let sender = sender_in(asked.from)?;
    let framing = framing_of(&asked.rules)?;
    keep_apart(
        rt,
        &[part.links, asked.input],
        &[Some(asked.output), asked.lines],
    )?;
    let links = good_links(rt, part.links)?;
    let held = hold(rt, asked.input, screen)?;
    let rules = rules_for(rt, asked, part, &held, &fresh(rt.alloc(), &links)?)?;
    let carriage = Carriage::of(&rules, framing).map(|carriage| Carriage { sender, ..carriage });
    let opened = Opened {
        held: &held,
        carriage,
        links: &links,
        narrow: Narrow::new(part.which, part.times, rules.is_some()),
        screen,
    };
    run_opened(rt, asked, &opened, annotator)
}

/// Turns a capture into a script, or a script into a capture. The annotator says what the packets are if only a part is
/// written.
pub fn run_script<'a, R, A>(
    rt: &R,
    asked: &Script<'a>,
    annotator: &A,
    screen: Screen,
) -> Result<Ending<'a>, Ending<'a>>
where
    R: Files + Input + Print + Eprint + Env + Clock + AllocGlobal,
    A: Annotator,
{
    match &asked.part {
        Some(part) => run_part(rt, asked, part, annotator, screen),
        None if asked.back => run_back(rt, asked, screen),
        None => run_forth(rt, asked, screen),
    }
}
