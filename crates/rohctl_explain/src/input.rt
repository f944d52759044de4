//! The packets of a script or a capture.

use crate::run::{Run, Seen};
use rohc_capture::Rule;
use rohctl_captures::{
    Carriage, Front, Narrow, Rest, RuleWords, Span, Times, Unit, Which, capture_end, check_links,
    framing_of, no_frame, no_packet_between, rules_of, take_source,
};
use rohctl_ground::{Ending, Misuse, Nothing, Reading, STREAM, Screen, open_told, unread};
use std::io::{Read, Write};
use std::rt::Files;
use std::time::Clock;

/// A script or a capture, and which of its packets are told.
#[derive(Clone, Copy)]
pub(crate) struct Wanted<'a> {
    /// The links file.
    pub(crate) links: &'a str,
    /// The path; `-` is standard input.
    pub(crate) path: &'a str,
    /// Which link a frame of a capture belongs to.
    pub(crate) rules: RuleWords<'a>,
    pub(crate) which: Which,
    pub(crate) times: Times,
}

/// Refuses lines of what has frames, and the other way round.
pub(crate) fn keep_to_unit(which: Which, unit: Unit) -> Result<(), Ending<'static>> {
    let Which::Within(span) = which else {
        return Ok(());
    };
    if span.unit == unit {
        return Ok(());
    }
    let (word, expected) = match unit {
        Unit::Line => ("--line or --lines", "lines, since the input is a script"),
        Unit::Frame => (
            "--frame or --frames",
            "frames, since the input is a capture",
        ),
        Unit::Packet => (
            "INPUT",
            "a script or a capture, since lines or frames of it are asked for",
        ),
    };
    Err(Ending::Misuse(Misuse::Missing { word, expected }))
}

/// The rules for a capture, each of a link that is there; a script has none.
fn rules_for<'a, W: Write + Drop>(
    wanted: &Wanted<'a>,
    is_capture: bool,
    run: &Run<W>,
) -> Result<Option<Vec<Rule>>, Ending<'a>> {
    if !is_capture {
        return Ok(None);
    }
    let rules = rules_of(run.decoding.alloc, &wanted.rules)?;
    check_links(&run.decoding.concentrator, wanted.links, rules.as_slice())?;
    Ok(Some(rules))
}

/// Why no packet is in these lines or frames of an input that has so many.
fn nothing_within(span: Span, last: u64) -> Nothing {
    let is_capture = span.unit == Unit::Frame;
    if span.first > last {
        return Nothing::NoNumber {
            is_capture,
            number: span.first,
            last,
        };
    }
    Nothing::NotWithin {
        is_capture,
        first: span.first,
        last: span.last,
    }
}

/// Why nothing was told of a script. `carriage` is whether its lines end with a carriage return.
fn nothing_in_script(which: Which, seen: Seen, carriage: bool) -> Nothing {
    let lines = seen.lines;
    match which {
        _ if lines == 0 => Nothing::Empty,
        Which::Within(span) if span.first > lines => nothing_within(span, lines),
        _ if seen.events == 0 => Nothing::NoEvent { lines, carriage },
        Which::Within(span) => nothing_within(span, lines),
        Which::Call { link, cid } => Nothing::NoCall { link, cid },
        Which::All => Nothing::NoPacket,
    }
}

/// Why nothing was told of a capture with so many frames, some of which have packets.
fn nothing_in_capture(which: Which, frames: u64) -> Nothing {
    match which {
        Which::Within(span) => nothing_within(span, frames),
        Which::Call { link, cid } => Nothing::NoCall { link, cid },
        Which::All => Nothing::NoPacket,
    }
}

/// How a run ends that told nothing.
fn nothing_end<'a, R, W>(
    rt: &R,
    wanted: &Wanted<'a>,
    source: &Reading<'_, R>,
    carriage: Option<Carriage<'_>>,
    rest: Rest,
    run: &Run<W>,
) -> Ending<'a>
where
    R: Files + Input + Eprint + Clock + AllocGlobal,
    W: Write + Drop,
{
    if let Some(carriage) = carriage
        && run.seen.events == 0
    {
        return no_frame(rt, wanted.path, source.front(), &carriage.framing);
    }
    if let Some(span) = run.narrow.missed() {
        return no_packet_between(rt, wanted.path, span, carriage.is_some());
    }
    let nothing = if carriage.is_some() {
        let frames = run.seen.events.saturating_add(rest.left_out);
        nothing_in_capture(wanted.which, frames)
    } else {
        nothing_in_script(wanted.which, run.seen, source.has_carriage())
    };
    Ending::Nothing(wanted.path, nothing)
}

/// Has the packets of an input taken that begins with these octets, and ends the run.
fn explain_from<'a, R, W>(
    rt: &R,
    wanted: &Wanted<'a>,
    front: Front,
    source: &mut Reading<'_, R>,
    run: &mut Run<W>,
) -> Result<Ending<'a>, Ending<'a>>
where
    R: Files + Input + Eprint + Clock + AllocGlobal,
    W: Write + Drop,
{
    let rules = rules_for(wanted, front.is_capture(), run)?;
    let carriage = Carriage::of(&rules, framing_of(&wanted.rules)?);
    let taken = {
        let mut whole = front.as_slice().chain(&mut *source);
        take_source(run.decoding.alloc, &mut whole, carriage.as_ref(), run)
    };
    let rest = taken.map_err(|stop| stop.ending(wanted.path, STREAM))?;
    if let Some(fault) = rest.fault {
        let _ = run.end()?;
        return Err(capture_end(wanted.path, fault, source.unread(wanted.path)));
    }
    if run.narrow.shown() > 0 {
        run.end()
    } else {
        Err(nothing_end(rt, wanted, source, carriage, rest, run))
    }
}

/// Has the packets of a script or a capture taken, and ends the run.
pub(crate) fn explain_input<'a, R, W>(
    rt: &R,
    wanted: &Wanted<'a>,
    screen: Screen,
    run: &mut Run<W>,
) -> Result<Ending<'a>, Ending<'a>>
where
    R: Files + Input + Eprint + Clock + AllocGlobal,
    W: Write + Drop,
{
    let is_shown = screen.error && !screen.output;
    let mut source = open_told(rt, wanted.path, is_shown)?;
    let front = Front::read(&mut source).map_err(|reason| unread(wanted.path, reason))?;
    run.unit = if front.is_capture() {
        Unit::Frame
    } else {
        Unit::Line
    };
    keep_to_unit(wanted.which, run.unit)?;
    run.narrow = Narrow::new(wanted.which, wanted.times, front.is_capture());
    explain_from(rt, wanted, front, &mut source, run)
}
