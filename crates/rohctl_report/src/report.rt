//! The subcommand `report`.

use crate::asked::Asked;
use crate::passes::{Counting, Drawing, DrawnCalls};
use rohc_capture::Rule;
use rohc_concentrator::Concentrator;
use rohc_report::{CallRow, Calls, Report, worst_first, write_page};
use rohctl_captures::{
    Carriage, Held, Narrow, Rest, Unit, capture_end, check_links, framing_of, hold, nothing_end,
    payloads_of, rules_of, take_all, unshown_end,
};
use rohctl_explain::{Decoding, Falls};
use rohctl_ground::{Beginning, Ending, Reason, Screen, keep_apart, make_target, unread};
use std::alloc::Global;
use std::io::Write;
use std::rt::{Env, Files};
use std::time::Clock;

/// How many calls are drawn at most.
const MOST_DRAWN: usize = 100;

/// The rules for a capture; a script has none.
fn rules_for<'a, R>(
    rt: &R,
    held: &Held<'a, R::File>,
    asked: &Asked<'a>,
    concentrator: &Concentrator,
) -> Result<Option<Vec<Rule>>, Ending<'a>>
where
    R: Files + AllocGlobal,
{
    if !held.is_capture(rt)? {
        return Ok(None);
    }
    let rules = rules_of(rt.alloc(), &asked.rules)?;
    check_links(concentrator, asked.links, rules.as_slice())?;
    Ok(Some(rules))
}

/// The rows of the calls that are drawn.
fn front_of(rows: &[CallRow]) -> &[CallRow] {
    rows.get(..MOST_DRAWN).unwrap_or(rows)
}

/// Writes the page to where it is asked for.
fn write_report<'a, R>(rt: &R, path: &'a str, report: &Report<'_>) -> Result<(), Ending<'a>>
where
    R: Files + Print + AllocGlobal,
{
    let mut out = make_target(rt, path)?;
    if write_page(rt.alloc(), &mut out, report).is_err() || out.flush().is_err() {
        return Err(if out.has_failed() {
            out.unwritten(path)
        } else {
            Ending::Memory
        });
    }
    Ok(())
}

/// How a report ends: whether a call is silent, or a line is bad; or with the fault of the capture, whose front was told.
fn end_of<'a>(
    path: &'a str,
    calls: &Calls,
    rows: &[CallRow],
    rest: Rest,
) -> Result<Ending<'a>, Ending<'a>> {
    if let Some(fault) = rest.fault {
        return Err(capture_end(path, fault, unread(path, Reason::Other(0))));
    }
    if calls.bad > 0 || rows.iter().any(|row| row.totals.silent > 0) {
        return Ok(Ending::Findings);
    }
    Ok(Ending::Good)
}

/// An input, how it is read, and which packets are shown.
#[derive(Drop)]
struct Source<'a, 'p, F> {
    held: &'a Held<'p, F>,
    /// The links and the contexts with which a pass over it begins.
    beginning: &'a Beginning<'p>,
    /// Only a capture has one.
    carriage: Option<Carriage<'a>>,
    /// Which packets are shown, before the first one.
    narrow: Narrow,
    /// How long the payloads of links are, as it is given.
    payload: Option<&'p str>,
    screen: Screen,
}

/// The packets of an input, to be explained from this concentrator on.
fn decoding_of<'p, F>(
    alloc: Global,
    source: &Source<'_, 'p, F>,
    concentrator: Concentrator,
) -> Result<Decoding, Ending<'p>> {
    Ok(Decoding {
        alloc,
        concentrator,
        payloads: payloads_of(alloc, source.payload)?,
        falls: Falls::new(alloc),
    })
}

/// Counts the packets of an input that are shown.
fn count_all<'p, R>(
    rt: &R,
    source: &Source<'_, 'p, R::File>,
    concentrator: Concentrator,
) -> Result<(Counting, Rest), Ending<'p>>
where
    R: Files + Eprint + Clock + AllocGlobal,
{
    let mut counting = Counting {
        decoding: decoding_of(rt.alloc(), source, concentrator)?,
        calls: Calls::new(rt.alloc()),
        events: 0,
        narrow: source.narrow,
    };
    let rest = take_all(
        rt,
        source.held,
        source.carriage,
        source.screen,
        &mut counting,
    )?;
    Ok((counting, rest))
}

/// A run that draws the calls of these rows.
fn drawing_of<'p, F>(
    alloc: Global,
    source: &Source<'_, 'p, F>,
    rows: &[CallRow],
) -> Result<Drawing, Ending<'p>> {
    let concentrator = source.beginning.again(alloc)?;
    let decoding = decoding_of(alloc, source, concentrator)?;
    match DrawnCalls::new(alloc, rows) {
        Ok(calls) => Ok(Drawing {
            decoding,
            unit: if source.carriage.is_some() {
                Unit::Frame
            } else {
                Unit::Line
            },
            narrow: source.narrow,
            calls,
        }),
        Err(_) => Err(Ending::Memory),
    }
}

/// Draws the calls of these rows. The input has to end as it did when it was counted.
fn draw_all<'p, R>(
    rt: &R,
    source: &Source<'_, 'p, R::File>,
    rows: &[CallRow],
    rest: Rest,
) -> Result<Drawing, Ending<'p>>
where
    R: Files + Eprint + Clock + AllocGlobal,
{
    let mut drawing = drawing_of(rt.alloc(), source, rows)?;
    let again = take_all(
        rt,
        source.held,
        source.carriage,
        source.screen,
        &mut drawing,
    )?;
    if again == rest {
        Ok(drawing)
    } else {
        Err(Ending::Read(source.held.path(), Reason::Changed))
    }
}

/// Draws the calls of the first of these rows, and writes the page of them all.
fn report_rows<'p, R>(
    rt: &R,
    asked: &Asked<'p>,
    source: &Source<'_, 'p, R::File>,
    calls: &Calls,
    rows: &[CallRow],
    rest: Rest,
) -> Result<Ending<'p>, Ending<'p>>
where
    R: Files + Print + Eprint + Clock + AllocGlobal,
{
    let drawing = draw_all(rt, source, front_of(rows), rest)?;
    let report = Report {
        input: asked.input,
        links: asked.links,
        is_capture: source.carriage.is_some(),
        frames_left_out: rest.left_out,
        calls,
        rows,
        drawn: &drawing.calls.drawn,
    };
    write_report(rt, asked.output, &report)?;
    end_of(asked.input, calls, rows, rest)
}

/// Writes the report on these calls.
fn report_calls<'p, R>(
    rt: &R,
    asked: &Asked<'p>,
    source: &Source<'_, 'p, R::File>,
    calls: &Calls,
    rest: Rest,
) -> Result<Ending<'p>, Ending<'p>>
where
    R: Files + Print + Eprint + Clock + AllocGlobal,
{
    match worst_first(rt.alloc(), calls) {
        Ok(rows) => report_rows(rt, asked, source, calls, &rows, rest),
        Err(_) => Err(Ending::Memory),
    }
}

/// Writes the report on an input. It is read twice: to count, and to draw the calls that are the worst.
fn report_on<'p, R>(
    rt: &R,
    asked: &Asked<'p>,
    source: &Source<'_, 'p, R::File>,
    concentrator: Concentrator,
) -> Result<Ending<'p>, Ending<'p>>
where
    R: Files + Print + Eprint + Clock + AllocGlobal,
{
    let (counting, rest) = count_all(rt, source, concentrator)?;
    if rest.fault.is_none() && counting.events == 0 {
        let lines = counting.calls.bad;
        return Err(nothing_end(rt, source.held, source.carriage, lines));
    }
    if rest.fault.is_none() && counting.narrow.shown() == 0 {
        return Err(unshown_end(rt, asked.input, &counting.narrow));
    }
    let Counting { calls, .. } = counting;
    report_calls(rt, asked, source, &calls, rest)
}

/// Writes the report on the input that is asked for.
fn report_input<'p, R>(
    rt: &R,
    asked: &Asked<'p>,
    beginning: &Beginning<'p>,
    screen: Screen,
) -> Result<Ending<'p>, Ending<'p>>
where
    R: Files + Input + Print + Eprint + Env + Clock + AllocGlobal,
{
    let concentrator = beginning.concentrator(rt)?;
    let held = hold(rt, asked.input, screen)?;
    let rules = rules_for(rt, &held, asked, &concentrator)?;
    let carriage = Carriage::of(&rules, framing_of(&asked.rules)?);
    let source = Source {
        held: &held,
        beginning,
        carriage,
        narrow: Narrow::new(asked.which, asked.times, rules.is_some()),
        payload: asked.payload,
        screen,
    };
    report_on(rt, asked, &source, concentrator)
}

/// Writes the report that is asked for.
pub fn run_report<'p, R>(
    rt: &R,
    asked: &Asked<'p>,
    screen: Screen,
) -> Result<Ending<'p>, Ending<'p>>
where
    R: Files + Input + Print + Eprint + Env + Clock + AllocGlobal,
{
    let inputs = [asked.links, asked.input, asked.state.unwrap_or("")];
    keep_apart(rt, &inputs, &[Some(asked.output)])?;
    let beginning = Beginning::read(rt, asked.links, asked.state)?;
    report_input(rt, asked, &beginning, screen)
}
