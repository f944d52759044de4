//! The subcommand `find`: the link and the CID of a call, by its addresses.

use crate::asked::Sought;
use crate::find_text::{write_call, write_object};
use crate::found::Finding;
use rohc_capture::Rule;
use rohc_concentrator::Concentrator;
use rohctl_captures::{
    Carriage, Held, Rest, capture_end, check_links, framing_of, hold, nothing_end, rules_of,
    take_all,
};
use rohctl_ground::{
    Ending, Printable, Reason, Screen, concentrator_from, good_links, input_name, restored,
    unprinted, unread,
};
use std::io;
use std::io::{BufWriter, Write};
use std::rt::{Env, Files};
use std::time::Clock;

/// What messages call the contexts of a running gateway.
const RUNNING: &str = "the running gateway";

/// What lines call those of a state file.
const SAVED: &str = "the state file";

/// The rules for a capture; a script has none.
fn rules_for<'a, R>(
    rt: &R,
    held: &Held<'a, R::File>,
    asked: &Sought<'a>,
    concentrator: &Concentrator,
) -> Result<Option<Vec<Rule>>, Ending<'a>>
where
    R: Files + AllocGlobal,
{
    if !held.is_capture(rt)? {
        return Ok(None);
    }
    let rules = rules_of(rt.alloc(), &asked.rules)?;
    check_links(concentrator, asked.links, rules.as_slice())?;
    Ok(Some(rules))
}

/// Writes the calls that were found.
fn write_calls<W: Write>(out: &mut W, finding: &Finding, json: bool, unit: &str) -> io::Result<()> {
    for call in finding.calls.iter() {
        let state = call.state(&finding.concentrator);
        if json {
            write_object(out, call, state)?;
        } else {
            write_call(out, call, state, unit, finding.origin)?;
        }
    }
    out.flush()
}

/// Prints the calls that were found, or that there is none. Returns how the run ends.
fn tell_found<'a, R>(
    rt: &R,
    asked: &Sought<'a>,
    finding: &Finding,
    unit: &str,
) -> Result<Ending<'a>, Ending<'a>>
where
    R: Print + Eprint + Clock + AllocGlobal,
{
    if finding.calls.is_empty() {
        let path = Printable(input_name(asked.input.or(asked.state).unwrap_or(RUNNING)));
        let _ = eprintln!(rt;
            "rohctl: {path}: nothing to show: no call has these addresses; expected those of its IP packets, as 'rohctl explain' shows them"
        );
        return Err(Ending::NoFrame);
    }
    let Ok(mut out) = BufWriter::new(rt.alloc(), io::writer(rt)) else {
        return Err(Ending::Memory);
    };
    match write_calls(&mut out, finding, asked.json, unit) {
        Ok(()) => Ok(Ending::Good),
        Err(error) => Err(unprinted(&error)),
    }
}

/// Finds calls in an input. Returns what was left out, and what its packets stand in.
fn find_in<'a, R>(
    rt: &R,
    asked: &Sought<'a>,
    path: &'a str,
    screen: Screen,
    finding: &mut Finding,
) -> Result<(Rest, &'static str), Ending<'a>>
where
    R: Files + Input + Eprint + Env + Clock + AllocGlobal,
{
    let held = hold(rt, path, screen)?;
    let rules = rules_for(rt, &held, asked, &finding.concentrator)?;
    let carriage = Carriage::of(&rules, framing_of(&asked.rules)?);
    let rest = take_all(rt, &held, carriage, screen, finding)?;
    if finding.events == 0 && rest.fault.is_none() {
        return Err(nothing_end(rt, &held, carriage, finding.bad));
    }
    Ok((rest, if rules.is_some() { "frames" } else { "lines" }))
}

/// Finds calls in an input, prints them, and then the fault of a capture that can't be read on.
fn find_and_tell<'a, R>(
    rt: &R,
    asked: &Sought<'a>,
    path: &'a str,
    screen: Screen,
    finding: &mut Finding,
) -> Result<Ending<'a>, Ending<'a>>
where
    R: Files + Input + Print + Eprint + Env + Clock + AllocGlobal,
{
    let (rest, unit) = find_in(rt, asked, path, screen, finding)?;
    let ending = tell_found(rt, asked, finding, unit)?;
    match rest.fault {
        Some(fault) => Err(capture_end(path, fault, unread(path, Reason::Other(0)))),
        None => Ok(ending),
    }
}

/// The contexts that are there before the first packet: those of a running gateway, as it saves them, or of a state file.
fn concentrator_before<'a, R>(
    rt: &R,
    asked: &Sought<'a>,
    running: Option<&[u8]>,
) -> Result<Concentrator, Ending<'a>>
where
    R: Files + Input + Eprint + Env + Clock + AllocGlobal,
{
    match running {
        Some(octets) => restored(rt, &good_links(rt, asked.links)?, RUNNING, octets),
        None => concentrator_from(rt, asked.links, asked.state),
    }
}

/// Finds the calls that are asked for. `running` has the contexts of a running gateway as it saves them, if they are
/// searched.
pub fn run_find<'a, R>(
    rt: &R,
    asked: &Sought<'a>,
    running: Option<&[u8]>,
    screen: Screen,
) -> Result<Ending<'a>, Ending<'a>>
where
    R: Files + Input + Print + Eprint + Env + Clock + AllocGlobal,
{
    let concentrator = concentrator_before(rt, asked, running)?;
    let origin = if running.is_some() { RUNNING } else { SAVED };
    let mut finding = Finding::new(rt.alloc(), concentrator, asked.first, asked.second, origin);
    if finding.take_contexts().is_err() {
        return Err(Ending::Memory);
    }
    match asked.input {
        Some(path) => find_and_tell(rt, asked, path, screen, &mut finding),
        None => tell_found(rt, asked, &finding, "lines"),
    }
}
