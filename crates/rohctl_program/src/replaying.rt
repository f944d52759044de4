//! The subcommand `run`: the answers to a script, as `rohcd replay` writes them.

use crate::words_in::{input_of, keep_streams_apart, value_of, wrong_value};
use clap::ArgMatches;
use rohc_replay::{RunFault, replay};
use rohctl_ground::{
    Ending, Nothing, STREAM, Screen, concentrator_from, is_capture_front, make_target, open_told,
};
use std::io::Write;
use std::rt::Files;
use std::time::Clock;

/// What is asked of `run`.
#[derive(Clone, Copy)]
pub(crate) struct Replayed<'a> {
    links: &'a str,
    /// The state file from which it begins.
    state: Option<&'a str>,
    script: &'a str,
}

/// The state file, if one is given. It can't be standard input.
pub(crate) fn state_in<'a>(options: &ArgMatches<'a>) -> Result<Option<&'a str>, Ending<'a>> {
    match options.get_str("state") {
        Some(STREAM) => Err(wrong_value("--state", STREAM, "a file, as rohc-gateway writes it")),
        state => Ok(state),
    }
}

/// What is asked of `run`.
pub(crate) fn replayed_of<'a>(
    options: &ArgMatches<'a>,
    is_terminal: bool,
) -> Result<Replayed<'a>, Ending<'a>> {
    let links = value_of(options, "links")?;
    let script = input_of(options, "SCRIPT", is_terminal)?;
    keep_streams_apart(links, "SCRIPT", script)?;
    Ok(Replayed {
        links,
        state: state_in(options)?,
        script,
    })
}

/// Runs the script of a file, and writes its answers. A line that is no event is answered, and is no fault.
pub(crate) fn run_replay<'a, R>(
    rt: &R,
    asked: Replayed<'a>,
    screen: Screen,
) -> Result<Ending<'a>, Ending<'a>>
where
    R: Files + Input + Print + Eprint + Clock + AllocGlobal,
{
    let mut concentrator = concentrator_from(rt, asked.links, asked.state)?;
    let mut lines = open_told(rt, asked.script, screen.error && !screen.output)?;
    let mut out = make_target(rt, STREAM)?;
    let ran = replay(rt.alloc(), &mut concentrator, &mut lines, &mut out);
    let flushed = out.flush();
    match ran {
        Ok(_) if is_capture_front(lines.front()) => {
            Err(Ending::Nothing(asked.script, Nothing::Capture))
        }
        Ok(_) if flushed.is_ok() => Ok(Ending::Good),
        Ok(_) | Err(RunFault::Write { .. }) => Err(out.unwritten(STREAM)),
        Err(RunFault::Read { .. }) => Err(lines.unread(asked.script)),
        Err(RunFault::NoMemory) => Err(Ending::Memory),
    }
}
