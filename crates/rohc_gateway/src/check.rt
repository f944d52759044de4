//! `check`: all that is wrong, and nothing is changed.

use crate::lines::Lines;
use crate::names::write_unknown_links;
use crate::setup::{Manner, NoStart, read_start};
use rohc_gateway_file::{Ending, Options};
use std::fs::File;
use std::rt::Files;
use std::time::Clock;

/// Says what may be wrong.
fn say_warnings<R: Print>(rt: &R, lines: &Lines) -> Result<(), Ending> {
    for line in lines.as_str().lines() {
        if let Err(e) = println!(rt; "warning: {line}") {
            return Err(Ending::Write(e));
        }
    }
    Ok(())
}

/// Says that nothing is wrong.
fn say_good<R: Print>(rt: &R) -> Result<Ending, Ending> {
    match println!(rt; "good") {
        Ok(()) => Ok(Ending::Good),
        Err(e) => Err(Ending::Write(e)),
    }
}

/// Says what is wrong.
fn say_wrong<R: Print>(rt: &R, lines: &Lines) -> Result<Ending, Ending> {
    match print!(rt; "{}", lines.as_str()) {
        Ok(()) => Ok(Ending::Findings),
        Err(e) => Err(Ending::Write(e)),
    }
}

/// Says all that is wrong with a gateway file, its links file and its state file, a line each, or `good` behind what may be
/// wrong.
pub(crate) fn check<R>(rt: &R, file: &str, options: &Options<'_>) -> Result<Ending, Ending>
where
    R: Files<File = File> + Clock + Print + AllocGlobal,
{
    match read_start(rt, file, options, Manner::Check) {
        Ok(start) => {
            let mut lines = Lines::new(rt.alloc());
            let notes = start.config.notes.as_slice();
            if write_unknown_links(&mut lines, file, notes, &start.concentrator).is_err() {
                return Err(Ending::Memory);
            }
            say_warnings(rt, &start.remarks)?;
            say_warnings(rt, &lines)?;
            say_good(rt)
        }
        Err(NoStart::Wrong(lines, _)) => say_wrong(rt, &lines),
        Err(NoStart::Memory) => Err(Ending::Memory),
    }
}
