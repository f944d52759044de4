//! Which packets of an input are shown, as the options of `explain` and `report` say.

use crate::words_in::{call_in, wrong_value};
use clap::ArgMatches;
use rohctl_captures::{Time, Times, Which, time_of};
use rohctl_ground::Ending;

/// The packets of the call that is asked for, or all.
pub(crate) fn which_call<'a>(options: &ArgMatches<'a>) -> Result<Which, Ending<'a>> {
    match options.get_str("call") {
        Some(call) => {
            let (link, cid) = call_in("--call", call)?;
            Ok(Which::Call { link, cid })
        }
        None => Ok(Which::All),
    }
}

/// The time that an option gives, if it is given.
fn time_in<'a>(
    options: &ArgMatches<'a>,
    name: &'static str,
    word: &'static str,
) -> Result<Option<Time>, Ending<'a>> {
    let Some(text) = options.get_str(name) else {
        return Ok(None);
    };
    match time_of(text) {
        Some(time) => Ok(Some(time)),
        None => Err(wrong_value(
            word,
            text,
            "milliseconds of a script, seconds of a capture, or a time of day, as 1200, 1700000000.25 or 22:13:20.25",
        )),
    }
}

/// The times between which packets are shown.
pub(crate) fn times_of<'a>(options: &ArgMatches<'a>) -> Result<Times, Ending<'a>> {
    Ok(Times {
        since: time_in(options, "since", "--since")?,
        until: time_in(options, "until", "--until")?,
    })
}
