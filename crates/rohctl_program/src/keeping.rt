//! The subcommand `keep`: what is asked of it, and the gateway that it asks.

use crate::control::{Wish, answer_of, no_answer};
use crate::words_in::wrong_value;
use clap::ArgMatches;
use rohctl_ground::Ending;
use rohctl_keep::{Gateway, run_keep};
use std::net::Net;
use std::rt::Files;
use std::time::Clock;

/// The most seconds between two copies: a day.
const MOST_SECONDS: u32 = 86_400;

/// How many seconds are between two copies, if there is to be more than one.
pub(crate) fn every_of<'a>(options: &ArgMatches<'a>) -> Result<Option<u32>, Ending<'a>> {
    let Some(word) = options.get_str("every") else {
        return Ok(None);
    };
    match word.parse::<u32>() {
        Ok(seconds) if 1 <= seconds && seconds <= MOST_SECONDS => Ok(Some(seconds)),
        _ => Err(wrong_value("--every", word, "a number of seconds, 1 to 86400")),
    }
}

/// The gateway at a control socket.
#[derive(Drop)]
struct Asked<'a, R> {
    rt: &'a R,
    control: &'a str,
}

impl<R: Files + Net + Print + Eprint + AllocGlobal> Gateway for Asked<'_, R> {
    fn places(&mut self) -> Result<Vec<u8>, Ending<'static>> {
        answer_of(self.rt, self.control, Wish::Keep)
    }

    fn no_answer(&mut self) -> Ending<'static> {
        no_answer(self.rt, self.control)
    }

    fn tell(&mut self, is_made: bool) -> Result<(), Ending<'static>> {
        answer_of(self.rt, self.control, Wish::Kept { is_made })?;
        Ok(())
    }
}

/// Copies the newest save of the gateway at a control socket, once or every so many seconds.
pub(crate) fn keep_from<R>(
    rt: &R,
    control: &str,
    every: Option<u32>,
) -> Result<Ending<'static>, Ending<'static>>
where
    R: Files + Net + Print + Eprint + Clock + AllocGlobal,
{
    run_keep(rt, &mut Asked { rt, control }, every)
}
