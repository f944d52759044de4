//! What is asked of `survey` and `find`.

use crate::capture_words::rules_of;
use crate::gateway::{Gateway, gateway_of, socket_of};
use crate::replaying::state_in;
use crate::words_in::{input_of, keep_streams_apart, value_of, wrong_value};
use clap::ArgMatches;
use rohctl_ground::{Ending, Misuse, STREAM};
use rohctl_survey::{Endpoint, Sought, Survey, endpoint_of};
use std::rt::Env;

/// The links file to write, if one is asked for. Standard output has the survey.
fn new_links_of<'a>(options: &ArgMatches<'a>) -> Result<Option<&'a str>, Ending<'a>> {
    match options.get_str("links") {
        Some(STREAM) => Err(wrong_value(
            "--links",
            STREAM,
            "a file, since the survey goes to standard output",
        )),
        links => Ok(links),
    }
}

/// What is asked of `survey`.
pub(crate) fn survey_of<'a>(
    options: &ArgMatches<'a>,
    is_terminal: bool,
) -> Result<Survey<'a>, Ending<'a>> {
    Ok(Survey {
        links: new_links_of(options)?,
        input: input_of(options, "INPUT", is_terminal)?,
        rules: rules_of(options),
        json: options.get_flag("json"),
    })
}

/// The end of a call that a word names.
fn end_in<'a>(word: &'a str) -> Result<Endpoint, Ending<'a>> {
    match endpoint_of(word) {
        Some(end) => Ok(end),
        None => Err(wrong_value(
            "ADDRESS",
            word,
            "an IPv4 address, with or without a port, as 10.0.0.1 or 10.0.0.1:5000",
        )),
    }
}

/// The ends of the call that is sought: one, or both.
fn ends_in<'a>(options: &ArgMatches<'a>) -> Result<(Endpoint, Option<Endpoint>), Ending<'a>> {
    match options.get_strs("ADDRESS") {
        Some([first]) => Ok((end_in(first)?, None)),
        Some([first, second]) => Ok((end_in(first)?, Some(end_in(second)?))),
        Some([_, _, third, ..]) => Err(wrong_value(
            "ADDRESS",
            third,
            "at most the two ends of a call; --input names the file to search",
        )),
        _ => Err(Ending::Misuse(Misuse::Missing {
            word: "ADDRESS",
            expected: "an end of the call, as 10.0.0.1 or 10.0.0.1:5000",
        })),
    }
}

/// The gateway whose contexts are searched, if one is: one that is named, or that of the environment if nothing else is.
fn gateway_in<'a>(options: &ArgMatches<'a>) -> Result<Option<Gateway<'a>>, Ending<'a>> {
    let is_other = options.get_str("input").is_some() || options.get_str("state").is_some();
    match gateway_of(options)? {
        Gateway::Unnamed if is_other => Ok(None),
        gateway => Ok(Some(gateway)),
    }
}

/// The control socket of the gateway whose contexts are searched.
pub(crate) fn searched_socket<'a, R: Env + AllocGlobal>(
    rt: &R,
    gateway: Gateway<'a>,
) -> Result<String, Ending<'a>> {
    match socket_of(rt, gateway) {
        Err(Ending::Misuse(Misuse::Missing { .. })) => Err(Ending::Misuse(Misuse::Missing {
            word: "--input",
            expected: "the script or the capture to search, --state FILE or --control SOCKET",
        })),
        socket => socket,
    }
}

/// The input that is searched, if one is.
fn searched_in<'a>(
    options: &ArgMatches<'a>,
    links: &'a str,
) -> Result<Option<&'a str>, Ending<'a>> {
    let Some(input) = options.get_str("input") else {
        return Ok(None);
    };
    keep_streams_apart(links, "--input", input)?;
    Ok(Some(input))
}

/// What is asked of `find`, and of which gateway, if of one.
pub(crate) fn find_of<'a>(
    options: &ArgMatches<'a>,
) -> Result<(Sought<'a>, Option<Gateway<'a>>), Ending<'a>> {
    let links = value_of(options, "links")?;
    let (first, second) = ends_in(options)?;
    let sought = Sought {
        links,
        state: state_in(options)?,
        input: searched_in(options, links)?,
        rules: rules_of(options),
        first,
        second,
        json: options.get_flag("json"),
    };
    Ok((sought, gateway_in(options)?))
}
