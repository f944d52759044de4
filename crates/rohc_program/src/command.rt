//! The command line.

use clap::error::ErrorKind;
use clap::{Arg, ArgAction, ArgMatches, Command};
use rohc_end::End;
use std::alloc::{AllocError, Global};

/// The greatest `--count`: how many receives `serve` may be asked for.
const GREATEST_COUNT: i64 = 1_000_000;

/// What the command line asks for.
#[derive(Clone, Copy)]
pub(crate) enum Request<'a> {
    /// Run a script from standard input to standard output, with the links of this file.
    Replay {
        links: &'a str,
    },
    /// Serve this many receives at this port of 127.0.0.1, with the links of this file.
    Serve {
        links: &'a str,
        port: u16,
        count: u32,
    },
}

/// A required option with a value.
fn option<'a>(alloc: Global, name: &'static str) -> Arg<'a> {
    Arg::new(alloc, name)
        .long(name)
        .required(true)
        .action(ArgAction::Set)
}

/// The subcommand `replay`.
fn replay_words<'a>(alloc: Global) -> Result<Command<'a>, AllocError> {
    Command::new(alloc, "replay").arg(option(alloc, "links"))
}

/// The subcommand `serve`.
fn serve_words<'a>(alloc: Global) -> Result<Command<'a>, AllocError> {
    let ports = clap::value_parser!(u16).range(1..);
    let counts = clap::value_parser!(u32).range(1..=GREATEST_COUNT);
    Command::new(alloc, "serve")
        .arg(option(alloc, "links"))?
        .arg(option(alloc, "port").value_parser(ports))?
        .arg(option(alloc, "count").value_parser(counts))
}

/// The parser of the command line.
fn command<'a>(alloc: Global) -> Result<Command<'a>, AllocError> {
    Command::new(alloc, "rohcd")
        .no_binary_name(true)
        .subcommand_required(true)
        .subcommand(replay_words(alloc)?)?
        .subcommand(serve_words(alloc)?)
}

/// The request in the words that were matched.
fn asked_for<'a>(matches: &ArgMatches<'a>) -> Option<Request<'a>> {
    match matches.subcommand()? {
        ("replay", options) => Some(Request::Replay {
            links: options.get_str("links")?,
        }),
        ("serve", options) => Some(Request::Serve {
            links: options.get_str("links")?,
            port: options.get_one::<u16>("port")?,
            count: options.get_one::<u32>("count")?,
        }),
        _ => None,
    }
}

/// Reads the request from the words of the command line. The error is `CommandLine` or `Memory`.
pub(crate) fn read_request<'a>(alloc: Global, words: &'a [String]) -> Result<Request<'a>, End> {
    let Ok(command) = command(alloc) else {
        return Err(End::Memory);
    };
    match command.try_get_matches_from(words) {
        Ok(matches) => asked_for(&matches).ok_or(End::CommandLine),
        Err(error) if error.kind() == ErrorKind::OutOfMemory => Err(End::Memory),
        Err(_) => Err(End::CommandLine),
    }
}
