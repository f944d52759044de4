//! The command line.

use crate::ending::Ending;
use crate::log::{FORMATS, LogFormat};
use clap::builder::ValueParser;
use clap::error::ErrorKind;
use clap::{Arg, ArgAction, ArgMatches, Command};
use std::alloc::{AllocError, Global};

/// The version of the program.
pub const VERSION: &str = "1.0.0";

/// The options, each of which wins over the key of the same name in the gateway file.
#[derive(Clone, Copy)]
pub struct Options<'a> {
    /// The links file.
    pub links: Option<&'a str>,
    /// The port for datagrams.
    pub port: Option<u16>,
    /// The port for timed datagrams.
    pub timed_port: Option<u16>,
    /// The file for saved contexts.
    pub state: Option<&'a str>,
    /// How often they are saved, in seconds.
    pub save_seconds: Option<u32>,
    /// The control socket.
    pub control: Option<&'a str>,
    /// The port for metrics.
    pub metrics_port: Option<u16>,
    /// The format of log lines.
    pub log_format: Option<LogFormat>,
}

impl Options<'_> {
    /// Whether one of the options sets this key.
    pub(crate) fn gives(&self, key: &str) -> bool {
        match key {
            "links" => self.links.is_some(),
            "port" => self.port.is_some(),
            "timed_port" => self.timed_port.is_some(),
            "state" => self.state.is_some(),
            "save_seconds" => self.save_seconds.is_some(),
            "control" => self.control.is_some(),
            "metrics_port" => self.metrics_port.is_some(),
            "log_format" => self.log_format.is_some(),
            _ => false,
        }
    }
}

/// What the command line asks for.
#[derive(Clone, Copy)]
pub enum Request<'a> {
    /// Say all that is wrong.
    Check {
        /// The gateway file.
        file: &'a str,
        /// The options.
        options: Options<'a>,
    },
    /// Run until it is told to stop.
    Run {
        /// The gateway file.
        file: &'a str,
        /// The options.
        options: Options<'a>,
        /// Whether the state file isn't restored.
        fresh: bool,
    },
}

/// What an option's value is.
#[derive(Clone, Copy)]
enum Value {
    /// A path.
    Path,
    /// A port above 0.
    Port,
    /// Seconds, up to a day.
    Seconds,
    /// A format of log lines.
    Format,
}

/// An option with a value.
#[derive(Clone, Copy)]
struct Word {
    name: &'static str,
    value: Value,
    help: &'static str,
}

/// The options of both subcommands.
const OPTIONS: [Word; 8] = [
    Word {
        name: "links",
        value: Value::Path,
        help: "Links file (man rohc-links)",
    },
    Word {
        name: "port",
        value: Value::Port,
        help: "UDP port for datagrams",
    },
    Word {
        name: "timed-port",
        value: Value::Port,
        help: "UDP port for datagrams with their arrival time",
    },
    Word {
        name: "state",
        value: Value::Path,
        help: "File for saved calls",
    },
    Word {
        name: "save-seconds",
        value: Value::Seconds,
        help: "Seconds between two saves",
    },
    Word {
        name: "control",
        value: Value::Path,
        help: "Unix socket for rohctl",
    },
    Word {
        name: "metrics-port",
        value: Value::Port,
        help: "TCP port for metrics",
    },
    Word {
        name: "log-format",
        value: Value::Format,
        help: "Format of log lines",
    },
];

impl Word {
    /// The option with a value that help texts call so.
    fn valued<'a>(self, alloc: Global, value: &'static str) -> Arg<'a> {
        Arg::new(alloc, self.name)
            .long(self.name)
            .value_name(value)
            .help(self.help)
            .action(ArgAction::Set)
    }

    /// The option as the parser takes it.
    fn arg<'a>(self, alloc: Global) -> Arg<'a> {
        match self.value {
            Value::Path => self.valued(alloc, "PATH"),
            Value::Port => {
                let ports = clap::value_parser!(u16).range(1..);
                self.valued(alloc, "PORT").value_parser(ports)
            }
            Value::Seconds => {
                let seconds = clap::value_parser!(u32).range(1..=86_400);
                self.valued(alloc, "SECONDS").value_parser(seconds)
            }
            Value::Format => {
                let formats = ValueParser::Names(&FORMATS);
                self.valued(alloc, "FORMAT").value_parser(formats)
            }
        }
    }
}

/// A subcommand with the gateway file and its options.
fn subcommand<'a>(
    alloc: Global,
    name: &'static str,
    about: &'static str,
) -> Result<Command<'a>, AllocError> {
    let file = Arg::new(alloc, "FILE")
        .help("Gateway file (man rohc-gateway)")
        .required(true);
    let mut command = Command::new(alloc, name).about(about).arg(file)?;
    for word in &OPTIONS {
        command = command.arg(word.arg(alloc))?;
    }
    Ok(command)
}

/// The subcommand `run`.
fn run_words<'a>(alloc: Global) -> Result<Command<'a>, AllocError> {
    let fresh = Arg::new(alloc, "fresh")
        .long("fresh")
        .help("Start without the saved calls")
        .action(ArgAction::SetTrue);
    subcommand(alloc, "run", "Decompress datagrams until rohctl stop")?.arg(fresh)
}

/// The subcommand `check`.
fn check_words<'a>(alloc: Global) -> Result<Command<'a>, AllocError> {
    subcommand(alloc, "check", "Check the configuration and exit")
}

/// The parser of the command line, without its subcommands.
fn program<'a>(alloc: Global, version: &'a str) -> Result<Command<'a>, AllocError> {
    let named = Command::new(alloc, "rohc-gateway").bin_name("rohc-gateway")?;
    Ok(
        named
            .version(version)
            .about("Decompress ROHC for many links, as a service")
            .no_binary_name(true)
            .subcommand_required(true),
    )
}

/// The parser of the command line.
fn command<'a>(alloc: Global, version: &'a str) -> Result<Command<'a>, AllocError> {
    let with_run = program(alloc, version)?.subcommand(run_words(alloc)?)?;
    with_run.subcommand(check_words(alloc)?)
}

/// The options in the words that were matched.
fn options_in<'a>(matches: &ArgMatches<'a>) -> Options<'a> {
    Options {
        links: matches.get_str("links"),
        port: matches.get_one::<u16>("port"),
        timed_port: matches.get_one::<u16>("timed-port"),
        state: matches.get_str("state"),
        save_seconds: matches.get_one::<u32>("save-seconds"),
        control: matches.get_str("control"),
        metrics_port: matches.get_one::<u16>("metrics-port"),
        log_format: matches.get_str("log-format").and_then(LogFormat::of),
    }
}

/// The request in the words that were matched.
fn asked_for<'a>(matches: &ArgMatches<'a>) -> Option<Request<'a>> {
    match matches.subcommand()? {
        ("check", words) => Some(Request::Check {
            file: words.get_str("FILE")?,
            options: options_in(words),
        }),
        ("run", words) => Some(Request::Run {
            file: words.get_str("FILE")?,
            options: options_in(words),
            fresh: words.get_flag("fresh"),
        }),
        _ => None,
    }
}

/// Reads the request from the words of the command line. Help, this text for the version and what is wrong with the words
/// are printed here.
pub fn read_request<'a, R: Print + Eprint + AllocGlobal>(
    rt: &R,
    version: &'a str,
    words: &'a [String],
) -> Result<Request<'a>, Ending> {
    let Ok(command) = command(rt.alloc(), version) else {
        return Err(Ending::Memory);
    };
    match command.try_get_matches_from(words) {
        Ok(matches) => asked_for(&matches).ok_or(Ending::CommandLine),
        Err(error) if error.kind() == ErrorKind::OutOfMemory => Err(Ending::Memory),
        Err(error) => {
            let ending = if error.exit_code() == 0 {
                Ending::Good
            } else {
                Ending::CommandLine
            };
            match error.print(rt) {
                Ok(()) => Err(ending),
                Err(e) => Err(Ending::Write(e)),
            }
        }
    }
}
