//! The command line.

use crate::capture_words::{decompress_of, feed_of, script_of};
use crate::control::Wish;
use crate::explain_words::explain_of;
use crate::gateway::{Gateway, gateway_of};
use crate::keeping::every_of;
use crate::recording::{Recorded, recorded_of};
use crate::replaying::{Replayed, replayed_of};
use crate::report_words::report_of;
use crate::seeking_words::{find_of, survey_of};
use crate::words_in::{
    call_in, input_of, keep_streams_apart, link_number, number_of, value_of, wrong_value,
};
use clap::ArgMatches;
use clap::error::ErrorKind;
use rohctl_answers::{Asked as Totals, Compared, Form};
use rohctl_captures::{Decompress, Feed, Script};
use rohctl_explain::Asked;
use rohctl_ground::{Ending, Misuse, Printable, Screen, unprinted};
use rohctl_links::{AskedWindow, Plan, Spread};
use rohctl_report::Asked as Report;
use rohctl_survey::{Sought, Survey};
use rohctl_words::command;
use std::alloc::Global;

/// The most links of a links file.
const MOST_LINKS: u16 = 256;

/// The most processes over which links are spread.
const MOST_PROCESSES: u16 = 256;

/// What the command line asks for.
#[derive(Drop)]
pub(crate) enum Request<'a> {
    /// Count answer lines.
    Totals(Totals<'a>),
    /// List all faults of these links files, or show what one sets.
    Links {
        links: Vec<&'a str>,
        json: bool,
    },
    /// Write a links file of so many links to start from.
    NewLinks(u16),
    /// Compare two answers, or traces.
    Diff(Compared<'a>),
    /// Show what windows mean, what memory calls need, or how links are spread.
    Plan(Plan<'a>),
    /// Turn a capture of ROHC packets into a capture of IP packets.
    Decompress(Decompress<'a>),
    /// Turn a capture into a script, or back.
    Script(Script<'a>),
    /// Send the arrivals of a capture or a script to a gateway.
    Feed(Feed<'a>),
    /// Explain packets.
    Explain(Asked<'a>),
    /// Write a page that shows what became of each call.
    Report(Report<'a>),
    /// Show what an input has.
    Survey(Survey<'a>),
    /// Find a call by its addresses, in the contexts of a gateway if one is named.
    Find {
        sought: Sought<'a>,
        gateway: Option<Gateway<'a>>,
    },
    /// Write the rules that bring each datagram to the process of its link.
    Spread(Spread<'a>),
    /// Compare files with a list of their digests.
    Verify {
        list: &'a str,
        root: &'a str,
    },
    /// Ask a gateway.
    Control {
        gateway: Gateway<'a>,
        wish: Wish,
    },
    /// Have a gateway continue the calls of a link from a file that another one exported.
    Import {
        gateway: Gateway<'a>,
        link: u16,
        file: &'a str,
    },
    /// Record what a gateway gets.
    Record {
        gateway: Gateway<'a>,
        asked: Recorded<'a>,
    },
    /// Copy the newest save of a gateway, once or every so many seconds.
    Keep {
        gateway: Gateway<'a>,
        every: Option<u32>,
    },
    /// Run a script as rohcd does.
    Replay(Replayed<'a>),
    /// Trace the script of this file, with the links of another; `-` is standard input.
    Trace {
        links: &'a str,
        script: &'a str,
    },
}

/// The window of a word, K/N, if it is one.
fn window_of(word: &str) -> Option<AskedWindow<'_>> {
    let (k, n) = word.split_once("/")?;
    Some(AskedWindow {
        word,
        k: k.parse().ok()?,
        n: n.parse().ok()?,
    })
}

/// The window that is asked for, if one is.
fn window_in<'a>(options: &ArgMatches<'a>) -> Result<Option<AskedWindow<'a>>, Ending<'a>> {
    let Some(word) = options.get_str("window") else {
        return Ok(None);
    };
    match window_of(word) {
        Some(window) => Ok(Some(window)),
        None => Err(wrong_value(
            "--window",
            word,
            "K/N, with K from 1 to N and N from 1 to 16",
        )),
    }
}

/// How many of 100 headers are damaged.
fn damage_in<'a>(options: &ArgMatches<'a>) -> Result<f64, Ending<'a>> {
    let word = value_of(options, "damage")?;
    match word.parse::<f64>() {
        Ok(damage) if 0.0 <= damage && damage <= 100.0 => Ok(damage),
        _ => Err(wrong_value("--damage", word, "a percentage from 0 to 100, as 2")),
    }
}

/// The time between two packets of a call.
fn packet_ms_in<'a>(options: &ArgMatches<'a>) -> Result<u32, Ending<'a>> {
    let word = value_of(options, "packet-ms")?;
    match word.parse::<u32>() {
        Ok(packet_ms) if packet_ms <= 60_000 => Ok(packet_ms),
        _ => Err(wrong_value("--packet-ms", word, "milliseconds, 0 to 60000")),
    }
}

/// The processes over which links are spread.
fn split_in<'a>(options: &ArgMatches<'a>) -> Result<Option<u16>, Ending<'a>> {
    let Some(word) = options.get_str("split") else {
        return Ok(None);
    };
    match word.parse::<u16>() {
        Ok(count) if 1 <= count && count <= MOST_PROCESSES => Ok(Some(count)),
        _ => Err(wrong_value("--split", word, "a number of processes, 1 to 256")),
    }
}

/// What is asked of `plan`.
fn plan_of<'a>(options: &ArgMatches<'a>) -> Result<Request<'a>, Ending<'a>> {
    Ok(Request::Plan(Plan {
        damage: damage_in(options)?,
        packet_ms: packet_ms_in(options)?,
        window: window_in(options)?,
        calls: number_of(options, "calls", "--calls", "a number of calls, as 10000")?,
        split: split_in(options)?,
        links: options.get_str("links"),
        json: options.get_flag("json"),
    }))
}

/// The form that is asked for.
fn form_of(options: &ArgMatches<'_>) -> Form {
    if options.get_flag("json") {
        Form::Json
    } else if options.get_flag("prometheus") {
        Form::Prometheus
    } else {
        Form::Table
    }
}

/// The number of a link or a CID that may be missing.
fn number_at<'a>(
    options: &ArgMatches<'a>,
    name: &'static str,
    word: &'static str,
) -> Result<Option<u16>, Ending<'a>> {
    match options.get_str(name) {
        Some(text) => Ok(Some(link_number(word, text)?)),
        None => Ok(None),
    }
}

/// The link that is asked for.
fn link_in<'a>(options: &ArgMatches<'a>) -> Result<u16, Ending<'a>> {
    link_number("--link", value_of(options, "link")?)
}

/// What is asked of a gateway about links or a call.
fn link_wish<'a>(name: &str, options: &ArgMatches<'a>) -> Result<Wish, Ending<'a>> {
    match name {
        "watch" => {
            let (link, cid) = call_in("CALL", value_of(options, "CALL")?)?;
            Ok(Wish::Watch { link, cid })
        }
        "reset" => Ok(Wish::Reset {
            link: link_in(options)?,
            cid: number_at(options, "cid", "--cid")?,
        }),
        "contexts" => Ok(Wish::Contexts {
            link: link_in(options)?,
        }),
        "hold" => Ok(Wish::Hold {
            link: link_in(options)?,
            off: options.get_flag("off"),
        }),
        "export" => Ok(Wish::Export {
            link: link_in(options)?,
            off: options.get_flag("off"),
        }),
        _ => Ok(Wish::Calls {
            link: number_at(options, "link", "--link")?,
            json: options.get_flag("json"),
        }),
    }
}

/// What is asked of a gateway.
fn wish_of<'a>(name: &str, options: &ArgMatches<'a>) -> Result<Wish, Ending<'a>> {
    match name {
        "status" => Ok(Wish::Status),
        "stop" => Ok(Wish::Stop),
        "save" => Ok(Wish::Save),
        "reload" => Ok(Wish::Reload {
            dry_run: options.get_flag("dry-run"),
        }),
        "drain" => Ok(Wish::Drain),
        "resume" => Ok(Wish::Resume),
        "top" => Ok(Wish::Top),
        name => link_wish(name, options),
    }
}

/// The request `totals`.
fn totals_of<'a>(options: &ArgMatches<'a>, is_terminal: bool) -> Result<Request<'a>, Ending<'a>> {
    Ok(Request::Totals(Totals {
        answers: input_of(options, "ANSWERS", is_terminal)?,
        form: form_of(options),
        follow: options.get_flag("follow"),
    }))
}

/// The request `links`.
fn links_of<'a>(alloc: Global, options: &ArgMatches<'a>) -> Result<Request<'a>, Ending<'a>> {
    if let Some(word) = options.get_str("new") {
        return match word.parse::<u16>() {
            Ok(count) if 1 <= count && count <= MOST_LINKS => Ok(Request::NewLinks(count)),
            _ => Err(wrong_value("--new", word, "a number of links, 1 to 256")),
        };
    }
    let mut links = Vec::new(alloc);
    match links.extend_from_slice(options.get_strs("FILE").unwrap_or(&[])) {
        Ok(()) => Ok(Request::Links {
            links,
            json: options.get_flag("json"),
        }),
        Err(_) => Err(Ending::Memory),
    }
}

/// The request `diff`.
fn diff_of<'a>(options: &ArgMatches<'a>) -> Result<Request<'a>, Ending<'a>> {
    Ok(Request::Diff(Compared {
        first: value_of(options, "A")?,
        second: value_of(options, "B")?,
        json: options.get_flag("json"),
    }))
}

/// The request `trace`.
fn trace_of<'a>(options: &ArgMatches<'a>, is_terminal: bool) -> Result<Request<'a>, Ending<'a>> {
    let links = value_of(options, "links")?;
    let script = input_of(options, "SCRIPT", is_terminal)?;
    keep_streams_apart(links, "SCRIPT", script)?;
    Ok(Request::Trace { links, script })
}

/// The request `spread`.
fn spread_of<'a>(options: &ArgMatches<'a>) -> Result<Request<'a>, Ending<'a>> {
    let links = value_of(options, "LINKS")?;
    let hosts = value_of(options, "hosts")?;
    keep_streams_apart(links, "--hosts", hosts)?;
    Ok(Request::Spread(Spread {
        links,
        hosts,
        nginx: options.get_flag("nginx"),
        out: options.get_str("out"),
        feedback: options.get_str("feedback"),
    }))
}

/// The request `verify`.
fn verify_of<'a>(options: &ArgMatches<'a>) -> Result<Request<'a>, Ending<'a>> {
    Ok(Request::Verify {
        list: value_of(options, "LIST")?,
        root: value_of(options, "root")?,
    })
}

/// The request to a gateway, by its name.
fn control_of<'a>(name: &str, options: &ArgMatches<'a>) -> Result<Request<'a>, Ending<'a>> {
    Ok(Request::Control {
        gateway: gateway_of(options)?,
        wish: wish_of(name, options)?,
    })
}

/// The request `import`.
fn import_of<'a>(options: &ArgMatches<'a>) -> Result<Request<'a>, Ending<'a>> {
    Ok(Request::Import {
        gateway: gateway_of(options)?,
        link: link_in(options)?,
        file: value_of(options, "FILE")?,
    })
}

/// The request `record`.
fn record_of<'a>(options: &ArgMatches<'a>) -> Result<Request<'a>, Ending<'a>> {
    Ok(Request::Record {
        gateway: gateway_of(options)?,
        asked: recorded_of(options)?,
    })
}

/// The request `keep`.
fn keep_of<'a>(options: &ArgMatches<'a>) -> Result<Request<'a>, Ending<'a>> {
    Ok(Request::Keep {
        gateway: gateway_of(options)?,
        every: every_of(options)?,
    })
}

/// The request of a subcommand. `is_terminal` is whether standard input is one.
fn named<'a>(
    alloc: Global,
    name: &str,
    options: &ArgMatches<'a>,
    is_terminal: bool,
) -> Result<Request<'a>, Ending<'a>> {
    match name {
        "totals" => totals_of(options, is_terminal),
        "links" => links_of(alloc, options),
        "diff" => diff_of(options),
        "explain" => Ok(Request::Explain(explain_of(alloc, options, is_terminal)?)),
        "plan" => plan_of(options),
        "script" => script_of(options, is_terminal).map(|asked| Request::Script(asked)),
        "decompress" => {
            decompress_of(options, is_terminal).map(|asked| Request::Decompress(asked))
        }
        "report" => report_of(options, is_terminal).map(|asked| Request::Report(asked)),
        "feed" => feed_of(options, is_terminal).map(|asked| Request::Feed(asked)),
        "survey" => survey_of(options, is_terminal).map(|asked| Request::Survey(asked)),
        "find" => find_of(options).map(|(sought, gateway)| Request::Find { sought, gateway }),
        "trace" => trace_of(options, is_terminal),
        "run" => replayed_of(options, is_terminal).map(|asked| Request::Replay(asked)),
        "record" => record_of(options),
        "keep" => keep_of(options),
        "spread" => spread_of(options),
        "verify" => verify_of(options),
        "import" => import_of(options),
        name => control_of(name, options),
    }
}

/// The screen, with the colours that are asked for.
fn coloured<'a>(options: &ArgMatches<'a>, screen: Screen) -> Result<Screen, Ending<'a>> {
    let colour = match options.get_str("color") {
        None | Some("auto") => screen.colour,
        Some("always") => true,
        Some("never") => false,
        Some(word) => return Err(wrong_value("--color", word, "auto, always or never")),
    };
    Ok(Screen { colour, ..screen })
}

/// The request in the words that were matched, and the screen with the colours that are asked for.
fn asked_for<'a>(
    alloc: Global,
    matches: &ArgMatches<'a>,
    screen: Screen,
) -> Result<(Request<'a>, Screen), Ending<'a>> {
    let Some((name, options)) = matches.subcommand() else {
        return Err(Ending::Misuse(Misuse::Missing {
            word: "command",
            expected: "one of those that 'rohctl --help' lists",
        }));
    };
    let screen = coloured(options, screen)?;
    Ok((named(alloc, name, options, screen.input)?, screen))
}

/// Prints what is wrong with the words of the command line. Each control character in them is shown by its escape.
fn misused<R: Eprint>(rt: &R, text: &str) -> Ending<'static> {
    for line in text.lines() {
        if let Err(error) = eprintln!(rt; "{}", Printable(line)) {
            return unprinted(&error);
        }
    }
    Ending::CommandLine
}

/// Reads the request from the words of the command line. Help, the version and what is wrong with the words are
/// printed here.
pub(crate) fn read_request<'a, R: Print + Eprint + AllocGlobal>(
    rt: &R,
    words: &'a [String],
    screen: Screen,
) -> Result<(Request<'a>, Screen), Ending<'a>> {
    let Ok(command) = command(rt.alloc(), words) else {
        return Err(Ending::Memory);
    };
    match command.try_get_matches_from(words) {
        Ok(matches) => asked_for(rt.alloc(), &matches, screen),
        Err(error) if error.kind() == ErrorKind::OutOfMemory => Err(Ending::Memory),
        Err(error) if error.exit_code() == 0 => match error.print(rt) {
            Ok(()) => Err(Ending::Good),
            Err(error) => Err(unprinted(&error)),
        },
        Err(error) => match format!(in rt.alloc(); "{error}") {
            Ok(text) => Err(misused(rt, text.as_str())),
            Err(_) => Err(Ending::Memory),
        },
    }
}
