//! The command line as a whole, and the subcommands that read answers and links files.

use crate::captures::{
    decompress_words, explain_words, feed_words, report_words, script_words, state,
};
use crate::gateway::with_gateway;
use crate::options::{Given, argument, arguments, color, flag, subcommand, valued};
use crate::seeking::{find_words, survey_words};
use clap::Command;
use std::alloc::{AllocError, Global};

/// The subcommand `totals`.
fn totals<'a>(given: Given<'_>) -> Result<Command<'a>, AllocError> {
    subcommand(
        given,
        "totals",
        "Count the answer lines of rohcd replay, for each call, each link and all",
        &[
            argument("ANSWERS", "The answer lines; - or none is standard input"),
            flag("json", "Write JSON, one object per line"),
            flag("prometheus", "Write the Prometheus text format").without("json"),
            flag(
                "follow",
                "On a terminal, redraw the table while lines arrive",
            ),
        ],
    )
}

/// The subcommand `links`.
fn links<'a>(given: Given<'_>) -> Result<Command<'a>, AllocError> {
    subcommand(
        given,
        "links",
        "Check a links file: list all its errors, or show what it sets",
        &[
            arguments(
                "FILE",
                "The links file; - is standard input; of several each is called good, or its errors are listed",
            )
            .required_unless("new"),
            flag("json", "Write JSON, one object per line"),
            valued(
                "new",
                "N",
                "Write a links file of N links to start from, 1 if N isn't given",
            )
            .or_alone("1")
            .without("FILE"),
        ],
    )
}

/// The subcommand `diff`.
fn diff<'a>(given: Given<'_>) -> Result<Command<'a>, AllocError> {
    subcommand(
        given,
        "diff",
        "Show where two runs of the same script first differ, for each call",
        &[
            argument(
                "A",
                "The answers or the trace of one run; - is standard input",
            )
            .required(),
            argument("B", "Those of the other run; - is standard input").required(),
            flag("json", "Write JSON, one object per line"),
        ],
    )
}

/// The subcommand `plan`.
fn plan_words<'a>(given: Given<'_>) -> Result<Command<'a>, AllocError> {
    subcommand(
        given,
        "plan",
        "Compare windows k/n on a link, size the memory of calls, or spread links",
        &[
            valued("damage", "PERCENT", "The percentage of damaged headers").otherwise("1"),
            valued("packet-ms", "MS", "The time between two packets of a call").otherwise("20"),
            valued("window", "K/N", "Also show this window, N at most 16"),
            valued(
                "calls",
                "COUNT",
                "Show the memory that this number of calls needs",
            ),
            valued(
                "split",
                "COUNT",
                "Spread the links over this number of processes",
            )
            .with("links"),
            valued("links", "FILE", "The links to spread").with("split"),
            flag("json", "Write JSON, one object per line"),
        ],
    )
}

/// The subcommand `trace`.
fn trace<'a>(given: Given<'_>) -> Result<Command<'a>, AllocError> {
    subcommand(
        given,
        "trace",
        "Print each line of a script, numbered, with its answers",
        &[
            valued("links", "FILE", "The links file").required(),
            argument("SCRIPT", "The script; - or none is standard input"),
        ],
    )
}

/// The subcommand `run`.
fn run_words<'a>(given: Given<'_>) -> Result<Command<'a>, AllocError> {
    subcommand(
        given,
        "run",
        "Run a script as rohcd replay does, also from the contexts of a state file",
        &[
            valued("links", "FILE", "The links file").required(),
            state(),
            argument("SCRIPT", "The script; - or none is standard input"),
        ],
    )
}

/// The subcommand `spread`.
fn spread_words<'a>(given: Given<'_>) -> Result<Command<'a>, AllocError> {
    subcommand(
        given,
        "spread",
        "Write the rules that send each datagram to the process of its link",
        &[
            argument("LINKS", "The links file").required(),
            valued("hosts", "FILE", "The file of the processes and their links").required(),
            flag(
                "nginx",
                "Write an nginx configuration instead of an nftables table",
            ),
            valued(
                "out",
                "DIR",
                "Also write a links file for each process into this directory",
            ),
            valued(
                "feedback",
                "HOST:PORT",
                "Also send the feedback of all links here (rohc-gateway, numbered_feedback)",
            )
            .without("nginx"),
        ],
    )
}

/// The subcommand `verify`.
fn verify<'a>(given: Given<'_>) -> Result<Command<'a>, AllocError> {
    subcommand(
        given,
        "verify",
        "Check that installed files are as packaged",
        &[
            argument("LIST", "The list of digests, as sha256sum writes it").required(),
            valued(
                "root",
                "DIR",
                "The directory in which the paths of the list begin",
            )
            .otherwise("/"),
        ],
    )
}

/// The subcommands of files and streams.
#[derive(Clone, Copy)]
enum Name {
    Totals,
    Run,
    Trace,
    Links,
    Diff,
    Explain,
    Plan,
    Decompress,
    Script,
    Feed,
    Report,
    Survey,
    Find,
    Spread,
    Verify,
}

/// Their order in the help text.
const NAMES: [Name; 15] = [
    Name::Totals,
    Name::Run,
    Name::Trace,
    Name::Links,
    Name::Diff,
    Name::Explain,
    Name::Plan,
    Name::Decompress,
    Name::Script,
    Name::Feed,
    Name::Report,
    Name::Survey,
    Name::Find,
    Name::Spread,
    Name::Verify,
];

/// A subcommand with its words.
fn words_of<'a>(given: Given<'_>, name: Name) -> Result<Command<'a>, AllocError> {
    match name {
        Name::Totals => totals(given),
        Name::Run => run_words(given),
        Name::Trace => trace(given),
        Name::Links => links(given),
        Name::Diff => diff(given),
        Name::Explain => explain_words(given),
        Name::Plan => plan_words(given),
        Name::Decompress => decompress_words(given),
        Name::Script => script_words(given),
        Name::Feed => feed_words(given),
        Name::Report => report_words(given),
        Name::Survey => survey_words(given),
        Name::Find => find_words(given),
        Name::Spread => spread_words(given),
        Name::Verify => verify(given),
    }
}

/// The parser of the command line, without its subcommands.
fn program<'a>(alloc: Global) -> Result<Command<'a>, AllocError> {
    let named = Command::new(alloc, "rohctl").bin_name("rohctl")?;
    let coloured = named.arg(color(alloc)?)?;
    Ok(
        coloured
            .version("1.0.0")
            .about("Diagnose ROHC links: calls, packets, captures and a running gateway")
            .no_binary_name(true)
            .subcommand_required(true)
            .arg_required_else_help(true),
    )
}

/// The parser of a command line of these words.
pub fn command<'a>(alloc: Global, words: &[String]) -> Result<Command<'a>, AllocError> {
    let given = Given { alloc, words };
    let mut command = program(alloc)?;
    for name in &NAMES {
        command = command.subcommand(words_of(given, *name)?)?;
    }
    with_gateway(given, command)
}
