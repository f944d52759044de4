//! The subcommands that ask a running gateway.

use crate::options::{Given, Word, argument, flag, subcommand, valued, with_words};
use clap::Command;
use std::alloc::AllocError;

/// The option that names the gateway by its socket.
pub(crate) fn control() -> Word {
    valued(
        "control",
        "SOCKET",
        "The control socket of the gateway; the default is that of --name, then ROHC_CONTROL",
    )
}

/// The option that names the gateway by its unit.
pub(crate) fn named() -> Word {
    valued(
        "name",
        "NAME",
        "The gateway with the control socket /run/rohc-gateway/NAME/control",
    )
}

/// The option that names a link.
fn link() -> Word {
    valued("link", "NUMBER", "The number of the link").required()
}

/// With a subcommand that asks a running gateway.
fn asking<'a>(
    given: Given<'_>,
    command: Command<'a>,
    name: &'static str,
    about: &'static str,
    words: &[Word],
) -> Result<Command<'a>, AllocError> {
    let asked = subcommand(given, name, about, &[control(), named()])?;
    command.subcommand(with_words(given, asked, words)?)
}

/// With the subcommands that ask a gateway as a whole.
fn with_whole<'a>(given: Given<'_>, command: Command<'a>) -> Result<Command<'a>, AllocError> {
    let mut command = command;
    for (name, about) in [
        ("status", "Show what a running gateway is doing"),
        ("stop", "Save the calls of a gateway and stop it"),
        ("save", "Save the calls of a gateway"),
        ("drain", "Stop accepting new calls; existing calls continue"),
        ("resume", "Accept new calls again"),
        (
            "top",
            "Show the links and the worst calls of a gateway, on a terminal every two seconds",
        ),
    ] {
        command = asking(given, command, name, about, &[])?;
    }
    Ok(command)
}

/// With the subcommands that move a link from one gateway to another.
fn with_moving<'a>(given: Given<'_>, command: Command<'a>) -> Result<Command<'a>, AllocError> {
    let command = asking(
        given,
        command,
        "hold",
        "Hold the datagrams of a link until its contexts are imported",
        &[
            link(),
            flag("off", "Stop holding them, and drop those that are held"),
        ],
    )?;
    let command = asking(
        given,
        command,
        "export",
        "Write the contexts of a link, and accept none of its datagrams from then on",
        &[
            link(),
            flag("off", "Accept the datagrams of an exported link again"),
        ],
    )?;
    asking(
        given,
        command,
        "import",
        "Continue the calls of a held link from what export wrote",
        &[
            link(),
            argument("FILE", "What export wrote; - is standard input").required(),
        ],
    )
}

/// With the subcommand that copies what a gateway saved.
fn with_keep<'a>(given: Given<'_>, command: Command<'a>) -> Result<Command<'a>, AllocError> {
    asking(
        given,
        command,
        "keep",
        "Copy the newest save of a gateway to a durable file",
        &[valued(
            "every",
            "S",
            "Copy it every S seconds, until interrupted or the gateway is gone; the default is once",
        )],
    )
}

/// The subcommands that ask a running gateway.
pub(crate) fn with_gateway<'a>(
    given: Given<'_>,
    command: Command<'a>,
) -> Result<Command<'a>, AllocError> {
    let command = with_whole(given, command)?;
    let command = asking(
        given,
        command,
        "reload",
        "Make a gateway read its links file again",
        &[flag(
            "dry-run",
            "Only show which links that would add, change and remove, and how many contexts of each",
        )],
    )?;
    let command = asking(
        given,
        command,
        "reset",
        "Remove the contexts of a link, or one of them, from a gateway",
        &[
            link(),
            valued("cid", "NUMBER", "Remove only the context of this CID"),
        ],
    )?;
    let command = asking(
        given,
        command,
        "watch",
        "Show each packet of a call as it arrives, until interrupted",
        &[argument("CALL", "The link and the CID of the call, as 1/0").required()],
    )?;
    let command = asking(
        given,
        command,
        "record",
        "Record what a gateway gets, so that rohctl run --state gives its answers again",
        &[
            valued("seconds", "N", "Record for N seconds").required(),
            valued("link", "NUMBER", "Record only the packets of this link"),
            valued(
                "output",
                "NAME",
                "Write the contexts at the start to NAME.state, and the packets to NAME.script",
            )
            .or_letter('o')
            .required(),
        ],
    )?;
    let command = asking(
        given,
        command,
        "contexts",
        "List the contexts of a link",
        &[link()],
    )?;
    let command = with_moving(given, command)?;
    let command = with_keep(given, command)?;
    asking(
        given,
        command,
        "calls",
        "List the calls of all links or of one, those silent longest first",
        &[
            valued("link", "NUMBER", "List only the calls of this link"),
            flag("json", "Write JSON, one object per line"),
        ],
    )
}
