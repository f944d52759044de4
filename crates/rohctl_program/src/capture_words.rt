//! What is asked of `decompress`, `script` and `feed`.

use crate::narrow_words::{times_of, which_call};
use crate::words_in::{input_of, keep_streams_apart, value_of, wrong_value};
use clap::ArgMatches;
use rohc_capture::Format;
use rohctl_captures::{Decompress, Feed, Part, RuleWords, Script};
use rohctl_ground::Ending;

/// The options that say which link a frame belongs to, and how packets lie in frames.
pub(crate) fn rules_of<'a>(options: &ArgMatches<'a>) -> RuleWords<'a> {
    RuleWords {
        link: options.get_str("link"),
        vlan: options.get_str("vlan"),
        port: options.get_str("port"),
        ethertype: options.get_str("ethertype"),
        linktype: options.get_str("linktype"),
        offset: options.get_str("offset"),
    }
}

/// The form of a capture that is written.
fn format_of(options: &ArgMatches<'_>) -> Format {
    if options.get_flag("pcapng") {
        Format::Pcapng
    } else {
        Format::Pcap
    }
}

/// What is asked of `decompress`.
pub(crate) fn decompress_of<'a>(
    options: &ArgMatches<'a>,
    is_terminal: bool,
) -> Result<Decompress<'a>, Ending<'a>> {
    let links = value_of(options, "links")?;
    let input = input_of(options, "IN", is_terminal)?;
    keep_streams_apart(links, "IN", input)?;
    Ok(Decompress {
        links,
        input,
        output: value_of(options, "OUT")?,
        feedback: options.get_str("feedback"),
        rules: rules_of(options),
        padded: options.get_flag("padded"),
        payload: options.get_str("payload"),
        stats: options.get_flag("stats"),
        format: format_of(options),
        which: which_call(options)?,
        times: times_of(options)?,
    })
}

/// The part of an input that is written as a script, if one is asked for.
fn part_of<'a>(options: &ArgMatches<'a>, input: &'a str) -> Result<Option<Part<'a>>, Ending<'a>> {
    let Some(links) = options.get_str("links") else {
        return Ok(None);
    };
    keep_streams_apart(links, "IN", input)?;
    if let Some(other) = options.get_str("other") {
        return Err(wrong_value(
            "--other",
            other,
            "no --links, since a part has no packets of other senders",
        ));
    }
    Ok(Some(Part {
        links,
        payload: options.get_str("payload"),
        which: which_call(options)?,
        times: times_of(options)?,
    }))
}

/// What is asked of `script`.
pub(crate) fn script_of<'a>(
    options: &ArgMatches<'a>,
    is_terminal: bool,
) -> Result<Script<'a>, Ending<'a>> {
    let input = input_of(options, "IN", is_terminal)?;
    Ok(Script {
        input,
        output: value_of(options, "OUT")?,
        rules: rules_of(options),
        from: options.get_str("from"),
        other: options.get_str("other"),
        lines: options.get_str("lines"),
        back: options.get_flag("back"),
        format: format_of(options),
        part: part_of(options, input)?,
    })
}

/// The port of a gateway on this host.
fn port_of<'a>(options: &ArgMatches<'a>) -> Result<u16, Ending<'a>> {
    let text = value_of(options, "to")?;
    match text.parse::<u16>() {
        Ok(port) if port > 0 => Ok(port),
        _ => Err(wrong_value(
            "--to",
            text,
            "the timed_port of a gateway on this host, 1 to 65535",
        )),
    }
}

/// What is asked of `feed`.
pub(crate) fn feed_of<'a>(
    options: &ArgMatches<'a>,
    is_terminal: bool,
) -> Result<Feed<'a>, Ending<'a>> {
    Ok(Feed {
        to: port_of(options)?,
        input: input_of(options, "IN", is_terminal)?,
        rules: rules_of(options),
        from: options.get_str("from"),
        pace: options.get_str("pace"),
        now: options.get_flag("now"),
    })
}
