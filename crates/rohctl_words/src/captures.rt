//! The subcommands that read packets: `decompress`, `script`, `feed`, `report` and `explain`.

use crate::options::{Given, Word, argument, arguments, flag, subcommand, valued, with_words};
use clap::Command;
use std::alloc::AllocError;

/// A subcommand with these words, and before them the options that say which link a frame belongs to, and how packets
/// lie in frames.
pub(crate) fn with_rules<'a>(
    given: Given<'_>,
    name: &'static str,
    about: &'static str,
    words: &[Word],
) -> Result<Command<'a>, AllocError> {
    let link = "The link of ROHC packets in Ethernet, Linux cooked or PPP frames";
    with_link(given, name, about, link, words)
}

/// The same, with this help of `--link`.
fn with_link<'a>(
    given: Given<'_>,
    name: &'static str,
    about: &'static str,
    link: &'static str,
    words: &[Word],
) -> Result<Command<'a>, AllocError> {
    let rules = subcommand(
        given,
        name,
        about,
        &[
            valued("link", "LINK", link),
            valued("vlan", "VLAN=LINK,..", "Map a VLAN to a link, as 5=1"),
            valued(
                "port",
                "PORT=LINK,..",
                "Map a UDP port to a link, as 5000=1; without =LINK each datagram starts with the link number",
            ),
            valued(
                "ethertype",
                "TYPE",
                "Also find ROHC packets behind this EtherType, as 0x88b5",
            ),
            valued(
                "linktype",
                "TYPE",
                "Take each frame of this link type, as 147, for a ROHC packet",
            ),
            valued(
                "offset",
                "OCTETS",
                "Skip this many octets before each packet, such as a header of PDCP or of a modem",
            ),
        ],
    )?;
    with_words(given, rules, words)
}

/// The subcommand `decompress`.
pub(crate) fn decompress_words<'a>(given: Given<'_>) -> Result<Command<'a>, AllocError> {
    with_rules(
        given,
        "decompress",
        "Convert a capture of ROHC packets into a capture of IP packets",
        &[
            valued("links", "FILE", "The links file").required(),
            flag("padded", "Cut each packet at its IPv4 total length"),
            payload(),
            valued("feedback", "FILE", "Also write the feedback to a capture"),
            flag(
                "pcapng",
                "Write pcapng instead of pcap, also with the frames and what became of each",
            ),
            flag("stats", "Print counts on standard error"),
            call(),
            since(),
            until(),
            argument(
                "IN",
                "The capture, pcap or pcapng; - or none is standard input",
            ),
            argument("OUT", "The capture to write; - is standard output").otherwise("-"),
        ],
    )
}

/// The subcommand `script`.
pub(crate) fn script_words<'a>(given: Given<'_>) -> Result<Command<'a>, AllocError> {
    with_rules(
        given,
        "script",
        "Convert a capture of ROHC packets into a script, or a script into a capture",
        &[
            valued(
                "from",
                "ADDRESS",
                "Convert only the packets of this sender, an Ethernet or IPv4 address",
            ),
            valued(
                "other",
                "FILE",
                "Write what other senders sent to another script",
            )
            .with("from"),
            valued(
                "lines",
                "FILE",
                "List for each line of the script its frame and the frame's offset in the capture",
            ),
            flag(
                "back",
                "Convert a script into a capture of datagrams to --port, each with the link number first, or of Ethernet frames with this --ethertype",
            ),
            flag("pcapng", "Write pcapng instead of pcap"),
            valued(
                "links",
                "FILE",
                "The links file, for --call, --since and --until",
            )
            .without("back"),
            payload().with("links"),
            call().with("links"),
            since().with("links"),
            until().with("links"),
            argument(
                "IN",
                "The capture, or the script; - or none is standard input",
            ),
            argument("OUT", "The file to write; - is standard output").otherwise("-"),
        ],
    )
}

/// The subcommand `feed`.
pub(crate) fn feed_words<'a>(given: Given<'_>) -> Result<Command<'a>, AllocError> {
    with_rules(
        given,
        "feed",
        "Send the packets of a capture or a script to a gateway on this host",
        &[
            valued("to", "PORT", "The timed_port of the gateway, on 127.0.0.1").required(),
            valued(
                "from",
                "ADDRESS",
                "Send only the packets of this sender of a capture, an Ethernet or IPv4 address",
            ),
            valued(
                "pace",
                "FACTOR",
                "Keep the time between packets, divided by this factor; without it send as fast as the gateway reads",
            ),
            flag(
                "now",
                "Send the present time with each packet instead of its own",
            ),
            argument(
                "IN",
                "The capture, pcap or pcapng, or the script; - or none is standard input",
            ),
        ],
    )
}

/// The option that narrows to the packets from a time on.
fn since() -> Word {
    valued(
        "since",
        "TIME",
        "Narrow to packets from this time on: milliseconds of a script, seconds of a capture, or HH:MM:SS.mmm (UTC)",
    )
}

/// The option that narrows to the packets up to a time.
fn until() -> Word {
    valued(
        "until",
        "TIME",
        "Narrow to packets up to this time, itself included",
    )
}

/// The option that says how long the payloads of links are.
fn payload() -> Word {
    valued(
        "payload",
        "LINK=N,..",
        "End each packet of a link behind its header and N octets, as 1=20, where Ethernet pads short frames",
    )
}

/// The option that narrows to the packets of a call.
fn call() -> Word {
    valued("call", "L/C", "Narrow to the packets of this link and CID")
}

/// The option that names a state file.
pub(crate) fn state() -> Word {
    valued(
        "state",
        "FILE",
        "Begin with the contexts of this state file of rohc-gateway",
    )
}

/// The subcommand `report`.
pub(crate) fn report_words<'a>(given: Given<'_>) -> Result<Command<'a>, AllocError> {
    with_rules(
        given,
        "report",
        "Write an HTML page that shows what happened to each call of a script or a capture",
        &[
            valued("links", "FILE", "The links file").required(),
            valued("output", "FILE", "The page to write; - is standard output")
                .or_letter('o')
                .otherwise("-"),
            payload(),
            call(),
            since(),
            until(),
            state(),
            argument(
                "INPUT",
                "The script or the capture, pcap or pcapng; - or none is standard input",
            ),
        ],
    )
}

/// The subcommand `explain`.
pub(crate) fn explain_words<'a>(given: Given<'_>) -> Result<Command<'a>, AllocError> {
    with_link(
        given,
        "explain",
        "Decode each packet: its fields, context, attempts, result and likely cause",
        "The link of ROHC packets in Ethernet, Linux cooked or PPP frames, or of packets in hexadecimal digits",
        &[
            valued(
                "links",
                "FILE",
                "The links file; without it the words are packets on a link with usual settings",
            ),
            arguments(
                "INPUT",
                "The script or the capture, pcap or pcapng; - or none is standard input; with --link, or without --links, packets in hexadecimal digits, as fc00b745aa or fc 00 b7 45 aa, with commas between them",
            ),
            valued("line", "N", "Show only the packet in this line of a script"),
            valued("lines", "A-B", "Show only the packets in these lines"),
            valued(
                "frame",
                "N",
                "Show only the packet in this frame of a capture",
            ),
            valued("frames", "A-B", "Show only the packets in these frames"),
            payload().with("links"),
            call(),
            since().with("links"),
            until().with("links"),
            state().with("links"),
            flag(
                "large",
                "Without --links: the link has large CIDs, and not small ones",
            )
            .without("links"),
            flag("brief", "Write one line per packet"),
            flag("json", "Write JSON, one object per line").without("brief"),
        ],
    )
}
