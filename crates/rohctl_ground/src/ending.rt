//! How a run of `rohctl` ends: its exit status, and the line that it prints on standard error.

ghost use Rattle.std.specs.Prelude.{◌≡◌, ◌≢◌, if◌then◌else◌, codes};
ghost use Rattle.std.specs.IoError.{error_kind};
ghost use Rattle.std.specs.Str.{bytes_eq};

use crate::hex_word::HexFault;
use crate::printable::Printable;
use rohc_capture::{CaptureFault, FaultKind};
use rohc_saved::SavedFault;
use rohc_text::{Reason, shown_word};
use std::io::ErrorKind;
use std::{fmt, io};

/// The path that means standard input or standard output.
pub const STREAM: &str = "-";

/// What is wrong with the words of the command line.
#[derive(Clone, Copy, PartialEq, Eq)]
pub enum Misuse<'a> {
    /// This option or argument can't have this value.
    Value {
        word: &'static str,
        given: &'a str,
        expected: &'static str,
    },
    /// This option or argument is missing.
    Missing {
        word: &'static str,
        expected: &'static str,
    },
    /// A packet that was given isn't one.
    Packet(HexFault),
    /// This file was given where only packets are read.
    Script(&'a str),
    /// A word can't be read as text.
    NotUtf8,
    /// This output would overwrite an input.
    Overwrites {
        output: &'a str,
        input: &'a str,
    },
    /// Two outputs are one file, or both are standard output.
    OneOutput(&'a str),
    /// A capture would be written to a terminal.
    Terminal,
}

/// Why there is nothing to show.
#[derive(Clone, Copy, PartialEq, Eq)]
pub enum Nothing {
    /// The input has no octets.
    Empty,
    /// The input is a capture, which this command doesn't read.
    Capture,
    /// None of the lines is an event. `carriage` is whether they end with a carriage return.
    NoEvent {
        lines: u64,
        carriage: bool,
    },
    /// The script has fewer lines, or the capture fewer frames.
    NoNumber {
        is_capture: bool,
        number: u64,
        last: u64,
    },
    /// None of these lines is an arrival, or none of these frames carries a packet.
    NotWithin {
        is_capture: bool,
        first: u64,
        last: u64,
    },
    /// No packet is of this call.
    NoCall {
        link: u16,
        cid: u16,
    },
    /// The script has only resets.
    NoPacket,
    /// A capture can hold none of the packets.
    Beyond,
    /// The links file has no such link.
    NoLink(u16),
    /// The list of digests has none.
    NoDigest,
}

/// How a run of the program ends.
#[derive(Clone, Copy, PartialEq, Eq)]
pub enum Ending<'a> {
    /// All was done, and nothing was found.
    Good,
    /// All was done, and something was found: a call to which nothing is delivered, a line that isn't good, a fault or
    /// a difference.
    Findings,
    /// The reader of standard output went away.
    Closed,
    /// The words are not a command. What is wrong was printed.
    CommandLine,
    /// The words are not a command.
    Misuse(Misuse<'a>),
    /// The links file is refused. Its faults were printed.
    LinksFile,
    /// The links file can't be read.
    LinksUnread(&'a str, Reason),
    /// What was found is not what rohcd finds. This is a fault of this program.
    Differs,
    /// The capture can't be read on.
    Capture(&'a str, CaptureFault),
    /// The state file is refused.
    State(&'a str, SavedFault),
    /// No gateway answers at the control socket, or takes datagrams. What is wrong was printed.
    NoGateway,
    /// A read failed.
    Read(&'a str, Reason),
    /// A write failed.
    Write(&'a str, Reason),
    /// There is no memory.
    Memory,
    /// There is nothing to show of this input.
    Nothing(&'a str, Nothing),
    /// There is nothing to show. What there was instead was printed.
    NoFrame,
    /// The gateway's socket dropped datagrams. How many was printed.
    Dropped,
}

/// The ending for a read that failed for this reason.
pub fn unread<'a>(path: &'a str, reason: Reason) -> Ending<'a>
    ensures memory { reason ≡ Reason.Memory → result ≡ Ending.Memory }
    ensures other { reason ≢ Reason.Memory → result ≡ Ending.Read path.entry reason }
{
    match reason {
        Reason::Memory => Ending::Memory,
        other => Ending::Read(path, other),
    }
}

/// The ending for a write that failed for this reason. A reader of standard output that went away wants no more.
pub fn unwritten<'a>(path: &'a str, reason: Reason) -> Ending<'a>
    ensures memory { reason ≡ Reason.Memory → result ≡ Ending.Memory }
    ensures closed { reason ≡ Reason.Closed → result ≡ Ending.Closed }
    ensures other { reason ≢ Reason.Memory → reason ≢ Reason.Closed → result ≡ Ending.Write path.entry reason }
{
    match reason {
        Reason::Memory => Ending::Memory,
        Reason::Closed => Ending::Closed,
        other => Ending::Write(path, other),
    }
}

/// The ending for an error of standard output.
pub fn unprinted(error: &io::Error) -> Ending<'static>
    ensures memory { error_kind error.now ≡ ErrorKind.OutOfMemory → result ≡ Ending.Memory }
    ensures closed { error_kind error.now ≡ ErrorKind.BrokenPipe → result ≡ Ending.Closed }
    ensures other { error_kind error.now ≢ ErrorKind.OutOfMemory → error_kind error.now ≢ ErrorKind.BrokenPipe
        → (path : _) × (reason : Reason) × (path.now ≡ codes "-") × (result ≡ Ending.Write path reason) }
{
    unwritten(STREAM, Reason::of(error))
}

impl Ending<'_> {
    ghost use Rattle.std.specs.Prelude.{◌≡◌};
    ghost use Rattle.rohctl_ground.specs.Ending.{status_of};

    /// The exit status of the program.
    pub fn status(&self) -> u8
        ensures { result ≡ status_of self.now }
    {
        match self {
            Ending::Good | Ending::Closed => 0,
            Ending::Findings => 1,
            Ending::CommandLine | Ending::Misuse(_) => 2,
            Ending::LinksFile | Ending::LinksUnread(..) => 3,
            Ending::Differs
            | Ending::Capture(..)
            | Ending::State(..)
            | Ending::NoGateway
            | Ending::Read(..)
            | Ending::Write(..) => 4,
            Ending::Memory => 5,
            Ending::Nothing(..) | Ending::NoFrame => 6,
            Ending::Dropped => 7,
        }
    }
}

/// The name of an input.
pub fn input_name(path: &str) -> &str
    ensures { result.now ≡ (if bytes_eq path.now (codes "-") then codes "standard input"
        else (if bytes_eq path.now (codes "") then codes "''" else path.now)) }
{
    if path == STREAM {
        "standard input"
    } else {
        shown_word(path)
    }
}

/// The name of an output.
fn output_name(path: &str) -> &str
    ensures { result.now ≡ (if bytes_eq path.now (codes "-") then codes "standard output"
        else (if bytes_eq path.now (codes "") then codes "''" else path.now)) }
{
    if path == STREAM {
        "standard output"
    } else {
        shown_word(path)
    }
}

/// What a packet may be given as.
const PACKET: &str = "two hexadecimal digits for each octet, as fc00b745aa or fc 00 b7 45 aa";

/// Writes why a word is no packet.
fn write_packet<W: fmt::Write>(f: &mut fmt::Formatter<W>, fault: HexFault) -> fmt::Result {
    match fault {
        HexFault::NoDigit(character) => {
            let shown = character.escape_debug();
            write!(f, "the packet has '{shown}'; expected {PACKET}")
        }
        HexFault::Odd(0) => write!(f, "the packet has no digits; expected {PACKET}"),
        HexFault::Odd(digits) => { write!(f, "the packet has {digits} digits; expected {PACKET}") }
    }
}

impl fmt::Display for Misuse<'_> {
    fn fmt<W: fmt::Write>(&self, f: &mut fmt::Formatter<W>) -> fmt::Result {
        match self {
            Misuse::Value {
                word,
                given,
                expected,
            } => write!(
                f,
                "{word} {}: expected {expected}",
                Printable(shown_word(given))
            ),
            Misuse::Missing { word, expected } => write!(
                f,
                "{word} is missing; expected {expected}"
            ),
            Misuse::Packet(fault) => write_packet(f, *fault),
            Misuse::Script(path) => write!(
                f,
                "{}: a script or a capture needs --links; without it packets in hexadecimal digits are expected, as fc00b745aa",
                Printable(input_name(path))
            ),
            Misuse::NotUtf8 => f.write_str(
                "a word of the command line is not UTF-8; expected UTF-8, also in file names",
            ),
            Misuse::Overwrites { output, input } => write!(
                f,
                "{}: refusing to overwrite the input {}; choose another output",
                Printable(output_name(output)),
                Printable(input_name(input))
            ),
            Misuse::OneOutput(output) => write!(
                f,
                "{}: two outputs would be written to it; choose another for one of them",
                Printable(output_name(output))
            ),
            Misuse::Terminal => f.write_str(
                "refusing to write a capture to a terminal; name a file, or pipe it into another program",
            ),
        }
    }
}

/// A line of a script.
const ARRIVAL: &str = "arrive 1 0 fc00b745aa";

/// What a script has.
const EVENTS: &str = "a script, with lines such as 'arrive 1 0 fc00b745aa'";

/// What is said of a capture where a script was expected.
pub const CAPTURE: &str =
    "it is a capture; expected a script ('rohctl script' converts a capture into one)";

/// Writes why no line is an event.
fn write_no_event<W: fmt::Write>(
    f: &mut fmt::Formatter<W>,
    lines: u64,
    carriage: bool,
) -> fmt::Result {
    write!(f, "none of {lines} lines is an event; ")?;
    if carriage {
        f.write_str("they end with a carriage return (remove it: tr -d '\\r')")
    } else {
        write!(f, "expected {EVENTS}")
    }
}

/// Writes that no line of a script is an arrival, or that no frame of a capture carries a packet, from the first to the last.
fn write_not_within<W: fmt::Write>(
    f: &mut fmt::Formatter<W>,
    is_capture: bool,
    first: u64,
    last: u64,
) -> fmt::Result {
    match (is_capture, first == last) {
        (false, true) => write!(f, "line {first} is not an arrival; ")?,
        (false, false) => write!(f, "lines {first} to {last} are not arrivals; ")?,
        (true, true) => write!(f, "frame {first} has no packet of a link; ")?,
        (true, false) => write!(f, "frames {first} to {last} have no packet of a link; ")?,
    }
    if is_capture {
        f.write_str("expected a frame that --link, --vlan or --port matches")
    } else {
        write!(f, "expected the number of a line such as '{ARRIVAL}'")
    }
}

impl fmt::Display for Nothing {
    fn fmt<W: fmt::Write>(&self, f: &mut fmt::Formatter<W>) -> fmt::Result {
        match self {
            Nothing::Empty => write!(f, "it is empty; expected {EVENTS}"),
            Nothing::Capture => write!(f, "{CAPTURE}"),
            Nothing::NoEvent { lines, carriage } => write_no_event(f, *lines, *carriage),
            Nothing::NoNumber {
                is_capture,
                number,
                last,
            } => {
                let unit = if *is_capture { "frame" } else { "line" };
                write!(f, "there is no {unit} {number}; the last {unit} is {last}")
            }
            Nothing::NotWithin {
                is_capture,
                first,
                last,
            } => write_not_within(f, *is_capture, *first, *last),
            Nothing::NoCall { link, cid } => write!(
                f,
                "no packet of link {link}, CID {cid}; without --call all packets are shown"
            ),
            Nothing::NoPacket => write!(
                f,
                "it has resets but no arrival; expected lines such as '{ARRIVAL}'"
            ),
            Nothing::Beyond => write!(f, "{}", Reason::Beyond),
            Nothing::NoDigest => f.write_str(
                "it has no digest; expected a list as sha256sum writes it",
            ),
            Nothing::NoLink(link) => write!(
                f,
                "it has no link {link}; 'rohctl links' lists those it has"
            ),
        }
    }
}

/// Writes why a capture can't be read on.
fn write_capture<W: fmt::Write>(
    f: &mut fmt::Formatter<W>,
    path: &str,
    fault: &CaptureFault,
) -> fmt::Result {
    let octet = fault.place;
    write!(f, "rohctl: {}: ", Printable(input_name(path)))?;
    match fault.kind {
        FaultKind::NotACapture => return f.write_str("not a capture; expected pcap or pcapng\n"),
        FaultKind::CutOff => write!(f, "the capture is cut off in the record at octet {octet}")?,
        FaultKind::TooLong => write!(f, "the record at octet {octet} is longer than 1 MiB")?,
        FaultKind::BlockLength => write!(f, "the block at octet {octet} has a wrong length")?,
        FaultKind::ByteOrder => write!(f, "the section at octet {octet} has no known byte order")?,
        FaultKind::NoInterface => write!(
            f,
            "the packet at octet {octet} is of an interface that its section does not describe"
        )?,
        FaultKind::TooManyInterfaces => write!(
            f,
            "the section at octet {octet} describes more than 65536 interfaces"
        )?,
        FaultKind::NoMemory | FaultKind::Read => write!(f, "cannot read octet {octet}")?,
    }
    f.write_str("; the frames before it were read\n")
}

/// Writes why the octets of a state file are refused, as rohc-gateway does.
fn write_state<W: fmt::Write>(
    f: &mut fmt::Formatter<W>,
    path: &str,
    fault: &SavedFault,
) -> fmt::Result {
    write!(f, "rohctl: {}: ", Printable(path))?;
    match fault {
        SavedFault::NotSaved => f.write_str("it is not a state file")?,
        SavedFault::Version { place } => write!(f, "it has an unknown version, at octet {place}")?,
        SavedFault::Short { place } => write!(f, "it is cut off, at octet {place}")?,
        SavedFault::Long { place } => write!(f, "octets follow its end, at octet {place}")?,
        SavedFault::Digest { .. } => f.write_str("it is damaged: its digest does not match")?,
        SavedFault::BadLink { place }
        | SavedFault::BadContext { place }
        | SavedFault::BadOrder { place } => write!(f, "it has a bad value, at octet {place}")?,
        SavedFault::Settings(_) | SavedFault::NoMemory => write!(f, "{fault}")?,
    }
    f.write_str("; expected a complete state file of this version\n")
}

/// Writes what could not be done at a place, and why.
fn write_at<W: fmt::Write, T: fmt::Display>(
    f: &mut fmt::Formatter<W>,
    place: &str,
    what: &str,
    why: &T,
) -> fmt::Result {
    write!(f, "rohctl: {}: {what}: {why}\n", Printable(place))
}

impl fmt::Display for Ending<'_> {
    fn fmt<W: fmt::Write>(&self, f: &mut fmt::Formatter<W>) -> fmt::Result {
        match self {
            Ending::Good
            | Ending::Findings
            | Ending::Closed
            | Ending::CommandLine
            | Ending::LinksFile
            | Ending::NoGateway
            | Ending::NoFrame
            | Ending::Dropped => Ok(()),
            Ending::Misuse(misuse) => write!(f, "rohctl: {misuse}\n"),
            Ending::LinksUnread(path, reason) => write!(
                f,
                "rohctl: links file {}: cannot read it: {reason}\n",
                Printable(input_name(path))
            ),
            Ending::Differs => f.write_str(
                "rohctl: internal error: rohctl and the decompressor disagree; please report this\n",
            ),
            Ending::Capture(path, fault) => write_capture(f, path, fault),
            Ending::State(path, fault) => write_state(f, path, fault),
            Ending::Read(path, reason) => write_at(f, input_name(path), "cannot read it", reason),
            Ending::Write(path, reason) => {
                write_at(f, output_name(path), "cannot write to it", reason)
            }
            Ending::Memory => f.write_str(
                "rohctl: out of memory; try a smaller input, or raise the limit (ulimit -v)\n",
            ),
            Ending::Nothing(path, nothing) => {
                write_at(f, input_name(path), "nothing to show", nothing)
            }
        }
    }
}
