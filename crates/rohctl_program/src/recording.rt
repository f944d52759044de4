//! The subcommand `record`: what a gateway gives of a record, as a state file and a script.

use crate::control::{RecordEnd, Wish, record_answer};
use crate::words_in::{link_number, value_of, wrong_value};
use clap::ArgMatches;
use rohctl_ground::{Ending, Reason, unprinted, unwritten};
use std::alloc::Global;
use std::io::{self, BufWriter, ErrorKind, Write};
use std::net::Net;
use std::rt::Files;
use std::{fs, mem};

/// How many octets are kept before they are written.
const ROOM: usize = 131_072;

/// What is asked of `record`.
#[derive(Clone, Copy)]
pub(crate) struct Recorded<'a> {
    seconds: u16,
    link: Option<u16>,
    /// The front of the names of both files.
    output: &'a str,
}

/// What is asked of `record`.
pub(crate) fn recorded_of<'a>(options: &ArgMatches<'a>) -> Result<Recorded<'a>, Ending<'a>> {
    let word = value_of(options, "seconds")?;
    let seconds = match word.parse::<u16>() {
        Ok(seconds) if seconds >= 1 => seconds,
        _ => return Err(wrong_value("--seconds", word, "a number from 1 to 65535")),
    };
    let link = match options.get_str("link") {
        Some(text) => Some(link_number("--link", text)?),
        None => None,
    };
    Ok(Recorded {
        seconds,
        link,
        output: value_of(options, "output")?,
    })
}

/// Where the parts of a record go.
#[derive(Drop)]
struct Parts<F: Write + Drop> {
    state: BufWriter<F>,
    script: BufWriter<F>,
    /// A line that isn't whole yet: the first one, or one of the script.
    line: Vec<u8>,
    /// How many octets of the saved contexts are still to come, once the first line is whole.
    left: Option<u64>,
    /// The last line.
    last: Vec<u8>,
}

/// How many octets the saved contexts have, by the first line.
fn size_in(line: &[u8]) -> Option<u64> {
    let digits = line.strip_prefix(b"{\"state\":".as_slice())?;
    let digits = digits.strip_suffix(b"}\n".as_slice())?;
    std::str::from_utf8(digits).ok()?.parse().ok()
}

/// How many octets there are up to the first line end, itself included, or all.
fn line_length(octets: &[u8]) -> usize {
    match octets.iter().position(|octet| *octet == b'\n') {
        Some(place) => place.saturating_add(1),
        None => octets.len(),
    }
}

impl<F: Write + Drop> Parts<F> {
    /// Takes a part of a line, up to its end, and does what a whole line calls for.
    fn take_line(&mut self, octets: &[u8]) -> io::Result<usize> {
        let count = line_length(octets);
        let part = octets.get(..count).unwrap_or(octets);
        self.line.extend_from_slice(part)?;
        if self.line.as_slice().last() != Some(&b'\n') {
            return Ok(count);
        }
        if self.left.is_none() {
            self.left = size_in(self.line.as_slice());
            if self.left.is_some() {
                self.line.clear();
            }
        } else if self.line.as_slice().starts_with(b"{".as_slice()) {
            mem::swap(&mut self.last, &mut self.line);
            self.line.clear();
        } else {
            self.script.write_all(self.line.as_slice())?;
            self.line.clear();
        }
        Ok(count)
    }

    /// Takes octets of the saved contexts, of which so many are to come.
    fn take_state(&mut self, octets: &[u8], left: u64) -> io::Result<usize> {
        let count = octets
            .len()
            .min(usize::try_from(left).unwrap_or(usize::MAX));
        self.state.write_all(octets.get(..count).unwrap_or(octets))?;
        self.left = Some(left.saturating_sub(count as u64));
        Ok(count)
    }
}

impl<F: Write + Drop> Write for Parts<F> {
    fn write(&mut self, octets: &[u8]) -> io::Result<usize> {
        if octets.is_empty() {
            return Ok(0);
        }
        let count = match self.left {
            Some(left) if left > 0 => self.take_state(octets, left)?,
            _ => self.take_line(octets)?,
        };
        Ok(count.min(octets.len()))
    }

    fn flush(&mut self) -> io::Result<()> {
        self.state.flush()?;
        self.script.flush()
    }
}

/// Whether a record is whole: by the last line its time passed, and nothing was left out or withheld.
fn is_whole(last: &[u8]) -> bool {
    last.windows(14)
        .any(|part| part == b"\"ended\":\"time\"".as_slice())
        && last
            .windows(13)
            .any(|part| part == b"\"left_out\":0,".as_slice())
        && last
            .windows(13)
            .any(|part| part == b"\"withheld\":0}".as_slice())
}

/// A file to be written, whose name ends so.
fn file_of<'a, R: Files + AllocGlobal>(
    rt: &R,
    output: &'a str,
    end: &str,
) -> Result<BufWriter<R::File>, Ending<'a>> {
    let Ok(path) = format!(in rt.alloc(); "{output}.{end}") else {
        return Err(Ending::Memory);
    };
    let file = fs::create(rt, path.as_str()).map_err(|error| unwritten(
        output,
        Reason::of(&error),
    ))?;
    BufWriter::with_capacity(rt.alloc(), ROOM, file).map_err(|_| Ending::Memory)
}

/// The parts of a record that has nothing yet.
fn parts_of<'a, R: Files + AllocGlobal>(
    rt: &R,
    output: &'a str,
) -> Result<Parts<R::File>, Ending<'a>> {
    let alloc: Global = rt.alloc();
    Ok(Parts {
        state: file_of(rt, output, "state")?,
        script: file_of(rt, output, "script")?,
        line: Vec::new(alloc),
        left: None,
        last: Vec::new(alloc),
    })
}

/// Prints what the gateway said at the end.
fn print_line<R: Print>(rt: &R, line: &[u8]) -> Result<(), Ending<'static>> {
    io::writer(rt)
        .write_all(line)
        .map_err(|error| unprinted(&error))
}

/// Why a part wasn't written.
fn reason_of(error: &io::Error) -> Reason {
    match error.kind() {
        ErrorKind::OutOfMemory => Reason::Memory,
        _ => Reason::of(error),
    }
}

/// Records what a gateway gets, into a state file and a script.
pub(crate) fn run_record<'a, R>(
    rt: &R,
    control: &str,
    asked: Recorded<'a>,
) -> Result<Ending<'a>, Ending<'a>>
where
    R: Files + Net + Print + Eprint + AllocGlobal,
{
    let Recorded {
        seconds,
        link,
        output,
    } = asked;
    let mut parts = parts_of(rt, output)?;
    let answered = record_answer(rt, control, Wish::Record { link, seconds }, &mut parts);
    let flushed = parts.flush();
    let is_done = match answered {
        RecordEnd::Done => true,
        RecordEnd::Refused => false,
        RecordEnd::Unwritten(error) => return Err(unwritten(output, reason_of(&error))),
        RecordEnd::Failed(ending) => return Err(ending),
    };
    if let Err(error) = flushed {
        return Err(unwritten(output, reason_of(&error)));
    }
    if !is_done {
        print_line(rt, parts.line.as_slice())?;
        return Ok(Ending::Findings);
    }
    print_line(rt, parts.last.as_slice())?;
    if is_whole(parts.last.as_slice()) {
        Ok(Ending::Good)
    } else {
        Ok(Ending::Findings)
    }
}
