//! The subcommand `diff`: the first difference of each call.

use rohc_diff::{CallDifference, DiffFault, Difference, Differences, Seen, diff};
use rohctl_ground::{Ending, Misuse, STREAM, Screen, open_told, unprinted, write_octets};
use std::io;
use std::io::{BufWriter, Write};
use std::rt::Files;
use std::time::Clock;

/// How many octets before the first difference are shown.
const BEFORE: usize = 20;

/// What begins the colour of the mark under the first difference: red.
const RED: &str = "\x1b[31m";

/// What ends a colour.
const PLAIN: &str = "\x1b[0m";

/// What is asked of `diff`.
#[derive(Clone, Copy)]
pub struct Compared<'a> {
    /// The first text; `-` is standard input.
    pub first: &'a str,
    /// The second text; `-` is standard input.
    pub second: &'a str,
    pub json: bool,
}

/// The differences of two texts.
fn differences<'a, R>(
    rt: &R,
    asked: &Compared<'a>,
    screen: Screen,
) -> Result<Differences, Ending<'a>>
where
    R: Files + Input + Eprint + Clock + AllocGlobal,
{
    if asked.first == STREAM && asked.second == STREAM {
        return Err(Ending::Misuse(Misuse::Value {
            word: "B",
            given: STREAM,
            expected: "a file, since A is standard input",
        }));
    }
    let telling = screen.error && !screen.output;
    let mut first = open_told(rt, asked.first, telling)?;
    let mut second = open_told(rt, asked.second, false)?;
    match diff(rt.alloc(), &mut first, &mut second) {
        Ok(all) => Ok(all),
        Err(DiffFault::NoMemory) => Err(Ending::Memory),
        Err(DiffFault::Read) if first.has_failed() => Err(first.unread(asked.first)),
        Err(DiffFault::Read) => Err(second.unread(asked.second)),
    }
}

/// Writes a number, or a word if there is none.
fn write_number<W: Write>(out: &mut W, number: Option<u16>, none: &str) -> io::Result<()> {
    match number {
        Some(number) => write!(out, "{number}"),
        None => write!(out, "{none}"),
    }
}

/// The place of the first octet in which two lines differ, if there are two.
fn place_of(difference: &Difference) -> Option<usize> {
    let (Some(first), Some(second)) = (&difference.first, &difference.second) else {
        return None;
    };
    let first = first.text.as_slice();
    let second = second.text.as_slice();
    let mut place = 0usize;
    for (octet, other) in first.iter().zip(second.iter()) {
        if octet != other {
            break;
        }
        place = place.saturating_add(1);
    }
    Some(place)
}

/// Where the shown part of lines begins that differ at this place.
fn start_of(place: Option<usize>) -> usize {
    match place {
        Some(place) if place > 2 * BEFORE => place.saturating_sub(BEFORE),
        _ => 0,
    }
}

/// Writes the part of a line that begins at this place, and `..` if there is something before it.
fn write_from<W: Write>(out: &mut W, line: &[u8], start: usize) -> io::Result<()> {
    if start > 0 {
        write!(out, "..")?;
    }
    write_octets(out, line.get(start..).unwrap_or(&[]))
}

/// How many decimal digits a number has.
fn digits_of(number: u64) -> usize {
    let mut digits = 1usize;
    let mut rest = number / 10;
    for _ in 0..20 {
        if rest == 0 {
            break;
        }
        rest = rest / 10;
        digits = digits.saturating_add(1);
    }
    digits
}

/// The number of a line, and 0 without one.
fn number_of(seen: Option<&Seen>) -> u64 {
    match seen {
        Some(seen) => seen.number,
        None => 0,
    }
}

/// Writes this number of spaces.
fn write_spaces<W: Write>(out: &mut W, count: usize) -> io::Result<()> {
    for _ in 0..count {
        write!(out, " ")?;
    }
    Ok(())
}

/// Writes a line of a text for a reader, its number padded to this width.
fn write_seen<W: Write>(
    out: &mut W,
    mark: &str,
    seen: Option<&Seen>,
    start: usize,
    columns: usize,
) -> io::Result<()> {
    match seen {
        Some(seen) => {
            write!(out, "  {mark} line {}: ", seen.number)?;
            write_spaces(out, columns.saturating_sub(digits_of(seen.number)))?;
            write_from(out, seen.text.as_slice(), start)?;
            writeln!(out, "")
        }
        None => writeln!(out, "  {mark} no line"),
    }
}

/// How many columns the shown octets take from a place of a line to another.
fn columns_of(line: &[u8], start: usize, place: usize) -> usize {
    let mut columns = 0usize;
    let shown = line.get(..place).unwrap_or(line);
    for octet in shown.get(start..).unwrap_or(&[]) {
        let width = match *octet {
            b'"' | b'\\' => 2,
            b' '..=b'~' => 1,
            _ => 6,
        };
        columns = columns.saturating_add(width);
    }
    columns
}

/// Writes a mark under the first octet that differs.
fn write_mark<W: Write>(
    out: &mut W,
    seen: &Seen,
    place: usize,
    columns: usize,
    colour: bool,
) -> io::Result<()> {
    let start = start_of(Some(place));
    let front = if start > 0 { 2usize } else { 0 };
    let before = columns_of(seen.text.as_slice(), start, place);
    let all = columns.saturating_add(front).saturating_add(before);
    write_spaces(out, all.saturating_add("  A line : ".len()))?;
    let (begin, end) = if colour { (RED, PLAIN) } else { ("", "") };
    writeln!(out, "{begin}^{end}")
}

/// Writes the difference of a call for a reader.
fn write_call<W: Write>(out: &mut W, call: &CallDifference, colour: bool) -> io::Result<()> {
    write!(out, "link ")?;
    write_number(out, call.link, "-")?;
    write!(out, " CID ")?;
    write_number(out, call.cid, "-")?;
    writeln!(out, "")?;
    let first = call.difference.first.as_ref();
    let second = call.difference.second.as_ref();
    let place = place_of(&call.difference);
    let start = start_of(place);
    let columns = digits_of(number_of(first)).max(digits_of(number_of(second)));
    write_seen(out, "A", first, start, columns)?;
    write_seen(out, "B", second, start, columns)?;
    match (first, place) {
        (Some(first), Some(place)) => write_mark(out, first, place, columns, colour),
        _ => Ok(()),
    }
}

/// Writes a line of a text as members of JSON.
fn write_members<W: Write>(
    out: &mut W,
    name: &str,
    seen: Option<&Seen>,
    start: usize,
) -> io::Result<()> {
    match seen {
        Some(seen) => {
            write!(out, ",\"{name}_line\":{},\"{name}\":\"", seen.number)?;
            write_from(out, seen.text.as_slice(), start)?;
            write!(out, "\"")
        }
        None => write!(out, ",\"{name}_line\":null,\"{name}\":null"),
    }
}

/// Writes the difference of a call as an object.
fn write_object<W: Write>(out: &mut W, call: &CallDifference) -> io::Result<()> {
    write!(out, "{{\"link\":")?;
    write_number(out, call.link, "null")?;
    write!(out, ",\"cid\":")?;
    write_number(out, call.cid, "null")?;
    let place = place_of(&call.difference);
    let start = start_of(place);
    write_members(out, "a", call.difference.first.as_ref(), start)?;
    write_members(out, "b", call.difference.second.as_ref(), start)?;
    match place {
        Some(place) => writeln!(out, ",\"offset\":{place}}}"),
        None => writeln!(out, ",\"offset\":null}}"),
    }
}

/// Writes all differences.
fn write_all<W: Write>(out: &mut W, all: &Differences, json: bool, colour: bool) -> io::Result<()> {
    for call in all.iter() {
        if json {
            write_object(out, call)?;
        } else {
            write_call(out, call, colour)?;
        }
    }
    out.flush()
}

/// Compares two texts, and writes the first difference of each call.
pub fn run_diff<'a, R>(
    rt: &R,
    asked: &Compared<'a>,
    screen: Screen,
) -> Result<Ending<'a>, Ending<'a>>
where
    R: Files + Input + Print + Eprint + Clock + AllocGlobal,
{
    let all = differences(rt, asked, screen)?;
    let Ok(mut out) = BufWriter::new(rt.alloc(), io::writer(rt)) else {
        return Err(Ending::Memory);
    };
    match write_all(&mut out, &all, asked.json, screen.colour) {
        Err(error) => Err(unprinted(&error)),
        Ok(()) if all.is_empty() => Ok(Ending::Good),
        Ok(()) => Ok(Ending::Findings),
    }
}
