//! Calls as a table for people.

use crate::calls::CallCounts;
use crate::counters::LinkCounters;
use crate::page::write_duration;
use crate::rows::{CallRow, refusals_of, state_text};
use rohc_context::Refusal;
use rohc_header::Static;
use std::alloc::{AllocError, Global};
use std::io;
use std::io::Write;

/// The column of the state.
const STATE: usize = 14;

/// The column of the silence.
const SILENT: usize = 29;

/// The column of the counts.
const COUNTS: usize = 44;

/// The column of the source.
const FROM: usize = 102;

/// The column of the destination.
const TO: usize = 124;

/// The column of the SSRC.
const SSRC: usize = 146;

/// Appends a blank to a line, and more up to a column.
pub(crate) fn pad_to(line: &mut Vec<u8>, column: usize) -> Result<(), AllocError> {
    line.push(b' ')?;
    for _ in line.len()..column {
        line.push(b' ')?;
    }
    Ok(())
}

/// Appends the start of a call's line: its mark, link, CID and state, and for how long it is silent, or the moment of its
/// last accepted packet where that may be no time since 1970.
pub(crate) fn put_call(line: &mut Vec<u8>, row: &CallRow<'_>) -> io::Result<()> {
    let mark = if row.is_silent() { "!" } else { " " };
    write!(line, "{mark} {}/{}", row.link, row.cid)?;
    pad_to(line, STATE)?;
    write!(line, "{}", state_text(row))?;
    pad_to(line, SILENT)?;
    match row.silent {
        Some(silent) => write_duration(line, silent)?,
        None => write!(line, "{}", row.context.accepted())?,
    }
    pad_to(line, COUNTS)?;
    Ok(())
}

/// Appends the counts of a call, those of the refusals as their sum.
fn put_counts(line: &mut Vec<u8>, counts: Option<&CallCounts>) -> io::Result<()> {
    match counts {
        Some(counts) => write!(
            line,
            "{:>9} {:>8} {:>6} {:>6} {:>7}",
            counts.delivered,
            counts.repaired,
            counts.sequence.lost,
            counts.sequence.late,
            refusals_of(counts)
        ),
        None => write!(line, "{:>9} {:>8} {:>6} {:>6} {:>7}", 0, 0, 0, 0, 0),
    }
}

/// Appends an address and its port.
fn put_endpoint(line: &mut Vec<u8>, address: [u8; 4], port: u16) -> io::Result<()> {
    let [first, second, third, fourth] = address;
    write!(line, "{first}.{second}.{third}.{fourth}:{port}")
}

/// Appends the addresses, the ports and the SSRC of a call.
fn put_fixed(line: &mut Vec<u8>, fixed: &Static) -> io::Result<()> {
    pad_to(line, FROM)?;
    put_endpoint(line, fixed.source, fixed.source_port)?;
    pad_to(line, TO)?;
    put_endpoint(line, fixed.destination, fixed.destination_port)?;
    pad_to(line, SSRC)?;
    write!(line, "0x{:08x}", fixed.ssrc)
}

/// Writes the line of a call: a mark if it is silent, its state, its counts, and whose call it is.
pub(crate) fn write_call_line<W: Write>(
    alloc: Global,
    out: &mut W,
    row: &CallRow<'_>,
) -> io::Result<()> {
    let mut line = Vec::new(alloc);
    put_call(&mut line, row)?;
    put_counts(&mut line, row.counts)?;
    if let Some(refusal) = row.last_refused() {
        write!(&mut line, "  {refusal}")?;
    }
    if let Some(fixed) = &row.fixed {
        put_fixed(&mut line, fixed)?;
    }
    out.write_all(&line)?;
    writeln!(out, "")
}

/// What the third column of a list of calls has.
pub(crate) fn last_column(has_timed: bool) -> &'static str {
    if has_timed {
        "Last at moment"
    } else {
        "Silent for"
    }
}

/// Appends the columns of the start of a call's line.
pub(crate) fn put_call_columns(line: &mut Vec<u8>, has_timed: bool) -> io::Result<()> {
    write!(line, "  Link/CID")?;
    pad_to(line, STATE)?;
    write!(line, "State")?;
    pad_to(line, SILENT)?;
    write!(line, "{}", last_column(has_timed))?;
    pad_to(line, COUNTS)?;
    Ok(())
}

/// Writes the line of the columns.
pub(crate) fn write_call_columns<W: Write>(
    alloc: Global,
    out: &mut W,
    has_timed: bool,
) -> io::Result<()> {
    let mut line = Vec::new(alloc);
    put_call_columns(&mut line, has_timed)?;
    write!(
        &mut line,
        "Delivered Repaired   Lost   Late Refused  Last refusal"
    )?;
    for (column, name) in [(FROM, "From"), (TO, "To"), (SSRC, "SSRC")] {
        pad_to(&mut line, column)?;
        write!(&mut line, "{name}")?;
    }
    out.write_all(&line)?;
    writeln!(out, "")
}

/// Writes the CIDs of a link without a context whose packets were refused for that, the newest last.
pub(crate) fn write_unknown_lines<W: Write>(
    alloc: Global,
    out: &mut W,
    link: u16,
    of_link: &LinkCounters,
) -> io::Result<()> {
    for unknown in &of_link.unknown {
        let mut line = Vec::new(alloc);
        write!(&mut line, "  {link}/{}", unknown.number)?;
        pad_to(&mut line, STATE)?;
        let (packets, no_context) = (unknown.packets, Refusal::NoContext);
        writeln!(
            &mut line,
            "CID without a context; packets refused: {packets} {no_context}"
        )?;
        out.write_all(&line)?;
    }
    Ok(())
}
