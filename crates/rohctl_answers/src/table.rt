//! Totals as a table.

use rohc_context::Refusal;
use rohc_totals::{CallRow, CallTotals, Counts, LineKind, Totals};
use std::io;
use std::io::Write;

/// What begins the colour of a call to which nothing is delivered: red.
const RED: &str = "\x1b[31m";

/// What ends a colour.
const PLAIN: &str = "\x1b[0m";

/// The refusals among these lines.
pub(crate) fn refused(counts: &Counts) -> u64 {
    let mut refused = 0u64;
    for refusal in Refusal::all() {
        refused = refused.saturating_add(counts.of(LineKind::Refused(refusal)));
    }
    refused
}

/// The feedback for the compressor among these lines.
pub(crate) fn feedback(counts: &Counts) -> u64 {
    counts
        .of(LineKind::Ack)
        .saturating_add(counts.of(LineKind::Nack))
        .saturating_add(counts.of(LineKind::StaticNack))
        .saturating_add(counts.of(LineKind::Plain))
        .saturating_add(counts.of(LineKind::OtherFeedback))
}

/// Writes the cells that calls, links and the whole have in common.
fn write_counts<W: Write>(out: &mut W, counts: &Counts) -> io::Result<()> {
    write!(
        out,
        "{:>10} {:>7} {:>6} {:>6} {:>6} {:>6} {:>8}",
        counts.of(LineKind::Delivered),
        counts.of(LineKind::Stored),
        counts
            .of(LineKind::Ack)
            .saturating_add(counts.of(LineKind::Plain)),
        counts.of(LineKind::Nack),
        counts.of(LineKind::StaticNack),
        counts.of(LineKind::OtherFeedback),
        refused(counts)
    )
}

/// Writes the cells about the refusals since a call's last delivery, if it was ever refused.
fn write_silence<W: Write>(out: &mut W, call: &CallTotals) -> io::Result<()> {
    let Some(last) = call.last else {
        return Ok(());
    };
    match call.since {
        Some(since) => write!(out, " {:>8} {since:>9} {last}", call.refused),
        None => write!(out, " {:>8} {:>9} {last}", "-", "-"),
    }
}

/// Writes the row of a call.
fn write_call<W: Write>(out: &mut W, row: &CallRow, colour: bool) -> io::Result<()> {
    let (begin, end) = if colour && row.totals.refused > 0 {
        (RED, PLAIN)
    } else {
        ("", "")
    };
    write!(out, "{begin}{:>5} {:>5} ", row.link, row.cid)?;
    write_counts(out, &row.totals.counts)?;
    write_silence(out, &row.totals)?;
    writeln!(out, "{end}")
}

/// Writes the rows of the links, and that of all lines.
fn write_sums<W: Write>(out: &mut W, totals: &Totals) -> io::Result<()> {
    for (link, of_link) in &totals.links {
        write!(out, "{link:>5}   all ")?;
        write_counts(out, &of_link.counts)?;
        writeln!(out, "")?;
    }
    write!(out, "  all   all ")?;
    write_counts(out, &totals.counts)?;
    writeln!(out, "")
}

/// Writes how many lines there are, and of them those that aren't about a call's packets.
fn write_lines<W: Write>(out: &mut W, totals: &Totals) -> io::Result<()> {
    writeln!(
        out,
        "lines {} relayed {} bad {} long {} no answer {}",
        totals.lines,
        totals.counts.of(LineKind::Relayed),
        totals.counts.of(LineKind::BadLine),
        totals.counts.of(LineKind::LongLine),
        totals.counts.of(LineKind::NoAnswer)
    )?;
    match totals.strange {
        Some(line) => writeln!(out, "line {line} is not an answer line"),
        None => Ok(()),
    }
}

/// Writes the table: calls to which nothing is delivered first, then the links, then all lines.
pub(crate) fn write_table<W: Write>(
    out: &mut W,
    totals: &Totals,
    rows: &[CallRow],
    colour: bool,
) -> io::Result<()> {
    writeln!(
        out,
        " link   cid  delivered  stored    ack   nack s-nack  other  refused   silent from-line last"
    )?;
    for row in rows {
        write_call(out, row, colour)?;
    }
    write_sums(out, totals)?;
    write_lines(out, totals)
}
