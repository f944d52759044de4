//! Totals as JSON, one object a line. Every text in it is a name of ours.

use rohc_context::Refusal;
use rohc_totals::{CallRow, Counts, LineKind, Totals};
use std::io;
use std::io::Write;

/// Writes the members that calls, links and the whole have in common, and ends the object.
fn write_counts<W: Write>(out: &mut W, counts: &Counts) -> io::Result<()> {
    write!(
        out,
        "\"delivered\":{},\"stored\":{},\"relayed\":{},\"feedback\":{{\"ack\":{},\"nack\":{},\"static_nack\":{},\"plain\":{},\"other\":{}}},\"refused\":{{",
        counts.of(LineKind::Delivered),
        counts.of(LineKind::Stored),
        counts.of(LineKind::Relayed),
        counts.of(LineKind::Ack),
        counts.of(LineKind::Nack),
        counts.of(LineKind::StaticNack),
        counts.of(LineKind::Plain),
        counts.of(LineKind::OtherFeedback)
    )?;
    write_refused(out, counts)?;
    writeln!(out, "}}}}")
}

/// Writes the members of those refusals that came.
fn write_refused<W: Write>(out: &mut W, counts: &Counts) -> io::Result<()> {
    let mut is_first = true;
    for refusal in Refusal::all() {
        let count = counts.of(LineKind::Refused(refusal));
        if count > 0 {
            if !is_first {
                write!(out, ",")?;
            }
            write!(out, "\"{refusal}\":{count}")?;
            is_first = false;
        }
    }
    Ok(())
}

/// Writes the object of a call.
fn write_call<W: Write>(out: &mut W, row: &CallRow) -> io::Result<()> {
    write!(
        out,
        "{{\"link\":{},\"cid\":{},\"refused_since_delivery\":{},\"since_line\":",
        row.link, row.cid, row.totals.refused
    )?;
    match row.totals.since {
        Some(line) => write!(out, "{line}")?,
        None => write!(out, "null")?,
    }
    match row.totals.last {
        Some(last) => write!(out, ",\"last_refusal\":\"{last}\",")?,
        None => write!(out, ",\"last_refusal\":null,")?,
    }
    write_counts(out, &row.totals.counts)
}

/// Writes the object of all lines.
fn write_all<W: Write>(out: &mut W, totals: &Totals) -> io::Result<()> {
    write!(
        out,
        "{{\"lines\":{},\"bad\":{},\"long\":{},\"no_answer\":{},\"first_no_answer\":",
        totals.lines,
        totals.counts.of(LineKind::BadLine),
        totals.counts.of(LineKind::LongLine),
        totals.counts.of(LineKind::NoAnswer)
    )?;
    match totals.strange {
        Some(line) => write!(out, "{line},")?,
        None => write!(out, "null,")?,
    }
    write_counts(out, &totals.counts)
}

/// Writes an object for each call, then for each link, then for all lines.
pub(crate) fn write_json<W: Write>(
    out: &mut W,
    totals: &Totals,
    rows: &[CallRow],
) -> io::Result<()> {
    for row in rows {
        write_call(out, row)?;
    }
    for (link, of_link) in &totals.links {
        write!(out, "{{\"link\":{link},")?;
        write_counts(out, &of_link.counts)?;
    }
    write_all(out, totals)
}
