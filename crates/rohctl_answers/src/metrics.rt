//! Totals in the text format of Prometheus.

use crate::table::refused;
use rohc_context::Refusal;
use rohc_totals::{CallRow, Counts, LineKind, Totals};
use std::io;
use std::io::Write;

/// Writes the two lines before a metric.
fn write_head<W: Write>(out: &mut W, name: &str, kind: &str, help: &str) -> io::Result<()> {
    writeln!(out, "# HELP {name} {help}")?;
    writeln!(out, "# TYPE {name} {kind}")
}

/// Writes one sample of a call for each row, of one kind.
fn write_kind<W: Write>(
    out: &mut W,
    name: &str,
    help: &str,
    kind: LineKind,
    rows: &[CallRow],
) -> io::Result<()> {
    write_head(out, name, "counter", help)?;
    for row in rows {
        let count = row.totals.counts.of(kind);
        writeln!(
            out,
            "{name}{{link=\"{}\",cid=\"{}\"}} {count}",
            row.link, row.cid
        )?;
    }
    Ok(())
}

/// Writes the samples of a call's feedback.
fn write_feedback<W: Write>(out: &mut W, row: &CallRow) -> io::Result<()> {
    let counts: &Counts = &row.totals.counts;
    for (kind, name) in [
        (LineKind::Ack, "ack"),
        (LineKind::Nack, "nack"),
        (LineKind::StaticNack, "static_nack"),
        (LineKind::Plain, "plain"),
        (LineKind::OtherFeedback, "other"),
    ] {
        writeln!(
            out,
            "polorowan_feedback_total{{link=\"{}\",cid=\"{}\",kind=\"{name}\"}} {}",
            row.link,
            row.cid,
            counts.of(kind)
        )?;
    }
    Ok(())
}

/// Writes the samples of a call's refusals: those that came, by name.
fn write_refused<W: Write>(out: &mut W, row: &CallRow) -> io::Result<()> {
    for refusal in Refusal::all() {
        let count = row.totals.counts.of(LineKind::Refused(refusal));
        if count > 0 {
            writeln!(
                out,
                "polorowan_refused_total{{link=\"{}\",cid=\"{}\",refusal=\"{refusal}\"}} {count}",
                row.link, row.cid
            )?;
        }
    }
    Ok(())
}

/// Writes the refusals of whole links.
fn write_link_refused<W: Write>(out: &mut W, totals: &Totals) -> io::Result<()> {
    write_head(
        out,
        "polorowan_link_refused_total",
        "counter",
        "Refusals of a link, with a CID or without.",
    )?;
    for (link, of_link) in &totals.links {
        writeln!(
            out,
            "polorowan_link_refused_total{{link=\"{link}\"}} {}",
            refused(&of_link.counts)
        )?;
    }
    Ok(())
}

/// Writes the feedback elements that links carried.
fn write_relayed<W: Write>(out: &mut W, totals: &Totals) -> io::Result<()> {
    write_head(
        out,
        "polorowan_relayed_total",
        "counter",
        "Feedback elements for this side's compressor.",
    )?;
    for (link, of_link) in &totals.links {
        let count = of_link.counts.of(LineKind::Relayed);
        writeln!(out, "polorowan_relayed_total{{link=\"{link}\"}} {count}")?;
    }
    Ok(())
}

/// Writes the samples of all lines.
fn write_lines<W: Write>(out: &mut W, totals: &Totals) -> io::Result<()> {
    write_head(
        out,
        "polorowan_lines_total",
        "counter",
        "Lines, by what they are.",
    )?;
    let counts = &totals.counts;
    for (kind, count) in [
        ("all", totals.lines),
        ("bad", counts.of(LineKind::BadLine)),
        ("long", counts.of(LineKind::LongLine)),
        ("no_answer", counts.of(LineKind::NoAnswer)),
    ] {
        writeln!(out, "polorowan_lines_total{{kind=\"{kind}\"}} {count}")?;
    }
    Ok(())
}

/// Writes the packets that calls got.
fn write_delivered<W: Write>(out: &mut W, rows: &[CallRow]) -> io::Result<()> {
    write_kind(
        out,
        "polorowan_delivered_total",
        "Rebuilt packets.",
        LineKind::Delivered,
        rows,
    )?;
    write_kind(
        out,
        "polorowan_stored_total",
        "Contexts made without a packet.",
        LineKind::Stored,
        rows,
    )
}

/// Writes the feedback of calls.
fn write_all_feedback<W: Write>(out: &mut W, rows: &[CallRow]) -> io::Result<()> {
    write_head(
        out,
        "polorowan_feedback_total",
        "counter",
        "Feedback for the compressor, by kind.",
    )?;
    for row in rows {
        write_feedback(out, row)?;
    }
    Ok(())
}

/// Writes the refusals of calls.
fn write_all_refused<W: Write>(out: &mut W, rows: &[CallRow]) -> io::Result<()> {
    write_head(
        out,
        "polorowan_refused_total",
        "counter",
        "Refusals, by name.",
    )?;
    for row in rows {
        write_refused(out, row)?;
    }
    Ok(())
}

/// Writes how often calls were refused since they got a packet.
fn write_silence<W: Write>(out: &mut W, rows: &[CallRow]) -> io::Result<()> {
    write_head(
        out,
        "polorowan_refused_since_delivery",
        "gauge",
        "Refusals since the last delivery.",
    )?;
    for row in rows {
        writeln!(
            out,
            "polorowan_refused_since_delivery{{link=\"{}\",cid=\"{}\"}} {}",
            row.link, row.cid, row.totals.refused
        )?;
    }
    Ok(())
}

/// Writes all metrics.
pub(crate) fn write_metrics<W: Write>(
    out: &mut W,
    totals: &Totals,
    rows: &[CallRow],
) -> io::Result<()> {
    write_delivered(out, rows)?;
    write_all_feedback(out, rows)?;
    write_all_refused(out, rows)?;
    write_silence(out, rows)?;
    write_link_refused(out, totals)?;
    write_relayed(out, totals)?;
    write_lines(out, totals)
}
