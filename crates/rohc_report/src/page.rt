//! The page of a report.

use crate::call::{feedback_in, outcome_in, packets_in, refused_in};
use crate::calls::Calls;
use crate::drawn::Drawn;
use crate::escape::write_escaped;
use crate::section::{write_call, write_legend};
use crate::style::{POLICY, STYLE};
use crate::table::{write_number, write_table};
use crate::worst::CallRow;
use rohc_context::Refusal;
use rohc_explain::cause_of;
use std::alloc::Global;
use std::io;
use std::io::Write;

/// What a report is of.
#[derive(Clone, Copy)]
pub struct Report<'a> {
    /// The script or the capture, and the links file, by their names.
    pub input: &'a str,
    pub links: &'a str,
    /// Whether the input is a capture, in which packets stand in frames and not in lines.
    pub is_capture: bool,
    /// The frames of a capture that no rule speaks of, or that carry no packet.
    pub frames_left_out: u64,
    pub calls: &'a Calls,
    /// All calls, the worst first.
    pub rows: &'a [CallRow],
    /// Those of them that are drawn.
    pub drawn: &'a [Drawn],
}

impl Report<'_> {
    /// What a packet stands in.
    fn unit(&self) -> &'static str {
        if self.is_capture { "frame" } else { "line" }
    }

    /// The calls that are silent at the end.
    fn silent(&self) -> u64 {
        self.rows.iter().fold(
            0u64,
            |sum, row| sum.saturating_add(u64::from(row.totals.silent > 0)),
        )
    }
}

/// Writes what stands before the body.
fn write_head<W: Write>(alloc: Global, out: &mut W, report: &Report<'_>) -> io::Result<()> {
    write!(
        out,
        "<!DOCTYPE html>\n<html lang=\"en\">\n<head>\n<meta charset=\"utf-8\">\n<meta http-equiv=\"Content-Security-Policy\" content=\"{POLICY}\">\n<meta name=\"viewport\" content=\"width=device-width, initial-scale=1\">\n<meta name=\"referrer\" content=\"no-referrer\">\n<title>ROHC report: "
    )?;
    write_escaped(alloc, out, report.input.as_bytes())?;
    write!(out, "</title>\n<style>{STYLE}</style>\n</head>\n<body>\n")
}

/// Writes the head of the page.
fn write_header<W: Write>(alloc: Global, out: &mut W, report: &Report<'_>) -> io::Result<()> {
    write!(
        out,
        "<header>\n<h1>What happened to each call</h1>\n<p class=\"quiet file\">"
    )?;
    write_escaped(alloc, out, report.input.as_bytes())?;
    write!(out, ", with the links of ")?;
    write_escaped(alloc, out, report.links.as_bytes())?;
    write!(
        out,
        "</p>\n<nav aria-label=\"Sections\"><a href=\"#totals\">Totals</a><a href=\"#worst\">Worst calls</a><a href=\"#all\">All calls</a></nav>\n</header>\n<main>\n"
    )
}

/// Writes a number below its name, marked if it is bad and not 0.
pub fn write_tile<W: Write>(out: &mut W, name: &str, number: u64, is_bad: bool) -> io::Result<()> {
    let class = if is_bad && number > 0 {
        " class=\"bad\""
    } else {
        ""
    };
    write!(out, "<li{class}><span>{name}</span> <strong>")?;
    write_number(out, number)?;
    writeln!(out, "</strong></li>")
}

/// The totals: the name and the number of each, and whether it is bad if there are any.
fn tiles_of(report: &Report<'_>) -> [(&'static str, u64, bool); 11] {
    let calls = report.calls;
    let packets = packets_in(&calls.all).saturating_sub(calls.resets);
    let last = if report.is_capture {
        ("Frames skipped", report.frames_left_out, false)
    } else {
        ("Bad lines", calls.bad, true)
    };
    [
        ("Packets", packets, false),
        ("Calls", report.rows.len() as u64, false),
        ("Silent calls", report.silent(), true),
        ("Delivered", outcome_in(&calls.all, 0), false),
        ("Delivered after repair", calls.repaired, false),
        ("Delivered late", calls.late, false),
        ("Refused", refused_in(&calls.all), true),
        (
            "Stored, no packet to deliver",
            outcome_in(&calls.all, 31),
            false,
        ),
        ("Feedback sent", feedback_in(&calls.all), false),
        ("Feedback relayed", calls.all.relayed, false),
        last,
    ]
}

/// Writes the totals.
fn write_totals<W: Write>(out: &mut W, report: &Report<'_>) -> io::Result<()> {
    writeln!(
        out,
        "<section aria-labelledby=\"totals\">\n<h2 id=\"totals\">Totals</h2>\n<ul class=\"tiles\">"
    )?;
    for (name, number, is_bad) in tiles_of(report) {
        write_tile(out, name, number, is_bad)?;
    }
    writeln!(out, "</ul>")
}

/// Writes the row of a refusal.
fn write_refusal<W: Write>(
    alloc: Global,
    out: &mut W,
    refusal: Refusal,
    count: u64,
) -> io::Result<()> {
    let cause = cause_of(refusal);
    write!(out, "<tr><th scope=\"row\">{refusal}</th><td>")?;
    write_number(out, count)?;
    write!(out, "</td><td class=\"text\">")?;
    write_escaped(alloc, out, cause.meaning.as_bytes())?;
    write!(out, "</td><td class=\"text\">")?;
    write_escaped(alloc, out, cause.usual.as_bytes())?;
    writeln!(out, "</td><td class=\"text\">{}</td></tr>", cause.section)
}

/// Writes the refusals that there were, in the order of their numbers.
fn write_refusals<W: Write>(alloc: Global, out: &mut W, report: &Report<'_>) -> io::Result<()> {
    if refused_in(&report.calls.all) > 0 {
        writeln!(
            out,
            "<div class=\"wide\" role=\"region\" aria-label=\"Refusals\" tabindex=\"0\"><table id=\"refusals\">\n<thead><tr><th scope=\"col\" class=\"text\">Refusal</th><th scope=\"col\">Packets</th><th scope=\"col\" class=\"text\">Meaning</th><th scope=\"col\" class=\"text\">Usual cause</th><th scope=\"col\" class=\"text\">Defined in</th></tr></thead>\n<tbody>"
        )?;
        for refusal in Refusal::all() {
            let count = report.calls.refusals(refusal);
            if count > 0 {
                write_refusal(alloc, out, refusal, count)?;
            }
        }
        writeln!(out, "</tbody></table></div>")?;
    }
    writeln!(out, "</section>")
}

/// Writes how many calls are drawn, and in which order.
fn write_order<W: Write>(out: &mut W, report: &Report<'_>) -> io::Result<()> {
    if report.drawn.len() < report.rows.len() {
        write!(out, "The {} worst of ", report.drawn.len())?;
        write_number(out, report.rows.len() as u64)?;
        write!(
            out,
            " calls are drawn; the <a href=\"#all\">table</a> lists all. "
        )?;
    } else {
        write!(out, "All calls are drawn. ")?;
    }
    writeln!(
        out,
        "Silent calls come first, then those with the most refusals. To see the details of a packet, click it, or move to it with Tab and press Enter.</p>"
    )
}

/// Writes the calls that are drawn.
fn write_worst<W: Write>(alloc: Global, out: &mut W, report: &Report<'_>) -> io::Result<()> {
    write!(
        out,
        "<section aria-labelledby=\"worst\">\n<h2 id=\"worst\">The worst calls</h2>\n<p>"
    )?;
    write_order(out, report)?;
    write_legend(out)?;
    for (row, drawn) in report.rows.iter().zip(report.drawn) {
        write_call(alloc, out, report.unit(), row, drawn)?;
    }
    writeln!(out, "</section>")
}

/// Writes the page of a report. Nothing in it comes from elsewhere, and no script runs in it.
pub fn write_page<W: Write>(alloc: Global, out: &mut W, report: &Report<'_>) -> io::Result<()> {
    write_head(alloc, out, report)?;
    write_header(alloc, out, report)?;
    write_totals(out, report)?;
    write_refusals(alloc, out, report)?;
    write_worst(alloc, out, report)?;
    write_table(out, report.calls, report.rows, report.drawn.len())?;
    writeln!(
        out,
        "</main>\n<footer><p class=\"quiet\">Written by rohctl report.</p></footer>\n</body>\n</html>"
    )
}
