//! A drawn call: its numbers, its time line, and what is told of its packets.

use crate::call::CallTotals;
use crate::drawn::{Drawn, Told};
use crate::escape::write_escaped;
use crate::lanes::Lane;
use crate::moment::write_moment;
use crate::picture::{write_name, write_picture};
use crate::table::write_number;
use crate::worst::CallRow;
use rohc_context::Refusal;
use std::alloc::Global;
use std::io;
use std::io::Write;

/// Writes what the colours mean.
pub(crate) fn write_legend<W: Write>(out: &mut W) -> io::Result<()> {
    writeln!(out, "<ul class=\"legend\" aria-label=\"Colors\">")?;
    for lane in Lane::ALL {
        let (class, name) = lane.names();
        writeln!(
            out,
            "<li><svg viewBox=\"0 0 12 12\" aria-hidden=\"true\"><rect class=\"{class}\" width=\"12\" height=\"12\" rx=\"2\"/></svg>{name}</li>"
        )?;
    }
    writeln!(out, "</ul>")
}

/// Writes a number and what it counts, if there is any.
fn write_fact<W: Write>(out: &mut W, number: u64, what: &str) -> io::Result<()> {
    if number > 0 {
        write!(out, ", ")?;
        write_number(out, number)?;
        write!(out, " {what}")?;
    }
    Ok(())
}

/// Writes how many packets of a call are refused, by the numbers of their refusals.
fn write_refused<W: Write>(out: &mut W, totals: &CallTotals) -> io::Result<()> {
    for refusal in Refusal::all() {
        let count = totals.outcome(refusal.number());
        if count > 0 {
            write!(out, ", ")?;
            write_number(out, count)?;
            write!(out, " refused {refusal}")?;
        }
    }
    Ok(())
}

/// Writes since when a call is silent, if it is.
fn write_silence<W: Write>(out: &mut W, unit: &str, totals: &CallTotals) -> io::Result<()> {
    let Some((number, _)) = totals.since else {
        return Ok(());
    };
    write!(out, ". <b>Silent since {unit} {number}</b>: ")?;
    write_number(out, totals.silent)?;
    write!(out, " refused in a row")
}

/// Writes what became of a call's packets.
fn write_facts<W: Write>(out: &mut W, unit: &str, totals: &CallTotals) -> io::Result<()> {
    write!(out, "<p class=\"facts\">")?;
    write_number(out, totals.packets())?;
    write!(out, " packets")?;
    let facts = [
        (totals.outcome(0), "delivered"),
        (totals.repaired, "of them repaired"),
        (totals.late, "of them late"),
        (totals.outcome(31), "stored"),
    ];
    for (number, what) in facts {
        write_fact(out, number, what)?;
    }
    write_refused(out, totals)?;
    write_silence(out, unit, totals)?;
    writeln!(out, ".</p>")
}

/// Writes when a call begins and ends, and how long it takes, in seconds.
fn write_times<W: Write>(out: &mut W, unit: &str, drawn: &Drawn) -> io::Result<()> {
    let (first, last) = (drawn.axis.first, drawn.axis.last);
    let span = last.saturating_sub(first);
    write!(out, "<div class=\"times\"><span>")?;
    write_moment(out, unit, first)?;
    write!(
        out,
        "</span><span>{}.{:03} s</span><span>",
        span / 1000,
        span % 1000
    )?;
    write_moment(out, unit, last)?;
    writeln!(out, "</span></div>")
}

/// Writes what is told of a packet.
fn write_told<W: Write>(
    alloc: Global,
    out: &mut W,
    unit: &str,
    drawn: &Drawn,
    told: &Told,
) -> io::Result<()> {
    write!(out, "<details><summary>")?;
    write_name(out, unit, told)?;
    write!(
        out,
        "</summary><pre id=\"p-{}-{}-{}\" tabindex=\"0\">",
        drawn.link, drawn.cid, told.number
    )?;
    write_escaped(alloc, out, &told.text)?;
    writeln!(out, "</pre></details>")
}

/// Writes what is told of the packets, and how many are left out.
fn write_packets<W: Write>(
    alloc: Global,
    out: &mut W,
    unit: &str,
    row: &CallRow,
    drawn: &Drawn,
    told: &[&Told],
) -> io::Result<()> {
    let left_out = row.totals.packets().saturating_sub(told.len() as u64);
    write!(out, "<details><summary>{} packets explained", told.len())?;
    if left_out > 0 {
        write!(out, ", ")?;
        write_number(out, left_out)?;
        write!(out, " in the middle left out")?;
    }
    writeln!(out, "</summary>")?;
    for packet in told {
        write_told(alloc, out, unit, drawn, packet)?;
    }
    writeln!(out, "</details>")
}

/// Writes the names of the lanes of a call's picture, and before them how to pass it by.
fn write_names<W: Write>(out: &mut W, row: &CallRow) -> io::Result<()> {
    writeln!(
        out,
        "<a class=\"skip\" href=\"#e-{}-{}\">Skip the packets of this call</a>\n<div class=\"strip\"><div class=\"names\" aria-hidden=\"true\"><span>state</span><span>delivered</span><span>repaired</span><span>refused</span><span>feedback</span></div>",
        row.link, row.cid
    )
}

/// Writes what is known of a drawn call, of whose packets these are told.
fn write_body<W: Write>(
    alloc: Global,
    out: &mut W,
    unit: &str,
    row: &CallRow,
    drawn: &Drawn,
    told: &[&Told],
) -> io::Result<()> {
    write_facts(out, unit, &row.totals)?;
    write_names(out, row)?;
    write_picture(out, unit, drawn, told)?;
    write_times(out, unit, drawn)?;
    writeln!(out, "</div>")?;
    write_packets(alloc, out, unit, row, drawn, told)
}

/// Writes a drawn call.
pub(crate) fn write_call<W: Write>(
    alloc: Global,
    out: &mut W,
    unit: &str,
    row: &CallRow,
    drawn: &Drawn,
) -> io::Result<()> {
    let (link, cid) = (row.link, row.cid);
    let told = drawn.told(alloc)?;
    writeln!(
        out,
        "<article id=\"c-{link}-{cid}\">\n<h3>Link {link}, CID {cid}</h3>"
    )?;
    write_body(alloc, out, unit, row, drawn, &told)?;
    writeln!(out, "<span id=\"e-{link}-{cid}\"></span>\n</article>")
}
