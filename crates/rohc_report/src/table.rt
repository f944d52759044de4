//! The table of all calls, and numbers as a page has them.

ghost use Rattle.std.specs.Prelude.{◌<◌};

use crate::call::{CallTotals, outcome_in, packets_in, refused_in};
use crate::calls::Calls;
use crate::worst::CallRow;
use rohc_counts::Counts;
use std::io;
use std::io::Write;

/// The columns of numbers behind the call.
const COLUMNS: [&str; 11] = [
    "Packets",
    "Delivered",
    "Repaired",
    "Late",
    "Stored",
    "Refused",
    "ACK",
    "NACK",
    "STATIC-NACK",
    "Silent",
    "Since",
];

/// The greatest power of 1,000 up to a number, or 1.
fn unit_of(number: u64) -> u64
    ensures { 0 < result }
{
    match number {
        0..=999 => 1,
        1_000..=999_999 => 1_000,
        1_000_000..=999_999_999 => 1_000_000,
        1_000_000_000..=999_999_999_999 => 1_000_000_000,
        1_000_000_000_000..=999_999_999_999_999 => 1_000_000_000_000,
        1_000_000_000_000_000..=999_999_999_999_999_999 => 1_000_000_000_000_000,
        _ => 1_000_000_000_000_000_000,
    }
}

/// Writes a number with a comma before each three digits.
pub fn write_number<W: Write>(out: &mut W, number: u64) -> io::Result<()> {
    let mut unit = unit_of(number);
    write!(out, "{}", number / unit)?;
    for _ in 0..6 {
        if unit < 1000 {
            break;
        }
        unit = (unit / 1000).max(1);
        write_group(out, number, unit)?;
    }
    Ok(())
}

/// Writes the three digits of a number at this unit, behind a comma.
fn write_group<W: Write>(out: &mut W, number: u64, unit: u64) -> io::Result<()>
    requires { 0 < unit }
{
    write!(out, ",{:03}", number / unit % 1000)
}

/// Writes a cell with a number.
fn write_cell<W: Write>(out: &mut W, number: u64) -> io::Result<()> {
    write!(out, "<td>")?;
    write_number(out, number)?;
    write!(out, "</td>")
}

/// Writes the cells that a call and the whole have in common.
fn write_counts<W: Write>(
    out: &mut W,
    counts: &Counts,
    repaired: u64,
    late: u64,
) -> io::Result<()> {
    let [ack, nack, static_nack, plain] = counts.words;
    let cells = [
        packets_in(counts),
        outcome_in(counts, 0),
        repaired,
        late,
        outcome_in(counts, 31),
        refused_in(counts),
        ack.saturating_add(plain),
        nack,
        static_nack,
    ];
    for number in cells {
        write_cell(out, number)?;
    }
    Ok(())
}

/// Writes the name of a call, which leads to its picture if it is drawn.
fn write_call<W: Write>(out: &mut W, row: &CallRow, is_drawn: bool) -> io::Result<()> {
    let (link, cid) = (row.link, row.cid);
    if is_drawn {
        write!(
            out,
            "<th scope=\"row\"><a href=\"#c-{link}-{cid}\">{link}/{cid}</a></th>"
        )
    } else {
        write!(out, "<th scope=\"row\">{link}/{cid}</th>")
    }
}

/// Writes the cells about the refusals since a call's last delivery, and its last refusal.
fn write_silence<W: Write>(out: &mut W, totals: &CallTotals) -> io::Result<()> {
    write!(out, "<td class=\"now\">")?;
    write_number(out, totals.silent)?;
    match totals.since {
        Some((number, _)) => write!(out, "</td><td>{number}</td>")?,
        None => write!(out, "</td><td></td>")?,
    }
    match totals.refusal {
        Some(refusal) => write!(out, "<td class=\"text\">{refusal}</td>"),
        None => write!(out, "<td></td>"),
    }
}

/// Writes the row of a call.
fn write_row<W: Write>(out: &mut W, row: &CallRow, is_drawn: bool) -> io::Result<()> {
    let totals = &row.totals;
    let class = if totals.silent > 0 {
        " class=\"silent\""
    } else {
        ""
    };
    write!(out, "<tr{class}>")?;
    write_call(out, row, is_drawn)?;
    write_counts(out, &totals.counts, totals.repaired, totals.late)?;
    write_silence(out, totals)?;
    writeln!(out, "</tr>")
}

/// Writes a row of totals.
fn write_sum<W: Write>(
    out: &mut W,
    name: &str,
    counts: &Counts,
    repaired: u64,
    late: u64,
) -> io::Result<()> {
    write!(out, "<tr class=\"sum\"><th scope=\"row\">{name}</th>")?;
    write_counts(out, counts, repaired, late)?;
    writeln!(out, "<td></td><td></td><td></td></tr>")
}

/// Writes the head of the table of all calls.
fn write_columns<W: Write>(out: &mut W) -> io::Result<()> {
    write!(out, "<thead><tr><th scope=\"col\" class=\"text\">Call</th>")?;
    for column in COLUMNS {
        write!(out, "<th scope=\"col\">{column}</th>")?;
    }
    writeln!(
        out,
        "<th scope=\"col\" class=\"text\">Last refusal</th></tr></thead>\n<tbody>"
    )
}

/// Writes the table of all calls, the worst first, of which so many are drawn.
pub(crate) fn write_table<W: Write>(
    out: &mut W,
    calls: &Calls,
    rows: &[CallRow],
    drawn: usize,
) -> io::Result<()> {
    writeln!(
        out,
        "<section aria-labelledby=\"all\">\n<h2 id=\"all\">All calls</h2>\n<div class=\"wide\" role=\"region\" aria-label=\"All calls\" tabindex=\"0\"><table id=\"calls\">"
    )?;
    write_columns(out)?;
    for (place, row) in rows.iter().enumerate() {
        write_row(out, row, place < drawn)?;
    }
    write_sum(out, "No call", &calls.loose, 0, 0)?;
    write_sum(out, "All", &calls.all, calls.repaired, calls.late)?;
    writeln!(out, "</tbody></table></div>\n</section>")
}
