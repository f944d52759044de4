//! The links of a gateway and its worst calls, as text for people.

use crate::calls_text::{pad_to, put_call, put_call_columns};
use crate::page::{Page, WORST, write_duration, write_reasons};
use crate::rows::{CallRow, LinkRow, MOST_WORST, refusals_of};
use crate::scan::Scan;
use std::alloc::Global;
use std::io;
use std::io::Write;

/// Writes the gateway's version, and for how long it runs.
fn write_start<W: Write>(out: &mut W, page: &Page<'_>) -> io::Result<()> {
    write!(out, "rohc-gateway {}, running for ", page.version)?;
    write_duration(out, page.calls.now.saturating_sub(page.figures.begun))?;
    let draining = if page.figures.draining {
        "; draining: no new call is accepted"
    } else {
        ""
    };
    writeln!(out, "{draining}\n")
}

/// Writes the line of a link. Its name comes last, since it may have any width.
fn write_link<W: Write>(
    out: &mut W,
    link: u16,
    row: &LinkRow,
    name: Option<&str>,
) -> io::Result<()> {
    write!(
        out,
        "  {link:<5} {:>9} {:>6} {:>6} {:>6} {:>10} {:>9} ",
        row.per_second, row.states.full, row.states.fixed, row.states.no, row.delivered, row.refused
    )?;
    match row.saved {
        Some(saved) => write!(out, "{saved:>4} %")?,
        None => write!(out, "  none")?,
    }
    match name {
        Some(name) => writeln!(out, "  {name}"),
        None => writeln!(out, ""),
    }
}

/// Writes the links.
fn write_links<W: Write>(out: &mut W, page: &Page<'_>, scan: &Scan) -> io::Result<()> {
    writeln!(
        out,
        "  Link  Packets/s   Full Static     No  Delivered   Refused  Saved  Name"
    )?;
    for place in 0..scan.link_count() {
        if let Some(seen) = scan.link_at(place)
            && let Some(row) = page.calls.link_row(&seen)
        {
            write_link(out, seen.link, &row, page.name_of(seen.link))?;
        }
    }
    Ok(())
}

/// Writes the line of a call, its refusals by name.
fn write_call<W: Write>(alloc: Global, out: &mut W, row: &CallRow<'_>) -> io::Result<()> {
    let mut line = Vec::new(alloc);
    put_call(&mut line, row)?;
    match row.counts {
        Some(counts) => {
            let (delivered, repaired, lost) = (
                counts.delivered,
                counts.repaired,
                counts.sequence.lost,
            );
            write!(&mut line, "{delivered:>9} {repaired:>8} {lost:>6}")?;
            if refusals_of(counts) > 0 {
                write!(&mut line, "  ")?;
                write_reasons(&mut line, counts)?;
            }
        }
        None => write!(&mut line, "{:>9} {:>8} {:>6}", 0, 0, 0)?,
    }
    out.write_all(&line)?;
    writeln!(out, "")
}

/// Writes the calls with the most refusals.
fn write_worst<W: Write>(
    alloc: Global,
    out: &mut W,
    page: &Page<'_>,
    scan: &mut Scan,
) -> io::Result<()> {
    let mut columns = Vec::new(alloc);
    put_call_columns(&mut columns, page.calls.has_timed)?;
    out.write_all(&columns)?;
    writeln!(out, "Delivered Repaired   Lost  Refused")?;
    let Some(ranking) = scan.rankings.get_mut(WORST) else {
        return Ok(());
    };
    for _ in 0..MOST_WORST {
        if let Some((link, cid)) = ranking.next()
            && let Some(row) = page.calls.row_of(link, cid)
        {
            write_call(alloc, out, &row)?;
        }
    }
    Ok(())
}

/// Writes the links, and the calls with the most refusals, the worst first: what the page shows of them.
pub(crate) fn write_top<W: Write>(
    alloc: Global,
    out: &mut W,
    page: &Page<'_>,
    scan: &mut Scan,
) -> io::Result<()> {
    write_start(out, page)?;
    write_links(out, page, scan)?;
    writeln!(out, "")?;
    write_worst(alloc, out, page, scan)
}
