//! `totals`: the answer lines of a file, counted and written.

use crate::follow::{Follower, clear};
use crate::json::write_json;
use crate::metrics::write_metrics;
use crate::table::write_table;
use rohc_totals::{CallRow, LineKind, Totals, TotalsFault, call_rows, read_totals, watch_totals};
use rohctl_ground::{Ending, Screen, open_told, unprinted};
use std::io;
use std::io::{BufWriter, Write};
use std::rt::Files;
use std::time::Clock;

/// How a result is written.
#[derive(Clone, Copy, PartialEq, Eq)]
pub enum Form {
    /// A table.
    Table,
    /// JSON, one object a line.
    Json,
    /// The text format of Prometheus.
    Prometheus,
}

/// What is asked of `totals`.
#[derive(Clone, Copy)]
pub struct Asked<'a> {
    /// The answer lines; `-` is standard input.
    pub answers: &'a str,
    pub form: Form,
    /// Whether the table is drawn while the lines come.
    pub follow: bool,
}

/// The totals of the answer lines that are asked for.
fn totals_of<'a, R>(rt: &R, asked: &Asked<'a>, screen: Screen) -> Result<Totals, Ending<'a>>
where
    R: Files + Input + Print + Eprint + Clock + AllocGlobal,
{
    let mut lines = open_told(rt, asked.answers, screen.error && !asked.follow)?;
    let read = if asked.follow && screen.output {
        watch_totals(
            rt.alloc(),
            &mut lines,
            &mut Follower::new(rt, screen.colour),
        )
    } else {
        read_totals(rt.alloc(), &mut lines)
    };
    read.map_err(|fault| match fault {
        TotalsFault::NoMemory => Ending::Memory,
        TotalsFault::Read => lines.unread(asked.answers),
    })
}

/// Writes the totals in the form that is asked for.
fn write_totals<W: Write>(
    out: &mut W,
    asked: &Asked<'_>,
    screen: Screen,
    totals: &Totals,
    rows: &[CallRow],
) -> io::Result<()> {
    if asked.follow && screen.output {
        clear(out)?;
    }
    match asked.form {
        Form::Table => write_table(out, totals, rows, screen.colour)?,
        Form::Json => write_json(out, totals, rows)?,
        Form::Prometheus => write_metrics(out, totals, rows)?,
    }
    out.flush()
}

/// Prints the totals in the form that is asked for.
fn print_totals<R: Print + AllocGlobal>(
    rt: &R,
    asked: &Asked<'_>,
    screen: Screen,
    totals: &Totals,
    rows: &[CallRow],
) -> Result<(), Ending<'static>> {
    let Ok(mut out) = BufWriter::new(rt.alloc(), io::writer(rt)) else {
        return Err(Ending::Memory);
    };
    match write_totals(&mut out, asked, screen, totals, rows) {
        Ok(()) => Ok(()),
        Err(error) => Err(unprinted(&error)),
    }
}

/// Counts the answer lines of a file, and writes what there is.
pub fn run_totals<'a, R>(
    rt: &R,
    asked: &Asked<'a>,
    screen: Screen,
) -> Result<Ending<'a>, Ending<'a>>
where
    R: Files + Input + Print + Eprint + Clock + AllocGlobal,
{
    let totals = totals_of(rt, asked, screen)?;
    let rows = call_rows(rt.alloc(), &totals).map_err(|_| Ending::Memory)?;
    print_totals(rt, asked, screen, &totals, &rows)?;
    Ok(found(&totals, &rows))
}

/// Whether there is something to be looked at: a call that is refused and gets nothing, or a line that isn't good.
fn found(totals: &Totals, rows: &[CallRow]) -> Ending<'static> {
    let strange = totals
        .counts
        .of(LineKind::NoAnswer)
        .saturating_add(totals.counts.of(LineKind::BadLine))
        .saturating_add(totals.counts.of(LineKind::LongLine));
    if strange > 0 {
        return Ending::Findings;
    }
    for row in rows {
        if row.totals.refused > 0 {
            return Ending::Findings;
        }
    }
    Ending::Good
}
