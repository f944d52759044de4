//! The time line of a call as a picture in SVG.

use crate::axis::{CELLS, HIT_WIDTH, hit_of, width_of, x_of};
use crate::became::Became;
use crate::drawn::{Cell, Drawn, Told};
use crate::lanes::Lane;
use crate::moment::write_moment;
use rohc_context::ContextState;
use std::io;
use std::io::Write;

/// Writes a mark of a path: cells from this one on, so many, and so high above a base.
fn write_mark<W: Write>(
    out: &mut W,
    cell: usize,
    count: usize,
    base: u32,
    height: u32,
) -> io::Result<()> {
    let cell = cell.min(CELLS - 1);
    let x = x_of(cell);
    let width = width_of(cell, count);
    write!(out, "M{x} {base}v-{height}h{width}v{height}z")
}

/// Marks that stand side by side and are equally high.
#[derive(Clone, Copy)]
struct Marks {
    cell: usize,
    count: usize,
    height: u32,
}

/// Writes the path of a lane, if anything is in it.
fn write_lane<W: Write>(out: &mut W, lane: Lane, cells: &[Cell]) -> io::Result<()> {
    let (class, name) = lane.names();
    let mut open = false;
    let mut state: Option<ContextState> = None;
    let mut marks = Marks {
        cell: 0,
        count: 0,
        height: 0,
    };
    for (place, cell) in cells.iter().enumerate() {
        state = cell.state.or(state);
        let height = lane.height(cell, state);
        if height == marks.height {
            marks.count = marks.count.saturating_add(1);
            continue;
        }
        open = write_marks(out, class, lane, &marks, open)?;
        marks = Marks {
            cell: place,
            count: 1,
            height,
        };
    }
    if write_marks(out, class, lane, &marks, open)? {
        write!(out, "\"><title>{name}</title></path>")?;
    }
    Ok(())
}

/// Writes marks, and before the first of a lane the front of its path. Returns whether that stands there.
fn write_marks<W: Write>(
    out: &mut W,
    class: &str,
    lane: Lane,
    marks: &Marks,
    open: bool,
) -> io::Result<bool> {
    if marks.height == 0 {
        return Ok(open);
    }
    if !open {
        write!(out, "<path class=\"{class}\" d=\"")?;
    }
    write_mark(out, marks.cell, marks.count, lane.base(), marks.height)?;
    Ok(true)
}

/// Where the packets of a kind stand: from where on, and how high.
fn band_of(became: Became) -> (u32, u32) {
    match became {
        Became::Delivered | Became::Stored | Became::Front => (20, 27),
        Became::Repaired | Became::Late => (49, 14),
        Became::Refused(_) => (65, 21),
    }
}

/// Writes what a packet is called: its line, its time, and what became of it.
pub(crate) fn write_name<W: Write>(out: &mut W, unit: &str, told: &Told) -> io::Result<()> {
    write!(out, "{unit} {}, ", told.number)?;
    write_moment(out, unit, told.moment)?;
    write!(out, ": {}", told.became.name())?;
    match told.became {
        Became::Refused(refusal) => write!(out, " {refusal}"),
        _ => Ok(()),
    }
}

/// Writes the link from a packet in the picture to what is told of it.
fn write_link<W: Write>(out: &mut W, unit: &str, drawn: &Drawn, told: &Told) -> io::Result<()> {
    let (y, height) = band_of(told.became);
    write!(
        out,
        "<a href=\"#p-{}-{}-{}\"><rect x=\"{}\" y=\"{y}\" width=\"{HIT_WIDTH}\" height=\"{height}\"><title>",
        drawn.link,
        drawn.cid,
        told.number,
        hit_of(told.cell.min(CELLS - 1))
    )?;
    write_name(out, unit, told)?;
    writeln!(out, "</title></rect></a>")
}

/// Writes the picture.
pub(crate) fn write_picture<W: Write>(
    out: &mut W,
    unit: &str,
    drawn: &Drawn,
    told: &[&Told],
) -> io::Result<()> {
    writeln!(
        out,
        "<svg viewBox=\"0 0 720 104\" preserveAspectRatio=\"none\" role=\"group\" aria-label=\"Time line of link {}, CID {}\">",
        drawn.link, drawn.cid
    )?;
    for lane in Lane::ALL {
        write_lane(out, lane, &drawn.cells)?;
    }
    writeln!(out, "")?;
    for packet in told {
        write_link(out, unit, drawn, packet)?;
    }
    writeln!(out, "</svg>")
}
