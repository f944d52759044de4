//! A moment, as the page shows it.

use std::io;
use std::io::Write;

/// Writes a moment: the time of day of a frame, UTC, or the milliseconds of a line.
pub(crate) fn write_moment<W: Write>(out: &mut W, unit: &str, moment: u64) -> io::Result<()> {
    if unit != "frame" {
        return write!(out, "{moment} ms");
    }
    let seconds = moment / 1000;
    write!(
        out,
        "{:02}:{:02}:{:02}.{:03}",
        seconds / 3600 % 24,
        seconds / 60 % 60,
        seconds % 60,
        moment % 1000
    )
}
