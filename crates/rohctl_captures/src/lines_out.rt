//! The lines of a script that is written, and the list of where each comes from.

use hex::encode_to_slice;
use std::io;
use std::io::Write;

/// How many octets are written as digits at once.
const PIECE: usize = 256;

/// Writes octets as digits; `-` stands for none.
fn write_digits<W: Write>(out: &mut W, octets: &[u8]) -> io::Result<()> {
    if octets.is_empty() {
        return out.write_all(b"-");
    }
    let mut text = [0u8; 2 * PIECE];
    for piece in octets.chunks(PIECE) {
        if let Some(digits) = text.get_mut(..piece.len().saturating_mul(2))
            && encode_to_slice(piece, digits).is_ok()
        {
            out.write_all(digits)?;
        }
    }
    Ok(())
}

/// Writes the line of an arrival.
pub(crate) fn write_line<W: Write>(
    out: &mut W,
    link: u16,
    moment: u64,
    packet: &[u8],
) -> io::Result<()> {
    write!(out, "arrive {link} {moment} ")?;
    write_digits(out, packet)?;
    writeln!(out, "")
}

/// Where the lines of a script go.
#[derive(Drop)]
pub(crate) struct Lines<S: Write + Drop, L: Write + Drop> {
    pub(crate) script: S,
    pub(crate) list: L,
    /// The lines of the script so far.
    pub(crate) lines: u64,
}

impl<S: Write + Drop, L: Write + Drop> Lines<S, L> {
    /// Writes a packet that arrived, in the frame with this number, which begins at this octet of a capture, or in the line
    /// with this number.
    pub(crate) fn arrived(
        &mut self,
        from: (u64, Option<u64>),
        link: u16,
        moment: u64,
        packet: &[u8],
    ) -> io::Result<()> {
        write_line(&mut self.script, link, moment, packet)?;
        self.lines = self.lines.saturating_add(1);
        let line = self.lines;
        let number = from.0;
        match from.1 {
            Some(place) => writeln!(self.list, "{line} {number} {place}"),
            None => writeln!(self.list, "{line} {number}"),
        }
    }

    /// Writes the reset of a link.
    pub(crate) fn reset(&mut self, link: u16) -> io::Result<()> {
        writeln!(self.script, "reset {link}")?;
        self.lines = self.lines.saturating_add(1);
        Ok(())
    }

    /// Flushes both.
    pub(crate) fn flush(&mut self) -> io::Result<()> {
        self.script.flush()?;
        self.list.flush()
    }
}
