//! A field, told to a reader.

use rohc_explain::{Field, FieldName};
use std::io;
use std::io::Write;

/// Writes the bits of a field.
fn write_bits<W: Write>(out: &mut W, field: &Field) -> io::Result<()> {
    for place in 0..field.count {
        let behind = field.count.saturating_sub(place).saturating_sub(1) % 32;
        write!(out, "{}", (field.value >> behind) % 2)?;
    }
    Ok(())
}

/// Writes the number of a field as people write it: an address with dots, and an SSRC, a profile or a checksum in
/// hexadecimal digits.
pub(crate) fn write_number<W: Write>(out: &mut W, field: &Field) -> io::Result<()> {
    let value = field.value;
    match (field.name, field.count) {
        (FieldName::Source | FieldName::Destination, 32) => {
            let [first, second, third, fourth] = value.to_be_bytes();
            write!(out, "{first}.{second}.{third}.{fourth}")
        }
        (FieldName::Ssrc, 32) => write!(out, "0x{value:08x}"),
        (FieldName::Profile, _) | (FieldName::UdpSum | FieldName::HeaderSum, 16) => {
            write!(out, "0x{value:04x}")
        }
        (FieldName::Crc | FieldName::TypeOctet | FieldName::FeedbackData, _) => {
            write!(out, "0x{value:02x}")
        }
        _ => write!(out, "{value}"),
    }
}

/// A writer that only counts the columns that a text takes.
#[derive(Drop)]
struct Columns {
    count: usize,
}

impl Write for Columns {
    fn write(&mut self, buf: &[u8]) -> io::Result<usize> {
        self.count = self.count.saturating_add(buf.len());
        Ok(buf.len())
    }

    fn flush(&mut self) -> io::Result<()> {
        Ok(())
    }
}

/// How many columns the number of a field has: as many as the longest address.
const NUMBER: usize = 15;

/// Writes the number of a field at the right end of its columns.
fn write_column<W: Write>(out: &mut W, field: &Field) -> io::Result<()> {
    let mut columns = Columns { count: 0 };
    write_number(&mut columns, field)?;
    for _ in columns.count..NUMBER {
        write!(out, " ")?;
    }
    write_number(out, field)
}

/// Writes the place, the name and the number of a field.
fn write_front<W: Write>(out: &mut W, field: &Field) -> io::Result<()> {
    write!(
        out,
        "  bit {:>4} {:>2} bits  {:<20}",
        field.first,
        field.count,
        field.name.name()
    )?;
    write_column(out, field)
}

/// Writes the row of a field of a packet, with its bits.
pub(crate) fn write_field<W: Write>(out: &mut W, field: &Field) -> io::Result<()> {
    write_front(out, field)?;
    write!(out, "  ")?;
    write_bits(out, field)?;
    writeln!(out, "")
}

/// Writes the row of a field of a rebuilt header, with what was in its place.
pub(crate) fn write_changed<W: Write>(
    out: &mut W,
    field: &Field,
    was: Option<&Field>,
) -> io::Result<()> {
    write_front(out, field)?;
    if let Some(was) = was {
        write!(out, "  was ")?;
        write_number(out, was)?;
    }
    writeln!(out, "")
}

/// Writes a comma, unless it is the first place.
pub(crate) fn write_comma<W: Write>(out: &mut W, place: usize) -> io::Result<()> {
    if place > 0 { write!(out, ",") } else { Ok(()) }
}

/// Writes a field as an object, with what was in its place.
pub(crate) fn write_field_object<W: Write>(
    out: &mut W,
    field: &Field,
    was: Option<&Field>,
) -> io::Result<()> {
    write!(
        out,
        "{{\"name\":\"{}\",\"first\":{},\"bits\":{},\"value\":{},\"text\":\"",
        field.name.name(),
        field.first,
        field.count,
        field.value
    )?;
    write_number(out, field)?;
    write!(out, "\"")?;
    if let Some(was) = was {
        write!(out, ",\"was\":{}", was.value)?;
    }
    write!(out, "}}")
}
