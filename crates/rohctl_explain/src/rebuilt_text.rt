//! A packet that was delivered, told to a reader and as members of a JSON object.

use crate::element_text::write_hex;
use crate::field_text::{write_changed, write_comma, write_field_object};
use crate::rebuilt::{Rebuilt, RebuiltField};
use std::io;
use std::io::Write;

/// Writes the octets of a packet: its header, a blank if there is one, the first octets of its payload, and how many follow.
fn write_octets<W: Write>(out: &mut W, packet: &Rebuilt) -> io::Result<()> {
    write!(out, "packet: ")?;
    write_hex(out, packet.head.as_slice())?;
    if packet.has_header() {
        write!(out, " ")?;
    }
    write_hex(out, packet.front.as_slice())?;
    match packet.more {
        0 => writeln!(out, ""),
        1 => writeln!(out, " and 1 more octet"),
        more => writeln!(out, " and {more} more octets"),
    }
}

/// The fields of the header. Lack of memory is an error as a writer gives it.
fn fields_of(packet: &Rebuilt) -> io::Result<Vec<RebuiltField>> {
    packet
        .fields()
        .map_err(|_| io::Error::from(io::ErrorKind::OutOfMemory))
}

/// Writes a packet that was delivered, and the fields of its header.
pub(crate) fn write_rebuilt<W: Write>(out: &mut W, packet: &Rebuilt) -> io::Result<()> {
    write_octets(out, packet)?;
    for told in &fields_of(packet)? {
        write_changed(out, &told.field, told.was.as_ref())?;
    }
    Ok(())
}

/// Writes a packet that was delivered as a member.
pub(crate) fn write_rebuilt_json<W: Write>(out: &mut W, packet: &Rebuilt) -> io::Result<()> {
    write!(out, ",\"packet\":{{\"head\":\"")?;
    write_hex(out, packet.head.as_slice())?;
    write!(out, "\",\"payload\":\"")?;
    write_hex(out, packet.front.as_slice())?;
    write!(out, "\",\"more\":{},\"fields\":[", packet.more)?;
    for (place, told) in fields_of(packet)?.iter().enumerate() {
        write_comma(out, place)?;
        write_field_object(out, &told.field, told.was.as_ref())?;
    }
    write!(out, "]}}")
}
