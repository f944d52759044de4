//! A feedback element, told to a reader and as a JSON object.

use crate::element::{Meaning, ToldElement, meaning_of};
use rohc_feedback::{Element, Reading, Word};
use rohc_frame::CidKind;
use std::io;
use std::io::Write;

/// The name of a kind of feedback.
fn word_name(word: Word) -> &'static str {
    match word {
        Word::Ack => "ACK",
        Word::Nack => "NACK",
        Word::StaticNack => "STATIC-NACK",
        Word::Plain => "FEEDBACK-1",
    }
}

/// Writes octets as hexadecimal digits.
pub(crate) fn write_hex<W: Write>(out: &mut W, octets: &[u8]) -> io::Result<()> {
    for octet in octets {
        write!(out, "{octet:02x}")?;
    }
    Ok(())
}

/// Writes the kind, the low 12 bits of the SN, the CID, and the mode and the options of FEEDBACK-2, which is sent in O mode
/// (RFC 3095 5.7.6.1).
fn write_reading<W: Write>(out: &mut W, reading: &Reading) -> io::Result<()> {
    write!(out, "{}", word_name(reading.word))?;
    if let Some(sn) = reading.sn {
        write!(out, ", SN {sn}")?;
    }
    write!(out, ", CID {}", reading.cid)?;
    if reading.word == Word::Plain {
        return Ok(());
    }
    write!(out, ", mode O, options ")?;
    if reading.sn.is_none() {
        write!(out, "SN-NOT-VALID and ")?;
    }
    write!(out, "CRC")
}

/// Writes what an element means.
fn write_meaning<W: Write>(out: &mut W, meaning: &Meaning) -> io::Result<()> {
    match meaning {
        Meaning::Read(reading) if reading.word == Word::Plain => write_reading(out, reading),
        Meaning::Read(reading) => {
            write_reading(out, reading)?;
            write!(out, " (right)")
        }
        Meaning::WrongCrc { reading, crc } => {
            write_reading(out, reading)?;
            write!(out, " (wrong; expected {crc:02x})")
        }
        Meaning::Unknown => write!(
            out,
            "unknown: neither FEEDBACK-1 with 00 nor FEEDBACK-2 of O mode with the CRC option"
        ),
    }
}

/// Writes an element: how long it is, what it means, and its octets.
pub(crate) fn write_element<W: Write>(
    out: &mut W,
    octets: &[u8],
    meaning: &Meaning,
) -> io::Result<()> {
    write!(out, "{} octets, ", octets.len())?;
    write_meaning(out, meaning)?;
    write!(out, ": ")?;
    write_hex(out, octets)
}

/// Writes the members for what an element means.
fn write_members<W: Write>(out: &mut W, reading: &Reading) -> io::Result<()> {
    write!(
        out,
        ",\"kind\":\"{}\",\"cid\":{}",
        word_name(reading.word),
        reading.cid
    )?;
    if let Some(sn) = reading.sn {
        write!(out, ",\"sn\":{sn}")?;
    }
    match (reading.word, reading.sn) {
        (Word::Plain, _) => Ok(()),
        (_, Some(_)) => write!(out, ",\"mode\":\"O\",\"options\":[\"CRC\"]"),
        (_, None) => write!(
            out,
            ",\"mode\":\"O\",\"options\":[\"SN-NOT-VALID\",\"CRC\"]"
        ),
    }
}

/// Writes an element as an object.
pub(crate) fn write_element_json<W: Write>(
    out: &mut W,
    octets: &[u8],
    meaning: &Meaning,
) -> io::Result<()> {
    write!(out, "{{\"octets\":\"")?;
    write_hex(out, octets)?;
    write!(out, "\"")?;
    match meaning {
        Meaning::Read(reading) if reading.word == Word::Plain => write_members(out, reading)?,
        Meaning::Read(reading) => {
            write_members(out, reading)?;
            write!(out, ",\"crc\":\"right\"")?;
        }
        Meaning::WrongCrc { reading, crc } => {
            write_members(out, reading)?;
            write!(out, ",\"crc\":\"wrong\",\"expected_crc\":{crc}")?;
        }
        Meaning::Unknown => write!(out, ",\"kind\":null")?,
    }
    write!(out, "}}")
}

/// Writes a line for each feedback element of a packet.
pub(crate) fn write_elements<W: Write>(out: &mut W, elements: &[ToldElement]) -> io::Result<()> {
    for element in elements {
        write!(out, "feedback in the packet: ")?;
        write_element(out, element.octets.as_slice(), &element.meaning)?;
        writeln!(out, "")?;
    }
    Ok(())
}

/// Writes the line of the element that an answer sends.
pub(crate) fn write_sent<W: Write>(
    out: &mut W,
    size: CidKind,
    element: &Element,
) -> io::Result<()> {
    write!(out, "feedback: ")?;
    let meaning = meaning_of(size, element.as_slice());
    write_element(out, element.as_slice(), &meaning)?;
    writeln!(out, "")
}
