//! What a survey finds, as JSON objects. Every text in them is a name of ours.

use crate::counted::LinkCounts;
use crate::evidence::Evidence;
use crate::gathered::Gathered;
use crate::tally::{Row, Tally};
use rohc_context::Refusal;
use rohc_explain::cause_of;
use rohctl_explain::size_word;
use std::io;
use std::io::Write;

/// Writes a comma, unless it is the first place.
fn write_comma<W: Write>(out: &mut W, place: usize) -> io::Result<()> {
    if place > 0 { write!(out, ",") } else { Ok(()) }
}

/// Writes the kind of CIDs, and why it is this one.
fn write_kind<W: Write>(out: &mut W, link: u16, evidence: &Evidence) -> io::Result<()> {
    write!(
        out,
        "{{\"link\":{link},\"cid\":\"{}\",\"assumed\":{},\"irs\":{{\"small\":{},\"large\":{}}}",
        size_word(evidence.kind()),
        evidence.is_none(),
        evidence.small,
        evidence.large
    )
}

/// Writes names with their counts as a member.
fn write_named<W: Write>(out: &mut W, member: &str, names: &Tally<&'static str>) -> io::Result<()> {
    write!(out, ",\"{member}\":{{")?;
    for (place, row) in names.rows().iter().enumerate() {
        write_comma(out, place)?;
        write!(out, "\"{}\":{}", row.thing, row.count)?;
    }
    write!(out, "}}")
}

/// Writes the profiles and the IP versions of IRs, with their counts, as members.
fn write_numbers<W: Write>(out: &mut W, counts: &LinkCounts) -> io::Result<()> {
    write!(out, ",\"profiles\":{{")?;
    for (place, row) in counts.profiles.rows().iter().enumerate() {
        write_comma(out, place)?;
        write!(out, "\"0x{:04x}\":{}", row.thing, row.count)?;
    }
    write!(out, "}},\"ip_versions\":{{")?;
    for (place, row) in counts.versions.rows().iter().enumerate() {
        write_comma(out, place)?;
        write!(out, "\"{}\":{}", row.thing, row.count)?;
    }
    write!(out, "}}")
}

/// Writes a refusal with its count.
fn write_refusal<W: Write>(out: &mut W, row: &Row<Refusal>) -> io::Result<()> {
    write!(
        out,
        "{{\"refusal\":\"{}\",\"count\":{},\"section\":\"{}\"}}",
        row.thing,
        row.count,
        cause_of(row.thing).section
    )
}

/// Writes what is found of a link as an object.
pub(crate) fn write_object<W: Write>(
    out: &mut W,
    link: u16,
    evidence: &Evidence,
    counts: &LinkCounts,
) -> io::Result<()> {
    write_kind(out, link, evidence)?;
    write!(
        out,
        ",\"packets\":{},\"delivered\":{},\"stored\":{},\"streams\":{},\"elements\":{}",
        counts.packets,
        counts.delivered,
        counts.stored,
        counts.streams.len(),
        counts.elements
    )?;
    write_named(out, "formats", &counts.formats)?;
    write_named(out, "modes", &counts.modes)?;
    write_numbers(out, counts)?;
    write!(out, ",\"refused\":[")?;
    for (place, row) in counts.refusals.rows().iter().enumerate() {
        write_comma(out, place)?;
        write_refusal(out, row)?;
    }
    writeln!(out, "]}}")
}

/// Writes what was left out as an object.
pub(crate) fn write_rest_json<W: Write>(
    out: &mut W,
    gathered: &Gathered,
    frames_left_out: u64,
) -> io::Result<()> {
    writeln!(
        out,
        "{{\"links\":{},\"packets_left_out\":{},\"frames_left_out\":{frames_left_out},\"bad_lines\":{}}}",
        gathered.links.len(),
        gathered.beyond,
        gathered.bad
    )
}
