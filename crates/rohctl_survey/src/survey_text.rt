//! What a survey finds, told to a reader.

use crate::counted::LinkCounts;
use crate::evidence::Evidence;
use crate::gathered::Gathered;
use crate::tally::Tally;
use rohc_explain::cause_of;
use rohctl_captures::RuleWords;
use rohctl_explain::size_word;
use std::io;
use std::io::Write;

/// Writes the link, and why its CIDs are of this kind.
fn write_kind<W: Write>(out: &mut W, link: u16, evidence: &Evidence) -> io::Result<()> {
    if evidence.is_none() {
        return writeln!(
            out,
            "link {link}: small CIDs, an assumption (IRs decoded: none, neither with small CIDs nor with large ones)"
        );
    }
    writeln!(
        out,
        "link {link}: {} CIDs (IRs decoded: {} with small CIDs, {} with large ones)",
        size_word(evidence.kind()),
        evidence.small,
        evidence.large
    )
}

/// Writes how many packets and streams there are.
fn write_packets<W: Write>(out: &mut W, counts: &LinkCounts) -> io::Result<()> {
    writeln!(
        out,
        "  packets   {}: {} delivered, {} stored; streams {}; feedback elements {}",
        counts.packets,
        counts.delivered,
        counts.stored,
        counts.streams.len(),
        counts.elements
    )
}

/// Writes a row of names with their counts, unless there is none.
fn write_named<W: Write>(out: &mut W, title: &str, names: &Tally<&'static str>) -> io::Result<()> {
    if names.rows().is_empty() {
        return Ok(());
    }
    write!(out, "  {title:<9} ")?;
    for (place, row) in names.rows().iter().enumerate() {
        if place > 0 {
            write!(out, ", ")?;
        }
        write!(out, "{} {}", row.thing, row.count)?;
    }
    writeln!(out, "")
}

/// Writes the profiles of IRs.
fn write_profiles<W: Write>(out: &mut W, profiles: &Tally<u32>) -> io::Result<()> {
    for row in profiles.rows() {
        let support = if row.thing > 1 {
            " (not supported)"
        } else {
            ""
        };
        writeln!(
            out,
            "  profile   0x{:04x} in {} IRs{support}",
            row.thing, row.count
        )?;
    }
    Ok(())
}

/// Writes the IP versions of IRs other than 4.
fn write_versions<W: Write>(out: &mut W, versions: &Tally<u32>) -> io::Result<()> {
    for row in versions.rows().iter().filter(|row| row.thing != 4) {
        writeln!(
            out,
            "  IP        version {} in {} IRs (not supported)",
            row.thing, row.count
        )?;
    }
    Ok(())
}

/// Writes what is found of a link.
pub(crate) fn write_link<W: Write>(
    out: &mut W,
    link: u16,
    evidence: &Evidence,
    counts: &LinkCounts,
) -> io::Result<()> {
    write_kind(out, link, evidence)?;
    write_packets(out, counts)?;
    write_named(out, "formats", &counts.formats)?;
    write_profiles(out, &counts.profiles)?;
    write_versions(out, &counts.versions)?;
    write_named(out, "modes", &counts.modes)?;
    for row in counts.refusals.rows() {
        let cause = cause_of(row.thing);
        writeln!(
            out,
            "  refused   {} {}: {}; usual cause: {}",
            row.count, row.thing, cause.meaning, cause.usual
        )?;
    }
    Ok(())
}

/// Writes the packets of further links, the frames that were left out and the lines that are no events, if there are some.
pub(crate) fn write_rest<W: Write>(
    out: &mut W,
    gathered: &Gathered,
    frames_left_out: u64,
) -> io::Result<()> {
    if gathered.beyond > 0 {
        writeln!(
            out,
            "{} packets of other links are left out; a links file has at most 256",
            gathered.beyond
        )?;
    }
    if frames_left_out > 0 {
        writeln!(
            out,
            "{frames_left_out} frames are left out: no option matches, or they carry no packet"
        )?;
    }
    if gathered.bad > 0 {
        writeln!(out, "{} lines are not events", gathered.bad)?;
    }
    Ok(())
}

/// Writes the command that goes on with the links file that was written. Only a capture has rules.
pub(crate) fn write_next<W: Write>(
    out: &mut W,
    links: &str,
    input: &str,
    rules: Option<&RuleWords<'_>>,
) -> io::Result<()> {
    write!(out, "next: rohctl report --links {links}")?;
    if let Some(rules) = rules {
        for (name, value) in [
            ("link", rules.link),
            ("vlan", rules.vlan),
            ("port", rules.port),
            ("ethertype", rules.ethertype),
            ("linktype", rules.linktype),
            ("offset", rules.offset),
        ] {
            if let Some(value) = value {
                write!(out, " --{name} {value}")?;
            }
        }
    }
    writeln!(out, " -o report.html {input}")
}
