//! Contexts and calls as JSON lines.

use crate::calls::CallCounts;
use crate::counters::LinkCounters;
use crate::rows::CallRow;
use rohc_context::{Context, ContextState, Profile, Refusal};
use rohc_header::Static;
use std::io;
use std::io::Write;

/// The number of a profile, as JSON and the page show it.
pub(crate) fn profile_name(profile: Profile) -> &'static str {
    match profile {
        Profile::Uncompressed => "0x0000",
        Profile::Rtp => "0x0001",
    }
}

/// The name of the state of a context that has expired.
pub(crate) const EXPIRED: &str = "expired";

/// The name of a state, as JSON and the metrics show it.
pub(crate) fn state_name(state: ContextState) -> &'static str {
    match state {
        ContextState::NoContext => "no",
        ContextState::StaticContext => "static",
        ContextState::FullContext => "full",
    }
}

/// Writes the members of an object that has a context in a state of this name.
fn write_context<W: Write>(
    out: &mut W,
    link: u16,
    cid: u16,
    context: &Context,
    state: &str,
) -> io::Result<()> {
    write!(
        out,
        "{{\"link\":{link},\"cid\":{cid},\"profile\":\"{}\",\"state\":\"{state}\",\"accepted\":{}",
        profile_name(context.profile()),
        context.accepted()
    )
}

/// The name of the state of a call, as JSON shows it.
fn state_in(row: &CallRow<'_>) -> &'static str {
    if row.has_expired {
        EXPIRED
    } else {
        state_name(row.context.state())
    }
}

/// Writes the member that says for how long a call is silent.
fn write_silent<W: Write>(out: &mut W, row: &CallRow<'_>) -> io::Result<()> {
    match row.silent {
        Some(silent) => write!(out, ",\"silent_ms\":{silent}"),
        None => write!(out, ",\"silent_ms\":null"),
    }
}

/// Writes the members of an address and its port.
fn write_endpoint<W: Write>(
    out: &mut W,
    name: &str,
    address: [u8; 4],
    port: u16,
) -> io::Result<()> {
    let [first, second, third, fourth] = address;
    write!(
        out,
        ",\"{name}\":\"{first}.{second}.{third}.{fourth}\",\"{name}_port\":{port}"
    )
}

/// Writes the members that have the addresses, the ports and the SSRC of a call.
fn write_fixed<W: Write>(out: &mut W, fixed: &Static) -> io::Result<()> {
    write_endpoint(out, "source", fixed.source, fixed.source_port)?;
    write_endpoint(
        out,
        "destination",
        fixed.destination,
        fixed.destination_port,
    )?;
    let ssrc = fixed.ssrc;
    write!(out, ",\"ssrc\":{ssrc},\"ssrc_text\":\"0x{ssrc:08x}\"")
}

/// Writes the members that have the counts of a call.
fn write_counts<W: Write>(out: &mut W, counts: &CallCounts) -> io::Result<()> {
    write!(
        out,
        ",\"since\":{},\"delivered\":{},\"repaired\":{},\"lost\":{},\"late\":{}",
        counts.since, counts.delivered, counts.repaired, counts.sequence.lost, counts.sequence.late
    )?;
    write_refused(out, counts)
}

/// Writes the member that has the refusals of a call.
fn write_refused<W: Write>(out: &mut W, counts: &CallCounts) -> io::Result<()> {
    write!(out, ",\"refused\":{{")?;
    let mut comma = "";
    for refusal in Refusal::all() {
        let count = counts.refused(refusal);
        if count > 0 {
            write!(out, "{comma}\"{refusal}\":{count}")?;
            comma = ",";
        }
    }
    write!(out, "}}")
}

/// Writes a call as an object, in a line: its context, the call that it is of, and what is counted of one that had packets
/// in this run.
pub(crate) fn write_call<W: Write>(out: &mut W, row: &CallRow<'_>) -> io::Result<()> {
    write_context(out, row.link, row.cid, row.context, state_in(row))?;
    write_silent(out, row)?;
    if let Some(fixed) = &row.fixed {
        write_fixed(out, fixed)?;
    }
    if let Some(counts) = row.counts {
        write_counts(out, counts)?;
    }
    match row.last_refused() {
        Some(refusal) => writeln!(out, ",\"last_refused\":\"{refusal}\"}}"),
        None => writeln!(out, ",\"last_refused\":null}}"),
    }
}

/// Writes a context as an object, in a line.
pub(crate) fn write_context_line<W: Write>(out: &mut W, row: &CallRow<'_>) -> io::Result<()> {
    let state = state_name(row.context.state());
    write_context(out, row.link, row.cid, row.context, state)?;
    writeln!(out, "}}")
}

/// Writes the CIDs of a link that have no context, whose packets were refused for that, one object per line, the newest
/// last.
pub(crate) fn write_unknown<W: Write>(
    out: &mut W,
    link: u16,
    of_link: &LinkCounters,
) -> io::Result<()> {
    for unknown in &of_link.unknown {
        let no_context = Refusal::NoContext;
        writeln!(
            out,
            "{{\"link\":{link},\"cid\":{},\"profile\":null,\"state\":null,\"refused\":{{\"{no_context}\":{}}}}}",
            unknown.number, unknown.packets
        )?;
    }
    Ok(())
}
