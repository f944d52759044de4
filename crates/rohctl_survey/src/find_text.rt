//! A call that was found, told to a reader and as a JSON object.

use crate::found::FoundCall;
use rohc_context::ContextState;
use rohctl_explain::{state_name, state_word, write_flow};
use std::io;
use std::io::Write;

/// Writes the line of a call. `unit` is what its packets stand in, `origin` what has the contexts before them.
pub(crate) fn write_call<W: Write>(
    out: &mut W,
    call: &FoundCall,
    state: Option<ContextState>,
    unit: &str,
    origin: &str,
) -> io::Result<()> {
    let state = match state {
        Some(state) => state_name(state),
        None => "replaced or reset",
    };
    write!(out, "link {} CID {}: {state}, ", call.link, call.cid)?;
    write_flow(out, &call.fixed)?;
    match call.packets {
        Some((first, last)) => writeln!(out, ", {unit} {first} to {last}"),
        None => writeln!(out, ", in {origin}"),
    }
}

/// Writes an address as a member.
fn write_end<W: Write>(out: &mut W, name: &str, address: [u8; 4], port: u16) -> io::Result<()> {
    let [first, second, third, fourth] = address;
    write!(
        out,
        ",\"{name}\":\"{first}.{second}.{third}.{fourth}\",\"{name}_port\":{port}"
    )
}

/// Writes a call as an object.
pub(crate) fn write_object<W: Write>(
    out: &mut W,
    call: &FoundCall,
    state: Option<ContextState>,
) -> io::Result<()> {
    write!(
        out,
        "{{\"link\":{},\"cid\":{},\"state\":",
        call.link, call.cid
    )?;
    match state {
        Some(state) => write!(out, "\"{}\"", state_word(state))?,
        None => write!(out, "null")?,
    }
    let fixed = &call.fixed;
    write_end(out, "source", fixed.source, fixed.source_port)?;
    write_end(
        out,
        "destination",
        fixed.destination,
        fixed.destination_port,
    )?;
    write!(out, ",\"ssrc\":\"0x{:08x}\"", fixed.ssrc)?;
    if let Some((first, last)) = call.packets {
        write!(out, ",\"first\":{first},\"last\":{last}")?;
    }
    writeln!(out, "}}")
}
