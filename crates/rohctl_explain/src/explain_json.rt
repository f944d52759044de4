//! A packet, explained as a JSON object. Every text in it is a name of ours.

use crate::assumed::advice;
use crate::element::{ToldElement, meaning_of};
use crate::element_text::write_element_json;
use crate::expected::{Ahead, Expected, expected_of, failures};
use crate::explain_text::{answer_name, format_name, profile_name, state_word, write_flow};
use crate::field_text::{write_comma, write_field_object};
use crate::held::{profile_in, sn_in, state_in};
use crate::packet::{Explained, Got};
use crate::rebuilt_text::write_rebuilt_json;
use rohc_context::{Settings, StateView, Try, View};
use rohc_explain::{PacketFields, cause_of};
use rohctl_captures::Place;
use std::io;
use std::io::Write;

/// Writes the fields.
fn write_fields<W: Write>(out: &mut W, told: &PacketFields) -> io::Result<()> {
    write!(out, ",\"fields\":[")?;
    for (place, field) in told.fields.iter().enumerate() {
        write_comma(out, place)?;
        write_field_object(out, field, None)?;
    }
    write!(
        out,
        "],\"header_bits\":{},\"whole\":{}",
        told.end, told.is_whole
    )
}

/// Writes the failures that a context has counted in both windows. Full Context has only the first.
fn write_failures<W: Write>(out: &mut W, view: &View, settings: &Settings) -> io::Result<()> {
    let (first, second) = match &view.state {
        StateView::Plain | StateView::NoContext { .. } => return Ok(()),
        StateView::Static { windows, .. } => (
            failures(&windows.0, settings.n1),
            failures(&windows.1, settings.n2),
        ),
        StateView::Full { window, .. } => (failures(window, settings.n1), 0),
    };
    write!(out, ",\"failures\":[{first},{second}]")
}

/// Writes what is told of a context.
fn write_view<W: Write>(
    out: &mut W,
    name: &str,
    explained: &Explained,
    view: Option<&View>,
) -> io::Result<()> {
    let Some(view) = view else {
        return write!(out, ",\"{name}\":null");
    };
    write!(
        out,
        ",\"{name}\":{{\"state\":\"{}\",\"profile\":\"{}\",\"accepted\":{}",
        state_word(state_in(view)),
        profile_name(profile_in(view)),
        view.accepted
    )?;
    if let Some(sn) = sn_in(view) {
        write!(out, ",\"sn\":{sn}")?;
    }
    if let Some(settings) = &explained.settings {
        write_failures(out, view, settings)?;
    }
    write!(out, "}}")
}

/// Writes what lies ahead of a context.
fn write_ahead<W: Write>(out: &mut W, ahead: Ahead) -> io::Result<()> {
    match ahead {
        Ahead::Falls { to, after } => write!(
            out,
            ",\"falls_to\":\"{}\",\"falls_after\":{after}",
            state_word(to)
        ),
        Ahead::StaticNack { wait } => write!(out, ",\"static_nack_in\":{wait}"),
        Ahead::Expired | Ahead::Nothing | Ahead::Silent => Ok(()),
    }
}

/// Writes what is expected of the context before the packet.
fn write_expected<W: Write>(out: &mut W, explained: &Explained) -> io::Result<()> {
    let Some(Expected { age, sn, ahead }) = expected_of(explained) else {
        return write!(out, ",\"expected\":null");
    };
    let counts = ahead != Ahead::Expired;
    write!(out, ",\"expected\":{{\"age\":{age},\"counts\":{counts}")?;
    if let Some(sn) = sn {
        write!(out, ",\"sn\":{sn}")?;
    }
    write_ahead(out, ahead)?;
    write!(out, "}}")
}

/// Writes a try.
fn write_try<W: Write>(out: &mut W, told: &Try) -> io::Result<()> {
    match &told.result {
        Ok(meant) => write!(
            out,
            "{{\"shift\":{},\"sn\":{},\"ts\":{},\"has\":{},\"needs\":{},\"fits\":{}}}",
            told.shift,
            meant.moving.sn,
            meant.moving.ts,
            meant.has,
            meant.needs,
            meant.fits()
        ),
        Err(_) => write!(out, "{{\"shift\":{},\"made\":false}}", told.shift),
    }
}

/// Writes the tries.
fn write_tries<W: Write>(out: &mut W, tries: &[Try]) -> io::Result<()> {
    write!(out, ",\"tries\":[")?;
    for (place, told) in tries.iter().enumerate() {
        write_comma(out, place)?;
        write_try(out, told)?;
    }
    write!(out, "]")
}

/// Writes what became of a packet.
fn write_got<W: Write>(out: &mut W, got: Got) -> io::Result<()> {
    write!(out, ",\"answer\":\"{}\"", answer_name(got))?;
    match got {
        Got::Delivered(octets) => write!(out, ",\"octets\":{octets}"),
        Got::Refused(refusal) => write!(
            out,
            ",\"refusal\":\"{refusal}\",\"section\":\"{}\"",
            cause_of(refusal).section
        ),
        Got::Stored | Got::OnlyFront => Ok(()),
    }
}

/// Writes the tries of a packet and its answer.
fn write_answer<W: Write>(out: &mut W, explained: &Explained) -> io::Result<()> {
    if let Some(tries) = &explained.tries {
        write_tries(out, tries.as_slice())?;
    }
    write_got(out, explained.got)?;
    if let Some(packet) = &explained.packet {
        write_rebuilt_json(out, packet)?;
    }
    let (Some(element), Some(settings)) = (&explained.feedback, &explained.settings) else {
        return write!(out, ",\"feedback\":0");
    };
    write!(out, ",\"feedback\":{},\"sent\":", element.len())?;
    let meaning = meaning_of(settings.size, element.as_slice());
    write_element_json(out, element.as_slice(), &meaning)
}

/// Writes where the context fell to the state for which the packet is refused, if that is known.
fn write_fall<W: Write>(out: &mut W, at: Place, explained: &Explained) -> io::Result<()> {
    match &explained.fall {
        Some(fall) => write!(
            out,
            ",\"fell\":{{\"{}\":{},\"to\":\"{}\",\"refusal\":\"{}\"}}",
            at.unit.key(),
            fall.number,
            state_word(fall.to),
            fall.refusal
        ),
        None => Ok(()),
    }
}

/// Writes the feedback elements of a packet.
fn write_elements<W: Write>(out: &mut W, elements: &[ToldElement]) -> io::Result<()> {
    if elements.is_empty() {
        return Ok(());
    }
    write!(out, ",\"elements\":[")?;
    for (place, element) in elements.iter().enumerate() {
        write_comma(out, place)?;
        write_element_json(out, element.octets.as_slice(), &element.meaning)?;
    }
    write!(out, "]")
}

/// Writes where a packet stands, and its format.
fn write_head<W: Write>(out: &mut W, at: Place, explained: &Explained) -> io::Result<()> {
    write!(
        out,
        "{{\"{}\":{},\"link\":{},\"moment\":{},\"cid\":",
        at.unit.key(),
        at.number,
        explained.link,
        explained.moment
    )?;
    match explained.cid {
        Some(cid) => write!(out, "{cid}")?,
        None => write!(out, "null")?,
    }
    if let Some(fixed) = explained.fixed() {
        write!(out, ",\"text\":\"")?;
        write_flow(out, fixed)?;
        write!(out, "\"")?;
    }
    write!(out, ",\"format\":\"{}\"", format_name(explained))
}

/// Writes a packet as an object.
pub(crate) fn write_object<W: Write>(
    out: &mut W,
    at: Place,
    explained: &Explained,
) -> io::Result<()> {
    write_head(out, at, explained)?;
    if let Some(told) = &explained.told {
        write_fields(out, told)?;
    }
    write_elements(out, explained.elements.as_slice())?;
    write_view(out, "before", explained, explained.before.as_ref())?;
    write_expected(out, explained)?;
    write_answer(out, explained)?;
    write_fall(out, at, explained)?;
    write_view(out, "after", explained, explained.after.as_ref())?;
    if let Some(size) = explained.better {
        write!(out, ",\"note\":\"{}\"", advice(size))?;
    }
    writeln!(out, "}}")
}
