//! A packet, explained for a reader.

use crate::assumed::advice;
use crate::element_text::{write_elements, write_sent};
use crate::expected::{Ahead, Expected, expected_of, failures};
use crate::field_text::write_field;
use crate::held::{profile_in, sn_in, state_in};
use crate::packet::{Explained, Got, counts_after};
use crate::rebuilt_text::write_rebuilt;
use rohc_context::{
    Against, ContextState, NotMade, Profile, Settings, StateView, Try, View, Window,
};
use rohc_explain::{PacketFields, PacketKind, cause_of};
use rohc_forms::FormKind;
use rohc_header::Static;
use rohctl_captures::Place;
use std::io;
use std::io::Write;

/// The name of a packet's format.
pub fn format_name(explained: &Explained) -> &'static str {
    let Some(told) = &explained.told else {
        return "-";
    };
    match (told.kind, &explained.before) {
        (PacketKind::Unknown, Some(view)) if profile_in(view) == Profile::Uncompressed => "Normal",
        (kind, _) => kind_name(kind),
    }
}

/// The name of what a packet is by its first octet.
fn kind_name(kind: PacketKind) -> &'static str {
    match kind {
        PacketKind::OnlyFront => "no header",
        PacketKind::Ir => "IR",
        PacketKind::IrDyn => "IR-DYN",
        PacketKind::Form(FormKind::Uo0) => "UO-0",
        PacketKind::Form(FormKind::Uo1) => "UO-1",
        PacketKind::Form(FormKind::Uo1Id) => "UO-1-ID",
        PacketKind::Form(FormKind::Uo1Ts) => "UO-1-TS",
        PacketKind::Form(FormKind::Uor2) => "UOR-2",
        PacketKind::Form(FormKind::Uor2Id) => "UOR-2-ID",
        PacketKind::Form(FormKind::Uor2Ts) => "UOR-2-TS",
        PacketKind::Unknown => "unknown",
        PacketKind::NoPacket => "no packet",
    }
}

/// The name of a state.
pub fn state_name(state: ContextState) -> &'static str {
    match state {
        ContextState::NoContext => "No Context",
        ContextState::StaticContext => "Static Context",
        ContextState::FullContext => "Full Context",
    }
}

/// The word for a state in JSON.
pub fn state_word(state: ContextState) -> &'static str {
    match state {
        ContextState::NoContext => "no",
        ContextState::StaticContext => "static",
        ContextState::FullContext => "full",
    }
}

/// The name of a profile.
pub(crate) fn profile_name(profile: Profile) -> &'static str {
    match profile {
        Profile::Uncompressed => "0x0000",
        Profile::Rtp => "0x0001",
    }
}

/// Writes the failures that a context has counted, and how many lead to its next fall.
fn write_windows<W: Write>(out: &mut W, view: &View, settings: &Settings) -> io::Result<()> {
    let (first, second): (&Window, Option<&Window>) = match &view.state {
        StateView::Plain | StateView::NoContext { .. } => return Ok(()),
        StateView::Static { windows, .. } => (&windows.0, Some(&windows.1)),
        StateView::Full { window, .. } => (window, None),
    };
    let (k, n) = (settings.k1, settings.n1);
    let failed = failures(first, n);
    write!(out, ", failures {failed} of the last {n} (falls at {k})")?;
    let Some(second) = second else {
        return Ok(());
    };
    let (k, n) = (settings.k2, settings.n2);
    let failed = failures(second, n);
    write!(out, " and {failed} of {n} (falls at {k})")
}

/// Writes the state and the profile of a context, its last accepted packet's time, and the SN of its reference.
fn write_standing<W: Write>(out: &mut W, at: Place, title: &str, view: &View) -> io::Result<()> {
    write!(
        out,
        "{title}: {}, profile {}, last accepted at {}",
        state_name(state_in(view)),
        profile_name(profile_in(view)),
        at.time(view.accepted)
    )?;
    match sn_in(view) {
        Some(sn) => write!(out, ", SN {sn}"),
        None => Ok(()),
    }
}

/// Writes what is told of a context.
fn write_view<W: Write>(
    out: &mut W,
    at: Place,
    title: &str,
    explained: &Explained,
    view: Option<&View>,
) -> io::Result<()> {
    let Some(view) = view else {
        return writeln!(out, "{title}: no context");
    };
    write_standing(out, at, title, view)?;
    if let Some(settings) = &explained.settings {
        write_windows(out, view, settings)?;
    }
    writeln!(out, "")
}

/// Writes what lies ahead of a context.
fn write_ahead<W: Write>(out: &mut W, ahead: Ahead, settings: &Settings) -> io::Result<()> {
    match ahead {
        Ahead::Expired => write!(out, "; it expired after {} ms", settings.idle_ms),
        Ahead::Nothing => Ok(()),
        Ahead::Falls { to, after: 1 } => {
            write!(out, "; 1 failed check leads to {}", state_name(to))
        }
        Ahead::Falls { to, after } => write!(
            out,
            "; {after} failed checks in a row lead to {}",
            state_name(to)
        ),
        Ahead::StaticNack { wait: 0 } => write!(out, "; a STATIC-NACK may be sent now"),
        Ahead::StaticNack { wait } => write!(out, "; no STATIC-NACK for {wait} ms"),
        Ahead::Silent => write!(out, "; in U mode nothing is sent"),
    }
}

/// Writes the packet that is expected.
fn write_next<W: Write>(out: &mut W, expected: &Expected, view: Option<&View>) -> io::Result<()> {
    match (expected.ahead, expected.sn) {
        (Ahead::Expired, _) => write!(out, "only an IR"),
        (_, Some(sn)) => write!(out, "SN {sn}"),
        (_, None) => write!(out, "{}", taken_by(view)),
    }
}

/// Writes what is expected of the context before the packet.
fn write_expected<W: Write>(out: &mut W, explained: &Explained) -> io::Result<()> {
    let (Some(settings), Some(expected)) = (&explained.settings, expected_of(explained)) else {
        return Ok(());
    };
    let age = expected.age;
    write!(out, "expected: {age} ms after the last accepted packet, ")?;
    write_next(out, &expected, explained.before.as_ref())?;
    write_ahead(out, expected.ahead, settings)?;
    writeln!(out, "")
}

/// What a context takes that counts (docs/FORMATS.md, *States*). In Static Context an SN is kept with a reference.
fn taken_by(view: Option<&View>) -> &'static str {
    let Some(view) = view else {
        return "only an IR";
    };
    match &view.state {
        StateView::Plain | StateView::Full { .. } => "every packet",
        StateView::Static {
            reference: Some(_),
            ..
        } => "an IR, an IR-DYN or a UOR-2",
        StateView::Static { .. } => "an IR or an IR-DYN",
        StateView::NoContext { .. } => "only an IR",
    }
}

/// What is taken after the packet: nothing on a link that isn't there, and only an IR if the context has expired.
fn taken_next(explained: &Explained) -> &'static str {
    if explained.told.is_none() {
        return "nothing, since the links file has no such link";
    }
    let (Some(view), Some(settings)) = (&explained.after, &explained.settings) else {
        return taken_by(None);
    };
    if counts_after(settings, explained.moment.saturating_sub(view.accepted)) {
        taken_by(Some(view))
    } else {
        taken_by(None)
    }
}

/// Writes why a try wasn't made.
fn write_not_made<W: Write>(out: &mut W, reason: NotMade) -> io::Result<()> {
    match reason {
        NotMade::Settled => write!(out, "not tried: an earlier attempt matched"),
        NotMade::LongCheck => write!(out, "not tried: a CRC of 7 bits gets one attempt"),
        NotMade::OneTry => write!(out, "not tried: Static Context has one attempt"),
        NotMade::TooSoon { needed, passed } => {
            write!(
                out,
                "not tried: it needs {needed} ms, and {passed} have passed"
            )
        }
        NotMade::NoPrevious => write!(out, "not tried: there is no previous reference"),
    }
}

/// Writes a try.
fn write_try<W: Write>(out: &mut W, number: usize, told: &Try) -> io::Result<()> {
    let reference = match told.against {
        Against::Reference => "the last header",
        Against::Previous => "the one before it",
    };
    write!(
        out,
        "attempt {number}: against {reference}, shift {}: ",
        told.shift
    )?;
    match &told.result {
        Err(reason) => write_not_made(out, *reason)?,
        Ok(meant) => write!(
            out,
            "SN {}, TS {}, IP-ID {}: CRC {}, the packet has {}: {}",
            meant.moving.sn,
            meant.moving.ts,
            meant.moving.id,
            meant.has,
            meant.needs,
            if meant.fits() { "match" } else { "no match" }
        )?,
    }
    writeln!(out, "")
}

/// Writes the answer, and what usually causes it.
fn write_answer<W: Write>(out: &mut W, explained: &Explained) -> io::Result<()> {
    match explained.got {
        Got::Delivered(octets) => writeln!(out, "answer: delivered, {octets} octets")?,
        Got::Stored => writeln!(out, "answer: stored, no packet to deliver")?,
        Got::OnlyFront => writeln!(out, "answer: only padding and feedback")?,
        Got::Refused(refusal) => {
            let cause = cause_of(refusal);
            writeln!(out, "answer: refused {refusal}: {}", cause.meaning)?;
            writeln!(out, "usual cause: {} ({})", cause.usual, cause.section)?;
        }
    }
    if let Some(packet) = &explained.packet {
        write_rebuilt(out, packet)?;
    }
    write_feedback(out, explained)
}

/// Writes where the context fell to the state for which the packet is refused, if that is known.
fn write_fall<W: Write>(out: &mut W, at: Place, explained: &Explained) -> io::Result<()> {
    match &explained.fall {
        Some(fall) => writeln!(
            out,
            "fell: to {} at {} {}, refused {}",
            state_name(fall.to),
            at.unit.name(),
            fall.number,
            fall.refusal
        ),
        None => Ok(()),
    }
}

/// Writes the feedback that a packet made due.
fn write_feedback<W: Write>(out: &mut W, explained: &Explained) -> io::Result<()> {
    match (&explained.feedback, &explained.settings) {
        (Some(element), Some(settings)) => write_sent(out, settings.size, element),
        _ => Ok(()),
    }
}

/// Writes where a packet stands, and what it is.
fn write_head<W: Write>(out: &mut W, at: Place, explained: &Explained) -> io::Result<()> {
    write!(
        out,
        "{} {}: link {} at {}, {} octets",
        at.unit.name(),
        at.number,
        explained.link,
        at.time(explained.moment),
        explained.octets
    )?;
    if let Some(cid) = explained.cid {
        write!(out, ", CID {cid}")?;
    }
    writeln!(out, ", {}", format_name(explained))
}

/// Writes the fields of a packet.
fn write_fields<W: Write>(out: &mut W, told: &PacketFields) -> io::Result<()> {
    for field in &told.fields {
        write_field(out, field)?;
    }
    if told.is_whole {
        writeln!(out, "  bit {:>4} payload", told.end)
    } else {
        writeln!(out, "  bit {:>4} the fields after it are unknown", told.end)
    }
}

/// Writes the tries of a packet.
fn write_tries<W: Write>(out: &mut W, tries: &[Try]) -> io::Result<()> {
    for (place, told) in tries.iter().enumerate() {
        write_try(out, place.saturating_add(1), told)?;
    }
    Ok(())
}

/// Writes what a packet has and what its context was before it.
fn write_before<W: Write>(out: &mut W, at: Place, explained: &Explained) -> io::Result<()> {
    if let Some(told) = &explained.told {
        write_fields(out, told)?;
    }
    write_elements(out, explained.elements.as_slice())?;
    write_view(out, at, "before", explained, explained.before.as_ref())?;
    write_expected(out, explained)
}

/// Writes an address and a port, as 10.0.0.1:5000.
fn write_endpoint<W: Write>(out: &mut W, address: [u8; 4], port: u16) -> io::Result<()> {
    let [first, second, third, fourth] = address;
    write!(out, "{first}.{second}.{third}.{fourth}:{port}")
}

/// Writes who sends to whom in a call of RTP, and its SSRC, if the context keeps them.
pub fn write_flow<W: Write>(out: &mut W, fixed: &Static) -> io::Result<()> {
    write_endpoint(out, fixed.source, fixed.source_port)?;
    write!(out, " to ")?;
    write_endpoint(out, fixed.destination, fixed.destination_port)?;
    write!(out, ", SSRC 0x{:08x}", fixed.ssrc)
}

/// Writes the call of a packet, if its context keeps the addresses.
fn write_call<W: Write>(out: &mut W, explained: &Explained) -> io::Result<()> {
    let Some(fixed) = explained.fixed() else {
        return Ok(());
    };
    write!(out, "call: ")?;
    write_flow(out, fixed)?;
    writeln!(out, "")
}

/// Writes what became of a packet, and what its context is after it.
fn write_after<W: Write>(out: &mut W, at: Place, explained: &Explained) -> io::Result<()> {
    if let Some(tries) = &explained.tries {
        write_tries(out, tries.as_slice())?;
    }
    write_answer(out, explained)?;
    write_fall(out, at, explained)?;
    write_view(out, at, "after", explained, explained.after.as_ref())?;
    write_call(out, explained)?;
    writeln!(out, "accepted next: {}", taken_next(explained))?;
    match explained.better {
        Some(size) => writeln!(out, "note: {}", advice(size)),
        None => Ok(()),
    }
}

/// Writes all that is known of a packet.
pub fn write_whole<W: Write>(out: &mut W, at: Place, explained: &Explained) -> io::Result<()> {
    write_head(out, at, explained)?;
    write_before(out, at, explained)?;
    write_after(out, at, explained)?;
    writeln!(out, "")
}

/// The answer in a word.
pub(crate) fn answer_name(got: Got) -> &'static str {
    match got {
        Got::Delivered(_) => "delivered",
        Got::Stored => "stored",
        Got::OnlyFront => "front",
        Got::Refused(_) => "refused",
    }
}

/// Writes a line of a packet: its line or frame, the link, the CID, the format, and the answer.
pub(crate) fn write_brief<W: Write>(
    out: &mut W,
    at: Place,
    explained: &Explained,
) -> io::Result<()> {
    write!(out, "{} {} ", at.number, explained.link)?;
    match explained.cid {
        Some(cid) => write!(out, "{cid} ")?,
        None => write!(out, "- ")?,
    }
    write!(
        out,
        "{} {}",
        format_name(explained),
        answer_name(explained.got)
    )?;
    write_more(out, explained)?;
    writeln!(out, "")
}

/// Writes why a packet was refused, or by which attempt it was repaired.
fn write_more<W: Write>(out: &mut W, explained: &Explained) -> io::Result<()> {
    match (explained.got, explained.fitting()) {
        (Got::Refused(refusal), _) => write!(out, " {refusal}"),
        (Got::Delivered(_), Some(1)) => write!(out, " repaired by attempt 2"),
        (Got::Delivered(_), Some(2)) => write!(out, " repaired by attempt 3"),
        _ => Ok(()),
    }
}
