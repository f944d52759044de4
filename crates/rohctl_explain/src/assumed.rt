//! A link for packets without a links file: its settings, what is said of them, and whether the other CID kind fits better.

use crate::packet::Got;
use rohc_concentrator::{Concentrator, LinkSetting};
use rohc_context::{Refusal, Settings};
use rohc_frame::CidKind;
use rohctl_ground::{Ending, usual_settings};
use std::alloc::Global;
use std::io;
use std::io::Write;

/// The number of the link.
pub(crate) const LINK: u16 = 1;

/// What the packets are taken for, if they could be packets of a link of the other CID kind.
#[derive(Drop)]
pub(crate) struct Assumed {
    pub(crate) settings: Settings,
    /// The same packets on a link of the other CID kind.
    pub(crate) other: Concentrator,
}

/// The kind of CIDs.
fn size_of(large: bool) -> CidKind {
    if large {
        CidKind::Large
    } else {
        CidKind::Small
    }
}

/// A concentrator with one link of these settings.
fn concentrator_with(alloc: Global, settings: Settings) -> Result<Concentrator, Ending<'static>> {
    let setting = LinkSetting {
        link: LINK,
        settings,
        ranges: arrayvec::ArrayVec::new(),
    };
    Concentrator::new(alloc, &[setting]).map_err(|_| Ending::Memory)
}

/// A concentrator with a link of usual settings, and what is assumed of it.
pub(crate) fn assumed_link(
    alloc: Global,
    large: bool,
) -> Result<(Concentrator, Assumed), Ending<'static>> {
    let settings = usual_settings(size_of(large));
    let concentrator = concentrator_with(alloc, settings)?;
    let other = concentrator_with(alloc, usual_settings(size_of(!large)))?;
    Ok((concentrator, Assumed { settings, other }))
}

/// The word for a CID kind.
pub fn size_word(size: CidKind) -> &'static str {
    match size {
        CidKind::Small => "small",
        CidKind::Large => "large",
    }
}

/// What to do if the link has CIDs of the other kind.
fn remedy(size: CidKind) -> &'static str {
    match size {
        CidKind::Small => "if the link has large CIDs, give --large",
        CidKind::Large => "if the link has small CIDs, leave out --large",
    }
}

/// Writes the settings that are assumed, in a line of its own.
pub(crate) fn write_assumed<W: Write>(out: &mut W, settings: &Settings) -> io::Result<()> {
    writeln!(
        out,
        "assumed: {} CIDs, max_cid {}, mode O, k1/n1 {}/{}, k2/n2 {}/{}, packet_ms {} ({})",
        size_word(settings.size),
        settings.max_cid,
        settings.k1,
        settings.n1,
        settings.k2,
        settings.n2,
        settings.packet_ms,
        remedy(settings.size)
    )?;
    writeln!(out, "")
}

/// Writes the settings that are assumed, as an object.
pub(crate) fn write_assumed_json<W: Write>(out: &mut W, settings: &Settings) -> io::Result<()> {
    writeln!(
        out,
        "{{\"assumed\":{{\"cid\":\"{}\",\"max_cid\":{},\"mode\":\"O\",\"k1\":{},\"n1\":{},\"k2\":{},\"n2\":{},\"packet_ms\":{},\"static_nack_ms\":{},\"idle_ms\":{}}}}}",
        size_word(settings.size),
        settings.max_cid,
        settings.k1,
        settings.n1,
        settings.k2,
        settings.n2,
        settings.packet_ms,
        settings.static_nack_ms,
        settings.idle_ms
    )
}

/// How far a packet comes.
#[derive(Clone, Copy, PartialEq, Eq)]
enum Reach {
    /// Its octets have no reading.
    Unread,
    /// It is read, and its context refuses it.
    Read,
    /// It isn't refused.
    Accepted,
}

/// How far a packet with this answer came.
fn reach_of(got: Got) -> Reach {
    match got {
        Got::Refused(Refusal::Check | Refusal::NoContext | Refusal::StateTooLow) => Reach::Read,
        Got::Refused(_) => Reach::Unread,
        Got::Delivered(_) | Got::Stored | Got::OnlyFront => Reach::Accepted,
    }
}

/// The CID kind with which a packet comes farther than with the assumed one, if it is the other.
pub(crate) fn fits_better(settings: &Settings, got: Got, other: Got) -> Option<CidKind> {
    let other_size = match settings.size {
        CidKind::Small => CidKind::Large,
        CidKind::Large => CidKind::Small,
    };
    match (reach_of(got), reach_of(other)) {
        (Reach::Unread, Reach::Read | Reach::Accepted) | (Reach::Read, Reach::Accepted) => {
            Some(other_size)
        }
        _ => None,
    }
}

/// What to try if packets come farther with CIDs of this kind.
pub(crate) fn advice(size: CidKind) -> &'static str {
    match size {
        CidKind::Small => "with small CIDs this packet is read; leave out --large",
        CidKind::Large => "with large CIDs this packet is read; give --large",
    }
}
