//! The second run over an input: what the packets of each link are, and what becomes of them.

use crate::tally::Tally;
use indexmap::IndexMap;
use rohc_concentrator::Concentrator;
use rohc_context::{Mode, Refusal};
use rohc_explain::{FieldName, PacketFields};
use rohctl_explain::{Explained, Got, explain_packet, format_name};
use rohctl_ground::{Line, Stop, Taker};
use std::alloc::{AllocError, Global};

/// What the packets of a link are.
#[derive(Drop)]
pub(crate) struct LinkCounts {
    pub(crate) packets: u64,
    pub(crate) delivered: u64,
    pub(crate) stored: u64,
    /// The feedback elements in the packets.
    pub(crate) elements: u64,
    /// The CIDs of IRs that were accepted, with the number of these IRs.
    pub(crate) streams: IndexMap<u16, u64>,
    /// The profiles of IRs.
    pub(crate) profiles: Tally<u32>,
    /// The IP versions of IRs.
    pub(crate) versions: Tally<u32>,
    /// The mode fields of IRs, IR-DYNs and extensions.
    pub(crate) modes: Tally<&'static str>,
    pub(crate) formats: Tally<&'static str>,
    pub(crate) refusals: Tally<Refusal>,
}

/// Whether the fields of a packet with this answer are as its sender wrote them, as far as is known: the CRC matches, or
/// the packet was refused for what one of them says.
fn are_fields_good(got: Got) -> bool {
    !matches!(
        got,
        Got::Refused(Refusal::Check | Refusal::Truncated | Refusal::Trailing)
    )
}

/// The name of the value of a mode field (RFC 3095 5.7.7.6).
fn mode_name(mode: u32) -> &'static str {
    match mode {
        1 => "U",
        2 => "O",
        3 => "R",
        _ => "none",
    }
}

/// The first field of this name.
fn field_in(told: &PacketFields, name: FieldName) -> Option<u32> {
    let field = told.fields.iter().find(|field| field.name == name)?;
    Some(field.value)
}

impl LinkCounts {
    /// No packet yet.
    pub(crate) fn new(alloc: Global) -> Self {
        LinkCounts {
            packets: 0,
            delivered: 0,
            stored: 0,
            elements: 0,
            streams: IndexMap::new(alloc),
            profiles: Tally::new(alloc),
            versions: Tally::new(alloc),
            modes: Tally::new(alloc),
            formats: Tally::new(alloc),
            refusals: Tally::new(alloc),
        }
    }

    /// Counts what became of a packet.
    fn take_answer(&mut self, got: Got) -> Result<(), AllocError> {
        match got {
            Got::Delivered(_) => self.delivered = self.delivered.saturating_add(1),
            Got::Stored => self.stored = self.stored.saturating_add(1),
            Got::OnlyFront => {}
            Got::Refused(refusal) => self.refusals.add(refusal)?,
        }
        Ok(())
    }

    /// Counts an IR that was accepted.
    fn take_stream(&mut self, cid: u16) -> Result<(), AllocError> {
        if let Some(count) = self.streams.get_mut(&cid) {
            *count = count.saturating_add(1);
            return Ok(());
        }
        self.streams.insert(cid, 1)?;
        Ok(())
    }

    /// Counts the fields of a packet.
    fn take_fields(&mut self, told: &PacketFields, is_ir: bool) -> Result<(), AllocError> {
        if let Some(mode) = field_in(told, FieldName::Mode) {
            self.modes.add(mode_name(mode))?;
        }
        if !is_ir {
            return Ok(());
        }
        if let Some(profile) = field_in(told, FieldName::Profile) {
            self.profiles.add(profile)?;
        }
        if let Some(version) = field_in(told, FieldName::Version) {
            self.versions.add(version)?;
        }
        Ok(())
    }

    /// The mode for a links file: U if no packet has another.
    pub(crate) fn mode(&self) -> Mode {
        match self.modes.rows() {
            [only] if only.thing == "U" => Mode::U,
            _ => Mode::O,
        }
    }

    /// Counts a packet.
    fn take(&mut self, explained: &Explained) -> Result<(), AllocError> {
        self.packets = self.packets.saturating_add(1);
        self.elements = self
            .elements
            .saturating_add(explained.elements.len() as u64);
        self.formats.add(format_name(explained))?;
        self.take_answer(explained.got)?;
        let is_refused = matches!(explained.got, Got::Refused(_));
        if let Some(cid) = explained.cid
            && explained.is_ir()
            && !is_refused
        {
            self.take_stream(cid)?;
        }
        match &explained.told {
            Some(told) if are_fields_good(explained.got) => {
                self.take_fields(told, explained.is_ir())
            }
            _ => Ok(()),
        }
    }
}

/// The run that counts.
#[derive(Drop)]
pub(crate) struct Counted {
    pub(crate) alloc: Global,
    pub(crate) concentrator: Concentrator,
    /// What is counted of each link.
    pub(crate) links: IndexMap<u16, LinkCounts>,
}

impl Counted {
    /// Counts a packet of a link that the run has. Without memory for its context the counts would be wrong.
    fn take_packet(&mut self, explained: &Explained) -> Result<(), Stop> {
        if explained.got == Got::Refused(Refusal::NoMemory) {
            return Err(Stop::Memory);
        }
        let Some(counts) = self.links.get_mut(&explained.link) else {
            return Ok(());
        };
        counts.take(explained).map_err(|_| Stop::Memory)
    }
}

impl Taker for Counted {
    fn take(&mut self, _number: u64, line: Line<'_>) -> Result<(), Stop> {
        match line {
            Line::Arrive {
                link,
                moment,
                packet,
            } => {
                let explained = explain_packet(
                    self.alloc,
                    &mut self.concentrator,
                    link,
                    moment,
                    packet,
                )?;
                self.take_packet(&explained)
            }
            Line::Reset { link } => {
                let _ = self.concentrator.reset(link);
                Ok(())
            }
            Line::Bad => Ok(()),
        }
    }
}
