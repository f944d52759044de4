//! The first run over an input: which links it has, and which kind of CIDs.

use crate::evidence::Evidence;
use indexmap::IndexMap;
use rohctl_ground::{Line, Stop, Taker};
use std::alloc::Global;

/// The most links of a concentrator.
const MOST_LINKS: usize = 256;

/// What the run gathers.
#[derive(Drop)]
pub(crate) struct Gathered {
    /// The evidence for each link, in the order of their first packets.
    pub(crate) links: IndexMap<u16, Evidence>,
    /// The packets of links beyond those that fit into a links file.
    pub(crate) beyond: u64,
    /// The lines that are no events.
    pub(crate) bad: u64,
    /// The packets.
    pub(crate) packets: u64,
    /// The resets.
    pub(crate) resets: u64,
}

impl Gathered {
    /// No packet yet.
    pub(crate) fn new(alloc: Global) -> Self {
        Gathered {
            links: IndexMap::new(alloc),
            beyond: 0,
            bad: 0,
            packets: 0,
            resets: 0,
        }
    }

    /// Takes a packet.
    fn take_packet(&mut self, link: u16, packet: &[u8]) -> Result<(), Stop> {
        self.packets = self.packets.saturating_add(1);
        if let Some(evidence) = self.links.get_mut(&link) {
            evidence.take(packet);
            return Ok(());
        }
        if self.links.len() >= MOST_LINKS {
            self.beyond = self.beyond.saturating_add(1);
            return Ok(());
        }
        let mut evidence = Evidence::default();
        evidence.take(packet);
        match self.links.insert(link, evidence) {
            Ok(_) => Ok(()),
            Err(_) => Err(Stop::Memory),
        }
    }
}

impl Taker for Gathered {
    fn take(&mut self, _number: u64, line: Line<'_>) -> Result<(), Stop> {
        match line {
            Line::Arrive { link, packet, .. } => self.take_packet(link, packet),
            Line::Reset { .. } => {
                self.resets = self.resets.saturating_add(1);
                Ok(())
            }
            Line::Bad => {
                self.bad = self.bad.saturating_add(1);
                Ok(())
            }
        }
    }
}
