//! The packets of an input, explained one after another.

use crate::falls::Falls;
use crate::packet::{Explained, explain_packet};
use rohc_concentrator::Concentrator;
use rohctl_captures::Payloads;
use rohctl_ground::Stop;
use std::alloc::Global;

/// A concentrator whose packets are explained.
#[derive(Drop)]
pub struct Decoding {
    pub alloc: Global,
    pub concentrator: Concentrator,
    /// How long the payloads of links are.
    pub payloads: Payloads,
    /// Where its contexts fell.
    pub falls: Falls,
}

impl Decoding {
    /// Runs a packet, and explains it. It stands in the line or frame with this number.
    pub fn arrive(
        &mut self,
        number: u64,
        link: u16,
        moment: u64,
        packet: &[u8],
    ) -> Result<Explained, Stop> {
        let packet = self.payloads.trimmed(&self.concentrator, link, packet);
        let mut explained = explain_packet(
            self.alloc,
            &mut self.concentrator,
            link,
            moment,
            packet,
        )?;
        match self.falls.take(number, &mut explained) {
            Ok(()) => Ok(explained),
            Err(_) => Err(Stop::Memory),
        }
    }
}
