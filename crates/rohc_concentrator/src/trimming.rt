//! Packets to which a layer below added octets.

use crate::concentrator::Concentrator;
use crate::records::LinkRecords;
use rohc_context::first_excess;
use rohc_frame::{Forward, cut};

impl LinkRecords {
    ghost use Rattle.std.specs.Prelude.{◌≡◌, Some};
    ghost use Rattle.rohc_frame.specs.Reading.{header_of};
    ghost use Rattle.rohc_concentrator.specs.Tables.{record_in};
    ghost use Rattle.rohc_concentrator.specs.Trimmed.{surplus};

    /// How many octets behind a packet are no part of it, if its payload has at most `payload` octets.
    fn surplus(&self, forward: &Forward<'_>, payload: u16) -> usize
        ensures { result ≡ surplus payload (record_in self.now) (Some (header_of forward.now)) }
    {
        let excess = match self.contexts.get(&forward.cid) {
            Some(context) => context.excess(forward, payload),
            None => first_excess(forward, payload),
        };
        excess.min(forward.rest.len())
    }
}

impl Concentrator {
    ghost use Rattle.std.specs.Prelude.{◌≡◌};
    ghost use Rattle.rohc_concentrator.specs.Tables.{setting_at, record_at};
    ghost use Rattle.rohc_concentrator.specs.Trimmed.{trimmed};

    /// A packet without what a layer below added behind it, as Ethernet pads short frames: the octets behind its header and
    /// `payload` octets, as the context of its CID reads it. ROHC has no length field, so this is for links whose payloads have at
    /// most `payload` octets each.
    ///
    /// A packet of profile 0x0000 ends where its IP header says. One that can't be read stays as it is. It is for the same CID.
    pub fn trimmed<'a>(&self, link: u16, payload: u16, octets: &'a [u8]) -> &'a [u8]
        ensures { result.now ≡ trimmed payload (setting_at self.now link) (record_at self.now link) octets.entry.now }
    {
        let Some(records) = self.links.get(&link) else {
            return octets;
        };
        let settings = &records.setting.settings;
        let Ok(framed) = cut(settings.size, settings.max_cid, octets) else {
            return octets;
        };
        match framed.forward {
            Some(forward) => &octets[..octets
                .len()
                .saturating_sub(records.surplus(&forward, payload))],
            None => octets,
        }
    }
}
