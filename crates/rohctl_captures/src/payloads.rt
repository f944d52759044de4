//! How long the payloads of links are, for packets to which a layer below added octets.

use indexmap::IndexMap;
use rohc_concentrator::Concentrator;
use rohctl_ground::{Ending, Misuse};
use std::alloc::Global;

/// How many octets the payloads of links have at most, where that is known.
#[derive(Drop)]
pub struct Payloads {
    by_link: IndexMap<u16, u16>,
}

/// A link and the octets of its payloads, LINK=N, if it can be read.
fn pair_of(text: &str) -> Option<(u16, u16)> {
    let (link, octets) = text.split_once("=")?;
    let octets: u16 = octets.parse().ok()?;
    if octets == 0 {
        return None;
    }
    Some((link.parse().ok()?, octets))
}

/// The payloads that `--payload` gives, as LINK=N with commas between them.
pub fn payloads_of<'a>(alloc: Global, given: Option<&'a str>) -> Result<Payloads, Ending<'a>> {
    let mut by_link = IndexMap::new(alloc);
    let Some(given) = given else {
        return Ok(Payloads { by_link });
    };
    for part in given.split(",") {
        let Some((link, octets)) = pair_of(part) else {
            return Err(Ending::Misuse(Misuse::Value {
                word: "--payload",
                given,
                expected: "LINK=OCTETS, as 1=20: a link from 0 to 65535, a number of octets from 1 to 65535",
            }));
        };
        if by_link.insert(link, octets).is_err() {
            return Err(Ending::Memory);
        }
    }
    Ok(Payloads { by_link })
}

impl Payloads {
    ghost use Rattle.std.specs.Prelude.{◌≡◌};
    ghost use Rattle.rohctl_captures.specs.Payloads.{payload_in, trimmed_as};

    /// Whether there are none.
    pub fn are_unknown(&self) -> bool {
        self.by_link.is_empty()
    }

    /// A packet of a link without what a layer below added behind it (`Concentrator::trimmed`), if it is known how long the payloads of
    /// the link are.
    pub fn trimmed<'a>(&self, concentrator: &Concentrator, link: u16, packet: &'a [u8]) -> &'a [u8]
        ensures { result.now ≡ trimmed_as (payload_in self.now link) concentrator.now link packet.entry.now }
    {
        match self.by_link.get(&link) {
            Some(payload) => concentrator.trimmed(link, *payload, packet),
            None => packet,
        }
    }
}
