//! Machines that run alone: one for each call, and one for all other packets.

use crate::sender::{CALLS, Call, Octets};
use crate::wrong::Wrong;
use rohc_concentrator::Concentrator;
use rohc_links::read_links;
use rohc_saved::{restore, restore_fallen};
use rohc_station::Station;
use std::alloc::Global;

/// The links of a gateway.
const LINKS: &str = r#"version = 1
[[link]]
number = 1
cid = "small"
max_cid = 15
mode = "O"
k1 = 2
n1 = 3
k2 = 2
n2 = 3
packet_ms = 20
static_nack_ms = 1000
deliver_port = 6001
feedback_port = 6002
relay_port = 6003
[[link]]
number = 2
cid = "small"
max_cid = 15
mode = "U"
k1 = 1
n1 = 2
k2 = 2
n2 = 3
packet_ms = 20
static_nack_ms = 500
deliver_port = 6001
feedback_port = 7002
relay_port = 7003
"#;

/// The port to which both links deliver.
pub(crate) const DELIVER_PORT: u16 = 6001;

/// A station that goes on from what was saved, or begins. Its contexts fall, if what was saved is stale.
pub(crate) fn station_from(
    alloc: Global,
    saved: Option<&[u8]>,
    falls: bool,
) -> Result<Station, Wrong> {
    let links = read_links(alloc, LINKS).map_err(|_| Wrong::Memory)?;
    let restored = match saved {
        Some(octets) if falls => Some(restore_fallen(alloc, links.settings(), octets)),
        Some(octets) => Some(restore(alloc, links.settings(), octets)),
        None => None,
    };
    let begun = match restored {
        Some(Ok((concentrator, _))) => Ok(concentrator),
        Some(Err(_)) => Err(Wrong::State),
        None => Concentrator::new(alloc, links.settings()).map_err(|_| Wrong::Memory),
    };
    Station::new(alloc, begun?, links).map_err(|_| Wrong::Memory)
}

/// What is saved of a station.
pub(crate) fn saved_of(alloc: Global, station: &Station, moment: u64) -> Result<Vec<u8>, Wrong> {
    let mut octets = Vec::new(alloc);
    match station.save(moment, &mut octets) {
        Ok(_) => Ok(octets),
        Err(_) => Err(Wrong::Memory),
    }
}

/// What was saved of a gateway, and at the same moment of each machine.
#[derive(Drop)]
pub(crate) struct Saved {
    pub(crate) moment: u64,
    pub(crate) state: Vec<u8>,
    pub(crate) alone: Vec<Vec<u8>>,
}

/// The machines of the calls, and behind them that of all other packets.
#[derive(Drop)]
pub(crate) struct Machines {
    each: Vec<Station>,
}

impl Machines {
    /// Machines that go on from what was saved, or begin. Their contexts fall, if what was saved is stale.
    pub(crate) fn from(
        alloc: Global,
        saved: Option<&Saved>,
        falls: bool,
    ) -> Result<Machines, Wrong> {
        let mut each = Vec::new(alloc);
        for place in 0..CALLS + 1 {
            let octets = match saved {
                Some(saved) => saved.alone.get(place).map(|one| one.as_slice()),
                None => None,
            };
            let station = station_from(alloc, octets, falls)?;
            each.push(station).map_err(|_| Wrong::Memory)?;
        }
        Ok(Machines { each })
    }

    /// What is saved of a gateway and of the machines.
    pub(crate) fn saved_with(
        &self,
        alloc: Global,
        station: &Station,
        moment: u64,
    ) -> Result<Saved, Wrong> {
        let state = saved_of(alloc, station, moment)?;
        let mut alone = Vec::new(alloc);
        for one in self.each.as_slice() {
            let octets = saved_of(alloc, one, moment)?;
            alone.push(octets).map_err(|_| Wrong::Memory)?;
        }
        Ok(Saved {
            moment,
            state,
            alone,
        })
    }

    /// The machines.
    pub(crate) fn each(&self) -> &[Station] {
        self.each.as_slice()
    }

    /// The machine of a place.
    pub(crate) fn at(&mut self, place: usize) -> Option<&mut Station> {
        self.each.get_mut(place)
    }
}

/// The place of the machine that a datagram is for.
pub(crate) fn place_of(calls: &[Call], datagram: &Octets) -> usize {
    calls
        .iter()
        .position(|call| call.is_of(datagram))
        .unwrap_or(CALLS)
}
