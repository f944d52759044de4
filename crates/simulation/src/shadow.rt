//! A save by pieces, and in step with it one of each machine that runs alone.

use crate::machines::{Machines, Saved};
use crate::sender::CALLS;
use crate::wrong::Wrong;
use rohc_piecewise::Saver;
use rohc_station::Station;
use std::alloc::Global;
use std::mem;

/// Savers of the machines, and behind them one of the gateway, with the octets that each gave so far.
#[derive(Drop)]
pub(crate) struct Shadow {
    alloc: Global,
    moment: u64,
    savers: Vec<Saver>,
    octets: Vec<Vec<u8>>,
}

/// Takes all octets that wait.
fn take_all(saver: &mut Saver, octets: &mut Vec<u8>) -> Result<(), Wrong> {
    for _ in 0..u32::MAX {
        let piece = saver.piece();
        if piece.is_empty() {
            return Ok(());
        }
        let size = piece.len();
        octets.extend_from_slice(piece).map_err(|_| Wrong::Memory)?;
        saver.take(size);
    }
    Ok(())
}

/// The station of a place: that of a machine, or behind them that of the gateway.
fn station_at<'a>(machines: &'a Machines, own: &'a Station, place: usize) -> &'a Station {
    machines.each().get(place).unwrap_or(own)
}

impl Shadow {
    /// No save is under way.
    pub(crate) fn new(alloc: Global) -> Result<Shadow, Wrong> {
        let (mut savers, mut octets) = (Vec::new(alloc), Vec::new(alloc));
        for _ in 0..CALLS + 2 {
            let saver = Saver::new(alloc).map_err(|_| Wrong::Memory)?;
            savers.push(saver).map_err(|_| Wrong::Memory)?;
            octets.push(Vec::new(alloc)).map_err(|_| Wrong::Memory)?;
        }
        Ok(Shadow {
            alloc,
            moment: 0,
            savers,
            octets,
        })
    }

    /// Begins a save at a moment.
    pub(crate) fn begin(
        &mut self,
        machines: &Machines,
        own: &Station,
        moment: u64,
    ) -> Result<(), Wrong> {
        self.moment = moment;
        for (place, saver) in self.savers.iter_mut().enumerate() {
            let station = station_at(machines, own, place);
            let begun = saver.begin(self.alloc, station.concentrator(), moment);
            begun.map_err(|_| Wrong::Memory)?;
        }
        for octets in self.octets.iter_mut() {
            octets.clear();
        }
        self.take()
    }

    /// Takes all octets that wait.
    fn take(&mut self) -> Result<(), Wrong> {
        for (saver, octets) in self.savers.iter_mut().zip(self.octets.iter_mut()) {
            take_all(saver, octets)?;
        }
        Ok(())
    }

    /// Looks at the next CIDs.
    pub(crate) fn gather(&mut self, machines: &Machines, own: &Station) -> Result<(), Wrong> {
        for (place, saver) in self.savers.iter_mut().enumerate() {
            let station = station_at(machines, own, place);
            saver.gather(station.concentrator());
        }
        self.take()
    }

    /// What was saved, if that is all.
    pub(crate) fn saved(&mut self) -> Option<Saved> {
        if self.savers.iter().any(|saver| saver.is_busy()) {
            return None;
        }
        let state = mem::replace(self.octets.last_mut()?, Vec::new(self.alloc));
        let mut alone = Vec::new(self.alloc);
        for octets in self.octets.iter_mut().take(CALLS + 1) {
            let octets = mem::replace(octets, Vec::new(self.alloc));
            alone.push(octets).ok()?;
        }
        Some(Saved {
            moment: self.moment,
            state,
            alone,
        })
    }
}
