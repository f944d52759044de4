//! Which calls come first in a list.

use crate::rows::refusals_of;
use crate::station::Station;
use rohc_context::Context;
use std::alloc::{AllocError, Global};
use std::cmp::Reverse;
use std::collections::BinaryHeap;

/// Which calls come first in a list. Of those that are alike the first are those of the lowest link and CID.
#[derive(Clone, Copy)]
pub(crate) enum First {
    /// Those that were silent for the longest time.
    Silent,
    /// Those with the most refusals. One without any is not listed.
    Refused,
    /// Those of the lowest link and CID.
    Lowest,
}

impl First {
    /// What a call is ordered by, if it is listed: those with the lowest key come first.
    fn key(self, station: &Station, link: u16, cid: u16, context: &Context) -> Option<u64> {
        match self {
            First::Silent => Some(context.accepted()),
            First::Refused => match refusals_of(station.counts_of(link, cid)?) {
                0 => None,
                refusals => Some(u64::MAX - refusals),
            },
            First::Lowest => Some(0),
        }
    }
}

/// A call among others: its key, its link and its CID.
type Standing = (u64, u16, u16);

/// The calls that are listed, those first that come first.
#[derive(Drop)]
pub(crate) struct Ranking {
    first: First,
    calls: BinaryHeap<Reverse<Standing>>,
}

impl Ranking {
    /// A list without calls.
    pub(crate) fn new(alloc: Global, first: First) -> Ranking {
        Ranking {
            first,
            calls: BinaryHeap::new(alloc),
        }
    }

    /// Takes up a call, if it is listed.
    pub(crate) fn add(
        &mut self,
        station: &Station,
        link: u16,
        cid: u16,
        context: &Context,
    ) -> Result<(), AllocError> {
        if let Some(key) = self.first.key(station, link, cid, context) {
            self.calls.push(Reverse((key, link, cid)))?;
        }
        Ok(())
    }

    /// Gives the link and the CID of the first call, and lists it no longer.
    pub(crate) fn next(&mut self) -> Option<(u16, u16)> {
        let Reverse((_, link, cid)) = self.calls.pop()?;
        Some((link, cid))
    }

    /// How many calls are listed.
    pub(crate) fn len(&self) -> usize {
        self.calls.len()
    }
}
