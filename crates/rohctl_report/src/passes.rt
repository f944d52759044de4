//! The two runs over an input: one that counts, and one that draws the calls that are the worst by the first.

use crate::seen::{became_of, feedback_of, state_of};
use indexmap::IndexMap;
use rohc_context::Refusal;
use rohc_report::{Axis, CallRow, Calls, Drawn, key_of};
use rohctl_captures::{Narrow, Place, Unit};
use rohctl_explain::{Decoding, Explained, Got, write_whole};
use rohctl_ground::{Line, Stop, Taker};
use std::alloc::{AllocError, Global};

/// Runs a packet in the line or frame with this number, and explains it. Without memory for its context the two runs
/// would differ, so neither continues.
fn explain(
    decoding: &mut Decoding,
    number: u64,
    link: u16,
    moment: u64,
    packet: &[u8],
) -> Result<Explained, Stop> {
    let explained = decoding.arrive(number, link, moment, packet)?;
    if explained.got == Got::Refused(Refusal::NoMemory) {
        return Err(Stop::Memory);
    }
    Ok(explained)
}

/// The run that counts.
#[derive(Drop)]
pub(crate) struct Counting {
    pub(crate) decoding: Decoding,
    pub(crate) calls: Calls,
    /// The lines or frames that are events.
    pub(crate) events: u64,
    /// Which packets are shown.
    pub(crate) narrow: Narrow,
}

impl Counting {
    /// Counts a packet.
    fn count(&mut self, number: u64, explained: &Explained) -> Result<(), AllocError> {
        let became = became_of(explained);
        match explained.cid {
            Some(cid) => self.calls.take(
                explained.link,
                cid,
                number,
                explained.moment,
                became,
                feedback_of(explained),
                explained.relayed,
            ),
            None => {
                self.calls.take_loose(became, explained.relayed);
                Ok(())
            }
        }
    }
}

impl Taker for Counting {
    fn take(&mut self, number: u64, line: Line<'_>) -> Result<(), Stop> {
        if !matches!(&line, Line::Bad) {
            self.events = self.events.saturating_add(1);
        }
        match line {
            Line::Arrive {
                link,
                moment,
                packet,
            } => {
                let explained = explain(&mut self.decoding, number, link, moment, packet)?;
                if self.narrow.shows(&explained.seen(number)) {
                    self.count(number, &explained).map_err(|_| Stop::Memory)?;
                }
            }
            Line::Reset { link } => {
                if self.decoding.concentrator.reset(link).is_err() {
                    self.calls.take_reset();
                }
            }
            Line::Bad => self.calls.take_bad(),
        }
        Ok(())
    }
}

/// The calls that are drawn.
#[derive(Drop)]
pub(crate) struct DrawnCalls {
    pub(crate) drawn: Vec<Drawn>,
    /// Where a call stands among them.
    places: IndexMap<u32, usize>,
}

/// A call before its first packet.
fn fresh_call(alloc: Global, row: &CallRow) -> Result<Drawn, AllocError> {
    let axis = Axis {
        first: row.totals.first,
        last: row.totals.last,
    };
    Drawn::new(alloc, row.link, row.cid, axis)
}

/// The calls of these rows, before their first packets.
fn fresh_calls(alloc: Global, rows: &[CallRow]) -> Result<Vec<Drawn>, AllocError> {
    let mut drawn = Vec::new(alloc);
    for row in rows {
        drawn.push(fresh_call(alloc, row)?)?;
    }
    Ok(drawn)
}

/// Where the call of each row stands among them.
fn places_of(alloc: Global, rows: &[CallRow]) -> Result<IndexMap<u32, usize>, AllocError> {
    let mut places = IndexMap::new(alloc);
    for (place, row) in rows.iter().enumerate() {
        places.insert(key_of(row.link, row.cid), place)?;
    }
    Ok(places)
}

impl DrawnCalls {
    /// The calls of these rows, before their first packets.
    pub(crate) fn new(alloc: Global, rows: &[CallRow]) -> Result<Self, AllocError> {
        let drawn = fresh_calls(alloc, rows)?;
        let places = places_of(alloc, rows)?;
        Ok(DrawnCalls { drawn, places })
    }

    /// The call of a packet, if it is drawn.
    fn call_of(&mut self, explained: &Explained) -> Option<&mut Drawn> {
        let place = self.places.get(&key_of(explained.link, explained.cid?))?;
        self.drawn.get_mut(*place)
    }
}

/// The run that draws.
#[derive(Drop)]
pub(crate) struct Drawing {
    pub(crate) decoding: Decoding,
    pub(crate) unit: Unit,
    pub(crate) narrow: Narrow,
    pub(crate) calls: DrawnCalls,
}

/// What `explain` writes of a packet.
fn text_of(alloc: Global, at: Place, explained: &Explained) -> Result<Vec<u8>, Stop> {
    let mut text = Vec::new(alloc);
    match write_whole(&mut text, at, explained) {
        Ok(()) => Ok(text),
        Err(_) => Err(Stop::Memory),
    }
}

/// Draws a packet into its call.
fn draw(
    alloc: Global,
    drawn: &mut Drawn,
    number: u64,
    at: Place,
    explained: &Explained,
) -> Result<(), Stop> {
    let text = text_of(alloc, at, explained)?;
    let taken = drawn.take(
        number,
        explained.moment,
        became_of(explained),
        feedback_of(explained),
        state_of(explained),
        text,
    );
    taken.map_err(|_| Stop::Memory)
}

impl Drawing {
    /// Draws a packet, if its call is drawn.
    fn draw(&mut self, number: u64, explained: &Explained) -> Result<(), Stop> {
        let at = Place {
            unit: self.unit,
            number,
        };
        match self.calls.call_of(explained) {
            Some(drawn) => draw(self.decoding.alloc, drawn, number, at, explained),
            None => Ok(()),
        }
    }
}

impl Taker for Drawing {
    fn take(&mut self, number: u64, line: Line<'_>) -> Result<(), Stop> {
        match line {
            Line::Arrive {
                link,
                moment,
                packet,
            } => {
                let explained = explain(&mut self.decoding, number, link, moment, packet)?;
                if self.narrow.shows(&explained.seen(number)) {
                    self.draw(number, &explained)?;
                }
            }
            Line::Reset { link } => {
                let _ = self.decoding.concentrator.reset(link);
            }
            Line::Bad => {}
        }
        Ok(())
    }
}
