//! `script` of a part of an input: the packets that are shown and, before the first one of each call, those from its newest IR
//! on. So a part begins with the contexts that its packets need. The input is read twice: to look, and to write.

ghost use Rattle.std.specs.Prelude.{◌≡◌};
ghost use Rattle.rohctl_captures.specs.Part.{noted, leads};

use crate::annotated::{Annotator, Arrival};
use crate::lines_out::Lines;
use crate::narrow::{Narrow, Seen};
use indexmap::IndexMap;
use rohc_concentrator::Concentrator;
use rohctl_ground::{Line, Reason, Stop, Taker};
use std::alloc::AllocError;
use std::io::Write;

/// What a script has of a call.
#[derive(Clone, Copy)]
pub(crate) struct Reach {
    /// The number of its newest IR that was accepted, as long as none of its packets is shown. 0 is none.
    pub(crate) newest: u64,
    /// The number of the first packet that is written. 0 is none yet.
    pub(crate) first: u64,
    /// The number of the first packet that is shown.
    pub(crate) shown: u64,
}

/// A call of which nothing is known yet.
const UNKNOWN: Reach = Reach {
    newest: 0,
    first: 0,
    shown: 0,
};

/// The call with the packet of this number. `reset` is the number of the last reset of its link, or 0. `shown` is whether the
/// packet is shown, and `renews` whether it is an IR that was accepted.
fn note(reach: Reach, number: u64, reset: u64, shown: bool, renews: bool) -> Reach
    ensures { result ≡ noted reach number reset shown renews }
{
    if reach.first > 0 {
        return reach;
    }
    if shown {
        let first = if reach.newest > reset {
            reach.newest
        } else {
            number
        };
        return Reach {
            newest: reach.newest,
            first,
            shown: number,
        };
    }
    Reach {
        newest: if renews { number } else { reach.newest },
        first: 0,
        shown: 0,
    }
}

/// Whether a packet leads to the first one of its call that is shown.
fn leads(reach: &Reach, number: u64) -> bool
    ensures { result ≡ leads reach.now number }
{
    reach.first <= number && number < reach.shown
}

/// What a packet is, among those of an input.
fn seen_of(number: u64, link: u16, moment: u64, arrival: &Arrival) -> Seen {
    Seen {
        number,
        link,
        cid: arrival.cid,
        moment,
    }
}

/// The run that looks where each call begins.
#[derive(Drop)]
pub(crate) struct Looking<'r, A> {
    pub(crate) annotator: &'r A,
    pub(crate) concentrator: Concentrator,
    pub(crate) narrow: Narrow,
    /// What the script has of each call.
    pub(crate) calls: IndexMap<(u16, u16), Reach>,
    /// The number of the last reset of each link.
    pub(crate) resets: IndexMap<u16, u64>,
    /// The lines or frames that are events, and the lines that are none.
    pub(crate) events: u64,
    pub(crate) bad: u64,
}

impl<A: Annotator> Looking<'_, A> {
    /// Notes a packet of a call.
    fn note(
        &mut self,
        call: (u16, u16),
        number: u64,
        shown: bool,
        renews: bool,
    ) -> Result<(), AllocError> {
        let reset = self.resets.get(&call.0).copied().unwrap_or(0);
        let known = self.calls.get(&call).copied().unwrap_or(UNKNOWN);
        self.calls
            .insert(call, note(known, number, reset, shown, renews))?;
        Ok(())
    }

    /// Takes a packet.
    fn arrived(
        &mut self,
        number: u64,
        link: u16,
        moment: u64,
        packet: &[u8],
    ) -> Result<(), AllocError> {
        let annotator = self.annotator;
        let packet = annotator
            .payloads()
            .trimmed(&self.concentrator, link, packet);
        let arrival = annotator.arrive(&mut self.concentrator, link, moment, packet)?;
        let shown = self.narrow.shows(&seen_of(number, link, moment, &arrival));
        match arrival.cid {
            Some(cid) => self.note((link, cid), number, shown, arrival.renews),
            None => Ok(()),
        }
    }
}

impl<A: Annotator> Taker for Looking<'_, A> {
    fn take(&mut self, number: u64, line: Line<'_>) -> Result<(), Stop> {
        let noted = match line {
            Line::Arrive {
                link,
                moment,
                packet,
            } => {
                self.events = self.events.saturating_add(1);
                self.arrived(number, link, moment, packet)
            }
            Line::Reset { link } => {
                self.events = self.events.saturating_add(1);
                let _ = self.concentrator.reset(link);
                match self.resets.insert(link, number) {
                    Ok(_) => Ok(()),
                    Err(_) => Err(AllocError),
                }
            }
            Line::Bad => {
                self.bad = self.bad.saturating_add(1);
                Ok(())
            }
        };
        noted.map_err(|_| Stop::Memory)
    }
}

/// The run that writes.
#[derive(Drop)]
pub(crate) struct Writing<'r, A, S: Write + Drop, L: Write + Drop> {
    pub(crate) annotator: &'r A,
    pub(crate) concentrator: Concentrator,
    pub(crate) narrow: Narrow,
    /// What the script has of each call.
    pub(crate) calls: IndexMap<(u16, u16), Reach>,
    /// The links of which a packet was written, and whether each was reset since.
    pub(crate) links: IndexMap<u16, bool>,
    pub(crate) out: Lines<S, L>,
    /// Where the frame begins in a capture.
    pub(crate) place: Option<u64>,
}

impl<A: Annotator, S: Write + Drop, L: Write + Drop> Writing<'_, A, S, L> {
    /// Writes the reset of a link, if it was reset after a packet that was written.
    fn write_reset(&mut self, link: u16) -> Result<(), Stop> {
        let was_reset = self.links.get(&link).copied().unwrap_or(false);
        if self.links.insert(link, false).is_err() {
            return Err(Stop::Memory);
        }
        if !was_reset {
            return Ok(());
        }
        self.out
            .reset(link)
            .map_err(|error| Stop::Write(Reason::of(&error)))
    }

    /// Whether a packet is written: it is shown, or leads to one of its call that is.
    fn is_written(&mut self, seen: &Seen) -> bool {
        if self.narrow.shows(seen) {
            return true;
        }
        match seen.cid {
            Some(cid) => match self.calls.get(&(seen.link, cid)) {
                Some(reach) => leads(reach, seen.number),
                None => false,
            },
            None => false,
        }
    }

    /// Takes a packet.
    fn arrived(&mut self, number: u64, link: u16, moment: u64, packet: &[u8]) -> Result<(), Stop> {
        let annotator = self.annotator;
        let packet = annotator
            .payloads()
            .trimmed(&self.concentrator, link, packet);
        let Ok(arrival) = annotator.arrive(&mut self.concentrator, link, moment, packet) else {
            return Err(Stop::Memory);
        };
        if !self.is_written(&seen_of(number, link, moment, &arrival)) {
            return Ok(());
        }
        self.write_reset(link)?;
        self.out
            .arrived((number, self.place), link, moment, packet)
            .map_err(|error| Stop::Write(Reason::of(&error)))
    }
}

impl<A: Annotator, S: Write + Drop, L: Write + Drop> Taker for Writing<'_, A, S, L> {
    fn place(&mut self, octet: u64) {
        self.place = Some(octet);
    }

    fn take(&mut self, number: u64, line: Line<'_>) -> Result<(), Stop> {
        match line {
            Line::Arrive {
                link,
                moment,
                packet,
            } => self.arrived(number, link, moment, packet),
            Line::Reset { link } => {
                let _ = self.concentrator.reset(link);
                if self.links.get(&link).is_some() && self.links.insert(link, true).is_err() {
                    return Err(Stop::Memory);
                }
                Ok(())
            }
            Line::Bad => Ok(()),
        }
    }
}
