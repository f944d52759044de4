//! The calls between the ends that are sought, as the contexts hold them.

use crate::address::{Endpoint, is_between};
use indexmap::IndexMap;
use rohc_concentrator::{Answer, Concentrator};
use rohc_context::{ContextState, Outcome, Refusal, View};
use rohc_header::Static;
use rohctl_explain::{fixed_in, state_in};
use rohctl_ground::{Line, Stop, Taker};
use std::alloc::{AllocError, Global};

/// A call that was found.
#[derive(Clone, Copy)]
pub(crate) struct FoundCall {
    pub(crate) link: u16,
    pub(crate) cid: u16,
    /// Its addresses, ports and SSRC.
    pub(crate) fixed: Static,
    /// The lines or frames of its first and its last packet; none if only the contexts before the first packet have it.
    pub(crate) packets: Option<(u64, u64)>,
}

impl FoundCall {
    /// The state of its context, if that still holds this call.
    pub(crate) fn state(&self, concentrator: &Concentrator) -> Option<ContextState> {
        let records = concentrator.tables().get(&self.link)?;
        let view = records.contexts.get(&self.cid)?.view();
        match fixed_in(&view) {
            Some(fixed) if !is_same(fixed, &self.fixed) => None,
            _ => Some(state_in(&view)),
        }
    }
}

/// Whether these are the fields of one call.
fn is_same(first: &Static, second: &Static) -> bool {
    first.source == second.source
        && first.destination == second.destination
        && first.source_port == second.source_port
        && first.destination_port == second.destination_port
        && first.ssrc == second.ssrc
}

/// The run that finds calls.
#[derive(Drop)]
pub(crate) struct Finding {
    pub(crate) concentrator: Concentrator,
    first: Endpoint,
    second: Option<Endpoint>,
    /// What has the contexts before the first packet.
    pub(crate) origin: &'static str,
    /// The calls, in the order in which they were found.
    pub(crate) calls: Vec<FoundCall>,
    /// Where the last call of each link and CID stands among them.
    places: IndexMap<(u16, u16), usize>,
    /// The lines that are no events.
    pub(crate) bad: u64,
    /// The lines or frames that are events.
    pub(crate) events: u64,
}

impl Finding {
    /// Nothing was found yet.
    pub(crate) fn new(
        alloc: Global,
        concentrator: Concentrator,
        first: Endpoint,
        second: Option<Endpoint>,
        origin: &'static str,
    ) -> Self {
        Finding {
            concentrator,
            first,
            second,
            origin,
            calls: Vec::new(alloc),
            places: IndexMap::new(alloc),
            bad: 0,
            events: 0,
        }
    }

    /// Adds a call.
    fn add(&mut self, call: FoundCall) -> Result<(), AllocError> {
        let place = self.calls.len();
        self.calls.push(call)?;
        self.places.insert((call.link, call.cid), place)?;
        Ok(())
    }

    /// Takes the calls that the contexts hold before the first packet.
    pub(crate) fn take_contexts(&mut self) -> Result<(), AllocError> {
        for (link, records) in self.concentrator.tables().iter() {
            for (cid, context) in records.contexts.iter() {
                let view = context.view();
                if let Some(fixed) = fixed_in(&view)
                    && is_between(&self.first, self.second.as_ref(), fixed)
                {
                    self.calls.push(FoundCall {
                        link: *link,
                        cid: *cid,
                        fixed: *fixed,
                        packets: None,
                    })?;
                }
            }
        }
        for (place, call) in self.calls.iter().enumerate() {
            self.places.insert((call.link, call.cid), place)?;
        }
        Ok(())
    }

    /// The call that stands at this link and CID, if it has these fields.
    fn known(&mut self, link: u16, cid: u16, fixed: &Static) -> Option<&mut FoundCall> {
        let place = self.places.get(&(link, cid))?;
        let call = self.calls.get_mut(*place)?;
        if is_same(&call.fixed, fixed) {
            Some(call)
        } else {
            None
        }
    }

    /// Takes what the context of a packet holds behind it.
    fn take_view(
        &mut self,
        number: u64,
        link: u16,
        cid: u16,
        view: &View,
    ) -> Result<(), AllocError> {
        let Some(fixed) = fixed_in(view) else {
            return Ok(());
        };
        if !is_between(&self.first, self.second.as_ref(), fixed) {
            return Ok(());
        }
        if let Some(call) = self.known(link, cid, fixed) {
            let first = match call.packets {
                Some((first, _)) => first,
                None => number,
            };
            call.packets = Some((first, number));
            return Ok(());
        }
        self.add(FoundCall {
            link,
            cid,
            fixed: *fixed,
            packets: Some((number, number)),
        })
    }

    /// What the context of a link and CID holds.
    fn view_of(&self, link: u16, cid: u16) -> Option<View> {
        let records = self.concentrator.tables().get(&link)?;
        Some(records.contexts.get(&cid)?.view())
    }

    /// Takes a packet. Without memory for its context a call of it would not be found.
    fn take_packet(
        &mut self,
        number: u64,
        link: u16,
        moment: u64,
        packet: &[u8],
    ) -> Result<(), Stop> {
        let (cid, outcome) = match self.concentrator.arrive(link, moment, packet) {
            Answer::Arrived { cid, reply, .. } => (cid, reply.outcome),
            Answer::OnlyFront { .. } | Answer::Refused(_) => return Ok(()),
        };
        if outcome == Outcome::Refused(Refusal::NoMemory) {
            return Err(Stop::Memory);
        }
        match self.view_of(link, cid) {
            Some(view) => self
                .take_view(number, link, cid, &view)
                .map_err(|_| Stop::Memory),
            None => Ok(()),
        }
    }
}

impl Taker for Finding {
    fn take(&mut self, number: u64, line: Line<'_>) -> Result<(), Stop> {
        if matches!(&line, Line::Bad) {
            self.bad = self.bad.saturating_add(1);
        } else {
            self.events = self.events.saturating_add(1);
        }
        match line {
            Line::Arrive {
                link,
                moment,
                packet,
            } => self.take_packet(number, link, moment, packet),
            Line::Reset { link } => {
                let _ = self.concentrator.reset(link);
                Ok(())
            }
            Line::Bad => Ok(()),
        }
    }
}
