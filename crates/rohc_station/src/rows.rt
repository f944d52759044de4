//! The links and the calls of a station, as its lists and its page show them.

use crate::calls::CallCounts;
use crate::counters::Octets;
use crate::limits::second_of;
use crate::metrics::{delivered, refused};
use crate::scan::{LinkStates, States};
use crate::station::Station;
use rohc_concentrator::LinkSetting;
use rohc_context::{Context, ContextState, Refusal, StateView};
use rohc_header::Static;

/// For how long a call has no accepted packet before it counts as silent, in milliseconds.
const SILENT_AFTER: u64 = 2_000;

/// How many of the calls with the most refusals are listed.
pub(crate) const MOST_WORST: usize = 20;

/// What is shown of a link.
#[derive(Clone, Copy)]
pub(crate) struct LinkRow {
    /// Its contexts by state.
    pub(crate) states: States,
    /// Its packets in the last whole second.
    pub(crate) per_second: u64,
    pub(crate) delivered: u64,
    pub(crate) refused: u64,
    /// The NACKs and STATIC-NACKs for its compressor.
    pub(crate) nacks: u64,
    /// The share of the rebuilt octets that wasn't sent, in percent; `None` if nothing was rebuilt, or more was sent.
    pub(crate) saved: Option<u64>,
}

/// The share of the rebuilt octets that wasn't sent, in percent.
fn saved_share(octets: Octets) -> Option<u64> {
    let saved = octets.rebuilt.checked_sub(octets.compressed)?;
    saved.saturating_mul(100).checked_div(octets.rebuilt)
}

/// The calls of a station, and the moment at which they are shown.
#[derive(Clone, Copy)]
pub struct CallList<'a> {
    pub station: &'a Station,
    /// Now, in milliseconds since 1970.
    pub now: u64,
    /// Whether arrivals may have moments of their senders' clocks, which are no time since 1970.
    pub has_timed: bool,
}

/// A call.
#[derive(Clone, Copy)]
pub(crate) struct CallRow<'a> {
    pub(crate) link: u16,
    pub(crate) cid: u16,
    pub(crate) context: &'a Context,
    /// Whether it has expired, so that its packets are answered as if it weren't there.
    pub(crate) has_expired: bool,
    /// For how many milliseconds it has no accepted packet, unless its moments may be no time since 1970.
    pub(crate) silent: Option<u64>,
    /// Its addresses, its ports and its SSRC, if its context keeps them.
    pub(crate) fixed: Option<Static>,
    /// Its counts, if it had a packet in this run.
    pub(crate) counts: Option<&'a CallCounts>,
}

impl CallRow<'_> {
    /// Whether the call is silent.
    pub(crate) fn is_silent(&self) -> bool {
        match self.silent {
            Some(silent) => silent > SILENT_AFTER,
            None => false,
        }
    }

    /// Why a packet of the call was last refused, if one was in this run.
    pub(crate) fn last_refused(&self) -> Option<Refusal> {
        self.counts?.last_refused
    }
}

/// The addresses, the ports and the SSRC of a call, if its context keeps them.
fn fixed_of(context: &Context) -> Option<Static> {
    match context.view().state {
        StateView::Plain | StateView::NoContext { .. } => None,
        StateView::Static { fixed, .. } | StateView::Full { fixed, .. } => Some(fixed),
    }
}

/// How many packets of a call were refused.
pub(crate) fn refusals_of(counts: &CallCounts) -> u64 {
    let mut sum = 0u64;
    for refusal in Refusal::all() {
        sum = sum.saturating_add(u64::from(counts.refused(refusal)));
    }
    sum
}

/// Whether the calls of a link are listed: those of all links are, or of only one.
pub(crate) fn is_listed(only: Option<u16>, link: u16) -> bool {
    match only {
        Some(only) => only == link,
        None => true,
    }
}

impl<'a> CallList<'a> {
    /// Now, if the moments of all arrivals are of this clock.
    pub(crate) fn clock(&self) -> Option<u64> {
        if self.has_timed { None } else { Some(self.now) }
    }

    /// A link with these contexts, if it is there.
    pub(crate) fn link_row(&self, seen: &LinkStates) -> Option<LinkRow> {
        let of_link = self.station.counters().get(&seen.link)?;
        let [_, nacks, static_nacks, _] = of_link.answers.words;
        Some(LinkRow {
            states: seen.states,
            per_second: of_link.limiter.packets_before(second_of(self.now)),
            delivered: delivered(&of_link.answers),
            refused: refused(&of_link.answers),
            nacks: nacks.saturating_add(static_nacks),
            saved: saved_share(of_link.octets),
        })
    }

    /// The call of a CID, if the CID has a context.
    pub(crate) fn row_of(&self, link: u16, cid: u16) -> Option<CallRow<'a>> {
        let station = self.station;
        let records = station.concentrator().tables().get(&link)?;
        let context = records.contexts.get(&cid)?;
        let silent = self
            .clock()
            .map(|now| now.saturating_sub(context.accepted()));
        Some(CallRow {
            link,
            cid,
            context,
            has_expired: has_expired(&records.setting, context, self.clock()),
            silent,
            fixed: fixed_of(context),
            counts: station.counts_of(link, cid),
        })
    }
}

/// Whether a context has expired by a clock, if that is the clock of its arrivals.
pub(crate) fn has_expired(setting: &LinkSetting, context: &Context, clock: Option<u64>) -> bool {
    match clock {
        Some(now) => setting.has_expired(context, now),
        None => false,
    }
}

/// The state of a call, as people read it.
pub(crate) fn state_text(row: &CallRow<'_>) -> &'static str {
    if row.has_expired {
        return "Expired";
    }
    match row.context.state() {
        ContextState::NoContext => "No Context",
        ContextState::StaticContext => "Static Context",
        ContextState::FullContext => "Full Context",
    }
}
