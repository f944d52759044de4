//! A look through the contexts of a station that goes by pieces, while the station goes on.
//!
//! No piece takes longer than a fixed number of contexts does, so that no datagram waits for a list of many calls. So what it
//! finds is of no single moment: each context is counted as it was when it was looked at.

ghost use Rattle.std.specs.Prelude.{◌≡◌, ◌≤◌, ◌<◌, ◌+◌, nat_le, vec_len, slice_get, false, Some, OnOk, IfOk, IfSome};

use crate::ranking::{First, Ranking};
use crate::rows::{CallList, has_expired, is_listed};
use rohc_concentrator::LinkRecords;
use rohc_context::{Context, ContextState};
use std::alloc::{AllocError, Global};

/// The most CIDs that one piece looks at.
pub const MOST_LOOKED: u16 = 1024;

/// How many contexts of a link are in each state.
#[derive(Clone, Copy, Default, PartialEq, Eq)]
pub struct States {
    pub no: u64,
    pub fixed: u64,
    pub full: u64,
    /// Those that have expired, and in no other count.
    pub expired: u64,
}

impl States {
    /// Adds those of another count.
    fn add(&mut self, other: States) {
        self.no = self.no.saturating_add(other.no);
        self.fixed = self.fixed.saturating_add(other.fixed);
        self.full = self.full.saturating_add(other.full);
        self.expired = self.expired.saturating_add(other.expired);
    }

    /// Counts a context. One that has expired by a clock is counted apart.
    fn count(&mut self, context: &Context, has_expired: bool) {
        let count = match context.state() {
            _ if has_expired => &mut self.expired,
            ContextState::NoContext => &mut self.no,
            ContextState::StaticContext => &mut self.fixed,
            ContextState::FullContext => &mut self.full,
        };
        *count = count.saturating_add(1);
    }
}

/// A link and its contexts by state, as far as they were looked at.
#[derive(Clone, Copy)]
pub struct LinkStates {
    pub link: u16,
    pub states: States,
}

/// A look through the contexts of a station.
#[derive(Drop)]
pub struct Scan {
    /// The links that were there at the begin.
    links: Vec<u16>,
    /// The contexts of each of them.
    states: Vec<States>,
    /// How many of them were looked through.
    place: usize,
    /// The CIDs of the next link below this one were looked at.
    next: u16,
    /// Which calls come first.
    pub(crate) rankings: Vec<Ranking>,
    ghost low: { next ≤ 16384 },
}

impl Scan {
    ghost use Rattle.rohc_station.specs.Scan.{reached};

    /// A look through the contexts of one link, or of all, that lists calls in these orders.
    pub(crate) fn new(
        alloc: Global,
        calls: &CallList<'_>,
        only: Option<u16>,
        orders: &[First],
    ) -> Result<Scan, AllocError> {
        let (mut links, mut states) = (Vec::new(alloc), Vec::new(alloc));
        for (link, _) in calls.station.concentrator().tables() {
            if is_listed(only, *link) {
                links.push(*link)?;
                states.push(States::default())?;
            }
        }
        let mut rankings = Vec::new(alloc);
        for first in orders {
            rankings.push(Ranking::new(alloc, *first))?;
        }
        Ok(Scan {
            links,
            states,
            place: 0,
            next: 0,
            rankings,
        })
    }

    /// How many links were there at the begin.
    pub fn link_count(&self) -> usize
        ensures { result ≡ vec_len self.now.links }
    {
        self.links.len()
    }

    /// The link of this place and its contexts.
    pub fn link_at(&self, place: usize) -> Option<LinkStates>
        ensures link { IfSome result (λ l. slice_get self.now.links.items place ≡ Some l.link) }
        ensures states { IfSome result (λ l. slice_get self.now.states.items place ≡ Some l.states) }
    {
        Some(LinkStates {
            link: *self.links.get(place)?,
            states: *self.states.get(place)?,
        })
    }

    /// The contexts of all links by state.
    pub fn states(&self) -> States {
        let mut sum = States::default();
        for states in &self.states {
            sum.add(*states);
        }
        sum
    }

    /// Whether all contexts were looked at.
    pub fn is_done(&self) -> bool
        ensures { result ≡ nat_le (vec_len self.now.links) self.now.place }
    {
        self.place >= self.link_count()
    }

    /// Looks at contexts of the next link: at all of them that are left if there are few, and else at the next CIDs.
    ///
    /// The error is that there is no memory for a list.
    pub fn look_on(&mut self, calls: &CallList<'_>) -> Result<(), AllocError>
        ensures on { OnOk result (nat_le (vec_len self.old.links) self.old.place ≡ false → reached self.old < reached self.new) }
        ensures few { self.new.next ≤ self.old.next + 1024 }
        ensures one { self.new.place ≤ self.old.place + 1 }
        ensures links { self.new.links ≡ self.old.links }
    {
        let Some(link) = self.links.get(self.place) else {
            return Ok(());
        };
        let mut seen = LinkStates {
            link: *link,
            states: States::default(),
        };
        let next = seen_on(calls, &mut seen, self.rankings.as_mut_slice(), self.next)?;
        if let Some(states) = self.states.get_mut(self.place) {
            states.add(seen.states);
        }
        match next {
            Some(next) => self.next = next,
            None => {
                self.place += 1;
                self.next = 0;
            }
        }
        Ok(())
    }
}

/// Looks at contexts of a link from a CID on: at all of them if the link has few, and else at the next CIDs. Returns the CID that
/// follows, or nothing if the link was looked through. One that has gone has no contexts.
fn seen_on(
    calls: &CallList<'_>,
    seen: &mut LinkStates,
    rankings: &mut [Ranking],
    from: u16,
) -> Result<Option<u16>, AllocError>
    ensures link { seen.new.link ≡ seen.old.link }
    ensures on { IfOk result (λ next. IfSome next (λ cid. from < cid)) }
    ensures few { IfOk result (λ next. IfSome next (λ cid. cid ≤ from + 1024)) }
    ensures low { IfOk result (λ next. IfSome next (λ cid. cid ≤ 16383)) }
{
    let Some(records) = calls.station.concentrator().tables().get(&seen.link) else {
        return Ok(None);
    };
    let mut look = Look {
        calls,
        records,
        seen: *seen,
        rankings,
    };
    let next = if records.contexts.len() <= usize::from(MOST_LOOKED) {
        look.at_rest(from)?;
        None
    } else {
        look.at_next(from)?
    };
    seen.states = look.seen.states;
    Ok(next)
}

/// A look at contexts of a link.
#[derive(Drop)]
struct Look<'a, 'b> {
    calls: &'a CallList<'b>,
    records: &'a LinkRecords,
    seen: LinkStates,
    rankings: &'a mut [Ranking],
}

impl Look<'_, '_> {
    /// Counts the context of a CID, and lists its call.
    fn at(&mut self, cid: u16, context: &Context) -> Result<(), AllocError> {
        let has_expired = has_expired(&self.records.setting, context, self.calls.clock());
        self.seen.states.count(context, has_expired);
        for ranking in self.rankings.iter_mut() {
            ranking.add(self.calls.station, self.seen.link, cid, context)?;
        }
        Ok(())
    }

    /// Looks at all contexts from a CID on.
    fn at_rest(&mut self, from: u16) -> Result<(), AllocError> {
        let records = self.records;
        for (cid, context) in &records.contexts {
            if from <= *cid {
                self.at(*cid, context)?;
            }
        }
        Ok(())
    }

    /// Looks at the next CIDs from one on, at most `MOST_LOOKED`. Returns the CID that follows, or nothing after the link's last.
    fn at_next(&mut self, from: u16) -> Result<Option<u16>, AllocError>
        ensures on { IfOk result (λ next. IfSome next (λ cid. from < cid)) }
        ensures few { IfOk result (λ next. IfSome next (λ cid. cid ≤ from + 1024)) }
        ensures low { IfOk result (λ next. IfSome next (λ cid. cid ≤ 16383)) }
    {
        let records = self.records;
        let end = from.saturating_add(MOST_LOOKED);
        for cid in from..end {
            if cid > records.setting.settings.max_cid {
                return Ok(None);
            }
            if let Some(context) = records.contexts.get(&cid) {
                self.at(cid, context)?;
            }
        }
        Ok(if end <= records.setting.settings.max_cid {
            Some(end)
        } else {
            None
        })
    }
}
