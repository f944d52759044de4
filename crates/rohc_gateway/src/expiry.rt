//! Contexts that have expired: they are forgotten, so that their memory comes back.

use crate::gateway::Gateway;
use rohc_concentrator::LinkRecords;

/// How often all links are looked through, in milliseconds.
const EVERY: u64 = 60_000;

/// Which links are looked through next.
#[derive(Clone, Copy, Default)]
pub(crate) struct Expiry {
    /// When the first one is, if none is left of the last time.
    next: u64,
    /// The place of the next one, while some are left.
    place: Option<usize>,
}

/// Whether a context of a link has expired at a moment.
fn has_expired(records: &LinkRecords, moment: u64) -> bool {
    for (_, context) in &records.contexts {
        if records.setting.has_expired(context, moment) {
            return true;
        }
    }
    false
}

impl Gateway<'_> {
    /// Whether links are left that are to be looked through now.
    pub(crate) fn is_expiring(&self) -> bool {
        self.expiry.place.is_some()
    }

    /// Forgets the contexts of one link that have expired, if it is time for that. At a timed port moments are the senders', so
    /// none is forgotten.
    pub(crate) fn expire_on(&mut self, moment: u64) {
        if self.frame.config.timed_port.is_some() {
            return;
        }
        let place = match self.expiry.place {
            Some(place) => place,
            None if moment >= self.expiry.next => {
                self.expiry.next = moment.saturating_add(EVERY);
                0
            }
            None => return,
        };
        self.expiry.place = self.expire_at(place, moment);
    }

    /// Forgets the contexts of the link at a place that have expired. Returns the place of the next link that may have some. A link
    /// without any is only looked through, since to forget takes time for the calls of all links.
    fn expire_at(&mut self, place: usize, moment: u64) -> Option<usize> {
        let tables = self.service.station.concentrator().tables();
        for at in place..tables.len() {
            let (link, records) = tables.get_index(at)?;
            if records.setting.settings.idle_ms == 0 {
                continue;
            }
            let (link, is_due) = (*link, has_expired(records, moment));
            if is_due && let Ok(gone) = self.service.station.expire(link, moment) {
                self.figures.expired = self.figures.expired.saturating_add(gone as u64);
            }
            return Some(at + 1);
        }
        None
    }
}
