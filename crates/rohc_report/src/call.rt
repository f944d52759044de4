//! The totals of a call.

use crate::became::Became;
use rohc_context::Refusal;
use rohc_counts::Counts;

/// The totals of a call: a CID of a link.
#[derive(Clone, Copy)]
pub struct CallTotals {
    /// Its answers by outcome and by kind of feedback.
    pub counts: Counts,
    /// Its late packets.
    pub late: u64,
    /// Its repaired packets.
    pub repaired: u64,
    /// The moments of its first and its last packet; the earliest and the latest, if they come in another order.
    pub first: u64,
    pub last: u64,
    /// The refusals since its last delivery.
    pub silent: u64,
    /// The number of the first of them, and its moment.
    pub since: Option<(u64, u64)>,
    /// The last refusal.
    pub refusal: Option<Refusal>,
}

impl CallTotals {
    ghost use Rattle.std.specs.Prelude.{◌≡◌, option_map};
    ghost use Rattle.rohc_counts.specs.Counted.{counted};
    ghost use Rattle.rohc_report.specs.Became.{late_count, repaired_count};
    ghost use Rattle.rohc_report.specs.Taken.{IsEmpty, IsTaken, Advances};

    /// A call whose first packet comes at this moment.
    pub(crate) fn new(moment: u64) -> Self
        ensures { IsEmpty result }
    {
        CallTotals {
            counts: Counts::new(),
            late: 0,
            repaired: 0,
            first: moment,
            last: moment,
            silent: 0,
            since: None,
            refusal: None,
        }
    }

    /// Takes the packet with this number: what became of it, the feedback that it made due, and how much it carried.
    pub(crate) fn take(
        &mut self,
        cid: u16,
        number: u64,
        moment: u64,
        became: Became,
        feedback: Option<&[u8]>,
        relayed: u64,
    )
        ensures { Advances cid became (option_map (λ r. r.now) feedback.entry) relayed self.old self.new }
    {
        self.counts
            .count_numbers(became.outcome(), cid, feedback, relayed);
        self.late = self.late.saturating_add(became.late());
        self.repaired = self.repaired.saturating_add(became.repaired());
        self.first = self.first.min(moment);
        self.last = self.last.max(moment);
        self.follow(number, moment, became);
    }

    /// Follows how long the call is silent.
    fn follow(&mut self, number: u64, moment: u64, became: Became)
        ensures counts { self.new.counts ≡ self.old.counts }
        ensures late { self.new.late ≡ self.old.late }
        ensures repaired { self.new.repaired ≡ self.old.repaired }
    {
        match became {
            Became::Delivered | Became::Late | Became::Repaired => {
                self.silent = 0;
                self.since = None;
            }
            Became::Refused(refusal) => {
                self.silent = self.silent.saturating_add(1);
                self.since = self.since.or(Some((number, moment)));
                self.refusal = Some(refusal);
            }
            Became::Stored | Became::Front => {}
        }
    }

    /// How many packets there are of an outcome.
    pub(crate) fn outcome(&self, outcome: u8) -> u64 {
        outcome_in(&self.counts, outcome)
    }

    /// Its refusals.
    pub(crate) fn refused(&self) -> u64 {
        refused_in(&self.counts)
    }

    /// Its packets.
    pub fn packets(&self) -> u64 {
        packets_in(&self.counts)
    }
}

/// How many answers there are of an outcome.
pub(crate) fn outcome_in(counts: &Counts, outcome: u8) -> u64 {
    counts
        .outcomes
        .get(usize::from(outcome))
        .copied()
        .unwrap_or(0)
}

/// The refusals among these answers.
pub(crate) fn refused_in(counts: &Counts) -> u64 {
    let mut refused = 0u64;
    for count in &counts.outcomes[1..31] {
        refused = refused.saturating_add(*count);
    }
    refused
}

/// The packets of these answers.
pub(crate) fn packets_in(counts: &Counts) -> u64 {
    counts
        .outcomes
        .iter()
        .fold(counts.fronts, |sum, count| sum.saturating_add(*count))
}

/// The feedback for the compressor among these answers.
pub(crate) fn feedback_in(counts: &Counts) -> u64 {
    counts
        .words
        .iter()
        .fold(0u64, |sum, count| sum.saturating_add(*count))
}
