//! The totals of all calls.

ghost use Rattle.std.specs.Prelude.{◌≡◌};
ghost use Rattle.rohc_report.specs.Taken.{key_of};

use crate::became::Became;
use crate::call::CallTotals;
use indexmap::IndexMap;
use rohc_context::Refusal;
use rohc_counts::Counts;
use std::alloc::{AllocError, Global};

/// The totals of all packets. Memory grows with the calls alone.
#[derive(Drop)]
pub struct Calls {
    /// The totals of each call by its key, in the order of their first packets.
    pub calls: IndexMap<u32, CallTotals>,
    /// All answers.
    pub all: Counts,
    /// Those of packets without a CID, and of resets.
    pub loose: Counts,
    /// All late packets.
    pub late: u64,
    /// All repaired packets.
    pub repaired: u64,
    /// The lines that are no events.
    pub bad: u64,
    /// The resets of links that aren't there. Each is counted as a refusal too.
    pub resets: u64,
}

/// The key of a call.
pub fn key_of(link: u16, cid: u16) -> u32
    ensures { result ≡ key_of link cid }
{
    u32::from(link) * 65_536 + u32::from(cid)
}

impl Calls {
    ghost use Rattle.std.specs.Prelude.{◌≡◌, ◌≢◌, ℕ, None, OnOk, option_map};
    ghost use Rattle.rohc_context.specs.declared.refusal.Refusal.TheVariants.{NoLink};
    ghost use Rattle.rohc_counts.specs.Counted.{counted};
    ghost use Rattle.rohc_report.specs.declared.became.Became.TheVariants.{Refused};
    ghost use Rattle.rohc_report.specs.Became.{late_count, repaired_count};
    ghost use Rattle.rohc_report.specs.Taken.{key_of, IsTaken, StepsTo, call_at};

    /// No packets.
    pub fn new(alloc: Global) -> Self
        ensures calls { (key : ℕ) → call_at result key ≡ None }
        ensures late { result.late ≡ 0 }
        ensures repaired { result.repaired ≡ 0 }
        ensures bad { result.bad ≡ 0 }
        ensures resets { result.resets ≡ 0 }
    {
        Calls {
            calls: IndexMap::new(alloc),
            all: Counts::new(),
            loose: Counts::new(),
            late: 0,
            repaired: 0,
            bad: 0,
            resets: 0,
        }
    }

    /// Takes a packet of a call.
    ///
    /// The number is that of its line or frame. After an error nothing is known of the totals.
    pub fn take(
        &mut self,
        link: u16,
        cid: u16,
        number: u64,
        moment: u64,
        became: Became,
        feedback: Option<&[u8]>,
        relayed: u64,
    ) -> Result<(), AllocError>
        ensures all { OnOk result (IsTaken cid became (option_map (λ r. r.now) feedback.entry) relayed self.old.all self.new.all) }
        ensures late { OnOk result (self.new.late ≡ counted self.old.late (late_count became)) }
        ensures repaired { OnOk result (self.new.repaired ≡ counted self.old.repaired (repaired_count became)) }
        ensures own { OnOk result (StepsTo cid became (option_map (λ r. r.now) feedback.entry) relayed
            (call_at self.old (key_of link cid)) (call_at self.new (key_of link cid))) }
        ensures others { OnOk result ((key : ℕ) → key ≢ key_of link cid → call_at self.new key ≡ call_at self.old key) }
        ensures loose { self.new.loose ≡ self.old.loose }
        ensures bad { self.new.bad ≡ self.old.bad }
    {
        self.all
            .count_numbers(became.outcome(), cid, feedback, relayed);
        self.late = self.late.saturating_add(became.late());
        self.repaired = self.repaired.saturating_add(became.repaired());
        self.take_own(
            key_of(link, cid),
            cid,
            number,
            moment,
            became,
            feedback,
            relayed,
        )
    }

    /// Adds the packet to its call.
    fn take_own(
        &mut self,
        key: u32,
        cid: u16,
        number: u64,
        moment: u64,
        became: Became,
        feedback: Option<&[u8]>,
        relayed: u64,
    ) -> Result<(), AllocError>
        ensures own { OnOk result (StepsTo cid became (option_map (λ r. r.now) feedback.entry) relayed
            (call_at self.old key) (call_at self.new key)) }
        ensures others { OnOk result ((other : ℕ) → other ≢ key → call_at self.new other ≡ call_at self.old other) }
        ensures all { self.new.all ≡ self.old.all }
        ensures loose { self.new.loose ≡ self.old.loose }
        ensures late { self.new.late ≡ self.old.late }
        ensures repaired { self.new.repaired ≡ self.old.repaired }
        ensures bad { self.new.bad ≡ self.old.bad }
    {
        if let Some(call) = self.calls.get_mut(&key) {
            call.take(cid, number, moment, became, feedback, relayed);
            return Ok(());
        }
        let mut call = CallTotals::new(moment);
        call.take(cid, number, moment, became, feedback, relayed);
        self.calls.insert(key, call)?;
        Ok(())
    }

    /// Takes a packet that has no CID, or none that can be read.
    pub fn take_loose(&mut self, became: Became, relayed: u64)
        ensures all { IsTaken 0 became None relayed self.old.all self.new.all }
        ensures loose { IsTaken 0 became None relayed self.old.loose self.new.loose }
        ensures calls { self.new.calls ≡ self.old.calls }
        ensures bad { self.new.bad ≡ self.old.bad }
        ensures resets { self.new.resets ≡ self.old.resets }
    {
        self.all.count_numbers(became.outcome(), 0, None, relayed);
        self.loose.count_numbers(became.outcome(), 0, None, relayed);
    }

    /// Takes a reset of a link that isn't there.
    pub fn take_reset(&mut self)
        ensures all { IsTaken 0 (Refused NoLink) None 0 self.old.all self.new.all }
        ensures loose { IsTaken 0 (Refused NoLink) None 0 self.old.loose self.new.loose }
        ensures resets { self.new.resets ≡ counted self.old.resets 1 }
        ensures calls { self.new.calls ≡ self.old.calls }
    {
        self.take_loose(Became::Refused(Refusal::NoLink), 0);
        self.resets = self.resets.saturating_add(1);
    }

    /// Takes a line that is no event.
    pub fn take_bad(&mut self)
        ensures bad { self.new.bad ≡ counted self.old.bad 1 }
        ensures rest { (self.new.calls ≡ self.old.calls) × (self.new.all ≡ self.old.all) × (self.new.loose ≡ self.old.loose) }
    {
        self.bad = self.bad.saturating_add(1);
    }

    /// How many answers are this refusal.
    pub(crate) fn refusals(&self, refusal: Refusal) -> u64 {
        crate::call::outcome_in(&self.all, refusal.number())
    }
}
