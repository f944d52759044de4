//! Forgetting records of a link: one CID's, or those that have expired.

ghost use Rattle.std.specs.Prelude.{◌≡◌, ◌+◌, ◌-◌, ◌==◌, ◌&&◌, not, nat_le, length};
ghost use Rattle.indexmap.specs.IndexMap.{keys};
ghost use Rattle.rohc_concentrator.specs.Leaving.{LeavesIn, is_other, counts_at};

use crate::answer::NoLink;
use crate::concentrator::Concentrator;
use crate::records::LinkRecords;
use crate::setting::LinkSetting;
use rohc_context::Context;

/// Whether a time in milliseconds isn't 0 and has passed since a moment.
fn has_passed(idle_ms: u32, since: u64, moment: u64) -> bool
    ensures { result ≡ (not (idle_ms == 0) && nat_le idle_ms (moment - since)) }
{
    idle_ms != 0 && u64::from(idle_ms) <= moment.saturating_sub(since)
}

impl LinkSetting {
    ghost use Rattle.std.specs.Prelude.{◌≡◌};
    ghost use Rattle.rohc_context.specs.Record.{record_of};
    ghost use Rattle.rohc_concentrator.specs.Leaving.{is_expired};

    /// Whether a context of this link has expired at a moment, in milliseconds of the clock of the arrivals: `idle_ms`
    /// have passed since its last accepted arrival. It is then answered as none is. If `idle_ms` is 0, none expires.
    pub fn has_expired(&self, context: &Context, moment: u64) -> bool
        ensures { result ≡ is_expired self.now.settings.idle_ms moment (record_of context.now) }
    {
        has_passed(self.settings.idle_ms, context.accepted(), moment)
    }
}

/// Forgets the record of a CID. Returns the number of records removed.
fn forget_in(records: &mut LinkRecords, cid: u16) -> usize
    ensures leaves { LeavesIn records.old (is_other cid) records.new }
    ensures setting { records.new.setting ≡ records.old.setting }
    ensures gone { result + length (keys records.new.contexts) ≡ length (keys records.old.contexts) }
{
    let before = records.contexts.len();
    records.contexts.retain(|other, _| *other != cid);
    records.contexts.shrink_to_fit();
    before - records.contexts.len()
}

/// Forgets the records of a link that have expired at a moment. Returns the number of records removed.
fn forget_expired_in(records: &mut LinkRecords, moment: u64) -> usize
    ensures leaves { LeavesIn records.old (counts_at records.old.setting.settings.idle_ms moment) records.new }
    ensures setting { records.new.setting ≡ records.old.setting }
    ensures gone { result + length (keys records.new.contexts) ≡ length (keys records.old.contexts) }
{
    let before = records.contexts.len();
    let idle_ms = records.setting.settings.idle_ms;
    records.contexts.retain(|_, context| !has_passed(idle_ms, context.accepted(), moment));
    records.contexts.shrink_to_fit();
    before - records.contexts.len()
}

impl Concentrator {
    ghost use Rattle.std.specs.Prelude.{IfOk};
    ghost use Rattle.rohc_concentrator.specs.Leaving.{HaveGone};
    ghost use Rattle.rohc_concentrator.specs.Calls.{Forget, ForgetExpired, plain_answer};
    ghost use Rattle.rohc_concentrator.specs.RunsCall.{RunsCall};

    /// Forgets the record of one CID of a link, and no other. Returns the number of records removed, 0 or 1. The error is
    /// `NoLink`; then nothing changes.
    pub fn forget(&mut self, link: u16, cid: u16) -> Result<usize, NoLink>
        ensures event { RunsCall self.old link (Forget cid) (plain_answer result) self.new }
        ensures gone { IfOk result (λ count. HaveGone count self.old self.new link) }
    {
        let Some(records) = self.links.get_mut(&link) else {
            return Err(NoLink);
        };
        let gone = forget_in(records, cid);
        self.hints.renew_records(&self.links, link);
        Ok(gone)
    }

    /// Forgets the records of a link that have expired at a moment, in milliseconds of the clock of the arrivals, and
    /// frees their memory. Returns the number of records removed. The error is `NoLink`; then nothing changes.
    pub fn forget_expired(&mut self, link: u16, moment: u64) -> Result<usize, NoLink>
        ensures event { RunsCall self.old link (ForgetExpired moment) (plain_answer result) self.new }
        ensures gone { IfOk result (λ count. HaveGone count self.old self.new link) }
    {
        let Some(records) = self.links.get_mut(&link) else {
            return Err(NoLink);
        };
        let gone = forget_expired_in(records, moment);
        self.hints.renew_records(&self.links, link);
        Ok(gone)
    }
}
