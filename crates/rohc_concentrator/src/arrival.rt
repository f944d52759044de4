//! The events of a concentrator, and what it shows.

use crate::answer::{Answer, NoLink};
use crate::concentrator::Concentrator;
use crate::link::{take_first, take_later};
use crate::place::place_of;
use crate::records::LinkRecords;
use crate::sink::Sink;
use indexmap::IndexMap;
use rohc_context::{Delivered, Refusal};

impl Concentrator {
    ghost use Rattle.std.specs.Prelude.{◌≡◌, [], ℕ, Bool, false, Option, None, length, IfSome, IfNone, is_some};
    ghost use Rattle.rohc_context.specs.Record.{Record};
    ghost use Rattle.rohc_context.specs.Response.{delivered};
    ghost use Rattle.rohc_concentrator.specs.Tables.{setting_at, record_at, AreTables, TellAll, KeepsAll};
    ghost use Rattle.rohc_concentrator.specs.Report.{Report, Arrived, report_of, IsAnswered};
    ghost use Rattle.rohc_concentrator.specs.Repaired.{IsRepaired};
    ghost use Rattle.rohc_concentrator.specs.Taken.{MissedBy};
    ghost use Rattle.rohc_concentrator.specs.Events.{Arrives};
    ghost use Rattle.rohc_concentrator.specs.Calls.{Reset, plain_answer};
    ghost use Rattle.rohc_concentrator.specs.RunsCall.{RunsCall};

    /// Takes one packet of a link, and returns the answer. `moment` is its arrival time in milliseconds.
    ///
    /// The answer borrows its payload and relayed feedback from `octets`. A packet without a reading, or of a
    /// link that isn't there, changes nothing. Memory is asked for only at an accepted IR for a CID without a
    /// record. If there is none, the outcome is `NoMemory` and nothing changes.
    pub fn arrive<'a>(&mut self, link: u16, moment: u64, octets: &'a [u8]) -> Answer<'a>
        ensures event { Arrives self.old link moment octets.entry.now (report_of result) self.new }
    {
        let mut answer = Answer::blank();
        self.arrive_into(link, moment, octets, &mut answer);
        answer
    }

    /// Takes one packet of a link as `arrive` does, and puts the answer into the sink: a value, a caller's buffers, or
    /// whatever else takes answers, with whether the packet was repaired. The sink must have room for each answer that
    /// the packet may have.
    #[inline(always)]
    pub fn arrive_into<'a, S: Sink<'a>>(
        &mut self,
        link: u16,
        moment: u64,
        octets: &'a [u8],
        sink: &mut S,
    )
        requires room { (report : Report) (after : ℕ → Option Record) → IsAnswered (setting_at self.old link) (record_at self.old link) moment octets.now report after
            → S.has_room sink.old report }
        ensures event { (report : Report) × (repaired : Bool) × Arrives self.old link moment octets.entry.now report self.new
            × IsRepaired (setting_at self.old link) (record_at self.old link) moment octets.entry.now report repaired
            × S.takes sink.old report repaired sink.new }
    {
        match self.take_first(link, moment, octets) {
            Some((cid, packet)) => sink.rebuilt(cid, packet),
            None => self.take_later(link, moment, octets, sink),
        }
    }

    /// Takes a packet with nothing before its header that begins as a UO-0 does and fits by the first try, as nearly every
    /// packet of a call is, and returns its CID and what it was rebuilt to, behind a header of 40 octets. Its answer has no
    /// feedback of either kind. For any other packet nothing changes, and `take_later` takes it.
    ///
    /// It is the first half of `arrive_into`, for a caller who puts the packet where it goes: no sink is lent to a call, so
    /// the header lies in registers.
    #[inline(always)]
    pub fn take_first<'a>(
        &mut self,
        link: u16,
        moment: u64,
        octets: &'a [u8],
    ) -> Option<(u16, Delivered<'a>)>
        ensures event { IfSome result (λ p. Arrives self.old link moment octets.entry.now (Arrived p.0 (delivered p.1.head.items p.1.payload.now None) []) self.new) }
        ensures first { IfSome result (λ p. IsRepaired (setting_at self.old link) (record_at self.old link) moment octets.entry.now
            (Arrived p.0 (delivered p.1.head.items p.1.payload.now None) []) false) }
        ensures long { IfSome result (λ p. length p.1.head.items ≡ 40) }
        ensures missed { IfNone result (MissedBy self.new link moment octets.entry.now) }
        ensures stays { IfNone result (KeepsAll self.old self.new) }
    {
        let Some(place) = place_of(&self.links, self.hints.links.hint(link), link) else {
            return None;
        };
        let (_, records) = self.links.pair_mut(place);
        let Some(taken) = take_first(records, self.hints.contexts.get(place), moment, octets) else {
            return None;
        };
        Some(taken)
    }

    /// Takes a packet that `take_first` left, and puts the answer into the sink. It is the second half of `arrive_into`.
    pub fn take_later<'a, S: Sink<'a>>(
        &mut self,
        link: u16,
        moment: u64,
        octets: &'a [u8],
        sink: &mut S,
    )
        requires missed { MissedBy self.old link moment octets.now }
        requires room { (report : Report) (after : ℕ → Option Record) → IsAnswered (setting_at self.old link) (record_at self.old link) moment octets.now report after
            → S.has_room sink.old report }
        ensures event { (report : Report) × (repaired : Bool) × Arrives self.old link moment octets.entry.now report self.new
            × IsRepaired (setting_at self.old link) (record_at self.old link) moment octets.entry.now report repaired
            × S.takes sink.old report repaired sink.new }
    {
        let Some(place) = place_of(&self.links, self.hints.links.hint(link), link) else {
            return sink.refused(Refusal::NoLink);
        };
        let (_, records) = self.links.pair_mut(place);
        take_later(records, self.hints.of(place), moment, octets, sink);
    }

    /// Forgets every record of a link, and no other record. The error is `NoLink`.
    pub fn reset(&mut self, link: u16) -> Result<(), NoLink>
        ensures event { RunsCall self.old link Reset (plain_answer result) self.new }
    {
        let records = self.links.get_mut(&link).ok_or(NoLink)?;
        records.contexts.clear();
        Ok(())
    }

    /// Whether the CID has a record, even one that counts as none because it was idle too long.
    pub fn has_context(&self, link: u16, cid: u16) -> bool
        ensures { result ≡ is_some (record_at self.now link cid) }
    {
        match self.links.get(&link) {
            Some(records) => records.contexts.contains_key(&cid),
            None => false,
        }
    }

    /// The links in the order of their settings, each with its setting and its records.
    ///
    /// The records of a link are in the order of their first IR. A record that is replaced keeps its place.
    pub fn tables(&self) -> &IndexMap<u16, LinkRecords>
        ensures tables { AreTables self.now result.now }
        ensures all { TellAll self.now result.now }
    {
        &self.links
    }
}
