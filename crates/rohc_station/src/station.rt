//! A station: a concentrator with its links and its counts.

ghost use Rattle.std.specs.Prelude.{◌≡◌};
ghost use Rattle.rohc_station.specs.Taking.{fault_at};

use crate::calls::{CallCounts, count_call, keep_standing};
use crate::counters::{
    DatagramFault, LinkCounters, StationCounters, count_answer, count_failed_sends,
    count_turned_away, count_work, limiter_of, set_limits,
};
use crate::limits::{Limiter, LinkLimits, Work, second_of};
use crate::marked::Marked;
use crate::reload::counters_for;
use crate::sending::{Taken, answered, unread, withhold_if};
use crate::timed::Timed;
use crate::trimming::trimmed_by;
use crate::unknown::{Unknown, notice_link};
use arrayvec::ArrayVec;
use indexmap::IndexMap;
use rohc_concentrator::{Concentrator, LinkRecords, LinkSetting, NoLink};
use rohc_frame::cut;
use rohc_links::{Links, Ports};
use rohc_report::key_of;
use rohc_saved::{SaveFault, save};
use rohc_serve::ports_of;
use std::alloc::{AllocError, Global};
use std::io::Write;

/// The fault of a datagram whose link has these ports: a link without any isn't there.
fn fault_at(ports: Option<Ports>) -> Option<DatagramFault>
    ensures { result ≡ fault_at ports }
{
    match ports {
        Some(_) => None,
        None => Some(DatagramFault::UnknownLink),
    }
}

/// A concentrator with its links and its counts.
#[derive(Drop)]
pub struct Station {
    /// The contexts of all links.
    pub(crate) concentrator: Concentrator,
    /// The links as their file has them.
    pub(crate) links: Links,
    /// The counts of each link that is there.
    pub(crate) counters: IndexMap<u16, LinkCounters>,
    /// The counts of each call, as long as its context stands, by its key.
    pub(crate) by_call: IndexMap<u32, CallCounts>,
    /// The counts over all links.
    pub(crate) totals: StationCounters,
    /// The last links that datagrams named and that weren't there, the newest last.
    pub(crate) unknown_links: ArrayVec<Unknown, 16>,
}

/// The CID that a packet bears on a link with this setting, if it bears one.
fn borne_on(setting: &LinkSetting, packet: &[u8]) -> Option<u16>
    ensures { result ≡ cid_in (header_on setting.now packet.now) }
{
    match cut(setting.settings.size, setting.settings.max_cid, packet) {
        Ok(framed) => match framed.forward {
            Some(forward) => Some(forward.cid),
            None => None,
        },
        Err(_) => None,
    }
}

/// Whether a CID of a link has a record that hasn't expired at a moment.
fn is_live(records: &LinkRecords, moment: u64, cid: u16) -> bool
    ensures { result ≡ is_live records.now.setting.settings.idle_ms moment (record_in records.now cid) }
{
    match records.contexts.get(&cid) {
        Some(context) => !records.setting.has_expired(context, moment),
        None => false,
    }
}

/// Whether a packet that arrives at this link would begin a call.
fn begins_on(records: &LinkRecords, moment: u64, packet: &[u8]) -> bool
    ensures { result ≡ begins_on (Some records.now.setting) (record_in records.now) moment packet.now }
{
    match borne_on(&records.setting, packet) {
        Some(cid) => !is_live(records, moment, cid),
        None => false,
    }
}

/// Whether a packet would begin a call: it bears a CID that has no record, or one that has expired at the packet's moment.
fn begins_call(concentrator: &Concentrator, arrival: &Timed<'_>) -> bool
    ensures { result ≡ begins_call concentrator.now (plain_timed arrival.now) }
{
    match concentrator.tables().get(&arrival.link) {
        Some(records) => begins_on(records, arrival.moment, arrival.packet),
        None => false,
    }
}

/// Whether a packet that was taken made a context: it began a call, and would begin none now.
fn has_made(concentrator: &Concentrator, begins: bool, arrival: &Timed<'_>) -> bool
    ensures { result ≡ (begins && not (begins_call concentrator.now (plain_timed arrival.now))) }
{
    begins && !begins_call(concentrator, arrival)
}

/// How many records a link has.
pub(crate) fn context_count(concentrator: &Concentrator, link: u16) -> usize
    ensures { result ≡ length (identifiers_at concentrator.now link) }
{
    match concentrator.tables().get(&link) {
        Some(records) => records.contexts.len(),
        None => 0,
    }
}

ghost use Rattle.std.specs.Prelude.{◌&&◌, not, length, IfOk, Some};
ghost use Rattle.rohc_concentrator.specs.Calls.{Reset, plain_answer};
ghost use Rattle.rohc_concentrator.specs.RunsCall.{RunsCall};
ghost use Rattle.rohc_concentrator.specs.Leaving.{HaveGone};
ghost use Rattle.rohc_concentrator.specs.Tables.{record_in, identifiers_at};
ghost use Rattle.rohc_concentrator.specs.Bears.{cid_in, header_on};
ghost use Rattle.rohc_station.specs.Timed.{plain_timed};
ghost use Rattle.rohc_station.specs.Taking.{is_live, begins_on, begins_call};

/// Forgets all records of a link. Returns the number of records removed. The error is `NoLink`.
fn reset_link(concentrator: &mut Concentrator, link: u16) -> Result<usize, NoLink>
    ensures call { RunsCall concentrator.old link Reset (plain_answer result) concentrator.new }
    ensures gone { IfOk result (λ count. HaveGone count concentrator.old concentrator.new link) }
{
    let count = context_count(concentrator, link);
    concentrator.reset(link)?;
    Ok(count)
}

impl Station {
    ghost use Rattle.std.specs.Prelude.{◌≡◌, ℕ, List, [], None, IfOk, IfErr, option_map, false};
    ghost use Rattle.rohc_concentrator.specs.Calls.{ForgetExpired, plain_answer};
    ghost use Rattle.rohc_concentrator.specs.RunsCall.{Turn};
    ghost use Rattle.rohc_concentrator.specs.Leaving.{HaveGone};
    ghost use Rattle.rohc_concentrator.specs.Setup.{entry_of};
    ghost use Rattle.rohc_saved.specs.Form.{saved_form};
    ghost use Rattle.rohc_saved.specs.Output.{IsWhole, SaveFails};
    ghost use Rattle.rohc_station.specs.Limits.{second_of, is_silent};
    ghost use Rattle.rohc_station.specs.Timed.{plain_timed};
    ghost use Rattle.rohc_station.specs.Told.{told_of};
    ghost use Rattle.rohc_station.specs.Counting.{KeepsCounts, uncounted_station};
    ghost use Rattle.rohc_report.specs.Taken.{key_of};
    ghost use Rattle.rohc_station.specs.Reset.{reset_call, Forgets};
    ghost use Rattle.rohc_station.specs.Taking.{limiter_at, counters_at, by_call_at, begins_limited, TakesPacket, TurnsAway, TakesIf, TakesWithin, Takes, TakesKnown, IsRefusedUnread, FailsSends, SetsLimits};

    /// A station of this concentrator and these links, with nothing counted. The error is lack of memory.
    pub fn new(
        alloc: Global,
        concentrator: Concentrator,
        links: Links,
    ) -> Result<Station, AllocError>
        ensures concentrator { IfOk result (λ station. station.concentrator ≡ concentrator) }
        ensures links { IfOk result (λ station. station.links ≡ links) }
        ensures counters { IfOk result (λ station. (l : ℕ) → KeepsCounts None (entry_of l links.settings) (counters_at station l)) }
        ensures by_call { IfOk result (λ station. (key : ℕ) → by_call_at station key ≡ None) }
        ensures totals { IfOk result (λ station. station.totals ≡ uncounted_station) }
        ensures unknown_links { IfOk result (λ station. station.unknown_links.items ≡ []) }
    {
        let counters = counters_for(alloc, &IndexMap::new(alloc), links.settings())?;
        Ok(Station {
            concentrator,
            links,
            counters,
            by_call: IndexMap::new(alloc),
            totals: StationCounters::new(),
            unknown_links: ArrayVec::new(),
        })
    }

    /// The contexts of all links.
    pub fn concentrator(&self) -> &Concentrator
        ensures { result.now ≡ self.now.concentrator }
    {
        &self.concentrator
    }

    /// The counts of each link.
    pub fn counters(&self) -> &IndexMap<u16, LinkCounters>
        ensures { result.now ≡ self.now.counters }
    {
        &self.counters
    }

    /// The counts of the call of a CID, if it has some.
    pub fn counts_of(&self, link: u16, cid: u16) -> Option<&CallCounts>
        ensures { option_map (λ c. c.now) result ≡ by_call_at self.now (key_of link cid) }
    {
        self.by_call.get(&key_of(link, cid))
    }

    /// The counts over all links.
    pub fn totals(&self) -> StationCounters
        ensures { result ≡ self.now.totals }
    {
        self.totals
    }

    /// The last 16 links that datagrams named and that weren't there, the newest last, each with how many of its datagrams
    /// came since it is in the list. One that a reload adds stays in the list.
    pub fn unknown_links(&self) -> &[Unknown]
        ensures { result.now ≡ self.now.unknown_links.items }
    {
        self.unknown_links.as_slice()
    }

    /// Writes the concentrator that stands, as `rohc_saved::save` does: what `rohc_saved::restore` reads.
    /// Returns how many octets were written.
    pub fn save<W: Write>(&self, moment: u64, writer: &mut W) -> Result<u64, SaveFault>
        ensures whole { IfOk result (IsWhole (W.contents writer.old) (W.contents writer.new)
            (saved_form moment self.now.concentrator)) }
        ensures fault { IfErr result (SaveFails (W.contents writer.old) (W.contents writer.new)
            (saved_form moment self.now.concentrator)) }
    {
        save(&self.concentrator, moment, writer)
    }

    /// Forgets the records of a link, or that of one CID of it, and no other. Returns how many went. The
    /// error is `NoLink`; then nothing changes.
    pub fn reset(&mut self, link: u16, cid: Option<u16>) -> Result<usize, NoLink>
        ensures forgets { Forgets self.old self.new link (reset_call cid) (plain_answer result) }
        ensures gone { IfOk result (λ count. HaveGone count self.old.concentrator self.new.concentrator link) }
    {
        let gone = match cid {
            Some(cid) => self.concentrator.forget(link, cid),
            None => reset_link(&mut self.concentrator, link),
        };
        keep_standing(&mut self.by_call, &self.concentrator);
        gone
    }

    /// Forgets the records of a link that have expired at a moment, in milliseconds, as its `idle_ms` says, and no other:
    /// packets are answered as if they still stood. Returns how many went. The error is `NoLink`; then nothing changes.
    pub fn expire(&mut self, link: u16, moment: u64) -> Result<usize, NoLink>
        ensures forgets { Forgets self.old self.new link (ForgetExpired moment) (plain_answer result) }
        ensures gone { IfOk result (λ count. HaveGone count self.old.concentrator self.new.concentrator link) }
    {
        let gone = self.concentrator.forget_expired(link, moment);
        let (by_call, concentrator) = (&mut self.by_call, &self.concentrator);
        keep_standing(by_call, concentrator);
        gone
    }

    /// Counts sends that failed for a datagram of this link, if it names one. The count stays at the greatest `u64`.
    pub fn add_failed_sends(&mut self, link: Option<u16>, failed: u64)
        ensures { FailsSends self.old self.new link failed }
    {
        if let Some(link) = link {
            count_failed_sends(&mut self.counters, link, failed);
        }
    }

    /// Gives a link these limits in place of those that it has, and nothing else. A link that isn't there gets none.
    pub fn set_limits(&mut self, link: u16, limits: LinkLimits)
        ensures { SetsLimits self.old self.new link limits }
    {
        set_limits(&mut self.counters, link, limits);
    }

    /// Takes a packet of a link that arrived at its moment.
    fn take_packet<'a>(&mut self, arrival: Timed<'a>) -> Taken<'a>
        ensures { (calls : List Turn) × TakesPacket self.old self.new arrival.entry.link arrival.entry.moment
            arrival.entry.packet.now (told_of result) calls }
    {
        let Timed {
            link,
            moment,
            packet,
        } = arrival;
        let mut marked = Marked::blank();
        self.concentrator
            .arrive_into(link, moment, packet, &mut marked);
        let size = packet.len() as u64;
        count_answer(&mut self.counters, &self.concentrator, link, size, &marked);
        let is_uncounted = count_call(&mut self.by_call, &self.concentrator, link, moment, &marked);
        let ports = ports_of(&self.links, link);
        self.totals.add(fault_at(ports), is_uncounted);
        notice_link(&mut self.unknown_links, ports, link);
        answered(ports, marked.answer)
    }

    /// Refuses a datagram unread, for this fault.
    fn refuse<'a>(&mut self, fault: DatagramFault) -> Taken<'a>
        ensures { (calls : List Turn) × IsRefusedUnread fault self.old self.new (told_of result) calls }
    {
        self.totals.add(Some(fault), false);
        unread()
    }

    /// Turns a packet of a link away.
    fn turn_away<'a>(&mut self, link: u16) -> Taken<'a>
        ensures { (calls : List Turn) × TurnsAway self.old self.new link (told_of result) calls }
    {
        count_turned_away(&mut self.counters, link);
        self.refuse(DatagramFault::NewCall)
    }

    /// Takes a packet of a link, and withholds its feedback if the link is silent: it sends no more in this second. `begins` is
    /// whether it begins a call on a link whose contexts are limited.
    fn take_allowed<'a>(
        &mut self,
        is_withheld: bool,
        second: u64,
        begins: bool,
        arrival: Timed<'a>,
    ) -> Taken<'a>
        requires withheld { is_withheld ≡ is_silent second (limiter_at self.old arrival.link) }
        requires begins { begins ≡ begins_limited self.old (plain_timed arrival) }
        ensures { (calls : List Turn) × TakesIf false self.old self.new second (plain_timed arrival.entry) (told_of result) calls }
    {
        let mut taken = self.take_packet(arrival);
        let work = Work {
            second,
            makes_context: has_made(&self.concentrator, begins, &arrival),
            has_feedback: taken.sends.feedback.is_some(),
        };
        count_work(&mut self.counters, arrival.link, work);
        withhold_if(&mut taken, is_withheld);
        taken
    }

    /// Takes a packet of a link within the limits of the link in a second. `begins` is whether it begins a call on a link whose
    /// contexts are limited: it is turned away if the link makes no more contexts then.
    fn take_within<'a>(
        &mut self,
        limiter: &Limiter,
        second: u64,
        begins: bool,
        arrival: Timed<'a>,
    ) -> Taken<'a>
        requires limiter { limiter.now ≡ limiter_at self.old arrival.link }
        requires begins { begins ≡ begins_limited self.old (plain_timed arrival) }
        ensures { (calls : List Turn) × TakesWithin self.old self.new second (plain_timed arrival.entry) (told_of result) calls }
    {
        if limiter.turns_away(second, begins) {
            self.turn_away(arrival.link)
        } else {
            self.take_allowed(limiter.is_silent(second), second, begins, arrival)
        }
    }

    /// Takes a datagram as it was read (`arrival_in`): a packet with its link and the moment of its arrival; `None` is one that
    /// is too short. Returns what came of it. `now` is the moment that it is by the gateway's own clock, in milliseconds.
    ///
    /// The payload and the relayed feedback in the result are borrowed from the packet. A datagram that is too short, or of a
    /// link that isn't there, is refused. A packet first loses what a layer below added behind it (`trimmed`). One that would
    /// begin a call is turned away if its link made as many contexts in the second of `now` as it may. Any other is answered
    /// as by `rohc_serve::answer_datagram`, without the feedback for the compressor if the link sent as many elements in this
    /// second as it may.
    pub fn take<'a>(&mut self, now: u64, read: Option<Timed<'a>>) -> Taken<'a>
        ensures { (calls : List Turn) × Takes self.old self.new (second_of now) (option_map plain_timed read.entry)
            (told_of result) calls }
    {
        let Some(arrival) = read else {
            return self.refuse(DatagramFault::Short);
        };
        let limiter = limiter_of(&self.counters, arrival.link);
        let arrival = trimmed_by(&self.concentrator, limiter.limits.payload, arrival);
        let begins = limiter.limits_contexts() && begins_call(&self.concentrator, &arrival);
        self.take_within(&limiter, second_of(now), begins, arrival)
    }

    /// Takes a datagram as `take` does, but refuses one that would begin a call: whose packet bears a CID
    /// that has no record, or one that has expired at the packet's moment. Calls that stand go on.
    pub fn take_known<'a>(&mut self, now: u64, read: Option<Timed<'a>>) -> Taken<'a>
        ensures { (calls : List Turn) × TakesKnown self.old self.new (second_of now) (option_map plain_timed read.entry)
            (told_of result) calls }
    {
        let Some(arrival) = read else {
            return self.refuse(DatagramFault::Short);
        };
        let limiter = limiter_of(&self.counters, arrival.link);
        let arrival = trimmed_by(&self.concentrator, limiter.limits.payload, arrival);
        if begins_call(&self.concentrator, &arrival) {
            self.refuse(DatagramFault::NewCall)
        } else {
            self.take_within(&limiter, second_of(now), false, arrival)
        }
    }
}
