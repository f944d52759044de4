//! What a station counts. Each count stays at the greatest `u64`.

ghost use Rattle.std.specs.Prelude.{◌≡◌, ◌≢◌, ℕ, nat_eq, option_map};
ghost use Rattle.indexmap.specs.IndexMap.{get};
ghost use Rattle.rohc_concentrator.specs.Report.{report_of};
ghost use Rattle.rohc_links.specs.Limits.{counted};
ghost use Rattle.rohc_station.specs.Limits.{one_if, with_work, with_turned_away, with_limits};
ghost use Rattle.rohc_station.specs.Unknown.{unknown_in};
ghost use Rattle.rohc_station.specs.ByCall.{stands};
ghost use Rattle.rohc_station.specs.Counting.{CountsAnswer, limiter_in, rebuilt_octets, with_failed_sends, with_limiter};

use crate::limits::{Limiter, LinkLimits, Work};
use crate::marked::Marked;
use crate::sending::refusal_of;
use crate::unknown::{Unknown, copied, is_no_context, notice};
use arrayvec::ArrayVec;
use indexmap::IndexMap;
use rohc_concentrator::{Answer, Concentrator};
use rohc_counts::Counts;

/// The octets of a link.
#[derive(Clone, Copy)]
pub struct Octets {
    /// Of all packets that arrived.
    pub received: u64,
    /// Of the packets that were rebuilt, as they arrived.
    pub compressed: u64,
    /// Of the packets that they were rebuilt to.
    pub rebuilt: u64,
}

impl Octets {
    ghost use Rattle.std.specs.Prelude.{◌≡◌};
    ghost use Rattle.rohc_station.specs.Counting.{with_packet};

    /// Counts the octets of a packet as it arrived, and of what it was rebuilt to, if it was.
    fn add(&mut self, arrived: u64, rebuilt: Option<u64>)
        ensures { self.new ≡ with_packet arrived rebuilt self.old }
    {
        self.received = self.received.saturating_add(arrived);
        if let Some(rebuilt) = rebuilt {
            self.compressed = self.compressed.saturating_add(arrived);
            self.rebuilt = self.rebuilt.saturating_add(rebuilt);
        }
    }
}

/// The counts of a link.
#[derive(Drop)]
pub struct LinkCounters {
    /// The answers to its packets.
    pub answers: Counts,
    /// The octets of its packets.
    pub octets: Octets,
    /// Packets that were delivered by the second or the third try.
    pub repaired: u64,
    /// Sends that failed.
    pub failed_sends: u64,
    /// Its limits, and what they did.
    pub limiter: Limiter,
    /// The last CIDs without a context whose packets were refused for that, the newest last.
    pub unknown: ArrayVec<Unknown, 64>,
}

impl LinkCounters {
    ghost use Rattle.std.specs.Prelude.{◌≡◌};
    ghost use Rattle.rohc_station.specs.Counting.{IsUncounted};

    /// Nothing is counted yet.
    pub fn new() -> LinkCounters
        ensures { IsUncounted result }
    {
        LinkCounters {
            answers: Counts::new(),
            octets: Octets {
                received: 0,
                compressed: 0,
                rebuilt: 0,
            },
            repaired: 0,
            failed_sends: 0,
            limiter: Limiter::new(),
            unknown: ArrayVec::new(),
        }
    }

    /// A copy.
    pub(crate) fn copied(&self) -> LinkCounters
        ensures { result ≡ self.now }
    {
        LinkCounters {
            answers: self.answers,
            octets: self.octets,
            repaired: self.repaired,
            failed_sends: self.failed_sends,
            limiter: self.limiter,
            unknown: copied(&self.unknown),
        }
    }
}

/// Why a datagram isn't taken.
#[derive(Clone, Copy)]
pub enum DatagramFault {
    /// It is too short for the number of its link and its moment.
    Short,
    /// Its link isn't there.
    UnknownLink,
    /// It would begin a call, and none is accepted, or no more of its link in this second.
    NewCall,
}

/// The counts of a station, over all links.
#[derive(Clone, Copy)]
pub struct StationCounters {
    /// Datagrams that came.
    pub datagrams: u64,
    /// Those that are too short.
    pub short: u64,
    /// Those of a link that isn't there.
    pub unknown_link: u64,
    /// Those that were turned away, since they would begin a call.
    pub new_call: u64,
    /// Those whose answers there was no memory to count for their calls.
    pub uncounted: u64,
}

impl StationCounters {
    ghost use Rattle.std.specs.Prelude.{◌≡◌};
    ghost use Rattle.rohc_station.specs.Counting.{uncounted_station, with_fault, with_datagram};

    /// Nothing is counted yet.
    pub(crate) fn new() -> StationCounters
        ensures { result ≡ uncounted_station }
    {
        StationCounters {
            datagrams: 0,
            short: 0,
            unknown_link: 0,
            new_call: 0,
            uncounted: 0,
        }
    }

    /// Counts a fault of a datagram.
    fn add_fault(&mut self, fault: DatagramFault)
        ensures { self.new ≡ with_fault fault self.old }
    {
        match fault {
            DatagramFault::Short => self.short = self.short.saturating_add(1),
            DatagramFault::UnknownLink => self.unknown_link = self.unknown_link.saturating_add(1),
            DatagramFault::NewCall => self.new_call = self.new_call.saturating_add(1),
        }
    }

    /// Counts a datagram.
    pub(crate) fn add(&mut self, fault: Option<DatagramFault>, is_uncounted: bool)
        ensures { self.new ≡ with_datagram fault is_uncounted self.old }
    {
        self.datagrams = self.datagrams.saturating_add(1);
        self.uncounted = counted_if(self.uncounted, is_uncounted);
        if let Some(fault) = fault {
            self.add_fault(fault);
        }
    }
}

/// Counts sends of a link that failed, if the link has counts.
pub(crate) fn count_failed_sends(counters: &mut IndexMap<u16, LinkCounters>, link: u16, failed: u64)
    ensures own { get nat_eq counters.new link ≡ option_map (with_failed_sends failed) (get nat_eq counters.old link) }
    ensures others { (l : ℕ) → l ≢ link → get nat_eq counters.new l ≡ get nat_eq counters.old l }
{
    if let Some(counts) = counters.get_mut(&link) {
        counts.failed_sends = counts.failed_sends.saturating_add(failed);
    }
}

/// The limits of a link, and what they did; none if it has no counts.
pub(crate) fn limiter_of(counters: &IndexMap<u16, LinkCounters>, link: u16) -> Limiter
    ensures { result ≡ limiter_in (get nat_eq counters.now link) }
{
    match counters.get(&link) {
        Some(of_link) => of_link.limiter,
        None => Limiter::new(),
    }
}

/// Gives a link these limits, if it has counts.
pub(crate) fn set_limits(counters: &mut IndexMap<u16, LinkCounters>, link: u16, limits: LinkLimits)
    ensures own { get nat_eq counters.new link ≡ option_map (with_limiter (with_limits limits)) (get nat_eq counters.old link) }
    ensures others { (l : ℕ) → l ≢ link → get nat_eq counters.new l ≡ get nat_eq counters.old l }
{
    if let Some(of_link) = counters.get_mut(&link) {
        of_link.limiter.limits = limits;
    }
}

/// Counts a packet of a link that was turned away, if the link has counts.
pub(crate) fn count_turned_away(counters: &mut IndexMap<u16, LinkCounters>, link: u16)
    ensures own { get nat_eq counters.new link ≡ option_map (with_limiter with_turned_away) (get nat_eq counters.old link) }
    ensures others { (l : ℕ) → l ≢ link → get nat_eq counters.new l ≡ get nat_eq counters.old l }
{
    if let Some(of_link) = counters.get_mut(&link) {
        let count = of_link.limiter.contexts_limited;
        of_link.limiter.contexts_limited = count.saturating_add(1);
    }
}

/// Counts what came of a packet for the limits of its link, if the link has counts.
pub(crate) fn count_work(counters: &mut IndexMap<u16, LinkCounters>, link: u16, work: Work)
    ensures own { get nat_eq counters.new link
        ≡ option_map (with_limiter (with_work work.second (one_if work.makes_context) work.has_feedback)) (get nat_eq counters.old link) }
    ensures others { (l : ℕ) → l ≢ link → get nat_eq counters.new l ≡ get nat_eq counters.old l }
{
    if let Some(of_link) = counters.get_mut(&link) {
        of_link.limiter.count(work);
    }
}

/// The count plus one if `holds`.
pub(crate) fn counted_if(count: u64, holds: bool) -> u64
    ensures { result ≡ counted count (one_if holds) }
{
    count.saturating_add(u64::from(holds))
}

/// How many octets the rebuilt packet of an answer has, if it has one.
fn rebuilt_octets(answer: &Answer<'_>) -> Option<u64>
    ensures { result ≡ rebuilt_octets (report_of answer.now) }
{
    match answer {
        Answer::Arrived { reply, .. } => match &reply.packet {
            Some(packet) => Some(packet.head.len() as u64 + packet.payload.len() as u64),
            None => None,
        },
        Answer::OnlyFront { .. } | Answer::Refused(_) => None,
    }
}

/// Takes notice of an answer for the list of CIDs without a context on its link.
fn notice_unknown(
    list: &mut ArrayVec<Unknown, 64>,
    concentrator: &Concentrator,
    link: u16,
    answer: &Answer<'_>,
)
    ensures { list.new.items ≡ unknown_in (stands concentrator.now link) (report_of answer.now) list.old.items }
{
    if let Answer::Arrived { cid, reply, .. } = answer {
        let refusal = refusal_of(reply.outcome);
        // Nothing leaves an empty list: no look-up of the CID.
        if list.is_empty() && !is_no_context(refusal) {
            return;
        }
        let has_context = concentrator.has_context(link, *cid);
        notice(list, *cid, has_context, refusal);
    }
}

/// Counts an answer to a packet, with its octets and whether it was repaired, if the link has counts.
pub(crate) fn count_answer(
    counters: &mut IndexMap<u16, LinkCounters>,
    concentrator: &Concentrator,
    link: u16,
    arrived: u64,
    marked: &Marked<'_>,
)
    ensures own { CountsAnswer (stands concentrator.now link) arrived (report_of marked.now.answer) marked.now.repaired (get nat_eq counters.old link) (get nat_eq counters.new link) }
    ensures others { (l : ℕ) → l ≢ link → get nat_eq counters.new l ≡ get nat_eq counters.old l }
{
    if let Some(of_link) = counters.get_mut(&link) {
        let answer = &marked.answer;
        of_link.answers.count(answer);
        of_link.octets.add(arrived, rebuilt_octets(answer));
        of_link.repaired = counted_if(of_link.repaired, marked.repaired);
        notice_unknown(&mut of_link.unknown, concentrator, link, answer);
    }
}
