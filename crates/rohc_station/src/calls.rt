//! What a station counts for each call, as long as its context stands.

ghost use Rattle.std.specs.Prelude.{◌≡◌, ℕ, ◌<◌, nat_eq, length, slice_index};
ghost use Rattle.indexmap.specs.IndexMap.{get};
ghost use Rattle.rohc_context.specs.Response.{packet_in, response_of};
ghost use Rattle.rohc_concentrator.specs.Report.{report_of};
ghost use Rattle.rohc_station.specs.Limits.{one_if};
ghost use Rattle.rohc_station.specs.ByCall.{refused_in, sn_in, order_of, is_delivered, more_for, last_of, HasAnswer, IsBegun, CountsForCall, stands, KeepsStanding};

use crate::counters::counted_if;
use crate::marked::Marked;
use crate::sending::refusal_of;
use indexmap::IndexMap;
use rohc_concentrator::{Answer, Concentrator};
use rohc_context::{Delivered, Outcome, Refusal, Reply};
use rohc_report::key_of;

/// The number of the first refusal that may be one of a call: `NoContext`.
pub const FIRST_REFUSAL: u8 = 10;

/// What the sequence numbers of delivered RTP packets say.
#[derive(Clone, Copy)]
pub struct Sequence {
    /// Packets that are missing.
    pub lost: u64,
    /// Packets that were delivered after a later one.
    pub late: u32,
    /// The newest sequence number.
    pub newest: Option<u16>,
}

/// The counts of a call. Each stays at its greatest value.
#[derive(Clone, Copy)]
pub struct CallCounts {
    /// When counting began, in milliseconds of the clock of the arrivals.
    pub since: u64,
    /// Delivered packets.
    pub delivered: u64,
    /// Those of them that were delivered by the second or the third try.
    pub repaired: u64,
    /// What its sequence numbers say.
    pub sequence: Sequence,
    /// Refused packets by the number of the refusal, from `FIRST_REFUSAL` to 28, `Check`.
    pub refused: [u32; 19],
    /// Why a packet was last refused, if one was.
    pub last_refused: Option<Refusal>,
}

/// How a sequence number compares to the newest one (RFC 3550 A.1).
#[derive(Clone, Copy, PartialEq, Eq)]
pub enum Order {
    /// It follows, and this many between them are missing.
    Follows(u16),
    /// It is the same.
    Again,
    /// It was missing, and comes late.
    Late,
    /// It is the first, or the sender started again.
    Restarts,
}

/// The SN of a packet behind a rebuilt header; `None` if it has another head.
pub fn sn_in(packet: &Option<Delivered<'_>>) -> Option<u16>
    ensures { result ≡ sn_in (packet_in packet.now) }
{
    match packet {
        Some(packet) if packet.head.len() == 40 => {
            let head = packet.head.as_slice();
            Some(u16::from(head[30]) * 256 + u16::from(head[31]))
        }
        _ => None,
    }
}

/// How a sequence number compares to the newest one, if there is one.
fn order_of(newest: Option<u16>, sn: u16) -> Order
    ensures { result ≡ order_of newest sn }
{
    let Some(newest) = newest else {
        return Order::Restarts;
    };
    match sn.wrapping_sub(newest) {
        0 => Order::Again,
        ahead @ 1..=2_999 => Order::Follows(ahead - 1),
        65_437..=65_535 => Order::Late,
        _ => Order::Restarts,
    }
}

impl Sequence {
    ghost use Rattle.std.specs.Prelude.{◌≡◌};
    ghost use Rattle.rohc_station.specs.ByCall.{with_sn};

    /// Takes the sequence number of a delivered packet, if it has one.
    fn see(&mut self, sn: Option<u16>)
        ensures { self.new ≡ with_sn sn self.old }
    {
        let Some(sn) = sn else {
            return;
        };
        match order_of(self.newest, sn) {
            Order::Again => {}
            Order::Follows(missing) => {
                self.lost = self.lost.saturating_add(u64::from(missing));
                self.newest = Some(sn);
            }
            Order::Late => {
                self.lost = self.lost.saturating_sub(1);
                self.late = self.late.saturating_add(1);
            }
            Order::Restarts => self.newest = Some(sn),
        }
    }
}

impl CallCounts {
    /// Nothing is counted yet, from this moment on.
    fn new(moment: u64) -> CallCounts
        ensures { IsBegun moment result }
    {
        CallCounts {
            since: moment,
            delivered: 0,
            repaired: 0,
            sequence: Sequence {
                lost: 0,
                late: 0,
                newest: None,
            },
            refused: [0; 19],
            last_refused: None,
        }
    }

    /// How many packets were refused for this reason. One that can't be that of a call has none.
    pub fn refused(&self, refusal: Refusal) -> u32
        ensures { result ≡ refused_in self.now refusal }
    {
        match refusal.number().checked_sub(FIRST_REFUSAL) {
            Some(place) => match self.refused.get(usize::from(place)) {
                Some(count) => *count,
                None => 0,
            },
            None => 0,
        }
    }

    /// Counts an answer, to a packet that may be repaired.
    fn count(&mut self, reply: &Reply<'_>, repaired: bool)
        ensures { HasAnswer (response_of reply.now) repaired self.old self.new }
    {
        let refusal = refusal_of(reply.outcome);
        count_refusal(&mut self.refused, refusal);
        self.last_refused = last_of(refusal, self.last_refused);
        self.delivered = self
            .delivered
            .saturating_add(delivered_count(reply.outcome));
        self.repaired = counted_if(self.repaired, repaired);
        self.sequence.see(sn_in(&reply.packet));
    }
}

/// How many packets an outcome delivers: one or none.
fn delivered_count(outcome: Outcome) -> u64
    ensures { result ≡ one_if (is_delivered outcome) }
{
    match outcome {
        Outcome::Delivered => 1,
        Outcome::Stored | Outcome::Refused(_) => 0,
    }
}

/// The last refusal after an answer: its own, if it is one, otherwise the one before.
fn last_of(refusal: Option<Refusal>, before: Option<Refusal>) -> Option<Refusal>
    ensures { result ≡ last_of refusal before }
{
    match refusal {
        Some(refusal) => Some(refusal),
        None => before,
    }
}

/// Counts a refusal, if there is one and it may be one of a call.
fn count_refusal(refused: &mut [u32], refusal: Option<Refusal>)
    ensures more { (place : ℕ) → place < length refused.old → slice_index refused.new place ≡ more_for refusal place (slice_index refused.old place) }
    ensures len { length refused.new ≡ length refused.old }
{
    let Some(refusal) = refusal else {
        return;
    };
    let number = refusal.number();
    if number >= FIRST_REFUSAL {
        let place = usize::from(number - FIRST_REFUSAL);
        if place < refused.len() {
            refused[place] = refused[place].saturating_add(1);
        }
    }
}

/// Counts the answer to a packet of a link for its call. Returns whether there was no memory to begin its counts.
pub(crate) fn count_call(
    calls: &mut IndexMap<u32, CallCounts>,
    concentrator: &Concentrator,
    link: u16,
    moment: u64,
    marked: &Marked<'_>,
) -> bool
    ensures { CountsForCall (stands concentrator.now) link moment (report_of marked.now.answer) marked.now.repaired result (get nat_eq calls.old) (get nat_eq calls.new) }
{
    let Answer::Arrived { cid, reply, .. } = &marked.answer else {
        return false;
    };
    let key = key_of(link, *cid);
    if let Some(counts) = calls.get_mut(&key) {
        counts.count(reply, marked.repaired);
        return false;
    }
    if !concentrator.has_context(link, *cid) {
        return false;
    }
    let mut counts = CallCounts::new(moment);
    counts.count(reply, marked.repaired);
    calls.insert(key, counts).is_err()
}

/// Keeps the counts of the calls whose contexts stand.
pub(crate) fn keep_standing(calls: &mut IndexMap<u32, CallCounts>, concentrator: &Concentrator)
    ensures { KeepsStanding concentrator.now (get nat_eq calls.old) (get nat_eq calls.new) }
{
    calls.retain(|key, _| concentrator.has_context((*key / 65_536) as u16, (*key % 65_536) as u16));
}
