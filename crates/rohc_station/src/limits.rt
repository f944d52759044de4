//! What a link does in one second of the gateway's clock, and how much it may: limits for hostile senders.

ghost use Rattle.std.specs.Prelude.{◌≡◌};
ghost use Rattle.rohc_station.specs.Limits.{second_of, is_reached};

/// The limits of a link. 0 is no limit.
#[derive(Clone, Copy, PartialEq, Eq)]
pub struct LinkLimits {
    /// How many contexts a link may make in a second.
    pub new_contexts: u32,
    /// How many feedback elements for the compressor a link may send in a second.
    pub feedback: u32,
    /// How many octets the payload of its packets has at most, if that is known. What a layer below added behind them goes.
    pub payload: Option<u16>,
}

impl LinkLimits {
    ghost use Rattle.std.specs.Prelude.{◌≡◌};
    ghost use Rattle.rohc_station.specs.Limits.{no_limits};

    /// No limit.
    pub fn none() -> LinkLimits
        ensures { result ≡ no_limits }
    {
        LinkLimits {
            new_contexts: 0,
            feedback: 0,
            payload: None,
        }
    }
}

/// What a link did in a second.
#[derive(Clone, Copy)]
pub struct Second {
    /// The second, counted from 1970 on.
    pub number: u64,
    /// Packets that were taken.
    pub packets: u64,
    /// Contexts that were made while they were limited.
    pub new_contexts: u64,
    /// Feedback elements for the compressor that were sent.
    pub feedback: u64,
}

impl Second {
    ghost use Rattle.std.specs.Prelude.{◌≡◌};
    ghost use Rattle.rohc_station.specs.Limits.{in_second};

    /// What the link did in the second of this number, as far as is known here.
    fn at(self, number: u64) -> Second
        ensures { result ≡ in_second number self }
    {
        if self.number == number {
            self
        } else {
            Second {
                number,
                packets: 0,
                new_contexts: 0,
                feedback: 0,
            }
        }
    }
}

/// What came of a packet for the limits of its link.
#[derive(Clone, Copy)]
pub(crate) struct Work {
    /// The second of its arrival.
    pub(crate) second: u64,
    /// Whether it made a context, on a link whose contexts are limited.
    pub(crate) makes_context: bool,
    /// Whether there was feedback for the compressor.
    pub(crate) has_feedback: bool,
}

/// The limits of a link, and what they did.
#[derive(Clone, Copy)]
pub struct Limiter {
    pub limits: LinkLimits,
    /// What the link did in the second of its last packet.
    pub second: Second,
    /// Packets that were taken in the second before that.
    pub before: u64,
    /// Packets that were turned away: they would begin a call above the limit.
    pub contexts_limited: u64,
    /// Feedback elements for the compressor that were withheld, above the limit.
    pub feedback_limited: u64,
}

impl Limiter {
    ghost use Rattle.std.specs.Prelude.{◌≡◌, ◌&&◌};
    ghost use Rattle.rohc_station.specs.Limits.{one_if, unlimited, limits_contexts, is_full, is_silent, packets_before, with_work};

    /// Without limits. Nothing is counted yet.
    pub fn new() -> Limiter
        ensures { result ≡ unlimited }
    {
        Limiter {
            limits: LinkLimits::none(),
            second: Second {
                number: 0,
                packets: 0,
                new_contexts: 0,
                feedback: 0,
            },
            before: 0,
            contexts_limited: 0,
            feedback_limited: 0,
        }
    }

    /// Whether the link may make only so many contexts in a second.
    pub(crate) fn limits_contexts(&self) -> bool
        ensures { result ≡ limits_contexts self.now }
    {
        self.limits.new_contexts > 0
    }

    /// Whether the link may make no more contexts in a second.
    pub(crate) fn is_full(&self, second: u64) -> bool
        ensures { result ≡ is_full second self.now }
    {
        is_reached(
            self.limits.new_contexts,
            self.second.at(second).new_contexts,
        )
    }

    /// Whether a packet is turned away in a second: it begins a call, and the link may make no more contexts then.
    pub(crate) fn turns_away(&self, second: u64, begins: bool) -> bool
        ensures { result ≡ (begins && is_full second self.now) }
    {
        begins && self.is_full(second)
    }

    /// Whether the link may send no more feedback in a second.
    pub(crate) fn is_silent(&self, second: u64) -> bool
        ensures { result ≡ is_silent second self.now }
    {
        is_reached(self.limits.feedback, self.second.at(second).feedback)
    }

    /// How many packets were taken in the second before this one.
    pub fn packets_before(&self, second: u64) -> u64
        ensures { result ≡ packets_before second self.now }
    {
        if self.second.number == second {
            self.before
        } else if second > 0 && self.second.number == second - 1 {
            self.second.packets
        } else {
            0
        }
    }

    /// Counts what came of a packet.
    pub(crate) fn count(&mut self, work: Work)
        ensures { self.new ≡ with_work work.second (one_if work.makes_context) work.has_feedback self.old }
    {
        let is_silent = self.is_silent(work.second);
        let before = self.packets_before(work.second);
        let second = self.second.at(work.second);
        let sent = u64::from(work.has_feedback && !is_silent);
        let withheld = u64::from(work.has_feedback && is_silent);
        let made = u64::from(work.makes_context);
        *self = Limiter {
            limits: self.limits,
            second: Second {
                number: second.number,
                packets: second.packets.saturating_add(1),
                new_contexts: second.new_contexts.saturating_add(made),
                feedback: second.feedback.saturating_add(sent),
            },
            before,
            contexts_limited: self.contexts_limited,
            feedback_limited: self.feedback_limited.saturating_add(withheld),
        };
    }
}

/// The second of a moment in milliseconds.
pub(crate) fn second_of(moment: u64) -> u64
    ensures { result ≡ second_of moment }
{
    moment / 1000
}

/// Whether a count has reached a limit. A limit of 0 is none.
fn is_reached(limit: u32, count: u64) -> bool
    ensures { result ≡ is_reached limit count }
{
    limit > 0 && u64::from(limit) <= count
}
