//! The counts of a server.

ghost use Rattle.rohc_serve.specs.Outgoing.{outgoing_of};
ghost use Rattle.rohc_serve.specs.Tally.{added, counts_of, one_if};

use crate::sends::Sends;
use rohc_frame::Elements;
use std::fmt;

/// The counts of a server. Each of them stops at the greatest `u64`.
#[derive(Clone, Copy, Debug, Default, PartialEq, Eq)]
pub struct ServeTally {
    /// The datagrams that were received.
    pub datagrams: u64,
    /// The datagrams for which a packet was to be sent.
    pub delivered: u64,
    /// The datagrams for which a feedback element for the peer was to be sent.
    pub feedback: u64,
    /// The feedback elements that came from peers.
    pub relayed: u64,
    /// The datagrams that were refused.
    pub refused: u64,
    /// The receives and sends that failed.
    pub failed: u64,
}

impl ServeTally {
    ghost use Rattle.std.specs.Prelude.{◌≡◌};
    ghost use Rattle.rohc_links.specs.Limits.{counted};

    /// Counts a datagram, by what was to be sent for it and how many of its sends failed.
    pub fn add(&mut self, sends: &Sends<'_>, failed: u64)
        ensures { self.new ≡ added self.old (counts_of (outgoing_of sends.now) failed) }
    {
        *self = ServeTally {
            datagrams: self.datagrams.saturating_add(1),
            delivered: counted_if(self.delivered, sends.packet.is_some()),
            feedback: counted_if(self.feedback, sends.feedback.is_some()),
            relayed: counted_on(self.relayed, sends.relayed),
            refused: counted_if(self.refused, sends.refused),
            failed: self.failed.saturating_add(failed),
        };
    }

    /// Counts a failed receive.
    pub(crate) fn add_failed_receive(&mut self)
        ensures { self.new ≡ record self.old { failed = counted self.old.failed 1 } }
    {
        *self = ServeTally {
            failed: self.failed.saturating_add(1),
            ..*self
        };
    }
}

ghost use Rattle.std.specs.Prelude.{◌≡◌, length};
ghost use Rattle.rohc_frame.specs.Reading.{elements_of};
ghost use Rattle.rohc_links.specs.Limits.{counted};

/// The count plus one if `holds`, up to the greatest `u64`.
pub(crate) fn counted_if(count: u64, holds: bool) -> u64
    ensures { result ≡ counted count (one_if holds) }
{
    count.saturating_add(u64::from(holds))
}

/// The count plus the number of elements, up to the greatest `u64`.
fn counted_on(count: u64, elements: Elements<'_>) -> u64
    ensures { result ≡ counted count (length (elements_of elements.entry)) }
{
    let mut count = count;
    for _ in elements {
        count = count.saturating_add(1);
    }
    count
}

impl fmt::Display for ServeTally {
    fn fmt<W: fmt::Write>(&self, f: &mut fmt::Formatter<W>) -> fmt::Result {
        write!(
            f,
            "datagrams {} delivered {} ",
            self.datagrams, self.delivered
        )?;
        write!(f, "feedback {} relayed {} ", self.feedback, self.relayed)?;
        write!(f, "refused {} failed {}", self.refused, self.failed)
    }
}
