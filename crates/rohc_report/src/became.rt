//! What became of a packet, as a report tells it.

ghost use Rattle.std.specs.Prelude.{◌≡◌};
ghost use Rattle.rohc_report.specs.Became.{is_behind, late_count, outcome_of, repaired_count};

use rohc_context::Refusal;

/// What became of a packet.
#[derive(Clone, Copy, PartialEq, Eq)]
pub enum Became {
    /// It was delivered.
    Delivered,
    /// It was delivered behind a packet with the same SN or a later one.
    Late,
    /// It was delivered by a second or a third try.
    Repaired,
    /// A context was made or renewed without a packet.
    Stored,
    /// The packet has only padding and feedback.
    Front,
    /// It was refused.
    Refused(Refusal),
}

impl Became {
    /// The number of the outcome, as answers are counted.
    pub fn outcome(self) -> Option<u8>
        ensures { result ≡ outcome_of self }
    {
        match self {
            Became::Delivered | Became::Late | Became::Repaired => Some(0),
            Became::Stored => Some(31),
            Became::Front => None,
            Became::Refused(refusal) => Some(refusal.number()),
        }
    }

    /// How many late packets it is.
    pub(crate) fn late(self) -> u64
        ensures { result ≡ late_count self }
    {
        match self {
            Became::Late => 1,
            _ => 0,
        }
    }

    /// How many repaired packets it is.
    pub(crate) fn repaired(self) -> u64
        ensures { result ≡ repaired_count self }
    {
        match self {
            Became::Repaired => 1,
            _ => 0,
        }
    }

    /// Its name.
    pub(crate) fn name(self) -> &'static str {
        match self {
            Became::Delivered => "delivered",
            Became::Late => "delivered late",
            Became::Repaired => "repaired",
            Became::Stored => "stored",
            Became::Front => "only padding and feedback",
            Became::Refused(_) => "refused",
        }
    }
}

/// Whether a sequence number is the one before it, or lies less than half a turn behind that.
pub fn is_behind(before: u16, sn: u16) -> bool
    ensures { result ≡ is_behind before sn }
{
    before.wrapping_sub(sn) < 32_768
}
