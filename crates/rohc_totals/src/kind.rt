//! What an answer line says.

use rohc_context::Refusal;

/// How many kinds of lines there are.
pub const KINDS: usize = 41;

/// The kind of a line.
#[derive(Clone, Copy, PartialEq, Eq)]
pub enum LineKind {
    /// The line is no answer line.
    NoAnswer,
    /// A bad line of the script.
    BadLine,
    /// A long line of the script.
    LongLine,
    /// A rebuilt packet.
    Delivered,
    /// A context was made or renewed without a packet.
    Stored,
    /// Feedback that a packet carried for this side's compressor.
    Relayed,
    /// Feedback for the compressor: an ACK.
    Ack,
    /// Feedback for the compressor: a NACK.
    Nack,
    /// Feedback for the compressor: a STATIC-NACK.
    StaticNack,
    /// Feedback for the compressor: FEEDBACK-1 of profile 0x0000.
    Plain,
    /// Any other feedback for the compressor, which rohcd never writes.
    OtherFeedback,
    /// A packet or a reset was refused.
    Refused(Refusal),
}

impl LineKind {
    ghost use Rattle.std.specs.Prelude.{◌≡◌, ◌<◌};
    ghost use Rattle.rohc_totals.specs.Kind.{kind_number, refusal_of};

    /// The kind's number, below `KINDS`.
    pub(crate) fn number(self) -> usize
        ensures number { result ≡ kind_number self }
        ensures within { result < KINDS }
    {
        match self {
            LineKind::NoAnswer => 0,
            LineKind::BadLine => 1,
            LineKind::LongLine => 2,
            LineKind::Delivered => 3,
            LineKind::Stored => 4,
            LineKind::Relayed => 5,
            LineKind::Ack => 6,
            LineKind::Nack => 7,
            LineKind::StaticNack => 8,
            LineKind::Plain => 9,
            LineKind::OtherFeedback => 10,
            LineKind::Refused(refusal) => 10 + usize::from(refusal.number()),
        }
    }

    /// The refusal, if the line says one.
    pub(crate) fn refusal(self) -> Option<Refusal>
        ensures { result ≡ refusal_of self }
    {
        match self {
            LineKind::Refused(refusal) => Some(refusal),
            _ => None,
        }
    }
}

/// What a line says: of which link and CID, and what.
#[derive(Clone, Copy, PartialEq, Eq)]
pub struct AnswerLine {
    /// The link, if the line names one.
    pub link: Option<u16>,
    /// The CID, if the line names one.
    pub cid: Option<u16>,
    /// What it says.
    pub kind: LineKind,
}
