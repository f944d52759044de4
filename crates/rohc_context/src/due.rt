//! Feedback that is due to the compressor.

use crate::settings::Mode;
use rohc_feedback::{Element, ack, nack, plain_ack, static_nack};
use rohc_frame::{CidKind, Forward};

/// The feedback that an arrival makes due (RFC 3095 5.3.2.2).
#[derive(Clone, Copy, PartialEq, Eq)]
pub(crate) enum Due {
    /// Nothing.
    Nothing,
    /// An ACK for the packet with this sequence number.
    Ack(u16),
    /// A NACK, which asks for a refresh of the dynamic part, with the reference's sequence number, if
    /// there is a reference.
    Nack(Option<u16>),
    /// A STATIC-NACK, which asks for a refresh of the whole context.
    StaticNack,
    /// FEEDBACK-1, which acknowledges an IR of profile 0x0000.
    PlainAck,
}

impl Due {
    ghost use Rattle.std.specs.Prelude.{◌≡◌, ◌≤◌};
    ghost use Rattle.rohc_frame.specs.Header.{greatest_cid};
    ghost use Rattle.rohc_frame.specs.Reading.{header_of};
    ghost use Rattle.rohc_feedback.specs.Element.{octets_of};
    ghost use Rattle.rohc_context.specs.Due.{element_of, sent};

    /// The feedback element for the compressor, for the CID of this header. In U mode there is none.
    pub(crate) fn feedback(self, mode: Mode, forward: &Forward<'_>) -> Option<Element>
        ensures { octets_of result ≡ sent mode (header_of forward.now) self }
    {
        match mode {
            Mode::U => None,
            Mode::O => self.element(forward.size, forward.cid),
        }
    }

    /// The feedback element for a CID.
    fn element(self, size: CidKind, cid: u16) -> Option<Element>
        requires { cid ≤ greatest_cid size }
        ensures { octets_of result ≡ element_of size cid self }
    {
        match self {
            Due::Nothing => None,
            Due::Ack(sn) => Some(ack(size, cid, sn)),
            Due::Nack(sn) => Some(nack(size, cid, sn)),
            Due::StaticNack => Some(static_nack(size, cid)),
            Due::PlainAck => Some(plain_ack(size, cid)),
        }
    }
}
