//! The answer of a context to an arrival.

use crate::refusal::Refusal;
use arrayvec::ArrayVec;
use rohc_feedback::Element;

/// A rebuilt packet: its head, followed by its payload.
#[derive(Drop)]
pub struct Delivered<'a> {
    /// The rebuilt header of a packet of profile 0x0001; the first octet of a Normal packet; no
    /// octets for an IR of profile 0x0000.
    pub head: ArrayVec<u8, 40>,
    /// The octets after the head, borrowed from the arrival.
    pub payload: &'a [u8],
}

/// The outcome of an arrival.
#[derive(Clone, Copy, Debug, PartialEq, Eq)]
pub enum Outcome {
    /// A packet was rebuilt.
    Delivered,
    /// The context was made or renewed, and no packet was delivered.
    Stored,
    /// Nothing was delivered or stored.
    Refused(Refusal),
}

/// The answer of a context to an arrival.
#[derive(Drop)]
pub struct Reply<'a> {
    /// The rebuilt packet, if one was delivered.
    pub packet: Option<Delivered<'a>>,
    /// The feedback element for the compressor, if one is due.
    pub feedback: Option<Element>,
    /// The outcome of the arrival.
    pub outcome: Outcome,
}

impl<'a> Reply<'a> {
    ghost use Rattle.std.specs.Prelude.{◌≡◌, [], ◌∷◌, None};
    ghost use Rattle.rohc_feedback.specs.Element.{octets_of};
    ghost use Rattle.rohc_context.specs.Response.{response_of, delivered, stored, failed, refused};

    /// The answer that delivers a packet with this head and payload, with this feedback or none.
    #[inline(always)]
    pub fn delivered(head: ArrayVec<u8, 40>, payload: &'a [u8], feedback: Option<Element>) -> Self
        ensures { response_of result ≡ delivered head.items payload.entry.now (octets_of feedback) }
    {
        Reply {
            packet: Some(Delivered { head, payload }),
            feedback,
            outcome: Outcome::Delivered,
        }
    }

    /// The answer to a Normal packet of profile 0x0000: the packet is its first octet and the rest, its octets without the
    /// CID octets (RFC 3095 5.10.2).
    #[inline(always)]
    pub(crate) fn normal(first: u8, rest: &'a [u8]) -> Self
        ensures { response_of result ≡ delivered (first ∷ []) rest.entry.now None }
    {
        let mut head = ArrayVec::new();
        head.push(first);
        Reply::delivered(head, rest, None)
    }

    /// The answer if the context was made or renewed without a packet, with this feedback or none.
    pub(crate) fn stored(feedback: Option<Element>) -> Self
        ensures { response_of result ≡ stored (octets_of feedback) }
    {
        Reply {
            packet: None,
            feedback,
            outcome: Outcome::Stored,
        }
    }

    /// The answer that refuses an arrival, with this feedback or none.
    pub(crate) fn failed(refusal: Refusal, feedback: Option<Element>) -> Self
        ensures { response_of result ≡ failed refusal (octets_of feedback) }
    {
        Reply {
            packet: None,
            feedback,
            outcome: Outcome::Refused(refusal),
        }
    }

    /// The answer that refuses an arrival, without feedback.
    pub fn refused(refusal: Refusal) -> Self
        ensures { response_of result ≡ refused refusal }
    {
        Reply {
            packet: None,
            feedback: None,
            outcome: Outcome::Refused(refusal),
        }
    }
}
