//! The answer of a concentrator.

ghost use Rattle.std.specs.Prelude.{◌≡◌, []};
ghost use Rattle.rohc_context.specs.Response.{refused};
ghost use Rattle.rohc_concentrator.specs.Report.{report_of, Arrived};

use crate::sink::Sink;
use rohc_context::{Delivered, Refusal, Reply};
use rohc_frame::Elements;
use std::fmt;

/// The answer to an arrival.
#[derive(Drop)]
pub enum Answer<'a> {
    /// The packet has this CID.
    Arrived {
        cid: u16,
        /// The answer of the CID's context.
        reply: Reply<'a>,
        /// The data of the feedback in the packet, for this side's compressor.
        relayed: Elements<'a>,
    },
    /// The packet has only padding and feedback.
    OnlyFront {
        /// The data of the feedback in the packet, for this side's compressor.
        relayed: Elements<'a>,
    },
    /// There is no such link, or the packet has no reading.
    Refused(Refusal),
}

impl Answer<'_> {
    /// A blank form for `arrive_into` to fill in: a refusal, in the shape of most answers.
    #[inline(always)]
    pub fn blank() -> Self
        ensures { report_of result ≡ Arrived 0 (refused Refusal.NoContext) [] }
    {
        Answer::Arrived {
            cid: 0,
            reply: Reply::refused(Refusal::NoContext),
            relayed: Elements::none(),
        }
    }
}

/// An answer takes all answers.
impl<'a> Sink<'a> for Answer<'a> {
    ghost use Rattle.std.specs.Prelude.{◌≡◌};
    ghost use Rattle.rohc_concentrator.specs.Report.{report_of};

    ghost has_room = { λ _ _. Unit {0} };

    ghost takes = { λ _ report _ new. report_of new ≡ report };

    #[inline(always)]
    fn rebuilt(&mut self, cid: u16, packet: Delivered<'a>) {
        let reply = Reply::delivered(packet.head, packet.payload, None);
        self.arrived(cid, reply, false, Elements::none());
    }

    #[inline(always)]
    fn arrived(&mut self, cid: u16, reply: Reply<'a>, _: bool, relayed: Elements<'a>) {
        *self = Answer::Arrived {
            cid,
            reply,
            relayed,
        };
    }

    #[inline(always)]
    fn only_front(&mut self, relayed: Elements<'a>) {
        *self = Answer::OnlyFront { relayed };
    }

    #[inline(always)]
    fn refused(&mut self, refusal: Refusal) {
        *self = Answer::Refused(refusal);
    }
}

/// There is no such link.
#[derive(Clone, Copy, Debug, PartialEq, Eq)]
pub struct NoLink;

impl fmt::Display for NoLink {
    fn fmt<W: fmt::Write>(&self, f: &mut fmt::Formatter<W>) -> fmt::Result {
        f.write_str("there is no such link")
    }
}
