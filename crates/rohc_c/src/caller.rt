//! A caller's buffers and struct, which take an answer.

use crate::arrival::{RohcArrival, put_long, tell_alone, tell_feedback, tell_packet};
use crate::relay::put_elements;
use rohc_concentrator::Sink;
use rohc_context::{Delivered, Refusal, Reply};
use rohc_counts::outcome_number;
use rohc_frame::Elements;

/// A caller's buffers and struct, lent for one answer.
#[derive(Drop)]
pub(crate) struct Caller<'b> {
    pub packet: &'b mut [u8],
    pub feedback: &'b mut [u8],
    pub relayed: &'b mut [u8],
    pub arrival: &'b mut RohcArrival,
}

impl<'a> Sink<'a> for Caller<'_> {
    ghost use Rattle.rohc_c.specs.Caller.{HasRoomFor, IsTold};

    ghost has_room = { HasRoomFor };

    ghost takes = { λ old report _ new. IsTold old report new };

    fn rebuilt(&mut self, cid: u16, packet: Delivered<'a>) {
        *self.arrival = tell_alone(cid, put_long(&packet, self.packet));
    }

    fn arrived(&mut self, cid: u16, reply: Reply<'a>, _: bool, relayed: Elements<'a>) {
        let (has_packet, packet_length) = tell_packet(&reply, self.packet);
        let (has_feedback, feedback_length) = tell_feedback(&reply, self.feedback);
        let told = put_elements(relayed, self.relayed);
        *self.arrival = RohcArrival {
            kind: 0,
            outcome: outcome_number(reply.outcome),
            cid,
            has_packet,
            has_feedback,
            packet_length,
            feedback_length,
            relayed_length: told.length,
            relayed_count: told.count,
        };
    }

    fn only_front(&mut self, relayed: Elements<'a>) {
        let told = put_elements(relayed, self.relayed);
        *self.arrival = RohcArrival {
            kind: 1,
            relayed_length: told.length,
            relayed_count: told.count,
            ..RohcArrival::default()
        };
    }

    fn refused(&mut self, refusal: Refusal) {
        *self.arrival = RohcArrival {
            kind: 2,
            outcome: refusal.number(),
            ..RohcArrival::default()
        };
    }
}
