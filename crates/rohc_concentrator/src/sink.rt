//! Where the answer to an arrival goes.

ghost use Rattle.std.specs.Prelude.{◌≡◌, [], Bool, false, None, length};
ghost use Rattle.rohc_frame.specs.Reading.{elements_of};
ghost use Rattle.rohc_context.specs.Response.{response_of, delivered};
ghost use Rattle.rohc_concentrator.specs.Report.{Report, Arrived, OnlyFront, Refused};

use rohc_context::{Delivered, Refusal, Reply};
use rohc_frame::Elements;

/// A place for the answer to an arrival: a value, the buffers of a caller, a line of text.
pub trait Sink<'a> {
    /// The sink has room for this answer.
    ghost has_room: { Self → Report → Type 0 };

    /// The sink before, the answer that it takes, whether the packet was repaired, and the sink after.
    ghost takes: { Self → Report → (repaired : Bool) → Self → Type 0 };

    /// Takes a packet with a rebuilt header of 40 octets and no feedback of either kind. It replaces the answer before.
    fn rebuilt(&mut self, cid: u16, packet: Delivered<'a>)
        requires long { length packet.head.items ≡ 40 }
        requires room { has_room self.old (Arrived cid (delivered packet.head.items packet.payload.now None) []) }
        ensures { takes self.old (Arrived cid (delivered packet.entry.head.items packet.entry.payload.now None) []) false self.new };

    /// Takes the reply of a CID's context, whether its packet was repaired (delivered by the second or the third try), and
    /// the feedback that the packet relays. It replaces the answer before.
    fn arrived(&mut self, cid: u16, reply: Reply<'a>, repaired: bool, relayed: Elements<'a>)
        requires { has_room self.old (Arrived cid (response_of reply) (elements_of relayed)) }
        ensures { takes self.old (Arrived cid (response_of reply.entry) (elements_of relayed.entry)) repaired self.new };

    /// Takes the answer to a packet that has only padding and feedback. It replaces the answer before.
    fn only_front(&mut self, relayed: Elements<'a>)
        requires { has_room self.old (OnlyFront (elements_of relayed)) }
        ensures { takes self.old (OnlyFront (elements_of relayed.entry)) false self.new };

    /// Takes the refusal of a packet that has no CID. It replaces the answer before.
    fn refused(&mut self, refusal: Refusal)
        requires { has_room self.old (Refused refusal) }
        ensures { takes self.old (Refused refusal) false self.new };
}
