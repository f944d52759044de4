//! One arrival on the concentrator, answered in the caller's struct and buffers.

ghost use Rattle.rohc_concentrator.specs.Taken.{MissedBy};
ghost use Rattle.rohc_c.specs.Calls.{HasRoom, HasArrived};

use crate::arrival::{RohcArrival, put_long, tell_alone};
use crate::caller::Caller;
use rohc_concentrator::Concentrator;

/// Takes one packet of a link, and writes the answer into the struct and the buffers.
///
/// Nearly every packet is taken first. Then the compiler writes its header of 40 octets into the buffer part by part, as it
/// is rebuilt.
#[inline(always)]
pub(crate) fn take_packet(
    concentrator: &mut Concentrator,
    link: u16,
    moment: u64,
    octets: &[u8],
    packet: &mut [u8],
    feedback: &mut [u8],
    relayed: &mut [u8],
    arrival: &mut RohcArrival,
)
    requires { HasRoom octets.now (record { packet = packet.old; feedback = feedback.old; relayed = relayed.old }) }
    ensures { HasArrived link moment octets.now (record { packet = packet.new; feedback = feedback.new; relayed = relayed.new })
        arrival.new concentrator.old concentrator.new }
{
    match concentrator.take_first(link, moment, octets) {
        Some((cid, rebuilt)) => *arrival = tell_alone(cid, put_long(&rebuilt, packet)),
        None => take_later(
            concentrator,
            link,
            moment,
            octets,
            packet,
            feedback,
            relayed,
            arrival,
        ),
    }
}

/// Takes one packet that wasn't taken first, and writes the answer into the struct and the buffers.
#[cold]
#[inline(never)]
fn take_later(
    concentrator: &mut Concentrator,
    link: u16,
    moment: u64,
    octets: &[u8],
    packet: &mut [u8],
    feedback: &mut [u8],
    relayed: &mut [u8],
    arrival: &mut RohcArrival,
)
    requires missed { MissedBy concentrator.old link moment octets.now }
    requires room { HasRoom octets.now (record { packet = packet.old; feedback = feedback.old; relayed = relayed.old }) }
    ensures { HasArrived link moment octets.now (record { packet = packet.new; feedback = feedback.new; relayed = relayed.new })
        arrival.new concentrator.old concentrator.new }
{
    let mut caller = Caller {
        packet,
        feedback,
        relayed,
        arrival,
    };
    concentrator.take_later(link, moment, octets, &mut caller);
}
