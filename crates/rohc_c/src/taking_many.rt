//! Many arrivals on the concentrator, one after the other.

ghost use Rattle.std.specs.Prelude.{◌≡◌, ◌+◌, ◌≤◌, ◌↔◌, IsTrue, length, sum_by};
ghost use Rattle.rohc_c.specs.Calls.{HasArrived};
ghost use Rattle.rohc_c.specs.Many.{octets_of, needed, buffers_in, LieWithin, HasRoomForMany, HaveArrived};

use crate::arrival::RohcArrival;
use crate::many::RohcPacket;
use crate::room::{FEEDBACK, HEAD};
use crate::taking::take_packet;
use rohc_concentrator::Concentrator;

/// The most packets that one call takes.
const MANY: usize = 1024;

/// Whether each packet lies within the first `most` octets, and all have at most `left` octets together.
fn are_within(packets: &[RohcPacket], most: usize, left: usize) -> bool
    ensures within { IsTrue result → LieWithin packets.now most }
    ensures count { IsTrue result → sum_by (λ p. p.count) packets.now ≤ left }
    ensures only { LieWithin packets.now most → sum_by (λ p. p.count) packets.now ≤ left → IsTrue result }
{
    let Some((packet, later)) = packets.split_first() else {
        return true;
    };
    if packet.at > most || packet.count > most - packet.at || packet.count > left {
        return false;
    }
    are_within(later, most, left - packet.count)
}

/// Whether there are few enough packets, each lies within the octets, and there is room for all answers.
pub(crate) fn has_room_for_many(
    packets: &[RohcPacket],
    octets: &[u8],
    room: &[u8],
    answers: &[RohcArrival],
) -> bool
    ensures { IsTrue result ↔ HasRoomForMany packets.now octets.now room.now answers.now }
{
    if packets.len() > MANY || packets.len() > answers.len() {
        return false;
    }
    let apart = packets.len() * (HEAD + FEEDBACK);
    if room.len() < apart {
        return false;
    }
    are_within(packets, octets.len(), (room.len() - apart) / 2)
}

/// Takes one packet, and writes its answer into its part of the room. The compiler inlines it after it has optimized it
/// alone; told to inline it always, it would do so before.
fn take_one(
    concentrator: &mut Concentrator,
    packet: &RohcPacket,
    octets: &[u8],
    part: &mut [u8],
    answer: &mut RohcArrival,
)
    requires within { packet.now.at + packet.now.count ≤ length octets.now }
    requires room { length part.old ≡ needed packet.now.count }
    ensures { HasArrived packet.now.link packet.now.moment (octets_of packet.now octets.now) (buffers_in packet.now.count part.new)
        answer.new concentrator.old concentrator.new }
{
    let (rebuilt, behind) = part.split_at_mut(packet.count + HEAD);
    let (feedback, relayed) = behind.split_at_mut(FEEDBACK);
    take_packet(
        concentrator,
        packet.link,
        packet.moment,
        &octets[packet.at..packet.at + packet.count],
        rebuilt,
        feedback,
        relayed,
        answer,
    );
}

/// Takes packets one after the other, and writes the answers one behind the other.
pub(crate) fn take_many(
    concentrator: &mut Concentrator,
    packets: &[RohcPacket],
    octets: &[u8],
    room: &mut [u8],
    answers: &mut [RohcArrival],
)
    requires within { LieWithin packets.now (length octets.now) }
    requires room { sum_by (λ p. needed p.count) packets.now ≤ length room.old }
    requires answers { length packets.now ≤ length answers.old }
    ensures { HaveArrived packets.now octets.now room.new answers.new concentrator.old concentrator.new }
{
    let Some((packet, later)) = packets.split_first() else {
        return;
    };
    // Not `split_first_mut`, which would look at their number once more.
    let (own, others) = answers.split_at_mut(1);
    let (part, rest) = room.split_at_mut(packet.count + HEAD + (FEEDBACK + packet.count));
    take_one(concentrator, packet, octets, part, &mut own[0]);
    take_many(concentrator, later, octets, rest, others);
}
