//! The sends for one datagram, in their order.

ghost use Rattle.std.specs.Prelude.{[], ◌∷◌, Some, sum_by};
ghost use Rattle.std.specs.List.{flat_map};
ghost use Rattle.rohc_frame.specs.Reading.{elements_of};
ghost use Rattle.rohc_serve.specs.Outgoing.{outgoing_of};
ghost use Rattle.rohc_serve.specs.Sending.{OffersSends, send, behind, packet_sends, too_long, element_sends, unsent_element, feedback_sends, unsent_feedback, sends_in, unsent};

use crate::buffer::PacketBuffer;
use crate::front::Front;
use crate::sends::Sends;
use crate::tally::counted_if;
use rohc_frame::Elements;

/// Sends octets to a port, and returns how many sends failed: 0 or 1.
fn send_octets<F: Front>(front: &mut F, port: u16, octets: &[u8]) -> u64
    ensures { OffersSends (send port octets.now ∷ []) 0 (F.acts front.old) (F.acts front.new) result }
{
    let gone = front.send(port, octets);
    counted_if(0, !gone)
}

/// Sends a payload behind a head, and returns how many sends failed. Both together aren't offered to the front if they are
/// too long; that counts as a failed send.
fn send_behind<F: Front>(
    front: &mut F,
    port: u16,
    buffer: &mut PacketBuffer,
    head: &[u8],
    payload: &[u8],
) -> u64
    ensures { OffersSends (packet_sends port (Some (behind head.now payload.now))) (too_long (Some (behind head.now payload.now)))
        (F.acts front.old) (F.acts front.new) result }
{
    match buffer.put(head, payload) {
        Some(octets) => send_octets(front, port, octets),
        None => 1,
    }
}

/// Sends a feedback element, behind the number of its link if there is one, and returns how many sends failed.
fn send_element<F: Front>(
    front: &mut F,
    port: u16,
    buffer: &mut PacketBuffer,
    number: Option<u16>,
    element: &[u8],
) -> u64
    ensures { OffersSends (element_sends number port element.now) (unsent_element number element.now)
        (F.acts front.old) (F.acts front.new) result }
{
    match number {
        Some(link) => send_behind(front, port, buffer, &link.to_be_bytes(), element),
        None => send_octets(front, port, element),
    }
}

/// Sends the data of each relayed element in a datagram of its own, and returns how many sends
/// failed.
fn send_relayed<F: Front>(
    front: &mut F,
    port: u16,
    buffer: &mut PacketBuffer,
    number: Option<u16>,
    relayed: Elements<'_>,
) -> u64
    ensures { OffersSends (flat_map (element_sends number port) (elements_of relayed.entry))
        (sum_by (unsent_element number) (elements_of relayed.entry)) (F.acts front.old) (F.acts front.new) result }
{
    let mut failed = 0u64;
    for element in relayed {
        let more = send_element(front, port, buffer, number, element);
        failed = failed.saturating_add(more);
    }
    failed
}

/// Sends the packet, if there is one, and returns how many sends failed.
fn send_packet<F: Front>(
    front: &mut F,
    port: u16,
    buffer: &mut PacketBuffer,
    sends: &Sends<'_>,
) -> u64
    ensures { OffersSends (packet_sends port (outgoing_of sends.now).packet) (too_long (outgoing_of sends.now).packet)
        (F.acts front.old) (F.acts front.new) result }
{
    match &sends.packet {
        Some(packet) => send_behind(front, port, buffer, packet.head.as_slice(), packet.payload),
        None => 0,
    }
}

/// Sends the feedback element for the peer, if there is one, and returns how many sends failed.
fn send_feedback<F: Front>(
    front: &mut F,
    port: u16,
    buffer: &mut PacketBuffer,
    number: Option<u16>,
    sends: &Sends<'_>,
) -> u64
    ensures { OffersSends (feedback_sends number port (outgoing_of sends.now).feedback)
        (unsent_feedback number (outgoing_of sends.now).feedback) (F.acts front.old) (F.acts front.new) result }
{
    match &sends.feedback {
        Some(element) => send_element(front, port, buffer, number, element.as_slice()),
        None => 0,
    }
}

/// Sends what is to be sent for a datagram, in its order, and returns how many sends failed. Each feedback element is sent
/// behind the number of its link, in two octets, if one is given.
///
/// A packet, or an element with its number, of more than 65,535 octets isn't offered to the front and counts as a failed send.
pub fn send_all<F: Front>(
    front: &mut F,
    buffer: &mut PacketBuffer,
    number: Option<u16>,
    sends: &Sends<'_>,
) -> u64
    ensures { OffersSends (sends_in number (outgoing_of sends.now)) (unsent number (outgoing_of sends.now))
        (F.acts front.old) (F.acts front.new) result }
{
    let Some(ports) = sends.ports else {
        return 0;
    };
    let relayed = send_relayed(front, ports.relay, buffer, number, sends.relayed);
    let packet = send_packet(front, ports.deliver, buffer, sends);
    let feedback = send_feedback(front, ports.feedback, buffer, number, sends);
    relayed.saturating_add(packet).saturating_add(feedback)
}
