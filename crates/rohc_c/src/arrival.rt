//! Writing an answer into the caller's struct and buffers.

ghost use Rattle.std.specs.Prelude.{◌≡◌, ℕ, ◌≤◌, ◌+◌, ◌-◌, List, [], ◌++◌, length, drop, None};
ghost use Rattle.rohc_context.specs.Response.{response_of, delivered};
ghost use Rattle.rohc_concentrator.specs.Report.{Arrived};
ghost use Rattle.rohc_c.specs.Written.{whole_packet, StandsIn, IsPartTold, IsPacketWithin, IsAnswerWritten};

use crate::payload::put_payload;
use crate::room::HEAD;
use rohc_bits::put_behind;
use rohc_context::{Delivered, Reply};

/// The answer to an arrival: `struct polorowan_arrival` of include/polorowan.h. Its octets stand in the caller's buffers.
#[repr(C)]
#[derive(Clone, Copy, Default, Drop)]
pub struct RohcArrival {
    /// 0 if the packet has a CID; 1 if it has only padding and feedback; 2 for a refusal without a CID.
    pub kind: u8,
    /// 0 for a delivered packet; 31 if the context was made or renewed without one; else the refusal's number.
    pub outcome: u8,
    /// The CID, or 0 if there is none.
    pub cid: u16,
    /// Whether a rebuilt packet stands in its buffer.
    pub has_packet: bool,
    /// Whether feedback for the compressor stands in its buffer.
    pub has_feedback: bool,
    /// The length of the packet, in octets.
    pub packet_length: usize,
    /// The length of the feedback, in octets.
    pub feedback_length: usize,
    /// How many octets stand in the buffer for the feedback that the packet carried for this side's compressor.
    pub relayed_length: usize,
    /// How many feedback elements these octets are. Each is one octet, which counts its data, and the data.
    pub relayed_count: usize,
}

/// Writes a packet's head at the start of a buffer. The head of nearly every packet has 40 octets, or one if it's a Normal
/// packet.
#[inline(always)]
fn put_head(head: &[u8], place: &mut [u8])
    requires { length head.now ≤ length place.old }
    ensures { place.new ≡ head.entry.now ++ drop (length head.entry.now) place.old }
{
    match head {
        [first] => place[0] = *first,
        _ if head.len() == HEAD => put_long_head(head, place),
        _ => place[..head.len()].copy_from_slice(head),
    }
}

/// Writes a packet into a buffer, and returns its length. The payload comes first, since the head was just written in
/// parts of two to eight octets, and reading it back at once in wider parts would wait for that.
#[inline(always)]
fn put_packet(delivered: &Delivered<'_>, place: &mut [u8]) -> usize
    requires { 40 + length delivered.now.payload.now ≤ length place.old }
    ensures { StandsIn (delivered.now.head.items ++ delivered.now.payload.now) result place.new }
{
    let head = delivered.head.as_slice();
    put_payload(place, head.len(), delivered.payload);
    put_head(head, place);
    head.len() + delivered.payload.len()
}

/// A head of 40 octets as a value, whose length the compiler knows.
#[inline(always)]
fn long_head(head: &[u8]) -> [u8; HEAD]
    requires { length head.now ≡ 40 }
    ensures { result ≡ head.now }
{
    let Some(octets) = head.first_chunk::<HEAD>() else {
        unreachable!();
    };
    *octets
}

/// Writes a head of 40 octets at the start of a buffer. The compiler makes no call of a copy whose length it knows.
#[inline(always)]
fn put_long_head(head: &[u8], place: &mut [u8])
    requires long { length head.now ≡ 40 }
    requires room { 40 ≤ length place.old }
    ensures { place.new ≡ head.entry.now ++ drop (length head.entry.now) place.old }
{
    place[..HEAD].copy_from_slice(&long_head(head));
}

/// Writes a packet whose head has 40 octets into a buffer, and returns its length.
#[inline(always)]
pub(crate) fn put_long(long: &Delivered<'_>, place: &mut [u8]) -> usize
    requires long { length long.now.head.items ≡ 40 }
    requires room { 40 + length long.now.payload.now ≤ length place.old }
    ensures { StandsIn (long.now.head.items ++ long.now.payload.now) result place.new }
{
    let head = long.head.as_slice();
    put_long_head(head, place);
    put_payload(place, head.len(), long.payload);
    head.len() + long.payload.len()
}

/// Writes a reply's packet into its buffer. Returns whether there is one, and its length.
#[inline(always)]
pub(crate) fn tell_packet(reply: &Reply<'_>, place: &mut [u8]) -> (bool, usize)
    requires head { 40 ≤ length place.old }
    requires within { IsPacketWithin (length place.old - 40) (response_of reply.now).packet }
    ensures { IsPartTold (whole_packet (response_of reply.now).packet) place.new result.0 result.1 }
{
    match &reply.packet {
        Some(delivered) => (true, put_packet(delivered, place)),
        None => (false, 0),
    }
}

/// Writes a reply's feedback into its buffer. Returns whether there is some, and its length.
#[inline(always)]
pub(crate) fn tell_feedback(reply: &Reply<'_>, place: &mut [u8]) -> (bool, usize)
    requires { 8 ≤ length place.old }
    ensures { IsPartTold (response_of reply.now).feedback place.new result.0 result.1 }
{
    match &reply.feedback {
        Some(element) => {
            put_behind(place, 0, element.as_slice());
            (true, element.len())
        }
        None => (false, 0),
    }
}

/// The struct for a packet of this length in its buffer, without feedback of either kind.
#[inline(always)]
pub(crate) fn tell_alone(cid: u16, packet_length: usize) -> RohcArrival
    ensures { (head payload packet feedback relayed : List ℕ) → StandsIn (head ++ payload) packet_length packet →
        IsAnswerWritten (Arrived cid (delivered head payload None) []) (record { packet = packet; feedback = feedback; relayed = relayed }) result }
{
    RohcArrival {
        cid,
        has_packet: true,
        packet_length,
        ..RohcArrival::default()
    }
}
