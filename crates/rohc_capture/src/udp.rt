//! A UDP datagram over IPv4.

ghost use Rattle.std.specs.Prelude.{◌≡◌, Ok, IfSome};
ghost use Rattle.std.specs.Result.{result_map_both};
ghost use Rattle.rohc_capture.specs.Udp.{segment_in, form_of, form_in, datagram_in};

use crate::fault::FrameFault;
use crate::octets::{after, cut, octet, word};

/// A UDP datagram over IPv4.
#[derive(Clone, Copy)]
pub struct Datagram<'a> {
    /// The port that it comes from.
    pub source: u16,
    /// The port that it goes to.
    pub destination: u16,
    /// The octets after the UDP header, up to the UDP length.
    pub payload: &'a [u8],
}

/// The octets of an IPv4 header without options, and of the header of UDP.
const HEADERS: usize = 28;

/// The first octet of an IPv4 header without options.
const PLAIN_IPV4: u8 = 0x45;

/// The octets of the header of UDP.
const UDP: usize = 8;

/// What follows the IP header, up to the packet's total length, if that is a whole UDP datagram.
#[tactic(auto, unfolding(crate::specs::Udp::segment_in))]
#[inline(always)]
pub(crate) fn segment_in(packet: &[u8]) -> Result<&[u8], FrameFault>
    ensures { result_map_both (λ r. r.now) (λ e. e) result ≡ segment_in packet.now }
{
    let (first, rest) = octet(packet)?;
    let words = first % 16;
    if first / 16 != 4 || words < 5 {
        return Err(FrameFault::IpHeader);
    }
    let (_, rest) = octet(rest)?;
    let (total, rest) = word(rest)?;
    let (_, rest) = word(rest)?;
    let (fragment, rest) = word(rest)?;
    let (_, rest) = octet(rest)?;
    let (protocol, _) = octet(rest)?;
    let segment = cut(
        packet,
        usize::from(words) * 4,
        usize::from(total),
        FrameFault::IpLength,
    )?;
    if fragment % 16_384 != 0 {
        return Err(FrameFault::Fragment);
    }
    if protocol != 17 {
        return Err(FrameFault::NotUdp);
    }
    Ok(segment)
}

/// The datagram that begins here.
#[tactic(auto, unfolding(crate::specs::Udp::form_in))]
#[inline(always)]
pub(crate) fn form_in(udp: &[u8]) -> Result<Datagram<'_>, FrameFault>
    ensures { result_map_both form_of (λ e. e) result ≡ form_in udp.now }
{
    let (source, rest) = word(udp)?;
    let (destination, rest) = word(rest)?;
    let (size, rest) = word(rest)?;
    let _ = after(rest, 2)?;
    let payload = cut(udp, 8, usize::from(size), FrameFault::UdpLength)?;
    Ok(Datagram {
        source,
        destination,
        payload,
    })
}

/// The UDP datagram in an IPv4 packet, which may have padding behind it (RFC 791, RFC 768).
///
/// The errors are `Short` and those of `FrameFault` from `IpHeader` on. No checksum is looked at.
#[tactic(auto, unfolding(crate::specs::Udp::datagram_in))]
#[inline(always)]
pub fn datagram_in(packet: &[u8]) -> Result<Datagram<'_>, FrameFault>
    ensures { result_map_both form_of (λ e. e) result ≡ datagram_in packet.now }
{
    form_in(segment_in(packet)?)
}

/// What `datagram_in` gives for nearly every packet: the datagram behind an IPv4 header without options. `None` says
/// nothing.
///
/// The lengths are looked at first, and so the compiler drops the checks of single octets.
#[tactic(auto, unfolding(crate::specs::Udp::datagram_in))]
#[inline(always)]
pub(crate) fn datagram_at_once(packet: &[u8]) -> Option<Datagram<'_>>
    ensures { IfSome result (λ datagram. datagram_in packet.now ≡ Ok (form_of datagram)) }
{
    if packet.len() < HEADERS || packet[0] != PLAIN_IPV4 {
        return None;
    }
    let segment = segment_in(packet).ok()?;
    if segment.len() < UDP {
        return None;
    }
    form_in(segment).ok()
}
