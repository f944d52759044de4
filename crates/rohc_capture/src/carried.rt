//! What a frame carries: a ROHC packet, or the payload of a UDP datagram.

ghost use Rattle.std.specs.Prelude.{◌≡◌, Ok, IfSome};
ghost use Rattle.std.specs.Result.{result_map_both};
ghost use Rattle.rohc_capture.specs.Framing.{usual};
ghost use Rattle.rohc_capture.specs.Carried.{load_of, carried_in};

use crate::fault::FrameFault;
use crate::frame::Protocol;
use crate::framing::{Framing, network_under};
use crate::octets::{after, word};
use crate::udp::{datagram_at_once, datagram_in};

/// What the octets are carried by.
#[derive(Clone, Copy, PartialEq, Eq)]
pub enum Carrier {
    /// The link itself, by an EtherType or a number of PPP.
    Link,
    /// A UDP datagram to this port.
    Udp(u16),
}

/// What a frame carries.
#[derive(Clone, Copy)]
pub struct Carried<'a> {
    /// The number of the frame's last VLAN tag, 0 to 4095, if there is a tag.
    pub vlan: Option<u16>,
    /// What the octets are carried by.
    pub carrier: Carrier,
    /// The octets of the packet, or of the datagram's payload.
    pub octets: &'a [u8],
}

/// The link type of Ethernet frames.
const ETHERNET: u16 = 1;

/// The link type of IP packets without a header before them.
const RAW_IP: u16 = 101;

/// The link type of such packets of IPv4 alone.
const RAW_IPV4: u16 = 228;

/// The EtherType of ROHC.
const ROHC: u16 = 0x22f1;

/// The EtherType of IPv4.
const IPV4: u16 = 0x0800;

/// What nearly every frame carries: a ROHC packet in an Ethernet frame without tags, or the payload of a UDP datagram over
/// IPv4 in such a frame or by itself, under the usual framing. `None` says nothing.
#[tactic(auto, unfolding(crate::specs::Carried::carried_in, crate::specs::Frame::network_in, crate::specs::Frame::ethernet, crate::specs::Frame::untagged, crate::specs::Frame::typed, crate::specs::Frame::protocol_of))]
#[inline(always)]
pub(crate) fn carried_at_once(link_type: u16, frame: &[u8]) -> Option<Carried<'_>>
    ensures { IfSome result (λ carried. carried_in usual link_type frame.now ≡ Ok (load_of carried)) }
{
    let packet = match link_type {
        RAW_IP | RAW_IPV4 => frame,
        ETHERNET => {
            let (kind, packet) = word(after(frame, 12).ok()?).ok()?;
            if kind == ROHC {
                return Some(Carried {
                    vlan: None,
                    carrier: Carrier::Link,
                    octets: packet,
                });
            }
            if kind != IPV4 {
                return None;
            }
            packet
        }
        _ => return None,
    };
    let datagram = datagram_at_once(packet)?;
    Some(Carried {
        vlan: None,
        carrier: Carrier::Udp(datagram.destination),
        octets: datagram.payload,
    })
}

/// What a frame of this link type carries under a framing. The link types are those of `network_under`.
#[tactic(auto, unfolding(crate::specs::Carried::carried_in))]
pub fn carried_in<'a>(
    framing: &Framing,
    link_type: u16,
    frame: &'a [u8],
) -> Result<Carried<'a>, FrameFault>
    ensures { result_map_both load_of (λ e. e) result ≡ carried_in framing.now link_type frame.entry.now }
{
    let network = network_under(framing, link_type, frame)?;
    match network.protocol {
        Protocol::Rohc => Ok(Carried {
            vlan: network.vlan,
            carrier: Carrier::Link,
            octets: network.octets,
        }),
        Protocol::Ipv4 => {
            let datagram = datagram_in(network.octets)?;
            Ok(Carried {
                vlan: network.vlan,
                carrier: Carrier::Udp(datagram.destination),
                octets: datagram.payload,
            })
        }
        Protocol::EtherType(kind) if framing.ether_type == Some(kind) => Ok(Carried {
            vlan: network.vlan,
            carrier: Carrier::Link,
            octets: network.octets,
        }),
        Protocol::EtherType(_) | Protocol::Other => Err(FrameFault::Protocol),
    }
}
