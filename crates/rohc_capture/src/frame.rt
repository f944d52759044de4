//! A frame of a capture, down to the network layer.

ghost use Rattle.std.specs.Prelude.{◌≡◌};
ghost use Rattle.std.specs.Result.{result_map_both};
ghost use Rattle.rohc_capture.specs.Frame.{protocol_of, ppp_protocol, is_tag, inside_of, measured, typed, untagged, ethernet, cooked_type, cooked, second_cooked, second_number, numbered, ppp, network_in};

use crate::fault::FrameFault;
use crate::octets::{after, octet, word};

/// What follows the headers of a link.
#[derive(Clone, Copy, PartialEq, Eq)]
pub enum Protocol {
    /// A ROHC packet.
    Rohc,
    /// An IPv4 packet.
    Ipv4,
    /// What another EtherType says.
    EtherType(u16),
    /// Anything else.
    Other,
}

/// What the headers of a link enclose.
#[derive(Clone, Copy)]
pub struct Network<'a> {
    /// The number of the last VLAN tag, 0 to 4095, if there is a tag.
    pub vlan: Option<u16>,
    /// What follows the headers.
    pub protocol: Protocol,
    /// The octets after the headers, with the frame's padding if it has any.
    pub octets: &'a [u8],
}

/// The most VLAN tags of an Ethernet frame, and one EtherType.
const TYPES: u8 = 9;

/// The protocol of an EtherType.
pub(crate) fn protocol_of(kind: u16) -> Protocol
    ensures { result ≡ protocol_of kind }
{
    match kind {
        0x22f1 => Protocol::Rohc,
        0x0800 => Protocol::Ipv4,
        other => Protocol::EtherType(other),
    }
}

/// The protocol of a number of PPP.
fn ppp_protocol(kind: u16) -> Protocol
    ensures { result ≡ ppp_protocol kind }
{
    match kind {
        0x0003 | 0x0005 => Protocol::Rohc,
        0x0021 => Protocol::Ipv4,
        _ => Protocol::Other,
    }
}

/// Whether an EtherType says that a VLAN tag follows.
fn is_tag(kind: u16) -> bool
    ensures { result ≡ is_tag kind }
{
    kind == 0x8100 || kind == 0x88a8
}

/// What follows a length in place of an EtherType (IEEE 802.3).
#[tactic(auto, unfolding(crate::specs::Frame::measured))]
fn measured(vlan: Option<u16>, count: u16, octets: &[u8]) -> Result<Network<'_>, FrameFault>
    ensures { result_map_both inside_of (λ e. e) result ≡ measured vlan count octets.now }
{
    if octets.len() < usize::from(count) {
        return Err(FrameFault::Short);
    }
    let (service, rest) = word(&octets[..usize::from(count)])?;
    let (control, rest) = word(rest)?;
    let (organisation, rest) = word(rest)?;
    let (kind, rest) = word(rest)?;
    let is_typed = service == 0xaaaa && control == 0x0300 && organisation == 0;
    let protocol = if is_typed {
        protocol_of(kind)
    } else {
        Protocol::Other
    };
    Ok(Network {
        vlan,
        protocol,
        octets: rest,
    })
}

/// What follows an EtherType, or a length in its place.
#[tactic(auto, unfolding(crate::specs::Frame::typed))]
fn typed(vlan: Option<u16>, kind: u16, octets: &[u8]) -> Result<Network<'_>, FrameFault>
    ensures { result_map_both inside_of (λ e. e) result ≡ typed vlan kind octets.now }
{
    if kind <= 1500 {
        return measured(vlan, kind, octets);
    }
    Ok(Network {
        vlan,
        protocol: protocol_of(kind),
        octets,
    })
}

/// What follows an EtherType behind VLAN tags; with the EtherType there are at most `most`.
fn untagged(most: u8, vlan: Option<u16>, octets: &[u8]) -> Result<Network<'_>, FrameFault>
    ensures { result_map_both inside_of (λ e. e) result ≡ untagged most vlan octets.now }
{
    let mut vlan = vlan;
    let mut rest = octets;
    for _ in 0..most {
        let (kind, behind) = word(rest)?;
        if !is_tag(kind) {
            return typed(vlan, kind, behind);
        }
        let (tag, behind) = word(behind)?;
        vlan = Some(tag % 4096);
        rest = behind;
    }
    Err(FrameFault::Tags)
}

/// An Ethernet frame: two addresses, VLAN tags, and an EtherType.
#[tactic(auto, unfolding(crate::specs::Frame::ethernet))]
fn ethernet(frame: &[u8]) -> Result<Network<'_>, FrameFault>
    ensures { result_map_both inside_of (λ e. e) result ≡ ethernet frame.now }
{
    untagged(TYPES, None, after(frame, 12)?)
}

/// What follows the headers of a Linux cooked capture with this EtherType.
#[tactic(auto, unfolding(crate::specs::Frame::cooked_type))]
fn cooked_type(kind: u16, octets: &[u8]) -> Result<Network<'_>, FrameFault>
    ensures { result_map_both inside_of (λ e. e) result ≡ cooked_type kind octets.now }
{
    if is_tag(kind) {
        let (tag, rest) = word(octets)?;
        return untagged(TYPES - 1, Some(tag % 4096), rest);
    }
    Ok(Network {
        vlan: None,
        protocol: protocol_of(kind),
        octets,
    })
}

/// A frame of a Linux cooked capture.
#[tactic(auto, unfolding(crate::specs::Frame::cooked))]
fn cooked(frame: &[u8]) -> Result<Network<'_>, FrameFault>
    ensures { result_map_both inside_of (λ e. e) result ≡ cooked frame.now }
{
    let (kind, rest) = word(after(frame, 14)?)?;
    cooked_type(kind, rest)
}

/// A frame of a Linux cooked capture of the second version.
#[tactic(auto, unfolding(crate::specs::Frame::second_cooked))]
fn second_cooked(frame: &[u8]) -> Result<Network<'_>, FrameFault>
    ensures { result_map_both inside_of (λ e. e) result ≡ second_cooked frame.now }
{
    let (kind, rest) = word(frame)?;
    cooked_type(kind, after(rest, 18)?)
}

/// What follows the first octet of a protocol number of PPP that has two.
#[tactic(auto, unfolding(crate::specs::Frame::second_number))]
fn second_number(first: u8, octets: &[u8]) -> Result<Network<'_>, FrameFault>
    ensures { result_map_both inside_of (λ e. e) result ≡ second_number first octets.now }
{
    let (second, rest) = octet(octets)?;
    Ok(Network {
        vlan: None,
        protocol: ppp_protocol(u16::from(first) * 256 + u16::from(second)),
        octets: rest,
    })
}

/// What follows a protocol number of PPP, of one octet or two.
#[tactic(auto, unfolding(crate::specs::Frame::numbered))]
fn numbered(octets: &[u8]) -> Result<Network<'_>, FrameFault>
    ensures { result_map_both inside_of (λ e. e) result ≡ numbered octets.now }
{
    let (first, rest) = octet(octets)?;
    if first % 2 == 1 {
        return Ok(Network {
            vlan: None,
            protocol: ppp_protocol(u16::from(first)),
            octets: rest,
        });
    }
    second_number(first, rest)
}

/// A frame of PPP.
#[tactic(auto, unfolding(crate::specs::Frame::ppp))]
fn ppp(frame: &[u8]) -> Result<Network<'_>, FrameFault>
    ensures { result_map_both inside_of (λ e. e) result ≡ ppp frame.now }
{
    let (first, rest) = octet(frame)?;
    let (second, rest) = octet(rest)?;
    if first == 0xff && second == 0x03 {
        return numbered(rest);
    }
    numbered(frame)
}

/// What the headers of a frame of this link type enclose. Captures number link types: Ethernet 1, PPP 9 and 50, raw IP
/// 12, 14, 101 and 228, Linux cooked 113 and 276.
///
/// The errors are those of `FrameFault` up to `Tags`.
#[tactic(auto, unfolding(crate::specs::Frame::network_in))]
#[inline(always)]
pub fn network_in(link_type: u16, frame: &[u8]) -> Result<Network<'_>, FrameFault>
    ensures { result_map_both inside_of (λ e. e) result ≡ network_in link_type frame.now }
{
    match link_type {
        1 => ethernet(frame),
        9 | 50 => ppp(frame),
        12 | 14 | 101 | 228 => Ok(Network {
            vlan: None,
            protocol: Protocol::Ipv4,
            octets: frame,
        }),
        113 => cooked(frame),
        276 => second_cooked(frame),
        _ => Err(FrameFault::LinkType),
    }
}
