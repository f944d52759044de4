//! Which link a frame belongs to.

ghost use Rattle.std.specs.Prelude.{◌≡◌, Some, Ok, IfSome, true};
ghost use Rattle.std.specs.Option.{option_map};
ghost use Rattle.std.specs.Result.{result_map_both};
ghost use Rattle.rohc_capture.specs.Framing.{usual};
ghost use Rattle.rohc_capture.specs.Carried.{load_of};
ghost use Rattle.rohc_capture.specs.Choice.{by_number, by_rule, chosen, packet_in};

use crate::carried::{Carried, Carrier, carried_at_once, carried_in};
use crate::fault::FrameFault;
use crate::framing::{Framing, behind};

/// A rule that says which link a frame belongs to.
#[derive(Clone, Copy, PartialEq, Eq)]
pub enum Rule {
    /// Each ROHC packet that the capture's own link carries is of this link.
    Every(u16),
    /// Each ROHC packet under this VLAN, 0 to 4095, is of this link.
    Vlan(u16, u16),
    /// Each UDP datagram to this port is a packet of this link.
    Port(u16, u16),
    /// Each UDP datagram to this port has the number of a link in its first two octets, and then a packet.
    Numbered(u16),
}

/// The link in the first two octets, and the packet after it.
#[inline(always)]
fn by_number(octets: &[u8]) -> Option<(u16, &[u8])>
    ensures { option_map (λ c. (c.0, c.1.now)) result ≡ by_number true octets.now }
{
    let (link, packet) = octets.split_first_chunk::<2>()?;
    Some((u16::from_be_bytes(*link), packet))
}

/// The link and the packet by one rule.
#[inline(always)]
fn by_rule<'a>(rule: Rule, carried: &Carried<'a>) -> Option<(u16, &'a [u8])>
    ensures { option_map (λ c. (c.0, c.1.now)) result ≡ by_rule rule carried.now.vlan carried.now.carrier carried.now.octets.now }
{
    match (rule, carried.carrier) {
        (Rule::Every(link), Carrier::Link) => Some((link, carried.octets)),
        (Rule::Vlan(vlan, link), Carrier::Link) if carried.vlan == Some(vlan) => {
            Some((link, carried.octets))
        }
        (Rule::Port(wanted, link), Carrier::Udp(port)) if port == wanted => {
            Some((link, carried.octets))
        }
        (Rule::Numbered(wanted), Carrier::Udp(port)) if port == wanted => by_number(carried.octets),
        _ => None,
    }
}

/// The link that a frame belongs to, and the packet that it carries, by the first rule that speaks of it; `None` if no
/// rule does, or if a datagram has no room for the link's number.
#[inline(always)]
pub fn choose<'a>(rules: &[Rule], carried: &Carried<'a>) -> Option<(u16, &'a [u8])>
    ensures { option_map (λ c. (c.0, c.1.now)) result ≡ chosen rules.now (load_of carried.now) }
{
    for rule in rules {
        if let Some(found) = by_rule(*rule, carried) {
            return Some(found);
        }
    }
    None
}

/// What `packet_in` gives under the usual framing for nearly every frame: the link and the packet, in a frame that
/// `carried_at_once` looks into. `None` says nothing.
#[tactic(auto, unfolding(crate::specs::Choice::packet_in))]
#[inline(always)]
pub fn packet_at_once<'a>(
    rules: &[Rule],
    link_type: u16,
    original: u32,
    frame: &'a [u8],
) -> Option<(u16, &'a [u8])>
    ensures { IfSome result (λ c. packet_in rules.now usual link_type original frame.now ≡ Ok (Some (c.0, c.1.now))) }
{
    if original as usize > frame.len() {
        return None;
    }
    choose(rules, &carried_at_once(link_type, frame)?)
}

/// The link that a frame belongs to, and the packet that it carries, by the framing, the frame's link type, and how many
/// octets it had; `None` if no rule speaks of it.
///
/// The errors are `NotWhole`, if not all its octets are there, those of `carried_in`, and `Offset`.
#[tactic(auto, unfolding(crate::specs::Choice::packet_in))]
pub fn packet_in<'a>(
    rules: &[Rule],
    framing: &Framing,
    link_type: u16,
    original: u32,
    frame: &'a [u8],
) -> Result<Option<(u16, &'a [u8])>, FrameFault>
    ensures { result_map_both (λ o. option_map (λ c. (c.0, c.1.now)) o) (λ e. e) result ≡ packet_in rules.now framing.now link_type original frame.now }
{
    if frame.len() < original as usize {
        return Err(FrameFault::NotWhole);
    }
    let carried = carried_in(framing, link_type, frame)?;
    behind(framing.offset, choose(rules, &carried))
}
