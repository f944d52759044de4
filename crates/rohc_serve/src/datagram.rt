//! Datagrams: a link's number in two octets, most significant octet first, and a packet of that link.

ghost use Rattle.std.specs.Prelude.{◌≡◌, ◌<◌, length, Some, None, IfSome, IfNone};
ghost use Rattle.rohc_concentrator.specs.Setup.{entry_of};
ghost use Rattle.rohc_serve.specs.Outgoing.{outgoing_of};
ghost use Rattle.rohc_serve.specs.Datagram.{AreSettingsOf, named_link, datagram_packet, place_of, ports_of, Answers};

use crate::sends::Sends;
use rohc_concentrator::{Concentrator, LinkSetting};
use rohc_links::{Links, Ports};

/// The index of the link's first entry, if it has one.
fn place_of(settings: &[LinkSetting], link: u16) -> Option<usize>
    ensures place { result ≡ place_of link settings.now }
    ensures within { IfSome result (λ place. place < length settings.now) }
{
    settings.iter().position(|setting| setting.link == link)
}

/// The ports of a link, if it is there.
pub fn ports_of(links: &Links, link: u16) -> Option<Ports>
    ensures ports { result ≡ ports_of link links.now }
    ensures absent { IfNone result (entry_of link links.now.settings ≡ None) }
{
    let Some(place) = place_of(links.settings(), link) else {
        return None;
    };
    Some(links.ports()[place])
}

/// The link that a datagram names, and the packet after its number; `None` if the datagram has fewer than two
/// octets.
pub fn named_link(octets: &[u8]) -> Option<(u16, &[u8])>
    ensures named { IfSome result (λ named. (named_link octets.now ≡ Some named.0) × (datagram_packet octets.now ≡ named.1.now)) }
    ensures short { IfNone result (named_link octets.now ≡ None) }
{
    let (link, packet) = octets.split_first_chunk::<2>()?;
    Some((u16::from_be_bytes(*link), packet))
}

/// Takes a datagram that arrived at this time, in milliseconds, and returns what is to be sent for it.
///
/// The payload and the relayed feedback in the result are borrowed from `octets`. A datagram of fewer than
/// two octets, or of a link that isn't there, is refused and changes nothing.
pub fn answer_datagram<'a>(
    concentrator: &mut Concentrator,
    links: &Links,
    moment: u64,
    octets: &'a [u8],
) -> Sends<'a>
    requires { AreSettingsOf concentrator.old links.now.settings }
    ensures answer { Answers links.now concentrator.old moment octets.entry.now (outgoing_of result) concentrator.new }
    ensures absent { result.ports ≡ None → concentrator.new ≡ concentrator.old }
    ensures settings { AreSettingsOf concentrator.new links.now.settings }
{
    let Some((link, packet)) = named_link(octets) else {
        return Sends::refused(None);
    };
    let Some(ports) = ports_of(links, link) else {
        return Sends::refused(None);
    };
    Sends::answering(Some(ports), concentrator.arrive(link, moment, packet))
}
