//! How ROHC packets lie in frames besides the ways that captures have of themselves.

ghost use Rattle.std.specs.Prelude.{◌≡◌, ◌≢◌, true, false};
ghost use Rattle.std.specs.Result.{result_map_both};
ghost use Rattle.std.specs.Option.{option_map};
ghost use Rattle.rohc_capture.specs.Frame.{inside_of};
ghost use Rattle.rohc_capture.specs.Framing.{usual, network_under, behind};

use crate::fault::FrameFault;
use crate::frame::{Network, Protocol, network_in};

/// How ROHC packets lie in frames, besides the EtherType 0x22f1, the numbers of PPP, and UDP.
#[derive(Clone, Copy, PartialEq, Eq)]
pub struct Framing {
    /// Another EtherType behind which a ROHC packet begins.
    pub ether_type: Option<u16>,
    /// A link type whose frames have no header of their own: each begins with a ROHC packet.
    pub link_type: Option<u16>,
    /// How many octets lie before each packet, behind all headers and the number of a link.
    pub offset: u16,
}

/// ROHC packets lie only where every capture has them.
pub const USUAL: Framing = Framing {
    ether_type: None,
    link_type: None,
    offset: 0,
};

impl Framing {
    /// Whether ROHC packets lie only where every capture has them.
    pub fn is_usual(&self) -> bool
        ensures usual { result ≡ true → self.now ≡ usual }
        ensures other { result ≡ false → self.now ≢ usual }
    {
        self.ether_type.is_none() && self.link_type.is_none() && self.offset == 0
    }
}

/// What the headers of a frame of this link type enclose. A frame of the framing's own link type has none.
///
/// The errors are those of `network_in`.
pub fn network_under<'a>(
    framing: &Framing,
    link_type: u16,
    frame: &'a [u8],
) -> Result<Network<'a>, FrameFault>
    ensures { result_map_both inside_of (λ e. e) result ≡ network_under framing.now link_type frame.entry.now }
{
    if framing.link_type == Some(link_type) {
        return Ok(Network {
            vlan: None,
            protocol: Protocol::Rohc,
            octets: frame,
        });
    }
    network_in(link_type, frame)
}

/// The link, and the packet behind the first octets of what a frame carries for it.
#[inline(always)]
pub(crate) fn behind(
    offset: u16,
    found: Option<(u16, &[u8])>,
) -> Result<Option<(u16, &[u8])>, FrameFault>
    ensures { result_map_both (λ o. option_map (λ c. (c.0, c.1.now)) o) (λ e. e) result ≡ behind offset (option_map (λ c. (c.0, c.1.now)) found.entry) }
{
    let Some((link, octets)) = found else {
        return Ok(None);
    };
    let before = usize::from(offset);
    if octets.len() < before {
        return Err(FrameFault::Offset);
    }
    Ok(Some((link, &octets[before..])))
}
