//! Timed datagrams: a link's number, the moment of arrival, and a packet of that link.

ghost use Rattle.std.specs.Prelude.{◌≡◌, None, IfSome, IfNone};
ghost use Rattle.rohc_station.specs.Timed.{timed_in, plain_timed};

/// A packet with its link and the moment of its arrival, as a front end gave them.
#[derive(Clone, Copy)]
pub struct Timed<'a> {
    /// The link's number.
    pub link: u16,
    /// The moment of the arrival, in milliseconds of the front end's clock.
    pub moment: u64,
    /// The packet, borrowed from the datagram.
    pub packet: &'a [u8],
}

/// Reads a timed datagram: the link's number in two octets, the moment in milliseconds in eight, both most
/// significant octet first, then the packet. `None` if it has fewer than ten octets.
pub fn timed_datagram(octets: &[u8]) -> Option<Timed<'_>>
    ensures read { IfSome result (λ timed. timed_in octets.now ≡ Some (plain_timed timed)) }
    ensures short { IfNone result (timed_in octets.now ≡ None) }
{
    let (link, behind) = octets.split_first_chunk::<2>()?;
    let (moment, packet) = behind.split_first_chunk::<8>()?;
    Some(Timed {
        link: u16::from_be_bytes(*link),
        moment: u64::from_be_bytes(*moment),
        packet,
    })
}
