//! Arrivals as datagrams that say when they arrived, as the timed port of a gateway reads them.

ghost use Rattle.std.specs.Prelude.{◌≡◌, OnOk};
ghost use Rattle.rohctl_captures.specs.Timed.{timed};

use std::alloc::AllocError;

/// Writes the timed form of an arrival in place of what is in the datagram: the link's number in two octets, the moment in
/// milliseconds in eight, and the packet.
///
/// The error is lack of memory. Then the datagram has a part of it.
pub fn put_timed(
    datagram: &mut Vec<u8>,
    link: u16,
    moment: u64,
    packet: &[u8],
) -> Result<(), AllocError>
    ensures { OnOk result (datagram.new.items ≡ timed link moment packet.now) }
{
    datagram.clear();
    datagram.extend_from_slice(&link.to_be_bytes())?;
    datagram.extend_from_slice(&moment.to_be_bytes())?;
    datagram.extend_from_slice(packet)
}
