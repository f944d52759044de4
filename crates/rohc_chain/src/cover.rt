//! The 8-bit check of an IR or IR-DYN, over the parts that it covers, in their order (RFC 3095
//! 5.9.1).

ghost use Rattle.std.specs.Prelude.{◌≡◌};
ghost use Rattle.rohc_checks.specs.Division.{check, poly8};
ghost use Rattle.rohc_frame.specs.Reading.{header_of};
ghost use Rattle.rohc_chain.specs.Packets.{front, plain_cover, cover, fits};

use rohc_checks::crc8;
use rohc_frame::{CidKind, Forward};

/// The register after the CID octets and the first octet, in the order in which they arrived.
fn front_register(forward: &Forward<'_>) -> u8
    ensures { result ≡ check poly8 0xff (front (header_of forward.now)) }
{
    let first = [forward.first];
    match forward.size {
        CidKind::Small => crc8(crc8(0xff, forward.cid_octets), &first),
        CidKind::Large => crc8(crc8(0xff, &first), forward.cid_octets),
    }
}

/// Whether `octet` is the check of an IR of profile 0x0000. It covers the packet up to and
/// including its Profile octet.
pub(crate) fn fits_plain(forward: &Forward<'_>, octet: u8) -> bool
    ensures { result ≡ fits octet (plain_cover (header_of forward.now)) }
{
    crc8(front_register(forward), &[0x00]) == octet
}

/// Whether `octet` is the check of an IR or IR-DYN of profile 0x0001. It covers the packet without
/// its payload, with the check octet itself as 00.
pub(crate) fn fits_chains(forward: &Forward<'_>, octet: u8, chains: &[u8]) -> bool
    ensures { result ≡ fits octet (cover (header_of forward.now) chains.now) }
{
    crc8(crc8(front_register(forward), &[0x01, 0x00]), chains) == octet
}
