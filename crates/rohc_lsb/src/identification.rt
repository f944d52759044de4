//! The IP Identification (IP-ID), from its offset to the sequence number (RFC 3095 4.5.5).

ghost use Rattle.std.specs.Prelude.{◌≡◌, ◌≤◌};
ghost use Rattle.std.specs.Option.{ForSome, option_map};
ghost use Rattle.rohc_bits.specs.LowBits.{low_bits};
ghost use Rattle.rohc_lsb.specs.Fields.{in_network_order, offset_of, AgreesInOffset};

use crate::interval::{remainder, value_meant};
use rohc_bits::Bits;

/// The Identification of a header with this sequence number, as it stands in the header (RFC 3095 4.5.5).
///
/// The offset is the Identification less the sequence number. With `bits`, it is the value that they mean
/// against the reference's offset; without, it is the reference's offset. If `nbo` is false, the two
/// octets of an Identification are swapped in the header. If there are bits, there are 1 to 16.
#[inline(always)]
pub fn ip_id(sn: u16, reference_sn: u16, reference_id: u16, nbo: bool, bits: Option<Bits>) -> u16
    requires some { ForSome bits (λ b. 1 ≤ b.count) }
    requires narrow { ForSome bits (λ b. b.count ≤ 16) }
    ensures { AgreesInOffset (offset_of nbo reference_sn reference_id) (option_map low_bits bits)
        (offset_of nbo sn result) }
{
    let reference = network_order(reference_id, nbo).wrapping_sub(reference_sn);
    network_order(sn.wrapping_add(offset_meant(reference, bits)), nbo)
}

/// The offset that the bits mean against the reference's offset; without bits, the reference's offset.
fn offset_meant(reference: u16, bits: Option<Bits>) -> u16
    ensures { AgreesInOffset reference (option_map low_bits bits) result }
{
    match bits {
        None => reference,
        Some(bits) => remainder(value_meant(u32::from(reference), bits, 0), 16) as u16,
    }
}

/// Converts an Identification between its form in a header and network byte order. Either way it is the
/// same function.
fn network_order(id: u16, nbo: bool) -> u16
    ensures { result ≡ in_network_order nbo id }
{
    if nbo { id } else { id.swap_bytes() }
}
