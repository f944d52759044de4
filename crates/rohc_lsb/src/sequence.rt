//! Sequence numbers from their low bits (RFC 3095 4.5.1, 5.7).

ghost use Rattle.std.specs.Prelude.{◌≡◌, ◌≤◌};
ghost use Rattle.rohc_bits.specs.LowBits.{low_bits};
ghost use Rattle.rohc_lsb.specs.Interval.{p_of_sn};
ghost use Rattle.rohc_lsb.specs.Fields.{AgreesInSn};

use crate::interval::{remainder, steps_meant};
use rohc_bits::Bits;

/// The offset p of the interpretation interval for `k` bits of a sequence number: how far the interval
/// reaches below the reference (RFC 3095 4.5.1, 5.7). `k` is 1 to 16.
pub fn sn_shift(k: u8) -> u32
    requires least { 1 ≤ k }
    requires greatest { k ≤ 16 }
    ensures { result ≡ p_of_sn k }
{
    if k <= 4 { 1 } else { (1 << (k - 5)) - 1 }
}

/// Decodes a sequence number from its low bits (RFC 3095 4.5.1, 5.7). Returns the number, and how many
/// steps it is after `reference`; a late packet has a negative number of steps.
///
/// The bits are read against `reference + shift`. The shift is 0, except in the second try of a
/// packet, which moves the reference on. It is at most 65,536. There are 1 to 16 bits.
#[inline(always)]
pub fn sn_value(reference: u16, shift: u32, bits: Bits) -> (u16, i32)
    requires some { 1 ≤ bits.count }
    requires narrow { bits.count ≤ 16 }
    requires shift { shift ≤ 65536 }
    ensures { AgreesInSn reference shift (low_bits bits) result.0 result.1 }
{
    let moved_on = u32::from(reference) + shift;
    let steps = i64::from(shift) + steps_meant(moved_on, bits, sn_shift(bits.count));
    let value = i64::from(reference) + steps;
    (remainder(value, 16) as u16, steps as i32)
}
