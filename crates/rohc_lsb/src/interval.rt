//! W-LSB decoding: the value that low bits mean in their interpretation interval (RFC 3095 4.5.1).

ghost use Rattle.std.specs.Prelude.{◌≡◌, ℤ, ◌^◌, ◌<◌, ◌≤◌, pos, ◌+ℤ◌, ◌-ℤ◌, ◌≤ℤ◌};
ghost use Rattle.rohc_bits.specs.LowBits.{low_bits};
ghost use Rattle.rohc_lsb.specs.Interval.{LiesInInterval, modulo};

use rohc_bits::Bits;

/// The value that the bits mean against a reference, modulo 2^`width` (RFC 3095 4.5.1).
///
/// With k bits, it is the one whole number from `reference - p` to `reference + 2^k - 1 - p` that has
/// these low bits. It can lie below zero or beyond the field, so it is reduced modulo 2^`width`.
/// There are 1 to `width` bits, `width` is at most 32, and `p` is below 2^k.
pub fn interval_value(reference: u32, bits: Bits, p: u32, width: u8) -> u32
    requires some { 1 ≤ bits.count }
    requires narrow { bits.count ≤ width }
    requires within { width ≤ 32 }
    requires below { p < 2 ^ bits.count }
    ensures { (v : ℤ) × LiesInInterval (pos reference) (low_bits bits) p v ×
        (result ≡ modulo v (2 ^ width)) }
{
    remainder(value_meant(reference, bits, p), width)
}

/// The whole number that the bits mean against a reference. It may be negative.
pub(crate) fn value_meant(reference: u32, bits: Bits, p: u32) -> i64
    ensures { LiesInInterval (pos reference) (low_bits bits) p result }
{
    i64::from(reference) + steps_meant(reference, bits, p)
}

/// How many steps the number that the bits mean is after the reference. It may be before it.
pub(crate) fn steps_meant(reference: u32, bits: Bits, p: u32) -> i64
    ensures meant { LiesInInterval (pos reference) (low_bits bits) p (pos reference +ℤ result) }
    ensures least { (pos 0 -ℤ pos (2 ^ 32)) ≤ℤ result }
    ensures greatest { result ≤ℤ pos (2 ^ 32) }
{
    let least = i64::from(reference) - i64::from(p);
    let above_least = remainder(i64::from(bits.value) - least, bits.count);
    i64::from(above_least) - i64::from(p)
}

/// A whole number modulo 2^`width`, from 0 to 2^`width` - 1. The compiler makes no division of it, as it would of
/// `rem_euclid` where it doesn't know the width.
pub(crate) fn remainder(value: i64, width: u8) -> u32
    requires { width ≤ 32 }
    ensures { result ≡ modulo value (2 ^ width) }
{
    (value.cast_unsigned() % (1u64 << width)) as u32
}
