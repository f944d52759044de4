//! RTP timestamps, from low bits or from the steps of the sequence number (RFC 3095 4.5.3, 5.7).

ghost use Rattle.std.specs.Prelude.{◌≡◌, ◌^◌, ◌<◌, ◌≤◌, pos, ◌+ℤ◌, ◌*ℤ◌};
ghost use Rattle.rohc_bits.specs.LowBits.{low_bits};
ghost use Rattle.rohc_lsb.specs.Interval.{modulo, p_of_ts};
ghost use Rattle.rohc_lsb.specs.Fields.{AgreesWithoutBits, AgreesByScaledBits, AgreesByUnscaledBits};

use crate::interval::{remainder, value_meant};
use rohc_bits::Bits;

/// The offset p of the interpretation interval for `k` bits of a timestamp: how far the interval reaches
/// below the reference (RFC 3095 4.5.1, 5.7). `k` is 2 to 32.
pub fn ts_shift(k: u8) -> u32
    requires least { 2 ≤ k }
    requires greatest { k ≤ 32 }
    ensures { result ≡ p_of_ts k }
{
    (1 << (k - 2)) - 1
}

/// The timestamp from bits of TS_SCALED, against the reference's TS_SCALED and with the reference's
/// TS_OFFSET (RFC 3095 4.5.3).
///
/// There are at least 2 bits. The stride is 1 to 536,870,911 (29 bits).
pub fn scaled(reference: u32, stride: u32, bits: Bits) -> u32
    requires least_stride { 1 ≤ stride }
    requires greatest_stride { stride ≤ 536870911 }
    requires some { 2 ≤ bits.count }
    ensures { AgreesByScaledBits reference stride (low_bits bits) result }
{
    let value = value_meant(reference / stride, bits, ts_shift(bits.count));
    strides_after(reference % stride, stride, value)
}

/// The timestamp from unscaled bits, against the reference's timestamp (RFC 3095 4.5.1). There are at
/// least 2 bits.
pub fn unscaled(reference: u32, bits: Bits) -> u32
    requires { 2 ≤ bits.count }
    ensures { AgreesByUnscaledBits reference (low_bits bits) result }
{
    remainder(value_meant(reference, bits, ts_shift(bits.count)), 32)
}

/// The timestamp of a header whose packet carries no bits of it: the reference's timestamp, plus one
/// stride for each step of the sequence number (RFC 3095 5.7). Without a stride it is the reference's
/// timestamp.
pub fn inferred_ts(reference: u32, stride: Option<u32>, steps: i32) -> u32
    ensures { AgreesWithoutBits reference stride steps result }
{
    match stride {
        None => reference,
        Some(stride) => strides_after(reference, stride, i64::from(steps)),
    }
}

/// The timestamp `count` strides after `start`, modulo 2^32. A negative `count` goes back.
fn strides_after(start: u32, stride: u32, count: i64) -> u32
    ensures { result ≡ modulo (pos start +ℤ count *ℤ pos stride) (2 ^ 32) }
{
    start.wrapping_add(remainder(count, 32).wrapping_mul(stride))
}
