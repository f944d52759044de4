//! Bit strings: a number together with its width in bits.

ghost use Rattle.std.specs.Prelude.{◌≡◌, ◌<◌, ◌≤◌, ◌+◌, ◌*◌, ◌^◌, ◌%◌, ◌++◌, min};
ghost use Rattle.rohc_bits.specs.Bits.{bits, last_of};

/// The `count` least significant bits of a field.
#[derive(Clone, Copy, Debug, PartialEq, Eq)]
pub struct Bits {
    /// The number that the bits stand for.
    pub value: u32,
    /// The number of bits, at most 32.
    pub count: u8,
    ghost narrow: { count ≤ 32 },
    ghost fits: { value < 2 ^ count },
}

impl Bits {
    /// The number `value` as a string of `count` bits.
    pub fn new(value: u32, count: u8) -> Self
        requires narrow { count ≤ 32 }
        requires fits { value < 2 ^ count }
        ensures value { result.value ≡ value }
        ensures count { result.count ≡ count }
    {
        Bits { value, count }
    }

    /// These bits followed by the `count` bits of `value`, which are less significant. If there are
    /// more than 32, the low 32 bits are kept.
    pub fn append(self, value: u32, count: u8) -> Self
        requires narrow { count ≤ 32 }
        requires fits { value < 2 ^ count }
        ensures value { result.value ≡ (self.value * 2 ^ count + value) % 2 ^ 32 }
        ensures count { result.count ≡ min (self.count + count) 32 }
        ensures bits { bits result.count result.value ≡ last_of 32 (bits self.count self.value ++ bits count value) }
    {
        Bits::new(
            joined(self.value, value, count),
            (self.count + count).min(32),
        )
    }
}

/// The low 32 bits of `high` followed by the `count` bits of `low`.
fn joined(high: u32, low: u32, count: u8) -> u32
    requires narrow { count ≤ 32 }
    requires fits { low < 2 ^ count }
    ensures { result ≡ (high * 2 ^ count + low) % 2 ^ 32 }
{
    if count == 32 {
        low
    } else {
        (high << count).wrapping_add(low)
    }
}
