//! Numbers in the octets of a capture, in the order of the machine that wrote it.

ghost use Rattle.std.specs.Prelude.{◌≡◌};
ghost use Rattle.std.specs.Option.{option_map};
ghost use Rattle.rohc_capture.specs.Number.{short_at, long_at};

/// The order of the octets of a number.
#[derive(Clone, Copy, PartialEq, Eq)]
pub(crate) enum ByteOrder {
    /// The most significant octet first.
    Big,
    /// The least significant octet first.
    Little,
}

/// A number of two octets, and what follows.
#[tactic(auto, unfolding(crate::specs::Number::short_at))]
pub(crate) fn short(order: ByteOrder, octets: &[u8]) -> Option<(u16, &[u8])>
    ensures { option_map (λ w. (w.0, w.1.now)) result ≡ short_at order octets.now }
{
    let (two, rest) = octets.split_first_chunk::<2>()?;
    let number = match order {
        ByteOrder::Big => u16::from_be_bytes(*two),
        ByteOrder::Little => u16::from_le_bytes(*two),
    };
    Some((number, rest))
}

/// A number of four octets, and what follows.
#[tactic(auto, unfolding(crate::specs::Number::long_at))]
pub(crate) fn long(order: ByteOrder, octets: &[u8]) -> Option<(u32, &[u8])>
    ensures { option_map (λ w. (w.0, w.1.now)) result ≡ long_at order octets.now }
{
    let (four, rest) = octets.split_first_chunk::<4>()?;
    let number = match order {
        ByteOrder::Big => u32::from_be_bytes(*four),
        ByteOrder::Little => u32::from_le_bytes(*four),
    };
    Some((number, rest))
}
