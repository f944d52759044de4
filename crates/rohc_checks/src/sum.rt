//! The Internet checksum (RFC 791 3.1; RFC 1071 1).

ghost use Rattle.std.specs.Prelude.{◌≡◌, ℕ, ◌*◌, ◌%◌, ◌<◌, ◌∷◌, List, sum};
ghost use Rattle.rohc_checks.specs.Sum.{header_sum, words};

/// The one's complement sum of any 16-bit words, from their plain sum: the carries are brought round.
pub fn with_carries(total: u32) -> u16
    ensures rest { result % 65535 ≡ total % 65535 }
    ensures some { 0 < total → 0 < result }
    ensures none { total ≡ 0 → result ≡ 0 }
{
    let once = total % 65_536 + total / 65_536;
    let twice = once % 65_536 + once / 65_536;
    twice as u16
}

/// The Internet checksum of any 16-bit words, from the sum of these words with their two octets exchanged, or from
/// any number of the same rest by 65,535: the complement of the one's complement sum, which is the same in either
/// order of octets (RFC 1071 2 B). Neither sum is 0.
pub fn sum_of_exchanged(total: u32) -> u16
    requires some { 0 < total }
    ensures { (all : List ℕ) → 0 < sum all → sum all % 65535 ≡ total * 256 % 65535 → result ≡ header_sum all }
{
    u16::from_le_bytes((0xffff - with_carries(total)).to_be_bytes())
}

/// The Internet checksum of `octets`: the complement of the one's complement sum of their 16-bit
/// words. An odd last octet is padded with a zero octet (RFC 791 3.1).
pub fn internet_sum(octets: &[u8]) -> u16
    ensures { result ≡ header_sum (words octets.now) }
{
    let mut total = 0;
    let mut left = octets;
    while let [high, low, after @ ..] = left {
        total = with_carry(total, u16::from_be_bytes([*high, *low]));
        left = after;
    }
    match left {
        [last, ..] => !with_carry(total, u16::from_be_bytes([*last, 0])),
        [] => !total,
    }
}

// The one's complement sum of two words. In a header sum it may replace both words.
fn with_carry(total: u16, word: u16) -> u16
    ensures { (others : List ℕ) → header_sum (result ∷ others) ≡ header_sum (total ∷ word ∷ others) }
{
    let (sum, carry) = total.overflowing_add(word);
    if carry { sum + 1 } else { sum }
}
