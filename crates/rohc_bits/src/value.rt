//! Self-describing values (RFC 3095 4.5.6).

ghost use Rattle.std.specs.Prelude.{◌≡◌, ◌<◌, ◌≤◌, ◌↔◌, ◌^◌, ℕ, List, ◌++◌, length, take, Some, IfSome, IsNone};
ghost use Rattle.rohc_bits.specs.Spelling.{IsSpelled};
ghost use Rattle.rohc_bits.specs.Fronts.{value_bits};

use arrayvec::ArrayVec;

/// Decodes the self-describing value at the start of the octets, and returns it with the number of octets that it
/// takes (RFC 3095 4.5.6).
///
/// One, two, three or four octets give a value of 7, 14, 21 or 29 bits. An encoding that is longer than needed is
/// accepted. Returns `None` if the octets end before the value does.
pub fn read_value(octets: &[u8]) -> Option<(u32, usize)>
    ensures within { IfSome result (λ read. read.1 ≤ length octets.now) }
    ensures spelled { IfSome result (λ read. IsSpelled (take read.1 octets.now) read.0) }
    ensures fits { IfSome result (λ read. read.0 < 2 ^ value_bits read.1) }
    ensures every { (text rest : List ℕ) (value : ℕ) → octets.now ≡ text ++ rest → IsSpelled text value → result ≡ Some (value, length text) }
{
    match *octets {
        [a @ 0x00..=0x7f, ..] => Some((u32::from(a), 1)),
        [a @ 0x80..=0xbf, b, ..] => Some((u32::from(a & 0x3f) * 256 + u32::from(b), 2)),
        [a @ 0xc0..=0xdf, b, c, ..] => Some((u32::from_be_bytes([0, a & 0x1f, b, c]), 3)),
        [a @ 0xe0..=0xff, b, c, d, ..] => Some((u32::from_be_bytes([a & 0x1f, b, c, d]), 4)),
        _ => None,
    }
}

/// The shortest encoding of a value (RFC 3095 4.5.6), or `None` for a value above 536,870,911, which has no encoding.
pub fn write_value(value: u32) -> Option<ArrayVec<u8, 4>>
    ensures spelled { IfSome result (λ text. IsSpelled text.items value) }
    ensures shortest { IfSome result (λ text. (other : List ℕ) → IsSpelled other value → length text.items ≤ length other) }
    ensures none { IsNone result ↔ (536870911 < value) }
{
    let [a, b, c, d] = value.to_be_bytes();
    match value {
        0..=0x7f => ArrayVec::try_from([d].as_slice()).ok(),
        0x80..=0x3fff => ArrayVec::try_from([0x80 | c, d].as_slice()).ok(),
        0x4000..=0x1f_ffff => ArrayVec::try_from([0xc0 | b, c, d].as_slice()).ok(),
        0x20_0000..=0x1fff_ffff => ArrayVec::try_from([0xe0 | a, b, c, d].as_slice()).ok(),
        _ => None,
    }
}
