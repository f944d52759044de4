//! Octets as pairs of lower case hexadecimal digits, by the functions of `hex`, which also reads upper case
//! digits.

ghost use Rattle.std.specs.Prelude.{◌≡◌, ℕ, List, ◌*◌, length, All, IsTrue, if◌then◌else◌};
ghost use Rattle.std.specs.List.{list_all};
ghost use Rattle.hex.specs.Hex.{encode_lower};
ghost use Rattle.rohc_frame.specs.Laws.{IsOctet};
ghost use Rattle.rohc_replay.specs.LowerCase.{has_lower_bit};

use hex::{decode_to_slice, encode_to_slice};

/// Writes octets as pairs of lower case digits.
pub(crate) fn encode(octets: &[u8], text: &mut [u8])
    requires { length text.old ≡ 2 * length octets.now }
    ensures { text.new ≡ encode_lower octets.now }
{
    let _ = encode_to_slice(octets, text);
}

/// The bit that `0` to `9` and lower case letters have, and upper case letters don't.
const LOWER_BIT: u8 = 0x20;

/// How many octets of a text are taken at once.
const WIDTH: usize = 32;

/// The bit if each octet of a text has it, and 0 otherwise. The loop doesn't end early and asks nothing of one
/// octet, so that many octets can be taken at once.
fn common_bit(text: &[u8]) -> u8
    ensures { result ≡ (if list_all has_lower_bit text.now then 32 else 0) }
{
    let mut common = LOWER_BIT;
    for octet in text {
        common = common & *octet;
    }
    common
}

/// Whether each octet of a text has the bit of lower case.
///
/// The parts of a text have one width, which spares the steps for an odd one. So the last part may overlap the
/// part before it.
fn has_lower_bits(text: &[u8]) -> bool
    ensures { result ≡ list_all has_lower_bit text.now }
{
    if text.len() < WIDTH {
        return common_bit(text) == LOWER_BIT;
    }
    let mut common = LOWER_BIT;
    let mut at = 0;
    while at + WIDTH < text.len() {
        common &= common_bit(&text[at..at + WIDTH]);
        at += WIDTH;
    }
    common & common_bit(&text[text.len() - WIDTH..]) == LOWER_BIT
}

/// Reads pairs of lower case digits into `octets`. Returns false if the text has anything else in it; then
/// the octets may have any values.
pub(crate) fn decode(text: &[u8], octets: &mut [u8]) -> bool
    requires { length text.now ≡ 2 * length octets.old }
    ensures spelled { IsTrue result → text.now ≡ encode_lower octets.new }
    ensures only { (other : List ℕ) → All IsOctet other → text.now ≡ encode_lower other → IsTrue result }
{
    // Of the digits that `hex` reads, only those of upper case lack the bit.
    has_lower_bits(text) && decode_to_slice(text, octets).is_ok()
}
