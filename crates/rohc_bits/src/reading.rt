//! Readers of octets, 16-bit numbers and self-describing values from the start of a buffer.

ghost use Rattle.std.specs.Prelude.{◌≡◌, ◌<◌, ◌≤◌, length, drop, All, Ok, Err, IfOk, MatchResult};
ghost use Rattle.rohc_bits.specs.Bits.{IsOctet};
ghost use Rattle.rohc_bits.specs.Fronts.{value_bits};
ghost use Rattle.rohc_bits.specs.LowBits.{low_bits};
ghost use Rattle.rohc_bits.specs.Reading.{Reads, ReadsAs, bit, next_octet, next_word, next_value};

use crate::bits::Bits;
use crate::cursor::Cursor;
use crate::value::read_value;

/// A cursor at the start of `octets`. Its contract adds that each octet is below 256.
pub fn cursor_over<'a>(octets: &'a [u8]) -> Cursor<'a>
    ensures text { result ≡ octets.entry.now }
    ensures octets { All IsOctet octets.entry.now }
{
    Cursor::new(octets)
}

/// Whether the bit at `place` is set. Place 0 is the least significant bit; `place` is below 32.
pub fn is_set(number: u32, place: u8) -> bool
    requires { place < 32 }
    ensures { result ≡ bit place number }
{
    (number >> place) & 1 == 1
}

/// Takes the next octet, or returns the error `short` if none is left.
#[tactic(auto, unfolding(crate::specs::Reading::next_octet))]
pub fn octet<E: Copy>(cursor: &mut Cursor<'_>, short: E) -> Result<u8, E>
    ensures reads { Reads result cursor.new (next_octet short cursor.old) }
    ensures shorter { length cursor.new ≤ length cursor.old }
{
    cursor.octet().ok_or(short)
}

/// Takes the next two octets as a number, most significant octet first. Returns the error `short` if fewer than
/// two are left.
#[tactic(auto, unfolding(crate::specs::Reading::next_word))]
#[inline(always)]
pub fn word<E: Copy>(cursor: &mut Cursor<'_>, short: E) -> Result<u16, E>
    ensures reads { Reads result cursor.new (next_word short cursor.old) }
    ensures shorter { length cursor.new ≤ length cursor.old }
{
    let high = octet(cursor, short)?;
    let low = octet(cursor, short)?;
    Ok(u16::from_be_bytes([high, low]))
}

/// How many bits of value an encoding of 1, 2, 3 or 4 octets has.
fn value_width(octets: usize) -> u8
    ensures { result ≡ value_bits octets }
{
    match octets {
        1 => 7,
        2 => 14,
        3 => 21,
        _ => 29,
    }
}

/// Decodes the self-describing value at the start of the octets, and returns how many octets it takes (RFC 3095
/// 4.5.6). The error is `short`.
fn value_in<E: Copy>(octets: &[u8], short: E) -> Result<(Bits, usize), E>
    ensures within { IfOk result (λ read. read.1 ≤ length octets.now) }
    ensures fits { IfOk result (λ read. read.0.value ≤ 536870911) }
    ensures reads { MatchResult result (λ read. next_value short octets.now ≡ Ok (low_bits read.0, drop read.1 octets.now)) (λ e. next_value short octets.now ≡ Err e) }
{
    match read_value(octets) {
        Some((value, count)) => Ok((Bits::new(value, value_width(count)), count)),
        None => Err(short),
    }
}

/// Takes the next self-describing value, with the 7, 14, 21 or 29 bits that its encoding has (RFC 3095 4.5.6).
/// Returns the error `short` if the octets end before the value does.
pub fn value<E: Copy>(cursor: &mut Cursor<'_>, short: E) -> Result<Bits, E>
    ensures reads { ReadsAs low_bits result cursor.new (next_value short cursor.old) }
    ensures fits { IfOk result (λ bits. bits.value ≤ 536870911) }
    ensures shorter { length cursor.new ≤ length cursor.old }
{
    let (value, count) = value_in(cursor.rest(), short)?;
    cursor.take(count).ok_or(short)?;
    Ok(value)
}
