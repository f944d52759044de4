//! Readers of octets, numbers and self-describing values from the start of a packet. If the octets
//! end too early, the refusal is `Truncated`.

ghost use Rattle.std.specs.Prelude.{◌≡◌, ◌<◌, ◌≤◌, ◌+◌, ◌^◌, length, drop, All, IfOk, MatchResult};
ghost use Rattle.rohc_bits.specs.Reading.{Reads, ReadsAs, bit};
ghost use Rattle.rohc_bits.specs.Fronts.{value_bits};
ghost use Rattle.rohc_frame.specs.Laws.{IsOctet};
ghost use Rattle.rohc_bits.specs.LowBits.{low_bits};
ghost use Rattle.rohc_bits.specs.Grammar.{Octet, Word, Value};
ghost use Rattle.rohc_forms.specs.Slices.{slice};
ghost use Rattle.rohc_forms.specs.Octets.{read, octet_if, word_if};

use crate::refusal::FormRefusal;
use rohc_bits::{Bits, Cursor, reading};

/// The `width` bits of a number that precede its `places` least significant bits.
#[inline(always)]
pub(crate) fn bits(number: u32, places: u8, width: u8) -> Bits
    requires places { places < 32 }
    requires width { width < 32 }
    ensures { low_bits result ≡ slice number places width }
{
    Bits::new((number >> places) % (1 << width), width)
}

/// Takes the next octet.
#[inline(always)]
pub(crate) fn octet(cursor: &mut Cursor<'_>) -> Result<u8, FormRefusal>
    ensures { Reads result cursor.new (read Octet cursor.old) }
{
    reading::octet(cursor, FormRefusal::Truncated)
}

/// Takes the next two octets as a number, most significant octet first.
#[inline(always)]
pub(crate) fn word(cursor: &mut Cursor<'_>) -> Result<u16, FormRefusal>
    ensures { Reads result cursor.new (read Word cursor.old) }
{
    reading::word(cursor, FormRefusal::Truncated)
}

/// Takes the next self-describing value, with as many bits as its encoding has (RFC 3095 4.5.6).
pub(crate) fn value(cursor: &mut Cursor<'_>) -> Result<Bits, FormRefusal>
    ensures reads { ReadsAs low_bits result cursor.new (read Value cursor.old) }
    ensures fits { IfOk result (λ bits. bits.value ≤ 536870911) }
{
    reading::value(cursor, FormRefusal::Truncated)
}

/// Takes the next octet, if `present`.
#[tactic(auto, unfolding(crate::specs::Octets::octet_if))]
pub(crate) fn optional_octet(
    present: bool,
    cursor: &mut Cursor<'_>,
) -> Result<Option<u8>, FormRefusal>
    ensures { Reads result cursor.new (read (octet_if present) cursor.old) }
{
    if present {
        Ok(Some(octet(cursor)?))
    } else {
        Ok(None)
    }
}

/// Takes the next two octets as a number, if `present`.
#[inline(always)]
#[tactic(auto, unfolding(crate::specs::Octets::word_if))]
pub(crate) fn optional_word(
    present: bool,
    cursor: &mut Cursor<'_>,
) -> Result<Option<u16>, FormRefusal>
    ensures { Reads result cursor.new (read (word_if present) cursor.old) }
{
    if present {
        Ok(Some(word(cursor)?))
    } else {
        Ok(None)
    }
}
