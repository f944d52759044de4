//! Readers of fields from the start of a packet's octets. If the octets end too early, the refusal
//! is `Truncated`.

ghost use Rattle.std.specs.Prelude.{◌≡◌, ◌<◌, ◌≤◌, length, drop, All, IfOk, MatchResult};
ghost use Rattle.rohc_bits.specs.Reading.{Reads, bit};
ghost use Rattle.rohc_frame.specs.Laws.{IsOctet};
ghost use Rattle.rohc_chain.specs.Octets.{read, octet_at, word_at, four_octets_at, quad_at, value_at};

use crate::refusal::ChainRefusal;
use rohc_bits::{Cursor, reading};

/// Takes the next octet.
#[inline(always)]
pub(crate) fn octet(cursor: &mut Cursor<'_>) -> Result<u8, ChainRefusal>
    ensures reads { Reads result cursor.new (octet_at cursor.old) }
    ensures shorter { length cursor.new ≤ length cursor.old }
{
    reading::octet(cursor, ChainRefusal::Truncated)
}

/// Takes the next two octets as a number, most significant octet first.
#[inline(always)]
pub(crate) fn word(cursor: &mut Cursor<'_>) -> Result<u16, ChainRefusal>
    ensures reads { Reads result cursor.new (word_at cursor.old) }
    ensures shorter { length cursor.new ≤ length cursor.old }
{
    reading::word(cursor, ChainRefusal::Truncated)
}

/// Takes the next four octets as they are.
#[tactic(auto, using(crate::proofs::FourOctets::four_taken, crate::proofs::FourOctets::four_short))]
#[inline(always)]
pub(crate) fn four_octets(cursor: &mut Cursor<'_>) -> Result<[u8; 4], ChainRefusal>
    ensures reads { Reads result cursor.new (read four_octets_at cursor.old) }
    ensures shorter { length cursor.new ≤ length cursor.old }
{
    let Some(front) = cursor.take(4) else {
        return Err(ChainRefusal::Truncated);
    };
    let Some(octets) = front.first_chunk::<4>() else {
        unreachable!();
    };
    Ok(*octets)
}

/// Takes the next four octets as a number, most significant octet first.
#[tactic(auto, unfolding(crate::specs::Octets::quad_at))]
#[inline(always)]
pub(crate) fn quad(cursor: &mut Cursor<'_>) -> Result<u32, ChainRefusal>
    ensures reads { Reads result cursor.new (read quad_at cursor.old) }
    ensures shorter { length cursor.new ≤ length cursor.old }
{
    let high = word(cursor)?;
    let low = word(cursor)?;
    Ok((u32::from(high) << 16) | u32::from(low))
}

/// Takes the next self-describing value (RFC 3095 4.5.6).
#[tactic(auto, unfolding(crate::specs::Octets::value_at))]
#[inline(always)]
pub(crate) fn value(cursor: &mut Cursor<'_>) -> Result<u32, ChainRefusal>
    ensures reads { Reads result cursor.new (read value_at cursor.old) }
    ensures shorter { length cursor.new ≤ length cursor.old }
{
    Ok(reading::value(cursor, ChainRefusal::Truncated)?.value)
}

/// Whether the bit at `place` is set. Place 0 is the least significant bit; `place` is below 8.
#[inline(always)]
pub(crate) fn is_set(octet: u8, place: u8) -> bool
    requires { place < 8 }
    ensures { result ≡ bit place octet }
{
    reading::is_set(u32::from(octet), place)
}
