//! Reading feedback elements.

ghost use Rattle.std.specs.Prelude.{◌≡◌, ◌+◌, ◌*◌, ◌%◌, ◌≤◌, ℕ, List, ◌++◌, Option, Some, IfSome};
ghost use Rattle.rohc_frame.specs.Header.{greatest_cid};
ghost use Rattle.rohc_feedback.specs.declared.meaning.Reading.{Reading};
ghost use Rattle.rohc_feedback.specs.declared.meaning.Word.{Word};
ghost use Rattle.rohc_feedback.specs.Element.{GoesWith, IsMeaning, data_octets, identifier_octets, octets_of_meaning};
ghost use Rattle.rohc_feedback.specs.Split.{BeginsFeedback, feedback_numbers, split_in};

use crate::element::{CRC_OPTION, PLAIN, SN_NOT_VALID, write};
use crate::meaning::{Reading, Word};
use rohc_bits::read_value;
use rohc_frame::CidKind;

/// The meaning of a whole feedback element, its type octet included (RFC 3095 5.7.6, RFC 5795 5.2.4.1).
/// Returns `None` for a text that `ack`, `nack`, `static_nack` and `plain_ack` never write on a link of
/// this CID kind.
///
/// The fields are read first. The size, the encoding of the CID and the check are right exactly if the
/// element with the meaning that was read is this text.
pub fn read(size: CidKind, text: &[u8]) -> Option<Reading>
    ensures meaning { IfSome result (λ r. IsMeaning size r × (text.now ≡ octets_of_meaning size r)) }
    ensures every { (m : Reading) → IsMeaning size m → text.now ≡ octets_of_meaning size m → result ≡ Some m }
{
    let (_, data) = text.split_first()?;
    let reading = fields(size, data)?;
    if write(size, reading).as_slice() == text {
        Some(reading)
    } else {
        None
    }
}

/// The fields of an element's data. The check isn't looked at.
fn fields(size: CidKind, octets: &[u8]) -> Option<Reading>
    ensures meaning { IfSome result (IsMeaning size) }
    ensures every { (m : Reading) → IsMeaning size m →
        octets.now ≡ data_octets (identifier_octets size m.cid) m.word m.sn → result ≡ Some m }
{
    let (cid, feedback) = split_identifier(size, octets)?;
    let (word, sn) = word_in(feedback)?;
    Some(Reading { cid, word, sn })
}

/// The CID before feedback, and the feedback.
fn split_identifier<'a>(size: CidKind, octets: &'a [u8]) -> Option<(u16, &'a [u8])>
    ensures within { IfSome result (λ split. split.0 ≤ greatest_cid size) }
    ensures every { (cid : ℕ) (feedback : List ℕ) → cid ≤ greatest_cid size → BeginsFeedback feedback →
        octets.entry.now ≡ identifier_octets size cid ++ feedback → split_in result ≡ Some (cid, feedback) }
{
    match size {
        CidKind::Small => match octets {
            [add_cid @ 0xe1..=0xef, feedback @ ..] => Some((u16::from(add_cid & 0x0f), feedback)),
            _ => Some((0, octets)),
        },
        CidKind::Large => {
            let (value, count) = read_value(octets)?;
            if value > u32::from(size.greatest_cid()) {
                return None;
            }
            Some((value as u16, &octets[count..]))
        }
    }
}

/// The kind of feedback, and the sequence number that it carries.
fn word_in(feedback: &[u8]) -> Option<(Word, Option<u16>)>
    ensures number { IfSome result (λ said. GoesWith said.0 said.1) }
    ensures every { (word : Word) (sn : Option ℕ) (crc : ℕ) → GoesWith word sn →
        feedback.now ≡ feedback_numbers word sn crc → result ≡ Some (word, sn) }
{
    match *feedback {
        [PLAIN] => Some((Word::Plain, None)),
        [high @ 0x20..=0x2f, low, CRC_OPTION, _] => Some((Word::Ack, Some(number(high, low)))),
        [high @ 0x60..=0x6f, low, CRC_OPTION, _] => Some((Word::Nack, Some(number(high, low)))),
        [0x60, 0x00, SN_NOT_VALID, CRC_OPTION, _] => Some((Word::Nack, None)),
        [0xa0, 0x00, SN_NOT_VALID, CRC_OPTION, _] => Some((Word::StaticNack, None)),
        _ => None,
    }
}

/// The 12-bit number whose high four bits are the low four of `high`.
fn number(high: u8, low: u8) -> u16
    ensures { result ≡ high % 16 * 256 + low }
{
    u16::from_be_bytes([high & 0x0f, low])
}
