//! Writing feedback elements: a type octet and the feedback data (RFC 5795 5.2.4.1).

ghost use Rattle.std.specs.Prelude.{◌≡◌, ◌+◌, ◌<◌, ◌≤◌, [], ◌∷◌, ◌++◌, length};
ghost use Rattle.std.specs.Option.{ForSome};
ghost use Rattle.arrayvec.specs.ArrayVec.{array_vec_len};
ghost use Rattle.rohc_checks.specs.Division.{check, poly8};
ghost use Rattle.rohc_frame.specs.Header.{greatest_cid};
ghost use Rattle.rohc_feedback.specs.Fields.{spelled};
ghost use Rattle.rohc_feedback.specs.Element.{IsMeaning, acknowledgement, ack_octets, crc_option, element_octets, feedback_2, identifier_octets, nack_octets, octets_of_meaning, plain_ack_octets, static_nack_octets};

use crate::meaning::{Reading, Word};
use arrayvec::ArrayVec;
use rohc_checks::crc8;
use rohc_frame::CidKind;

/// A feedback element: its type octet and at most seven octets of data.
pub type Element = ArrayVec<u8, 8>;

/// The data of an element: the CID octets and the feedback.
type Data = ArrayVec<u8, 7>;

/// The Mode field: bidirectional optimistic mode, in which this feedback is sent.
const MODE: u8 = 2;

/// The SN-NOT-VALID option: the sequence number has no meaning (RFC 3095 5.7.6.5).
pub(crate) const SN_NOT_VALID: u8 = 0x30;

/// The first octet of the CRC option; the second is the check (RFC 3095 5.7.6.3).
pub(crate) const CRC_OPTION: u8 = 0x11;

/// The register from which the 8-bit check starts (RFC 3095 5.9.1).
const ALL_ONES: u8 = 0xff;

/// FEEDBACK-1 of profile 0x0000 (RFC 3095 5.10.4).
pub(crate) const PLAIN: u8 = 0x00;

/// Writes an ACK: FEEDBACK-2 of Acktype 0, for a packet with this sequence number, of which it carries
/// the low 12 bits (RFC 3095 5.7.6.1).
///
/// The CID is at most 15 if CIDs are small, and at most 16,383 if they are large.
pub fn ack(size: CidKind, cid: u16, sn: u16) -> Element
    requires { cid ≤ greatest_cid size }
    ensures { result.items ≡ ack_octets size cid sn }
{
    write(
        size,
        Reading {
            cid,
            word: Word::Ack,
            sn: Some(sn % 4096),
        },
    )
}

/// Writes a NACK: FEEDBACK-2 of Acktype 1, which asks for a refresh of the dynamic part of the context
/// (RFC 3095 5.7.6.1). It carries the low 12 bits of the last sequence number, if there is one.
///
/// The CID is at most 15 if CIDs are small, and at most 16,383 if they are large.
pub fn nack(size: CidKind, cid: u16, sn: Option<u16>) -> Element
    requires { cid ≤ greatest_cid size }
    ensures { result.items ≡ nack_octets size cid sn }
{
    write(
        size,
        Reading {
            cid,
            word: Word::Nack,
            sn: sn.map(|sn| sn % 4096),
        },
    )
}

/// Writes a STATIC-NACK: FEEDBACK-2 of Acktype 2, which asks for a refresh of the whole context and
/// carries no sequence number (RFC 3095 5.7.6.1).
///
/// The CID is at most 15 if CIDs are small, and at most 16,383 if they are large.
pub fn static_nack(size: CidKind, cid: u16) -> Element
    requires { cid ≤ greatest_cid size }
    ensures { result.items ≡ static_nack_octets size cid }
{
    write(
        size,
        Reading {
            cid,
            word: Word::StaticNack,
            sn: None,
        },
    )
}

/// Writes FEEDBACK-1 with octet 00: a context of profile 0x0000 was made or renewed (RFC 3095 5.10.4).
///
/// The CID is at most 15 if CIDs are small, and at most 16,383 if they are large.
pub fn plain_ack(size: CidKind, cid: u16) -> Element
    requires { cid ≤ greatest_cid size }
    ensures { result.items ≡ plain_ack_octets size cid }
{
    write(
        size,
        Reading {
            cid,
            word: Word::Plain,
            sn: None,
        },
    )
}

/// The element with this meaning.
#[tactic(auto, unfolding(crate::specs::Element::octets_of_meaning))]
pub(crate) fn write(size: CidKind, reading: Reading) -> Element
    requires { IsMeaning size reading }
    ensures { result.items ≡ octets_of_meaning size reading }
{
    let mut data = Data::new();
    push_identifier(&mut data, size, reading.cid);
    match reading.word {
        Word::Ack => push_acknowledgement(&mut data, 0, reading.sn),
        Word::Nack => push_acknowledgement(&mut data, 1, reading.sn),
        Word::StaticNack => push_acknowledgement(&mut data, 2, reading.sn),
        Word::Plain => data.push(PLAIN),
    }
    element(&data)
}

/// Appends FEEDBACK-2 to the CID octets, with the CRC option over both at the end.
fn push_acknowledgement(octets: &mut Data, acktype: u8, sn: Option<u16>)
    requires room { array_vec_len octets.old ≤ 2 }
    requires acktype { acktype < 4 }
    requires number { ForSome sn (λ sn. sn < 4096) }
    ensures items { octets.new.items ≡ octets.old.items
        ++ acknowledgement acktype sn (check poly8 0xff (octets.old.items ++ acknowledgement acktype sn 0)) }
    ensures len { array_vec_len octets.new ≤ 7 }
{
    match sn {
        Some(sn) => push_fields(octets, acktype, sn),
        None => {
            push_fields(octets, acktype, 0);
            octets.push(SN_NOT_VALID);
        }
    }
    push_check(octets);
}

/// Appends the Acktype, the Mode and the sequence number.
fn push_fields(octets: &mut Data, acktype: u8, sn: u16)
    requires room { array_vec_len octets.old ≤ 2 }
    requires acktype { acktype < 4 }
    requires number { sn < 4096 }
    ensures items { octets.new.items ≡ octets.old.items ++ spelled (feedback_2 acktype sn []) }
    ensures len { array_vec_len octets.new ≡ array_vec_len octets.old + 2 }
{
    let [high, low] = sn.to_be_bytes();
    octets.push((acktype << 6) + (MODE << 4) + high);
    octets.push(low);
}

/// Appends the CRC option. Its check covers the octets before it, its first octet, and 00 for the check
/// itself.
fn push_check(octets: &mut Data)
    requires { array_vec_len octets.old ≤ 5 }
    ensures items { octets.new.items ≡ octets.old.items
        ++ spelled (crc_option (check poly8 0xff (octets.old.items ++ spelled (crc_option 0)))) }
    ensures len { array_vec_len octets.new ≡ array_vec_len octets.old + 2 }
{
    octets.push(CRC_OPTION);
    let check = crc8(crc8(ALL_ONES, octets), &[0x00]);
    octets.push(check);
}

/// The element with this data.
#[tactic(auto, using(crate::proofs::Spelled::type_octet_of))]
fn element(octets: &[u8]) -> Element
    requires { length octets.now ≤ 7 }
    ensures { result.items ≡ element_octets octets.now }
{
    let mut element = Element::new();
    element.push(0xf0 + octets.len() as u8);
    element.try_extend_from_slice(octets).unwrap();
    element
}

/// Appends the CID octets that precede feedback: an Add-CID octet unless the CID is 0, or the CID in one octet or two.
#[tactic(auto, using(crate::proofs::Spelled::add_cid_of))]
fn push_identifier(octets: &mut Data, size: CidKind, cid: u16)
    requires empty { octets.old.items ≡ [] }
    requires within { cid ≤ greatest_cid size }
    ensures items { octets.new.items ≡ identifier_octets size cid }
    ensures short { length octets.new.items ≤ 2 }
{
    match size {
        CidKind::Small if cid == 0 => {}
        CidKind::Small => octets.push(0xe0 + cid as u8),
        CidKind::Large if cid < 128 => octets.push(cid as u8),
        CidKind::Large => {
            let [high, low] = cid.to_be_bytes();
            octets.push(0x80 + high);
            octets.push(low);
        }
    }
}
