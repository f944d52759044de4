//! Splits a packet into its one reading, or finds its one refusal.

ghost use Rattle.std.specs.Prelude.{◌≡◌, [], ℕ, IsOk, IfOk, IfErr, IfSome, IsNone, Some, MatchResult, Ok, Err, ◌<◌, ◌≤◌};
ghost use Rattle.rohc_frame.specs.Header.{Header, IsOther};
ghost use Rattle.rohc_frame.specs.Items.{after_items, elements_in};
ghost use Rattle.rohc_frame.specs.Reading.{Reading, header_of, option_header, reading_of, IsReading};
ghost use Rattle.rohc_frame.specs.Parts.{kind_of, large_cid, small_parts, large_parts, header_parts, parts_of};
ghost use Rattle.rohc_frame.specs.Refused.{IsRefused};

use crate::elements::{Elements, Framed};
use crate::header::{CidKind, Forward, HeadKind};
use crate::items::after_items;
use crate::refusal::FrameRefusal;
use rohc_bits::read_value;

/// The kind of header that starts with this octet, or the refusal if none does. E1 to EF reach this
/// function only on a link of large CIDs; E0 never does, since it is padding.
fn head_kind(first: u8) -> Result<HeadKind, FrameRefusal>
    ensures { result ≡ kind_of first }
{
    match first {
        0x00..=0xdf => Ok(HeadKind::Other),
        0xe0..=0xef => Err(FrameRefusal::AddCidOnLarge),
        0xf0..=0xf7 => Err(FrameRefusal::FeedbackShort),
        0xf8 => Ok(HeadKind::IrDyn),
        0xf9..=0xfb => Err(FrameRefusal::ReservedType),
        0xfc => Ok(HeadKind::Ir { dynamic: false }),
        0xfd => Ok(HeadKind::Ir { dynamic: true }),
        0xfe..=0xff => Err(FrameRefusal::Segment),
    }
}

/// Whether the CID is within the link's greatest; the error is `CidRange`.
fn in_range(cid: u16, max_cid: u16) -> Result<(), FrameRefusal>
    ensures { MatchResult result (λ _. cid ≤ max_cid) (λ e. (e ≡ FrameRefusal.CidRange) × (max_cid < cid)) }
{
    if cid > max_cid {
        return Err(FrameRefusal::CidRange);
    }
    Ok(())
}

/// The header on a link of small CIDs: an Add-CID octet, or none for CID 0, then the header's own
/// octets.
fn small_header<'a>(max_cid: u16, octets: &'a [u8]) -> Result<Option<Forward<'a>>, FrameRefusal>
    ensures { MatchResult result (λ forward. small_parts max_cid octets.entry.now ≡ Ok (option_header forward))
        (λ e. small_parts max_cid octets.entry.now ≡ Err e) }
{
    let Some((first, behind)) = octets.split_first() else {
        return Ok(None);
    };
    if !(0xe1..=0xef).contains(first) {
        return Ok(Some(Forward {
            cid: 0,
            size: CidKind::Small,
            kind: head_kind(*first)?,
            first: *first,
            cid_octets: &[],
            rest: behind,
        }));
    }
    let cid = u16::from(first & 0x0f);
    in_range(cid, max_cid)?;
    let (first, rest) = behind.split_first().ok_or(FrameRefusal::NoHeader)?;
    let kind = match first {
        0xe0..=0xef => return Err(FrameRefusal::ReservedType),
        0xf0..=0xf7 => return Err(FrameRefusal::AfterAddCid),
        _ => head_kind(*first)?,
    };
    Ok(Some(Forward {
        cid,
        size: CidKind::Small,
        kind,
        first: *first,
        cid_octets: &octets[..1],
        rest,
    }))
}

/// A CID whose first octet is this or above starts with the bits 11, so it would take three or four
/// octets.
const FIRST_BITS_11: u8 = 0xc0;

/// The large CID at the start of the octets, and how many octets it takes: one or two. First bits
/// 11 are refused (RFC 5795 5.1.3).
fn large_identifier(octets: &[u8]) -> Result<(u16, usize), FrameRefusal>
    ensures { result ≡ large_cid octets.now }
{
    let Some((first, _)) = octets.split_first() else {
        return Err(FrameRefusal::NoHeader);
    };
    if *first >= FIRST_BITS_11 {
        return Err(FrameRefusal::LargeCid);
    }
    let Some((value, count)) = read_value(octets) else {
        return Err(FrameRefusal::NoHeader);
    };
    Ok((value as u16, count))
}

/// The header on a link of large CIDs: its first octet, the CID, and the rest.
fn large_header<'a>(max_cid: u16, octets: &'a [u8]) -> Result<Option<Forward<'a>>, FrameRefusal>
    ensures { MatchResult result (λ forward. large_parts max_cid octets.entry.now ≡ Ok (option_header forward))
        (λ e. large_parts max_cid octets.entry.now ≡ Err e) }
{
    let Some((first, behind)) = octets.split_first() else {
        return Ok(None);
    };
    let kind = head_kind(*first)?;
    let (cid, count) = large_identifier(behind)?;
    in_range(cid, max_cid)?;
    let (cid_octets, rest) = behind.split_at(count);
    Ok(Some(Forward {
        cid,
        size: CidKind::Large,
        kind,
        first: *first,
        cid_octets,
        rest,
    }))
}

/// The header after padding and feedback elements, if there is one.
#[tactic(auto, unfolding(crate::specs::Parts::header_parts))]
fn header_after_items<'a>(
    size: CidKind,
    max_cid: u16,
    octets: &'a [u8],
) -> Result<Option<Forward<'a>>, FrameRefusal>
    ensures { MatchResult result (λ forward. header_parts size max_cid (after_items octets.entry.now) ≡ Ok (option_header forward))
        (λ e. header_parts size max_cid (after_items octets.entry.now) ≡ Err e) }
{
    let after = after_items(octets);
    match size {
        CidKind::Small => small_header(max_cid, after),
        CidKind::Large => large_header(max_cid, after),
    }
}

/// The header of kind Other at the start of a packet on a link of small CIDs, if one stands there.
#[inline(always)]
#[tactic(auto, using(crate::proofs::SplitLemmas::items_end_at, crate::proofs::SplitLemmas::no_elements_at))]
fn small_plain<'a>(max_cid: u16, octets: &'a [u8]) -> Option<Forward<'a>>
    ensures front { IfSome result (λ forward. after_items octets.entry.now ≡ octets.entry.now) }
    ensures elements { IfSome result (λ forward. elements_in octets.entry.now ≡ []) }
    ensures header { IfSome result (λ forward. small_parts max_cid octets.entry.now ≡ Ok (Some (header_of forward))) }
    ensures kind { IfSome result (λ forward. forward.kind ≡ HeadKind.Other) }
    ensures only { IsNone result → (h : Header) → small_parts max_cid octets.entry.now ≡ Ok (Some h) → IsOther h.kind → ⊥ }
{
    let (front, after) = octets.split_first()?;
    if *front < 0xe0 {
        return Some(Forward {
            cid: 0,
            size: CidKind::Small,
            kind: HeadKind::Other,
            first: *front,
            cid_octets: &[],
            rest: after,
        });
    }
    let (first, rest) = after.split_first()?;
    let cid = u16::from(front & 0x0f);
    if !(0xe1..=0xef).contains(front) || *first >= 0xe0 || cid > max_cid {
        return None;
    }
    Some(Forward {
        cid,
        size: CidKind::Small,
        kind: HeadKind::Other,
        first: *first,
        cid_octets: &octets[..1],
        rest,
    })
}

/// The header of kind Other at the start of a packet on a link of large CIDs, if one stands there.
#[inline(always)]
#[tactic(auto, using(crate::proofs::SplitLemmas::items_end_at, crate::proofs::SplitLemmas::no_elements_at))]
fn large_plain<'a>(max_cid: u16, octets: &'a [u8]) -> Option<Forward<'a>>
    ensures front { IfSome result (λ forward. after_items octets.entry.now ≡ octets.entry.now) }
    ensures elements { IfSome result (λ forward. elements_in octets.entry.now ≡ []) }
    ensures header { IfSome result (λ forward. large_parts max_cid octets.entry.now ≡ Ok (Some (header_of forward))) }
    ensures kind { IfSome result (λ forward. forward.kind ≡ HeadKind.Other) }
    ensures only { IsNone result → (h : Header) → large_parts max_cid octets.entry.now ≡ Ok (Some h) → IsOther h.kind → ⊥ }
{
    let (first, cid, cid_octets, rest) = match octets {
        [first @ 0x00..=0xdf, cid @ 0x00..=0x7f, rest @ ..] => {
            (*first, u16::from(*cid), &octets[1..2], rest)
        }
        [first @ 0x00..=0xdf, high @ 0x80..=0xbf, low, rest @ ..] => {
            let cid = u16::from(high % 64) * 256 + u16::from(*low);
            (*first, cid, &octets[1..3], rest)
        }
        _ => return None,
    };
    if max_cid < cid {
        return None;
    }
    Some(Forward {
        cid,
        size: CidKind::Large,
        kind: HeadKind::Other,
        first,
        cid_octets,
        rest,
    })
}

/// The header of a packet that starts with one of kind Other, as nearly every packet does. For any other packet the
/// result is `None`.
///
/// `max_cid` is the link's greatest CID. `cut` finds the same header, at a higher cost, and no feedback element.
#[inline(always)]
#[tactic(auto, unfolding(crate::specs::Parts::header_parts))]
pub fn plain_header<'a>(size: CidKind, max_cid: u16, octets: &'a [u8]) -> Option<Forward<'a>>
    ensures header { IfSome result (λ forward. header_parts size max_cid octets.entry.now ≡ Ok (Some (header_of forward))) }
    ensures kind { IfSome result (λ forward. forward.kind ≡ HeadKind.Other) }
    ensures only { IsNone result → (h : Header) → header_parts size max_cid octets.entry.now ≡ Ok (Some h) → IsOther h.kind → ⊥ }
    ensures parts { IfSome result (λ forward. parts_of size max_cid octets.entry.now
        ≡ Ok (record { elements = []; header = Some (header_of forward) })) }
    ensures sized { IfSome result (λ forward. forward.size ≡ size) }
    ensures within { IfSome result (λ forward. forward.cid ≤ max_cid) }
{
    match size {
        CidKind::Small => small_plain(max_cid, octets),
        CidKind::Large => large_plain(max_cid, octets),
    }
}

/// Splits a packet of a link into feedback elements and a header (RFC 5795 5.2).
///
/// `max_cid` is the link's greatest CID. A packet has at most one reading. If it has none, the
/// error says why the octets after its padding and feedback elements are not a header.
#[tactic(auto, unfolding(crate::specs::Parts::parts_of))]
pub fn cut<'a>(size: CidKind, max_cid: u16, octets: &'a [u8]) -> Result<Framed<'a>, FrameRefusal>
    ensures reading { IfOk result (λ framed. IsReading size max_cid octets.entry.now (reading_of framed)) }
    ensures only { (r : Reading) → IsReading size max_cid octets.entry.now r → IsOk result }
    ensures refusal { IfErr result (λ e. IsRefused size max_cid octets.entry.now e) }
    ensures parts { IfOk result (λ framed. parts_of size max_cid octets.entry.now ≡ Ok (reading_of framed)) }
    ensures sized { IfOk result (λ framed. IfSome framed.forward (λ f. f.size ≡ size)) }
    ensures within { IfOk result (λ framed. IfSome framed.forward (λ f. f.cid ≤ max_cid)) }
    ensures no_parts { IfErr result (λ e. parts_of size max_cid octets.entry.now ≡ Err e) }
{
    if octets.is_empty() {
        return Err(FrameRefusal::Empty);
    }
    let forward = header_after_items(size, max_cid, octets)?;
    Ok(Framed {
        forward,
        elements: Elements::at_front_of(octets),
    })
}
