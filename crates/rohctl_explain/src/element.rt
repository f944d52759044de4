//! Feedback elements, as `rohc_feedback` reads them: those in a packet, and the one that an answer sends.

use rohc_explain::{Field, FieldName, PacketFields};
use rohc_feedback::{Element, Reading, Word, read};
use rohc_frame::CidKind;
use std::alloc::{AllocError, Global};

/// What an element means.
#[derive(Clone, Copy, PartialEq, Eq)]
pub enum Meaning {
    /// It is one that `rohc_feedback` writes.
    Read(Reading),
    /// It would be one if its last octet, the CRC, were this.
    WrongCrc { reading: Reading, crc: u8 },
    /// Any other.
    Unknown,
}

/// A feedback element.
#[derive(Drop)]
pub struct ToldElement {
    /// Its octets, from the type octet on.
    pub octets: Vec<u8>,
    pub meaning: Meaning,
}

/// The meaning that an element would have with another CRC, and that CRC. FEEDBACK-1 has none.
fn with_other_crc(size: CidKind, octets: &[u8]) -> Option<(Reading, u8)> {
    let mut text = Element::new();
    text.try_extend_from_slice(octets).ok()?;
    text.pop()?;
    for crc in 0..=u8::MAX {
        text.try_push(crc).ok()?;
        if let Some(reading) = read(size, text.as_slice())
            && reading.word != Word::Plain
        {
            return Some((reading, crc));
        }
        text.pop()?;
    }
    None
}

/// What these octets mean on a link of this CID kind.
pub(crate) fn meaning_of(size: CidKind, octets: &[u8]) -> Meaning {
    if let Some(reading) = read(size, octets) {
        return Meaning::Read(reading);
    }
    match with_other_crc(size, octets) {
        Some((reading, crc)) => Meaning::WrongCrc { reading, crc },
        None => Meaning::Unknown,
    }
}

/// The element of these octets.
fn element_of(alloc: Global, size: CidKind, octets: &[u8]) -> Result<ToldElement, AllocError> {
    let mut kept = Vec::new(alloc);
    kept.extend_from_slice(octets)?;
    Ok(ToldElement {
        octets: kept,
        meaning: meaning_of(size, octets),
    })
}

/// Whether a field is a part of an element that has begun.
fn goes_on(field: &Field) -> bool {
    matches!(
        field.name,
        FieldName::Code | FieldName::Size | FieldName::FeedbackData
    )
}

/// The index of the octet behind the element whose first field is at this place.
fn end_of(told: &PacketFields, place: usize) -> u32 {
    let behind = told
        .fields
        .iter()
        .skip(place.saturating_add(1))
        .find(|field| !goes_on(field));
    behind.map_or(told.end, |field| field.first) / 8
}

/// The elements of a packet, by its fields.
pub(crate) fn elements_in(
    alloc: Global,
    size: CidKind,
    octets: &[u8],
    told: &PacketFields,
) -> Result<Vec<ToldElement>, AllocError> {
    let mut all = Vec::new(alloc);
    for (place, field) in told.fields.iter().enumerate() {
        if field.name != FieldName::FeedbackType {
            continue;
        }
        let first = (field.first / 8) as usize;
        let end = end_of(told, place) as usize;
        if let Some(text) = octets.get(first..end) {
            all.push(element_of(alloc, size, text)?)?;
        }
    }
    Ok(all)
}
