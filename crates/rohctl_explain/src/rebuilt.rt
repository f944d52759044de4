//! A packet that was delivered: its octets, the fields of its header, and what the reference had in their place.

use crate::held::{fixed_in, reference_in};
use arrayvec::ArrayVec;
use rohc_context::{Delivered, View};
use rohc_explain::{Field, FieldName, header_fields};
use rohc_header::Header;
use std::alloc::{AllocError, Global};

/// How many octets the header of a packet of profile 0x0001 has.
const HEADER: usize = 40;

/// How many octets of a payload are kept.
const FRONT: usize = 16;

/// A field of a rebuilt header.
#[derive(Clone, Copy)]
pub(crate) struct RebuiltField {
    pub(crate) field: Field,
    /// The field of the reference's header, if the context keeps it and it has another number.
    pub(crate) was: Option<Field>,
}

/// A packet that was delivered.
#[derive(Drop)]
pub struct Rebuilt {
    alloc: Global,
    /// The header; of a packet of profile 0x0000 its first octet, or nothing.
    pub(crate) head: ArrayVec<u8, HEADER>,
    /// The first octets of the payload.
    pub(crate) front: ArrayVec<u8, FRONT>,
    /// How many octets of the payload follow them.
    pub(crate) more: usize,
    /// The header that the reference of the context stood for, with as long a payload.
    before: Option<Header>,
}

/// Whether a context keeps this field. The marker and the UDP checksum belong to one packet, and lengths and the header
/// checksum follow from the others.
fn is_kept(name: FieldName) -> bool {
    !matches!(
        name,
        FieldName::M
            | FieldName::UdpSum
            | FieldName::TotalLength
            | FieldName::UdpLength
            | FieldName::HeaderSum
    )
}

/// The header that the reference of a context stands for, with a payload of this length.
fn reference_header(view: &View, payload: usize) -> Option<Header> {
    let fixed = fixed_in(view)?;
    let moving = &reference_in(view)?.moving;
    if moving.payload_type < 128 {
        Header::build(fixed, moving, payload)
    } else {
        None
    }
}

/// The field that was in the place of this one, if the context keeps it and it has another number.
fn was_of(field: &Field, before: Option<&Field>) -> Option<Field> {
    let before = before?;
    if is_kept(field.name) && before.value != field.value {
        Some(*before)
    } else {
        None
    }
}

impl Rebuilt {
    /// What is told of a packet that was delivered. The view is that of its context before it, if that counted.
    pub(crate) fn of(alloc: Global, packet: &Delivered<'_>, view: Option<&View>) -> Rebuilt {
        let mut head = ArrayVec::new();
        let mut front = ArrayVec::new();
        for octet in packet.head.as_slice() {
            let _ = head.try_push(*octet);
        }
        for octet in packet.payload.iter().take(FRONT) {
            let _ = front.try_push(*octet);
        }
        let payload = packet.payload.len();
        Rebuilt {
            alloc,
            head,
            front,
            more: payload.saturating_sub(FRONT),
            before: match view {
                Some(view) => reference_header(view, payload),
                None => None,
            },
        }
    }

    /// Whether the packet has a header of profile 0x0001.
    pub(crate) fn has_header(&self) -> bool {
        self.head.len() >= HEADER
    }

    /// The fields of the reference's header, if there is one.
    fn fields_before(&self) -> Result<Vec<Field>, AllocError> {
        match &self.before {
            Some(header) => Ok(header_fields(self.alloc, &header.octets)?.fields),
            None => Ok(Vec::new(self.alloc)),
        }
    }

    /// The fields of the header, beside those of the reference's; none if it isn't one of profile 0x0001.
    pub(crate) fn fields(&self) -> Result<Vec<RebuiltField>, AllocError> {
        let mut all = Vec::new(self.alloc);
        if !self.has_header() {
            return Ok(all);
        }
        let before = self.fields_before()?;
        let told = header_fields(self.alloc, self.head.as_slice())?;
        for (place, field) in told.fields.iter().enumerate() {
            all.push(RebuiltField {
                field: *field,
                was: was_of(field, before.get(place)),
            })?;
        }
        Ok(all)
    }
}
