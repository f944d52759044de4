//! The fields of a whole header: IPv4 without options, UDP and RTP without contributing sources (RFC 791 3.1, RFC 768,
//! RFC 3550 5.1).

ghost use Rattle.std.specs.Prelude.{◌≡◌, All, true, IfOk};
ghost use Rattle.rohc_explain.specs.Told.{StandsInPlace, are_in_turn};

use crate::field::{Field, FieldName};
use crate::telling::{Stop, Telling};
use std::alloc::{AllocError, Global};

/// The fields, with how many bits each has.
const HEADER: [(FieldName, u8); 27] = [
    (FieldName::Version, 4),
    (FieldName::HeaderLength, 4),
    (FieldName::Tos, 8),
    (FieldName::TotalLength, 16),
    (FieldName::IpId, 16),
    (FieldName::Reserved, 1),
    (FieldName::Df, 1),
    (FieldName::Mf, 1),
    (FieldName::FragmentOffset, 13),
    (FieldName::Ttl, 8),
    (FieldName::Protocol, 8),
    (FieldName::HeaderSum, 16),
    (FieldName::Source, 32),
    (FieldName::Destination, 32),
    (FieldName::SourcePort, 16),
    (FieldName::DestinationPort, 16),
    (FieldName::UdpLength, 16),
    (FieldName::UdpSum, 16),
    (FieldName::Version, 2),
    (FieldName::P, 1),
    (FieldName::X, 1),
    (FieldName::Cc, 4),
    (FieldName::M, 1),
    (FieldName::Pt, 7),
    (FieldName::Sn, 16),
    (FieldName::Ts, 32),
    (FieldName::Ssrc, 32),
];

/// The fields of a whole header.
#[derive(Drop)]
pub struct HeaderFields {
    /// The fields, one behind the other from the first bit on.
    pub fields: Vec<Field>,
    /// The bit at which the last one ends.
    pub end: u32,
}

/// Passes on the fields of a header of 40 octets, as far as its octets go.
///
/// The number of each field is the one of the bits in its place, and no bit up to the end of the last stands in no
/// field or in two. Which fields there are is only tested.
pub fn header_fields(alloc: Global, octets: &[u8]) -> Result<HeaderFields, AllocError>
    ensures in_place { IfOk result (λ told. All (StandsInPlace octets.now) told.fields.items) }
    ensures in_turn { IfOk result (λ told. are_in_turn 0 told.fields.items told.end ≡ true) }
{
    let mut telling = Telling::over(alloc, octets);
    if let Err(Stop::NoMemory) = telling.row(&HEADER) {
        return Err(AllocError);
    }
    Ok(HeaderFields {
        fields: telling.fields,
        end: telling.at,
    })
}
