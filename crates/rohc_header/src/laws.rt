//! Laws of the definitions, as contracts of functions that do nothing.

ghost use Rattle.rohc_header.specs.Laws.{HasOneHeader, FitsPacket, SplitsWhole, ChecksInParts, HasStaticFields};

/// Fields and a payload length have at most one original header.
pub fn one_header()
    ensures { HasOneHeader }
{}

/// A header and its payload have at most 65,535 octets.
pub fn fits_packet()
    ensures { FitsPacket }
{}

/// The checks cover each octet of a header once, as static or as dynamic.
pub fn whole_split()
    ensures { SplitsWhole }
{}

/// A header's check may be computed in two parts: the check of the dynamic octets, from the register
/// after the static octets. This holds for both polynomials.
pub fn saved_registers()
    ensures { ChecksInParts }
{}

/// The static octets are those of the static fields, and of TOS, DF, TTL, P and X. So headers that
/// agree in these leave the same registers.
pub fn static_fields()
    ensures { HasStaticFields }
{}
