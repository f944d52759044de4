//! Laws of the definitions, as contracts of functions that do nothing. The crates above rely on
//! them for a packet's parts.

ghost use Rattle.rohc_frame.specs.Laws.{GivesReadings, HasOneReading, GivesRefusals, HasGoodHeader, SpellsLarge, SaysEachIdentifier};

/// A packet's parts are a reading exactly if the packet has that reading. It has at most one.
pub fn one_reading()
    ensures exact { GivesReadings }
    ensures unique { HasOneReading }
{}

/// A packet's parts are a refusal exactly if the packet is refused for that reason.
pub fn one_refusal()
    ensures { GivesRefusals }
{}

/// The header of a packet made of octets has the link's CID kind, a CID within the link's greatest,
/// and octets only.
pub fn good_header()
    ensures { HasGoodHeader }
{}

/// The octets of a large CID are exactly an encoding of it as a self-describing value, of one or
/// two octets.
pub fn large_spelling()
    ensures { SpellsLarge }
{}

/// CID octets encode exactly 0 to 15 on a link of small CIDs, and 0 to 16,383 on one of large CIDs
/// (RFC 5795 5.1.3).
pub fn greatest_identifier()
    ensures { SaysEachIdentifier }
{}
