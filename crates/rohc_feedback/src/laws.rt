//! Laws of the definitions, as contracts of functions that do nothing.

ghost use Rattle.rohc_feedback.specs.Laws.{MeaningsDiffer, MeaningsAreWritten, IdentifierIsShortest};

/// Two meanings never have the same octets on one link.
pub fn one_meaning()
    ensures { MeaningsDiffer }
{}

/// The texts that have a meaning are exactly those that the four functions write.
pub fn all_written()
    ensures { MeaningsAreWritten }
{}

/// The octets of a large CID spell it, and no fewer octets do.
pub fn shortest_identifier()
    ensures { IdentifierIsShortest }
{}
