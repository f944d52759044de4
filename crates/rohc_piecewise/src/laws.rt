//! Laws of saves by pieces, as contracts of functions that do nothing.

ghost use Rattle.rohc_piecewise.specs.Laws.{IsSavedAtEnd, IsReadAtEnd};

/// What was taken of a save, from its begin to its last octet, is what is saved of the links that stood at the begin, over
/// the concentrators that were looked at.
pub fn saved_over()
    ensures { IsSavedAtEnd }
{}

/// What is saved of links that stood in a sound concentrator, at a moment of 64 bits, is read.
pub fn saved_is_read()
    ensures { IsReadAtEnd }
{}
