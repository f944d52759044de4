//! A law of the counts, as the contract of a function that does nothing.

ghost use Rattle.rohc_totals.specs.Laws.{CountsEachOnce};

/// Each line is counted once: the counts of the kinds add up to the number of lines.
pub fn every_line_once()
    ensures { CountsEachOnce }
{}
