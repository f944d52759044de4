//! The law of the counts, as the contract of a function that does nothing.

ghost use Rattle.rohc_counts.specs.Laws.{CountsAnswers};

/// Each answer is counted once: under one outcome, or as padding and feedback alone.
pub fn counts_answers()
    ensures { CountsAnswers }
{}
