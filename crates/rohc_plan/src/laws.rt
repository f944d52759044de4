//! Laws of what is planned, as contracts of functions that do nothing.

ghost use Rattle.rohc_plan.specs.Split.{IsOneLeast};

/// Among some numbers there is one place of the first of the least.
pub fn one_least()
    ensures { IsOneLeast }
{}
