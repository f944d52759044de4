//! Laws of the texts, as contracts of functions that do nothing.

ghost use Rattle.rohc_text.specs.Nearest.{IsOneNearest};

/// For a name and some known names there is one nearest, or none.
pub fn one_nearest()
    ensures { IsOneNearest }
{}
