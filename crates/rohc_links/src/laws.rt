//! A law of the faults, as the contract of a function that does nothing.

ghost use Rattle.rohc_links.specs.Unfit.{TellsFirst};

/// An entry is refused exactly if it has a name that its version doesn't know, or a key that is missing or wrong. Its
/// fault is the first of these.
pub fn first_fault_is_told()
    ensures { TellsFirst }
{}
