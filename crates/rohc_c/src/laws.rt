//! Laws of the library, as contracts of functions that do nothing.

ghost use Rattle.rohc_c.specs.AnyCalls.{AnyCalls};

/// Whatever calls of the library come between an open and a close, they are one life of the gateway's concentrator: a run of
/// the calls that they make of it. So each CID and each link is isolated, and the concentrator stays sound.
pub fn any_calls()
    ensures { AnyCalls }
{}
