//! Laws of a server, as the contracts of functions that do nothing.

ghost use Rattle.rohc_serve.specs.Laws.{ServedIsRun, NumberedNamesLink};

/// Whatever a server receives, its turns are one run of calls of its concentrator: each datagram that names a link is the
/// arrival of its packet. So each CID gets the answers that one context alone would give to its own
/// calls.
pub fn served_is_run()
    ensures { ServedIsRun }
{}

/// What is sent with a number reads as a datagram of the same link.
pub fn numbered_names_link()
    ensures { NumberedNamesLink }
{}
