//! Laws of the definitions, as contracts of functions that do nothing. The crates above rely on them for
//! what a packet says.

ghost use Rattle.rohc_forms.specs.Formats.{FitsOne, FitsOneExtension};
ghost use Rattle.rohc_forms.specs.Laws.{CountsOctets, CountsExtension, BeginsWith11, HaveEightBits, StandInPlace, ReadsForms, SaysOne, SaysGood, RefusesForms};
ghost use Rattle.rohc_forms.specs.Shown.{SaidInPlace, PartsInPlace, ShowsExtension1, ShowsExtension2, ShowsExtension3};

/// Under each RND exactly one format fits a packet whose first octet is below E0, and as many base
/// octets are read as the format has. Exactly one of the extensions 0, 1 and 2 fits an extension whose
/// first octet is below C0. Any other first octet begins an extension 3.
pub fn one_format()
    ensures packet { FitsOne }
    ensures counted { CountsOctets }
    ensures extension { FitsOneExtension }
    ensures counted_extension { CountsExtension }
    ensures extension_3 { BeginsWith11 }
{}

/// An extension 3 consists of whole octets, and each of its parts stands at its place in one of them.
pub fn extension_3_octets()
    ensures whole { HaveEightBits }
    ensures placed { StandInPlace }
{}

/// A packet is read exactly if its octets say what is read. They say at most one thing.
pub fn one_form()
    ensures reads { ReadsForms }
    ensures unique { SaysOne }
{}

/// If a packet consists of octets, what it says is in range: the numbers of bits, the values, and which
/// of them are there.
pub fn good_form()
    ensures { SaysGood }
{}

/// A packet is refused exactly by the first fault among its fields.
pub fn first_fault()
    ensures { RefusesForms }
{}

/// What the octets of a format say, and those of an extension 3, is what stands at the places of their fields.
pub fn in_place()
    ensures format { SaidInPlace }
    ensures extension_3 { PartsInPlace }
{}

/// The fields of worked packets with extensions 1, 2 and 3 stand where those who show packets say.
pub fn shown()
    ensures extension_1 { ShowsExtension1 }
    ensures extension_2 { ShowsExtension2 }
    ensures extension_3 { ShowsExtension3 }
{}
