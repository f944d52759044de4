//! Laws of the definitions, as contracts of functions that do nothing.

ghost use Rattle.rohc_bits.specs.Spelling.{FrontsAgree};
ghost use Rattle.rohc_bits.specs.Fronts.{FrontIsSpelled, EachValueOfItsBits};

/// At most one prefix of a text encodes a value, and it encodes one value.
pub fn one_value()
    ensures { FrontsAgree }
{}

/// Reading the value at the start of some octets gives exactly the value that a prefix of them
/// encodes.
pub fn front_value()
    ensures { FrontIsSpelled }
{}

/// One, two, three and four octets encode exactly the values of 7, 14, 21 and 29 bits (RFC 3095
/// 4.5.6).
pub fn value_bits()
    ensures { EachValueOfItsBits }
{}
